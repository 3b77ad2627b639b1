// A copy of words.
ghost use Rattle.std.specs.Prelude.{◌≡◌, length};

// Word by word, and not `*to = *from` or `copy_from_slice`, for which the library would import memmove or memcpy.
pub fn copy_words(from: &[u64], to: &mut [u64])
    requires { length to.old ≡ length from.now }
    ensures { to.new ≡ from.now }
{
    for (i, word) in from.iter().enumerate() {
        to[i] = *word;
    }
}
