// Numbers and bytes put into lent bytes, the lowest byte first: the other way of `fields`, for all who write. Bytes past the end go nowhere,
// so each answers at any place; whether all of them fit is for the caller to ask, or for `fill`.
#![tactic(auto)]

mod filling;
mod pen;

ghost use Rattle.std.specs.Prelude.{[], ◌∷◌, ◌≡◌};
ghost use Rattle.lists.specs.Bytes.{bytes_of};
ghost use Rattle.puts.specs.Puts.{put_at};

pub use filling::{fill, fill_measured};
pub use pen::Pen;

// The number's 4 bytes.
pub fn put_u32(s: &mut [u8], at: usize, x: u32)
    ensures { s.new ≡ put_at at (bytes_of 4 x) s.old }
{
    put(s, at, u32::to_le_bytes(x));
}

// The number's 8 bytes.
pub fn put_u64(s: &mut [u8], at: usize, x: u64)
    ensures { s.new ≡ put_at at (bytes_of 8 x) s.old }
{
    put(s, at, u64::to_le_bytes(x));
}

// These bytes: stored at once where all of them fit, as they mostly do. Who only measures puts them past the end, where nothing is to do.
fn put<const N: usize>(s: &mut [u8], at: usize, these: [u8; N])
    ensures { s.new ≡ put_at at these.entry s.old }
{
    if s.len() <= at {
        return;
    }
    if N <= s.len() - at {
        s[at..at + N].copy_from_slice(&these);
    } else {
        put_each(s, at, &these);
    }
}

// One byte. It is short enough to be put into its callers, who put many one after another.
pub fn put_byte(s: &mut [u8], at: usize, byte: u8)
    ensures { s.new ≡ put_at at (byte ∷ []) s.old }
{
    if at < s.len() {
        s[at] = byte;
    }
}

// All bytes of another stretch.
pub fn put_bytes(s: &mut [u8], at: usize, from: &[u8])
    ensures { s.new ≡ put_at at from.now s.old }
{
    if at < s.len() {
        put_each(s, at, from);
    }
}

// The same, byte by byte. It stays a call of its own, since its loop is too long for callers who only measure.
#[inline(never)]
fn put_each(s: &mut [u8], at: usize, from: &[u8])
    ensures { s.new ≡ put_at at from.now s.old }
{
    for (to, byte) in (at..s.len()).zip(from) {
        s[to] = *byte;
    }
}
