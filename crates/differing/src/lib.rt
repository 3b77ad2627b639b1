// Where two stretches of bytes differ: the service desk's question after 26.
#![tactic(auto)]

ghost use Rattle.std.specs.Prelude.{◌+◌, ◌≤◌, ◌≡◌, length, drop};
ghost use Rattle.lists.specs.Alike.{alike};
ghost use Rattle.rules.specs.Differing.{lacking_part};

// The part of the first stretch from the first place where the second lacks the same byte.
#[tactic(auto, unfolding(rules::specs::Differing::lacking_part))]
pub fn lacking_part<'a>(first: &'a [u8], second: &[u8]) -> &'a [u8]
    ensures { result.now ≡ lacking_part first.now second.now }
{
    let at = alike(first, second);
    &first[at..]
}

// How many bytes both begin with.
fn alike(first: &[u8], second: &[u8]) -> usize
    ensures { (result ≡ alike first.now second.now) × (result ≤ length first.now) }
{
    let both = first.len().min(second.len());
    for i in 0..both {
        if first[i] != second[i] {
            return i;
        }
    }
    both
}
