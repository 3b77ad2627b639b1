// Numbers among lent bytes, the lowest byte first. Bytes past the end count as 0, so each answers at any place; whether a field is wholly there is for the caller to ask.
#![tactic(auto)]

ghost use Rattle.std.specs.Prelude.{ℕ, ◌+◌, ◌<◌, ◌≡◌, get_or};
ghost use Rattle.lists.specs.Bytes.{little};
ghost use Rattle.lists.specs.Words.{part};

use std::array::from_fn;

// The number of 4 bytes.
pub fn u32_at(s: &[u8], at: usize) -> u32
    ensures { result ≡ little (part at 4 s.now) }
{
    u32::from_le_bytes(bytes_at(s, at))
}

// The number of 8 bytes.
pub fn u64_at(s: &[u8], at: usize) -> u64
    ensures { result ≡ little (part at 8 s.now) }
{
    u64::from_le_bytes(bytes_at(s, at))
}

// The N bytes from `at` on: read at once where all of them are there.
fn bytes_at<const N: usize>(s: &[u8], at: usize) -> [u8; N]
    ensures { (i : ℕ) → i < N → get_or result i 0 ≡ get_or s.now (at + i) 0 }
{
    if s.len() < at {
        return [0; N];
    }
    let rest = &s[at..];
    match rest.first_chunk() {
        Some(whole) => *whole,
        None => filled_up(rest),
    }
}

// N bytes of which some are not there. It stays out of its callers, who seldom need it, so that they keep one read for each number.
#[cold]
#[inline(never)]
fn filled_up<const N: usize>(rest: &[u8]) -> [u8; N]
    ensures { (i : ℕ) → i < N → get_or result i 0 ≡ get_or rest.now i 0 }
{
    from_fn(|i| rest.get(i).copied().unwrap_or(0))
}
