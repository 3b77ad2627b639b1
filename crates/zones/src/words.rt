// Regions among lent words, and the region that lent bytes are.
ghost use Rattle.std.specs.Prelude.{◌+◌, ◌-◌, ◌*◌, ◌≤◌, ◌≡◌, eqb, length, drop, replicate, position, Bool};
ghost use Rattle.std.proofs.lemmas.List.Edits.{sets};
ghost use Rattle.std.proofs.Math.Seq.{paste};
ghost use Rattle.lists.specs.Words.{closed, cleared};
ghost use Rattle.rules.specs.Applying.{same_list};
ghost use Rattle.rules.specs.Regions.{used};
ghost use Rattle.rules.specs.Run.{region_in};
ghost use Rattle.rules.specs.declared.Region.{Region};
ghost use Rattle.zones.specs.Layout.{region_words};
ghost use Rattle.zones.specs.Packing.{zeros};
ghost use Rattle.zones.specs.Moves.{opened};
ghost use Rattle.zones.specs.Records.{region_at, records_at, words_of_region, placed, holds_at};

use crate::layout::REGION_WORDS;
use fields::u64_at;
use region::region_eq;
use rules::{Guest, Phys, Region, Rights};

// The place of the first of n records from word b on that is what is looked for.
pub fn find_record<F: Fn(Region) -> bool>(s: &[u64], b: usize, n: usize, is: F) -> Option<usize>
    requires room { b + n * region_words ≤ length s.now }
    requires callable { F.IsAlwaysCallable is }
    ensures { (p : Region → Bool) → ((e : Region) (t : Bool) → F.post is e t → t ≡ p e) → result ≡ position p (records_at s.now b n) }
{
    for i in 0..n {
        if is(read_region(s, b + i * REGION_WORDS)) {
            return Some(i);
        }
    }
    None
}

// Whether not all numbers of the region are zero.
#[tactic(auto, unfolding(rules::specs::Regions::region_eq, rules::specs::Fields::numbers_of, lists::specs::Tests::all_of, lists::specs::Tests::each_two))]
pub fn is_used(r: Region) -> bool
    ensures { result ≡ used r }
{
    let none = Region {
        v: Guest(0),
        p: Phys(0),
        size: 0,
        rights: Rights(0),
    };
    r != none
}

// The region whose record starts at word k.
pub fn read_region(s: &[u64], k: usize) -> Region
    requires { k + region_words ≤ length s.now }
    ensures { result ≡ region_at s.now k }
{
    Region {
        v: Guest(s[k]),
        p: Phys(s[k + 1]),
        size: s[k + 2],
        rights: Rights(s[k + 3]),
    }
}

// The record at word k is r's.
pub fn write_region(s: &mut [u64], k: usize, r: Region)
    requires { k + region_words ≤ length s.old }
    ensures { s.new ≡ sets s.old k (words_of_region r) }
{
    s[k] = r.v.0;
    s[k + 1] = r.p.0;
    s[k + 2] = r.size;
    s[k + 3] = r.rights.0;
}

// The same at any word; where the record has no room, nothing is written.
pub fn put_region(s: &mut [u64], k: usize, r: Region)
    ensures { s.new ≡ placed s.old k r }
{
    if s.len() < REGION_WORDS {
        return;
    }
    if s.len() - REGION_WORDS < k {
        return;
    }
    write_region(s, k, r);
}

// Whether the record at word k is r's; where it has no room, it is not.
pub fn holds_region(s: &[u64], k: usize, r: Region) -> bool
    ensures { result ≡ holds_at s.now k r }
{
    if s.len() < REGION_WORDS {
        return false;
    }
    k <= s.len() - REGION_WORDS && region_eq(read_region(s, k), r)
}

// The region that the first bytes are. It is lent a region's own bytes, whose number the compiler then knows: no field is asked whether it
// is there.
pub fn region_in(s: &[u8]) -> Region
    ensures { result ≡ region_in s.now 0 }
{
    let v = u64_at(s, 0);
    let p = u64_at(s, 8);
    let size = u64_at(s, 16);
    let rights = u64_at(s, 24);
    Region {
        v: Guest(v),
        p: Phys(p),
        size,
        rights: Rights(rights),
    }
}

// The number of lent words. An array behind `&mut` does not tell the proof its length, and one that is lent as a slice does; so who goes
// on to write asks once. The compiler knows the answer, so nothing is counted.
pub fn count_words(s: &[u64]) -> usize
    ensures { result ≡ length s.now }
{
    s.len()
}

// The words that are looked at together: enough that the compiler reads several at once and goes on without a branch for each.
const BLOCK: usize = 16;

// Whether the words from a up to e are zero: block by block, then those that are left.
pub fn zeros_in(s: &[u64], a: usize, e: usize) -> bool
    requires { (a ≤ e) × (e ≤ length s.now) }
    ensures { result ≡ zeros s.now a (e - a) }
{
    let mut k = a;
    while BLOCK <= e - k {
        if bits_in(s, k, BLOCK) != 0 {
            return false;
        }
        k += BLOCK;
    }
    bits_in(s, k, e - k) == 0
}

// The bits that are set in any of the n words from k on.
fn bits_in(s: &[u64], k: usize, n: usize) -> u64
    requires { k + n ≤ length s.now }
    ensures { eqb result 0 ≡ zeros s.now k n }
{
    let mut x: u64 = 0;
    for i in 0..n {
        x |= s[k + i];
    }
    x
}

// Whether two stretches of words are the same, word by word.
pub fn same_words(a: &[u64], b: &[u64]) -> bool
    ensures { result ≡ same_list eqb a.now b.now }
{
    a == b
}

// The words past at + width, up to end, come down by width.
fn move_down(s: &mut [u64], at: usize, width: usize, end: usize)
    requires { (at + width ≤ end) × (end ≤ length s.old) }
    ensures { s.new ≡ paste s.old at (drop (at + width) s.old) (end - width - at) }
{
    for k in at..end - width {
        s[k] = s[k + width];
    }
}

// The words from at up to end are zero.
pub fn clear(s: &mut [u64], at: usize, end: usize)
    requires { (at ≤ end) × (end ≤ length s.old) }
    ensures { s.new ≡ cleared s.old at end }
{
    s[at..end].fill(0);
}

// Every word is zero.
pub fn clear_words(s: &mut [u64])
    ensures { s.new ≡ replicate (length s.old) 0 }
{
    s.fill(0);
}

// The width words at `at` go, those after them up to end come down, and zeros fill what is left.
pub fn close_gap(s: &mut [u64], at: usize, width: usize, end: usize)
    requires { (at + width ≤ end) × (end ≤ length s.old) }
    ensures { s.new ≡ closed s.old at width end }
{
    move_down(s, at, width, end);
    clear(s, end - width, end);
}

// The words from at up to end go up by width, those of the last width of them away: the reverse of `close_gap`. The width words at `at`
// are then what they were.
pub fn open_gap(s: &mut [u64], at: usize, width: usize, end: usize)
    requires { (at + width ≤ end) × (end ≤ length s.old) }
    ensures { s.new ≡ opened s.old at width end }
{
    for k in (at + width..end).rev() {
        s[k] = s[k - width];
    }
}
