// What stands among the words of a table. Past their end stands nothing, which is read as zeros: a zone that is not there begins where the
// words end, and its sets have no regions.
ghost use Rattle.std.specs.Prelude.{◌+◌, ◌^◌, ◌≤◌, ◌<◌, ◌≡◌, length, get_or};
ghost use Rattle.rules.specs.Limits.{most_zones, most_in_set};
ghost use Rattle.rules.specs.Requests.{held_in};
ghost use Rattle.zones.specs.Records.{region_at};
ghost use Rattle.zones.specs.View.{zone_in, zones_in};
ghost use Rattle.wanted.specs.Wanted.{start_of, set_from};

use region::region_eq;
use rules::{Guest, Phys, Region, Rights};
use zones::{REGION_WORDS, TABLE_WORDS, zone_start};

// A place among the words of a table.
#[derive(Clone, Copy)]
pub struct Place<'a> {
    pub words: &'a [u64],
    pub at: usize,
}

impl<'a> Place<'a> {
    pub fn on(self, n: usize) -> Place<'a>
        requires { self.at + n < 2 ^ 64 }
        ensures words { result.words.now ≡ self.entry.words.now }
        ensures at { result.at ≡ self.entry.at + n }
    {
        Place {
            words: self.words,
            at: self.at + n,
        }
    }
}

// The word at k.
pub fn word_at(w: &[u64], k: usize) -> u64
    ensures { result ≡ get_or w.now k 0 }
{
    *w.get(k).unwrap_or(&0)
}

// The region whose record starts at word k.
pub fn region_from(w: &[u64], k: usize) -> Region
    requires { k < 2 ^ 32 }
    ensures { result ≡ region_at w.now k }
{
    Region {
        v: Guest(word_at(w, k)),
        p: Phys(word_at(w, k + 1)),
        size: word_at(w, k + 2),
        rights: Rights(word_at(w, k + 3)),
    }
}

// How many zones there are.
pub fn zone_count(t: &[u64; TABLE_WORDS]) -> usize
    ensures { result ≡ length (zones_in t.now) }
{
    t[0] as usize
}

// The id of zone z.
pub fn id_at(t: &[u64; TABLE_WORDS], z: usize) -> u64
    requires { z < most_zones }
    ensures { result ≡ (zone_in t.now z).id }
{
    word_at(t, zone_start(z))
}

// The word where the zone with that id begins; where the words end, if no zone has it: a zone that is not there is read there, as one with
// empty sets.
pub fn find_zone(t: &[u64; TABLE_WORDS], id: u64) -> usize
    requires { length (zones_in t.now) ≤ most_zones }
    ensures { result ≡ start_of t.now id }
{
    for z in 0..zone_count(t) {
        if id_at(t, z) == id {
            return zone_start(z);
        }
    }
    TABLE_WORDS
}

// Whether the set whose count stands there has the region.
pub fn is_held(set: Place, r: Region) -> bool
    requires { (set.at < 2 ^ 31) × (get_or set.words.now set.at 0 ≤ most_in_set) }
    ensures { result ≡ held_in r (set_from set.entry.words.now set.entry.at) }
{
    let n = word_at(set.words, set.at) as usize;
    for i in 0..n {
        if region_eq(r, region_from(set.words, set.at + 1 + i * REGION_WORDS)) {
            return true;
        }
    }
    false
}
