// The zone table as one array of words: readers, searches, the four writers, and the check of the words.
ghost use Rattle.std.specs.Prelude.{◌+◌, ◌≤◌, ◌<◌, Bool, List, ◌≡◌, length, position};
ghost use Rattle.lists.specs.First.{all};
ghost use Rattle.lists.specs.Places.{places};
ghost use Rattle.rules.specs.Limits.{most_zones, most_in_set};
ghost use Rattle.rules.specs.Tables.{has_id, Zone};
ghost use Rattle.rules.specs.Changes.{pushed, cut, added, dropped};
ghost use Rattle.rules.specs.declared.Region.{Region};
ghost use Rattle.zones.specs.Layout.{set_words, table_words, zone_base, zone_start, set_base};
ghost use Rattle.zones.specs.Packing.{set_packed, zone_packed, packed};
ghost use Rattle.zones.specs.Trial.{WithoutRegion, WithoutZone};
ghost use Rattle.zones.specs.View.{record_in, set_in, zone_in, zones_in};
ghost use Rattle.zones.specs.Words.{words_of, emptied, Packed};

use crate::layout::{REGION_WORDS, SET_WORDS, TABLE_WORDS, ZONE_WORDS};
use crate::words::{clear, close_gap, find_record, open_gap, read_region, write_region, zeros_in};
use rules::limits::{MOST_IN_SET, MOST_ZONES};
use rules::{Region, Side};

#[repr(C)]
#[derive(Clone, Copy)]
pub struct Table {
    pub words: [u64; TABLE_WORDS],
}

// ---- where things stand

// The word where zone z begins, which holds its id; for a number of zones, where the unused ones begin.
fn zone_base(z: usize) -> usize
    requires { z ≤ most_zones }
    ensures { result ≡ zone_base z }
{
    1 + z * ZONE_WORDS
}

// The same for any number; past the last zone, where the words end.
pub fn zone_start(z: usize) -> usize
    ensures { result ≡ zone_start z }
{
    if z < MOST_ZONES {
        return zone_base(z);
    }
    TABLE_WORDS
}

// The word that holds the count of a set.
pub fn set_base(z: usize, side: Side) -> usize
    requires { z < most_zones }
    ensures { (result ≡ set_base z side) × (result + set_words ≤ table_words) }
{
    match side {
        Side::Cpu => zone_base(z) + 1,
        Side::Iommu => zone_base(z) + 1 + SET_WORDS,
    }
}

// ---- readers

pub fn zone_count(t: &[u64; TABLE_WORDS]) -> usize
    ensures { result ≡ length (zones_in t.now) }
{
    t[0] as usize
}

pub fn id_at(t: &[u64; TABLE_WORDS], z: usize) -> u64
    requires { z < most_zones }
    ensures { result ≡ (zone_in t.now z).id }
{
    t[zone_base(z)]
}

pub fn set_len(t: &[u64; TABLE_WORDS], z: usize, side: Side) -> usize
    requires { z < most_zones }
    ensures { result ≡ length (set_in t.now z side) }
{
    t[set_base(z, side)] as usize
}

pub fn region_at(t: &[u64; TABLE_WORDS], z: usize, side: Side, i: usize) -> Region
    requires { (z < most_zones) × (i < most_in_set) }
    ensures { result ≡ record_in t.now z side i }
{
    read_region(t, set_base(z, side) + 1 + i * REGION_WORDS)
}

// ---- searches

// The position of the first zone with that id.
pub fn find_zone(t: &[u64; TABLE_WORDS], id: u64) -> Option<usize>
    requires { length (zones_in t.now) ≤ most_zones }
    ensures { result ≡ position (has_id id) (zones_in t.now) }
{
    (0..zone_count(t)).position(|z| id_at(t, z) == id)
}

// The place of the first region of a set that is what is looked for.
pub fn set_find<F: Fn(Region) -> bool>(
    t: &[u64; TABLE_WORDS],
    z: usize,
    side: Side,
    is: F,
) -> Option<usize>
    requires fits { (z < most_zones) × (length (set_in t.now z side) ≤ most_in_set) }
    requires callable { F.IsAlwaysCallable is }
    ensures { (p : Region → Bool) → ((e : Region) (t : Bool) → F.post is e t → t ≡ p e) → result ≡ position p (set_in t.now z side) }
{
    let b = set_base(z, side);
    let n = set_len(t, z, side);
    find_record(t, b + 1, n, is)
}

// ---- writers

pub fn push_region(t: &mut [u64; TABLE_WORDS], z: usize, side: Side, r: Region)
    requires { (Packed t.old × (z < length (zones_in t.old))) × (length (set_in t.old z side) < most_in_set) }
    ensures { t.new ≡ words_of (pushed z side r (zones_in t.old)) }
{
    let b = set_base(z, side);
    let n = set_len(t, z, side);
    write_region(t, b + 1 + n * REGION_WORDS, r);
    t[b] = n as u64 + 1;
}

pub fn cut_region(t: &mut [u64; TABLE_WORDS], z: usize, side: Side, i: usize)
    requires { (Packed t.old × (z < length (zones_in t.old))) × (i < length (set_in t.old z side)) }
    ensures { t.new ≡ words_of (cut z side i (zones_in t.old)) }
{
    let b = set_base(z, side);
    let n = set_len(t, z, side);
    close_gap(
        t,
        b + 1 + i * REGION_WORDS,
        REGION_WORDS,
        b + 1 + n * REGION_WORDS,
    );
    t[b] = n as u64 - 1;
}

pub fn add_zone(t: &mut [u64; TABLE_WORDS], id: u64)
    requires { Packed t.old × (length (zones_in t.old) < most_zones) }
    ensures { t.new ≡ words_of (added id (zones_in t.old)) }
{
    let n = zone_count(t);
    t[zone_base(n)] = id;
    t[0] = n as u64 + 1;
}

pub fn remove_zone(t: &mut [u64; TABLE_WORDS], z: usize)
    requires { Packed t.old × (z < length (zones_in t.old)) }
    ensures { t.new ≡ words_of (dropped z (zones_in t.old)) }
{
    let n = zone_count(t);
    close_gap(t, zone_base(z), ZONE_WORDS, zone_base(n));
    t[0] = n as u64 - 1;
}

// ---- writers that undo

// A region that was cut out of its set, back at its place i.
pub fn put_back_region(t: &mut [u64; TABLE_WORDS], z: usize, side: Side, i: usize, r: Region)
    requires { (Packed t.old × (z < length (zones_in t.old))) × ((i ≤ length (set_in t.old z side)) × (length (set_in t.old z side) < most_in_set)) }
    ensures { (b : List Zone) → WithoutRegion b z side i r t.old → t.new ≡ words_of b }
{
    let b = set_base(z, side);
    let n = set_len(t, z, side);
    let at = b + 1 + i * REGION_WORDS;
    open_gap(t, at, REGION_WORDS, b + 1 + (n + 1) * REGION_WORDS);
    write_region(t, at, r);
    t[b] = n as u64 + 1;
}

// An empty zone that was removed, back at its position z.
pub fn put_back_zone(t: &mut [u64; TABLE_WORDS], z: usize, id: u64)
    requires { (Packed t.old × (z ≤ length (zones_in t.old))) × (length (zones_in t.old) < most_zones) }
    ensures { (b : List Zone) → WithoutZone b z id t.old → t.new ≡ words_of b }
{
    let n = zone_count(t);
    let at = zone_base(z);
    open_gap(t, at, ZONE_WORDS, zone_base(n + 1));
    clear(t, at, at + ZONE_WORDS);
    t[at] = id;
    t[0] = n as u64 + 1;
}

// The words of the zones that are there, with their count, are zero: packed words become those of a table without zones.
pub fn clear_zones(t: &mut [u64; TABLE_WORDS])
    ensures { t.new ≡ emptied t.old }
{
    let n = zone_count(t);
    clear(t, 0, zone_start(n));
}

// ---- the check of the words

fn set_packed(t: &[u64; TABLE_WORDS], b: usize) -> bool
    requires { b + set_words ≤ table_words }
    ensures { result ≡ set_packed t.now b }
{
    let n = t[b] as usize;
    n <= MOST_IN_SET && zeros_in(t, b + 1 + n * REGION_WORDS, b + SET_WORDS)
}

fn zone_packed(t: &[u64; TABLE_WORDS], z: usize) -> bool
    requires { z < most_zones }
    ensures { result ≡ zone_packed t.now z }
{
    set_packed(t, set_base(z, Side::Cpu)) && set_packed(t, set_base(z, Side::Iommu))
}

fn zones_packed(t: &[u64; TABLE_WORDS], n: usize) -> bool
    requires { n ≤ most_zones }
    ensures { result ≡ all (zone_packed t.now) (places 0 n) }
{
    (0..n).all(|z| zone_packed(t, z))
}

pub fn is_packed(t: &[u64; TABLE_WORDS]) -> bool
    ensures { result ≡ packed t.now }
{
    let n = t[0] as usize;
    if MOST_ZONES < n {
        return false;
    }
    zones_packed(t, n) && zeros_in(t, zone_base(n), TABLE_WORDS)
}
