// The base that a plan gives, held against lent words: each field is compared where it stands, and nothing is stored.
ghost use Rattle.std.specs.Prelude.{◌+◌, ◌*◌, ◌≤◌, ◌<◌, ◌≡◌, length, drop};
ghost use Rattle.lists.specs.First.{all};
ghost use Rattle.lists.specs.Places.{places, tab};
ghost use Rattle.formats.specs.Formats.{listed, read_many};
ghost use Rattle.rules.specs.Applying.{same_list, same_zone};
ghost use Rattle.rules.specs.Fields.{region_size};
ghost use Rattle.rules.specs.Limits.{most_zones, limits};
ghost use Rattle.rules.specs.Plan.{region_field, zone_format};
ghost use Rattle.rules.specs.Regions.{region_eq};
ghost use Rattle.rules.specs.Run.{region_in};
ghost use Rattle.zones.specs.Layout.{region_words, set_words, table_words, zone_base};
ghost use Rattle.zones.specs.Records.{region_at};
ghost use Rattle.zones.specs.View.{zone_in};
ghost use Rattle.plan.specs.Held.{two_sets, held_answer, same_record, holds_regions, holds_sets, config_held, table_held};

use crate::field::{count_at, number_at};
use crate::finding::pass_list;
use fields::u32_at;
use rules::limits::{MOST_IN_SET, MOST_REGIONS, MOST_ZONES};
use rules::widths::{REGION_BYTES, SHORT_BYTES};
use zones::{
    CONFIG_COUNT, CONFIG_GIC, CONFIG_RECORDS, CONFIG_WORDS, REGION_WORDS, SET_WORDS, holds_region,
    region_in, zone_start,
};

// Whether the n records from word a on are the regions from byte `at` on.
fn same_records(s: &[u8], at: usize, w: &[u64], a: usize, n: usize) -> bool
    requires { (at + n * region_size ≤ length s.now) × (a + n * region_words ≤ length w.now) }
    ensures { result ≡ all (same_record s.now at w.now a) (places 0 n) }
{
    (0..n).all(|i| same_record(s, at + i * REGION_BYTES, w, a + i * REGION_WORDS))
}

// Whether the record at word k is the region at byte `at`.
fn same_record(s: &[u8], at: usize, w: &[u64], k: usize) -> bool
    requires { (at + region_size ≤ length s.now) × (k + region_words ≤ length w.now) }
    ensures { result ≡ region_eq (region_at w.now k) (region_in s.now at) }
{
    let end = at + REGION_BYTES;
    holds_region(w, k, region_in(&s[at..end]))
}

// A count from lo to hi at byte `start` and as many regions, held against the count in word k and the records from word a on: where they
// end, if the words hold them.
fn same_regions(
    s: &[u8],
    start: usize,
    lo: u32,
    hi: u32,
    w: &[u64],
    k: usize,
    a: usize,
) -> Option<usize>
    requires { ((start ≤ length s.now) × (k < length w.now)) × (a + hi * region_words ≤ length w.now) }
    ensures { result ≡ held_answer (length s.now) (holds_regions w.now k a) ((listed 4 lo hi region_field).read (drop start s.now)) }
{
    let end = pass_list(s, start, lo, hi).ok()?;
    let n = u32_at(s, start);
    if w[k] != n as u64 {
        return None;
    }
    if !same_records(s, start + SHORT_BYTES, w, a, n as usize) {
        return None;
    }
    Some(end)
}

// The two sets of a zone at byte `start`, held against the words from k on.
fn same_sets(s: &[u8], start: usize, w: &[u64], k: usize) -> Option<usize>
    requires { (start ≤ length s.now) × (k + 2 * set_words ≤ length w.now) }
    ensures { result ≡ held_answer (length s.now) (holds_sets w.now k) (two_sets.read (drop start s.now)) }
{
    let at = same_regions(s, start, 0, MOST_IN_SET as u32, w, k, k + 1)?;
    let j = k + SET_WORDS;
    same_regions(s, at, 0, MOST_IN_SET as u32, w, j, j + 1)
}

// The zone at byte `start`, held against the words of zone i.
fn same_zone(s: &[u8], start: usize, w: &[u64], i: usize) -> Option<usize>
    requires { ((start ≤ length s.now) × (i < most_zones)) × (zone_base (i + 1) ≤ length w.now) }
    ensures { result ≡ held_answer (length s.now) (same_zone (zone_in w.now i)) ((zone_format limits).read (drop start s.now)) }
{
    let id = number_at(s, start).ok()?;
    let z = zone_start(i);
    if w[z] != id as u64 {
        return None;
    }
    same_sets(s, start + SHORT_BYTES, w, z + 1)
}

// The n zones from byte `start` on, held against the first n of a table's words.
fn same_zone_list(s: &[u8], start: usize, n: usize, w: &[u64]) -> Option<usize>
    requires { ((start ≤ length s.now) × (n ≤ most_zones)) × (zone_base n ≤ length w.now) }
    ensures { result ≡ held_answer (length s.now) (same_list same_zone (tab n (zone_in w.now))) (read_many (zone_format limits) n (drop start s.now)) }
{
    let mut at = start;
    for i in 0..n {
        at = same_zone(s, at, w, i)?;
    }
    Some(at)
}

// The zones' section from its count on, held against a table's words.
pub fn same_zones(s: &[u8], w: &[u64]) -> bool
    requires { table_words ≤ length w.now }
    ensures { result ≡ table_held s.now w.now }
{
    let Ok(n) = count_at(s, 0, 0, MOST_ZONES as u32) else {
        return false;
    };
    if w[0] != n as u64 {
        return false;
    }
    same_zone_list(s, SHORT_BYTES, n as usize, w).is_some()
}

// The regions' section from its count on, and the GIC's position, held against a configuration's words.
pub fn same_config(s: &[u8], gic: u32, w: &[u64; CONFIG_WORDS]) -> bool
    ensures { result ≡ config_held s.now gic w.now }
{
    same_regions(
        s,
        0,
        1,
        MOST_REGIONS as u32,
        w,
        CONFIG_COUNT,
        CONFIG_RECORDS,
    )
    .is_some()
        && w[CONFIG_GIC] == gic as u64
}
