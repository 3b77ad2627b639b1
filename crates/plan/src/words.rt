// Sections read into lent words: each reader answers where it ends, or refuses.
ghost use Rattle.std.specs.Prelude.{◌+◌, ◌*◌, ◌≤◌, ◌<◌, length, drop};
ghost use Rattle.rules.specs.Limits.{most_zones};
ghost use Rattle.zones.specs.Layout.{region_words, set_words, table_words, zone_base};
ghost use Rattle.plan.specs.Into.{Reads, record_into, set_into, sets_into, zone_into, zones_into, times};

use crate::field::{count_at, number_at, region_field_at};
use crate::refused::Refused;
use rules::limits::{MOST_IN_SET, MOST_ZONES};
use rules::widths::{REGION_BYTES, SHORT_BYTES};
use zones::{REGION_WORDS, SET_WORDS, put_region, zone_start};

// The region at byte `at`, into record i of those from word a on.
fn read_record(s: &[u8], at: usize, w: &mut [u64], a: usize, i: usize) -> Result<usize, Refused>
    requires { (at ≤ length s.now) × (a + (i + 1) * region_words ≤ length w.old) }
    ensures { Reads s.now w.new result (record_into a i w.old (drop at s.now)) }
{
    let r = region_field_at(s, at)?;
    put_region(w, a + i * REGION_WORDS, r);
    Ok(at + REGION_BYTES)
}

// The n regions from byte `start` on, into the records from word a on.
fn read_records(s: &[u8], start: usize, n: usize, w: &mut [u64], a: usize) -> Result<usize, Refused>
    requires { (start ≤ length s.now) × (a + n * region_words ≤ length w.old) }
    ensures { Reads s.now w.new result (times (record_into a) n 0 w.old (drop start s.now)) }
{
    let mut at = start;
    for i in 0..n {
        at = read_record(s, at, w, a, i)?;
    }
    Ok(at)
}

// A count from lo to hi at byte `start`, and as many regions: the count into word k, the records from word a on.
pub fn read_set(
    s: &[u8],
    start: usize,
    lo: u32,
    hi: u32,
    w: &mut [u64],
    k: usize,
    a: usize,
) -> Result<usize, Refused>
    requires { ((start ≤ length s.now) × (k < length w.old)) × (a + hi * region_words ≤ length w.old) }
    ensures { Reads s.now w.new result (set_into lo hi k a w.old (drop start s.now)) }
{
    let n = count_at(s, start, lo, hi)?;
    w[k] = n as u64;
    read_records(s, start + SHORT_BYTES, n as usize, w, a)
}

// The two sets of a zone from byte `start` on, into the words from k on.
fn read_sets(s: &[u8], start: usize, w: &mut [u64], k: usize) -> Result<usize, Refused>
    requires { (start ≤ length s.now) × (k + 2 * set_words ≤ length w.old) }
    ensures { Reads s.now w.new result (sets_into k w.old (drop start s.now)) }
{
    let at = read_set(s, start, 0, MOST_IN_SET as u32, w, k, k + 1)?;
    let j = k + SET_WORDS;
    read_set(s, at, 0, MOST_IN_SET as u32, w, j, j + 1)
}

// The zone at byte `start`, into the words of zone i.
fn read_zone(s: &[u8], start: usize, w: &mut [u64], i: usize) -> Result<usize, Refused>
    requires { ((start ≤ length s.now) × (i < most_zones)) × (zone_base (i + 1) ≤ length w.old) }
    ensures { Reads s.now w.new result (zone_into i w.old (drop start s.now)) }
{
    let id = number_at(s, start)?;
    let z = zone_start(i);
    w[z] = id as u64;
    read_sets(s, start + SHORT_BYTES, w, z + 1)
}

// The n zones from byte `start` on, into those of a table's words. (The same loop as that of the records: as a function that takes the
// step as a closure, which would have to be lent the words, it is no plainer.)
fn read_zone_list(s: &[u8], start: usize, n: usize, w: &mut [u64]) -> Result<usize, Refused>
    requires { ((start ≤ length s.now) × (n ≤ most_zones)) × (zone_base n ≤ length w.old) }
    ensures { Reads s.now w.new result (times zone_into n 0 w.old (drop start s.now)) }
{
    let mut at = start;
    for i in 0..n {
        at = read_zone(s, at, w, i)?;
    }
    Ok(at)
}

// The zones' section from its count on, into a table's words.
pub fn read_table(s: &[u8], w: &mut [u64]) -> Result<usize, Refused>
    requires { table_words ≤ length w.old }
    ensures { Reads s.now w.new result (zones_into w.old s.now) }
{
    let n = count_at(s, 0, 0, MOST_ZONES as u32)?;
    w[0] = n as u64;
    read_zone_list(s, SHORT_BYTES, n as usize, w)
}
