// The sections of a plan put into lent bytes, each from the words that are lent: a region's numbers stand among words in the order in
// which they stand among bytes. Each is put where the pen is.
ghost use Rattle.std.specs.Prelude.{ℕ, ◌+◌, ◌*◌, ◌/◌, ◌^◌, ◌≤◌, ◌<◌, ◌≡◌, length, get_or};
ghost use Rattle.lists.specs.Places.{tab};
ghost use Rattle.formats.specs.Formats.{write_many};
ghost use Rattle.puts.specs.Pens.{Wrote};
ghost use Rattle.puts.specs.Puts.{Put};
ghost use Rattle.rules.specs.Fields.{long_size};
ghost use Rattle.rules.specs.Limits.{most_zones, most_in_set, most_requests, limits};
ghost use Rattle.rules.specs.Plan.{long, marks_section, zone_format, zones_section, requests_section};
ghost use Rattle.rules.specs.Run.{request_size};
ghost use Rattle.rules.specs.Sizes.{marks_size, regions_size, sets_size};
ghost use Rattle.rules.specs.Writer.{asked_of};
ghost use Rattle.zones.specs.Kept.{Stands};
ghost use Rattle.zones.specs.Layout.{zone_base};
ghost use Rattle.zones.specs.View.{zone_in, zones_in};
ghost use Rattle.writer.specs.Writer.{plan_in, set_bytes, zone_bytes, SetFits, ZoneAt, TableFits};

use puts::Pen;
use rules::limits::{FORMAT, MARKS};
use rules::widths::REQUEST_BYTES;
use zones::{
    CONFIG_COUNT, CONFIG_GIC, CONFIG_RECORDS, CONFIG_WORDS, REGION_WORDS, SET_WORDS, TABLE_WORDS,
    zone_start,
};

// The whole plan; how many bytes it has.
pub fn put_plan(
    config: &[u64; CONFIG_WORDS],
    table: &[u64; TABLE_WORDS],
    edition: u32,
    requests: &[u8],
    b: &mut [u8],
) -> usize
    requires { Stands config.now table.now × (length requests.now / request_size ≤ most_requests) }
    ensures { Put b.old 0 (plan_in config.now table.now edition requests.now) b.new result }
{
    let mut pen = Pen::new(b);
    put_marks(&mut pen, config[CONFIG_GIC] as u32, edition);
    put_set(&mut pen, config, CONFIG_COUNT, CONFIG_RECORDS);
    put_zones(&mut pen, table);
    put_requests(&mut pen, requests);
    pen.at
}

// The zones' section alone; how many bytes it has.
pub fn put_base(table: &[u64; TABLE_WORDS], b: &mut [u8]) -> usize
    requires { TableFits table.now }
    ensures { Put b.old 0 ((zones_section limits).write (zones_in table.now)) b.new result }
{
    let mut base = Pen::new(b);
    put_zones(&mut base, table);
    base.at
}

// The marks: the GIC's position, the base edition, and the mark of the format.
fn put_marks(pen: &mut Pen, gic: u32, edition: u32)
    requires { pen.old.at ≡ 0 }
    ensures wrote { Wrote pen.old pen.new ((marks_section limits).write (record { gic = gic; edition = edition })) }
    ensures moved { pen.new.at ≡ marks_size limits }
{
    pen.u32(MARKS);
    pen.u32(gic);
    pen.u32(edition);
    pen.u32(FORMAT);
}

// The count in word k, and as many regions from word a on.
fn put_set(pen: &mut Pen, w: &[u64], k: usize, a: usize)
    requires { (pen.old.at < 2 ^ 32) × SetFits w.now k a }
    ensures wrote { Wrote pen.old pen.new (set_bytes w.now k a) }
    ensures moved { pen.new.at ≡ pen.old.at + regions_size (get_or w.now k 0) }
{
    let n = w[k] as u32;
    pen.u32(n);
    let end = a + n as usize * REGION_WORDS;
    put_longs(pen, &w[a..end]);
}

// The words, 8 bytes each.
fn put_longs(pen: &mut Pen, longs: &[u64])
    requires { (pen.old.at < 2 ^ 33) × (length longs.now < 2 ^ 32) }
    ensures wrote { Wrote pen.old pen.new (write_many long longs.now) }
    ensures moved { pen.new.at ≡ pen.old.at + length longs.now * long_size }
{
    for x in longs {
        pen.u64(*x);
    }
}

// The zone at z.
fn put_zone(pen: &mut Pen, w: &[u64], z: usize)
    requires { (pen.old.at < 2 ^ 31) × ((z < most_zones) × ZoneAt w.now (zone_base z)) }
    ensures wrote { Wrote pen.old pen.new ((zone_format limits).write (zone_in w.now z)) }
    ensures moved { pen.new.at ≤ pen.old.at + sets_size most_in_set most_in_set }
{
    put_zone_at(pen, w, zone_start(z));
}

// The zone whose id stands in word k: the id, and the two sets.
fn put_zone_at(pen: &mut Pen, w: &[u64], k: usize)
    requires { (pen.old.at < 2 ^ 31) × ZoneAt w.now k }
    ensures wrote { Wrote pen.old pen.new (zone_bytes w.now k) }
    ensures moved { pen.new.at ≤ pen.old.at + sets_size most_in_set most_in_set }
{
    pen.u32(w[k] as u32);
    put_set(pen, w, k + 1, k + 2);
    put_set(pen, w, k + 1 + SET_WORDS, k + 2 + SET_WORDS);
}

// The zones' section: their count, and each.
fn put_zones(pen: &mut Pen, w: &[u64])
    requires { (pen.old.at < 2 ^ 20) × TableFits w.now }
    ensures wrote { Wrote pen.old pen.new ((zones_section limits).write (zones_in w.now)) }
    ensures moved { pen.new.at < 2 ^ 24 }
{
    let n = w[0] as u32;
    pen.u32(n);
    put_zone_list(pen, n as usize, w);
}

// The first n zones.
fn put_zone_list(pen: &mut Pen, n: usize, w: &[u64])
    requires { ((pen.old.at < 2 ^ 21) × (n ≤ most_zones)) × ((z : ℕ) → z < n → ZoneAt w.now (zone_base z)) }
    ensures wrote { Wrote pen.old pen.new (write_many (zone_format limits) (tab n (zone_in w.now))) }
    ensures moved { pen.new.at < 2 ^ 24 }
{
    for z in 0..n {
        put_zone(pen, w, z);
    }
}

// The requests' section: how many are wholly there, and their bytes.
fn put_requests(pen: &mut Pen, requests: &[u8])
    requires { (pen.old.at < 2 ^ 32) × (length requests.now / request_size ≤ most_requests) }
    ensures { Wrote pen.old pen.new ((requests_section limits).write (asked_of requests.now)) }
{
    let n = requests.len() / REQUEST_BYTES;
    pen.u32(n as u32);
    pen.bytes(&requests[..n * REQUEST_BYTES]);
}
