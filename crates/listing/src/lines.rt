// The lines of a table put by a pen, from the words that are lent.
ghost use Rattle.std.specs.Prelude.{◌+◌, ◌*◌, ◌^◌, ◌≤◌, ◌<◌, ◌≡◌, get_or};
ghost use Rattle.puts.specs.Pens.{Wrote};
ghost use Rattle.puts.specs.Puts.{Put};
ghost use Rattle.rules.specs.Limits.{most_zones, most_in_set, limits};
ghost use Rattle.rules.specs.Listing.{set_lines, zone_lines, listing};
ghost use Rattle.writer.specs.Writer.{SetFits, ZoneAt, TableFits};
ghost use Rattle.zones.specs.Layout.{set_words, zone_base};
ghost use Rattle.zones.specs.Records.{records_at};
ghost use Rattle.zones.specs.View.{zone_in, zones_in};
ghost use Rattle.listing.specs.Lines.{line_room, zone_room, lines_at};

use crate::text::put_line;
use puts::Pen;
use rules::Side;
use zones::{REGION_WORDS, SET_WORDS, zone_start};

// The lines of every zone; how many bytes they have.
pub fn put_listing(b: &mut [u8], w: &[u64]) -> usize
    requires { TableFits w.now }
    ensures { Put b.old 0 (listing limits (zones_in w.now)) b.new result }
{
    let mut pen = Pen::new(b);
    put_zones(&mut pen, w);
    pen.at
}

fn put_zones(pen: &mut Pen, w: &[u64])
    requires { (pen.old.at < 2 ^ 30) × TableFits w.now }
    ensures { Wrote pen.old pen.new (listing limits (zones_in w.now)) }
{
    let n = w[0] as usize;
    for z in 0..n {
        put_zone(pen, w, z);
    }
}

// Those of the zone at z.
fn put_zone(pen: &mut Pen, w: &[u64], z: usize)
    requires { (pen.old.at < 2 ^ 31) × ((z < most_zones) × ZoneAt w.now (zone_base z)) }
    ensures wrote { Wrote pen.old pen.new (zone_lines limits (zone_in w.now z)) }
    ensures moved { pen.new.at ≤ pen.old.at + zone_room }
{
    put_zone_at(pen, w, zone_start(z));
}

// Those of the zone whose id stands in word k: of the CPU set, then of the IOMMU set.
fn put_zone_at(pen: &mut Pen, w: &[u64], k: usize)
    requires { (pen.old.at < 2 ^ 31) × ZoneAt w.now k }
    ensures wrote { Wrote pen.old pen.new (lines_at w.now k) }
    ensures moved { pen.new.at ≤ pen.old.at + zone_room }
{
    let id = w[k];
    put_set(pen, id, Side::Cpu, w, k + 1);
    put_set(pen, id, Side::Iommu, w, k + 1 + SET_WORDS);
}

// Those of the set whose count stands in word k, before its regions.
fn put_set(pen: &mut Pen, id: u64, side: Side, w: &[u64], k: usize)
    requires { (pen.old.at < 2 ^ 32) × (SetFits w.now k (k + 1) × (get_or w.now k 0 ≤ most_in_set)) }
    ensures wrote { Wrote pen.old pen.new (set_lines limits id side (records_at w.now (k + 1) (get_or w.now k 0))) }
    ensures moved { pen.new.at ≤ pen.old.at + most_in_set * line_room }
{
    let n = w[k] as usize;
    for i in 0..n {
        put_line(pen, id, side, w, k + 1 + i * REGION_WORDS);
    }
}
