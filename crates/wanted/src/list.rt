// The four stretches of the list, put by a pen: regions that go, zones that go, zones that come, regions that come. What goes is what the
// first table has and the second has not; what comes is the same with the tables exchanged.
ghost use Rattle.std.specs.Prelude.{◌+◌, ◌*◌, ◌^◌, ◌≤◌, ◌<◌, [], ◌∷◌, ◌≡◌, length, get_or};
ghost use Rattle.formats.specs.Formats.{write_many};
ghost use Rattle.puts.specs.Pens.{Wrote};
ghost use Rattle.puts.specs.Puts.{Put};
ghost use Rattle.rules.specs.Limits.{most_zones, most_in_set};
ghost use Rattle.rules.specs.Plan.{asked_field};
ghost use Rattle.rules.specs.Run.{request_size};
ghost use Rattle.rules.specs.Wanted.{requests_for, records_of};
ghost use Rattle.zones.specs.View.{zone_in, zones_in};
ghost use Rattle.wanted.specs.Wanted.{numbers, lacked, set_asked, sets_asked, zone_asked, regions_asked, missed, zones_asked, set_from, InLimits, ZoneAt};
ghost use Rattle.wanted.specs.Wanted.{zone_kind as Wanted·zone_kind, region_kind as Wanted·region_kind};

use crate::tables::{Place, find_zone, id_at, is_held, region_from, word_at, zone_count};
use puts::Pen;
use rules::{Guest, Phys, Region, Rights, Side};
use zones::{REGION_WORDS, SET_WORDS, TABLE_WORDS, zone_start};

// What becomes of a zone, or of a region.
#[derive(Clone, Copy)]
pub enum Change {
    Comes,
    Goes,
}

// The number of the request for a zone, and for a region of a side.
fn zone_kind(change: Change) -> u32
    ensures { result ≡ Wanted·zone_kind change }
{
    match change {
        Change::Comes => 1,
        Change::Goes => 2,
    }
}

fn region_kind(change: Change, side: Side) -> u32
    ensures { result ≡ Wanted·region_kind change side }
{
    match (change, side) {
        (Change::Comes, Side::Cpu) => 3,
        (Change::Goes, Side::Cpu) => 4,
        (Change::Comes, Side::Iommu) => 5,
        (Change::Goes, Side::Iommu) => 6,
    }
}

// What stands before the region of a request: its kind, and the zone's id.
#[derive(Clone, Copy)]
pub struct Heading {
    kind: u32,
    zone: u32,
}

// The whole list; how many bytes it has.
pub fn put_list(from: &[u64; TABLE_WORDS], to: &[u64; TABLE_WORDS], b: &mut [u8]) -> usize
    requires { InLimits from.now × InLimits to.now }
    ensures { Put b.old 0 (records_of (requests_for (zones_in from.now) (zones_in to.now))) b.new result }
{
    let mut pen = Pen::new(b);
    put_regions(&mut pen, Change::Goes, from, to);
    put_zones(&mut pen, Change::Goes, from, to);
    put_zones(&mut pen, Change::Comes, to, from);
    put_regions(&mut pen, Change::Comes, to, from);
    pen.at
}

// The regions of `from` that `to` has not in the same set, zone by zone.
fn put_regions(pen: &mut Pen, change: Change, from: &[u64; TABLE_WORDS], to: &[u64; TABLE_WORDS])
    requires { (pen.old.at < 2 ^ 24) × (InLimits from.now × InLimits to.now) }
    ensures wrote { Wrote pen.old pen.new (write_many asked_field (regions_asked change (zones_in from.now) (zones_in to.now))) }
    ensures moved { pen.new.at ≤ pen.old.at + 2 ^ 16 }
{
    for z in 0..zone_count(from) {
        put_zone(pen, change, from, z, to);
    }
}

// Those of zone z.
fn put_zone(
    pen: &mut Pen,
    change: Change,
    from: &[u64; TABLE_WORDS],
    z: usize,
    to: &[u64; TABLE_WORDS],
)
    requires { (pen.old.at < 2 ^ 25) × ((z < length (zones_in from.now)) × (InLimits from.now × InLimits to.now)) }
    ensures wrote { Wrote pen.old pen.new (write_many asked_field (zone_asked change (zones_in to.now) (zone_in from.now z))) }
    ensures moved { pen.new.at ≤ pen.old.at + 2 * most_in_set * request_size }
{
    let id = id_at(from, z);
    let own = Place {
        words: from,
        at: zone_start(z),
    };
    let other = Place {
        words: to,
        at: find_zone(to, id),
    };
    put_sets(pen, change, id as u32, own, other);
}

// Those of the zone that begins at `from`, whose like begins at `to`: of its CPU set, and then of its IOMMU set.
fn put_sets(pen: &mut Pen, change: Change, zone: u32, from: Place, to: Place)
    requires { (pen.old.at < 2 ^ 25) × (ZoneAt from.words.now from.at × ZoneAt to.words.now to.at) }
    ensures wrote { Wrote pen.old pen.new (write_many asked_field (sets_asked change zone from.entry.words.now from.entry.at to.entry.words.now to.entry.at)) }
    ensures moved { pen.new.at ≤ pen.old.at + 2 * most_in_set * request_size }
{
    let cpu = Heading {
        kind: region_kind(change, Side::Cpu),
        zone,
    };
    let iommu = Heading {
        kind: region_kind(change, Side::Iommu),
        zone,
    };
    put_set(pen, cpu, from.on(1), to.on(1));
    put_set(pen, iommu, from.on(1).on(SET_WORDS), to.on(1).on(SET_WORDS));
}

// The regions of the set whose count stands at `from` that the set whose count stands at `to` has not.
fn put_set(pen: &mut Pen, heading: Heading, from: Place, to: Place)
    requires { ((pen.old.at < 2 ^ 26) × ((from.at < 2 ^ 31) × (to.at < 2 ^ 31))) × ((get_or from.words.now from.at 0 ≤ most_in_set) × (get_or to.words.now to.at 0 ≤ most_in_set)) }
    ensures wrote { Wrote pen.old pen.new (write_many asked_field (set_asked heading.kind heading.zone (set_from from.entry.words.now from.entry.at) (set_from to.entry.words.now to.entry.at))) }
    ensures moved { pen.new.at ≤ pen.old.at + most_in_set * request_size }
{
    let n = word_at(from.words, from.at) as usize;
    for i in 0..n {
        let r = region_from(from.words, from.at + 1 + i * REGION_WORDS);
        put_lacked(pen, heading, r, to);
    }
}

// The region, if the set whose count stands at `to` has it not.
fn put_lacked(pen: &mut Pen, heading: Heading, r: Region, to: Place)
    requires { (pen.old.at < 2 ^ 27) × ((to.at < 2 ^ 31) × (get_or to.words.now to.at 0 ≤ most_in_set)) }
    ensures wrote { Wrote pen.old pen.new (write_many asked_field (lacked heading.kind heading.zone (set_from to.entry.words.now to.entry.at) r)) }
    ensures moved { pen.new.at ≤ pen.old.at + request_size }
{
    if !is_held(to, r) {
        put_request(pen, heading, r);
    }
}

// The zones of `from` that `to` has not.
fn put_zones(pen: &mut Pen, change: Change, from: &[u64; TABLE_WORDS], to: &[u64; TABLE_WORDS])
    requires { (pen.old.at < 2 ^ 24) × (InLimits from.now × InLimits to.now) }
    ensures wrote { Wrote pen.old pen.new (write_many asked_field (zones_asked change (zones_in from.now) (zones_in to.now))) }
    ensures moved { pen.new.at ≤ pen.old.at + most_zones * request_size }
{
    for z in 0..zone_count(from) {
        let heading = Heading {
            kind: zone_kind(change),
            zone: id_at(from, z) as u32,
        };
        put_missed(pen, heading, to);
    }
}

// The zone, if `to` has it not.
fn put_missed(pen: &mut Pen, heading: Heading, to: &[u64; TABLE_WORDS])
    requires { (pen.old.at < 2 ^ 27) × (length (zones_in to.now) ≤ most_zones) }
    ensures wrote { Wrote pen.old pen.new (write_many asked_field (missed heading.kind (zones_in to.now) heading.zone)) }
    ensures moved { pen.new.at ≤ pen.old.at + request_size }
{
    if find_zone(to, heading.zone as u64) < TABLE_WORDS {
        return;
    }
    let none = Region {
        v: Guest(0),
        p: Phys(0),
        size: 0,
        rights: Rights(0),
    };
    put_request(pen, heading, none);
}

// One request: its heading and its region.
fn put_request(pen: &mut Pen, heading: Heading, r: Region)
    requires { pen.old.at < 2 ^ 27 }
    ensures wrote { Wrote pen.old pen.new (write_many asked_field (numbers heading.kind heading.zone r ∷ [])) }
    ensures moved { pen.new.at ≡ pen.old.at + request_size }
{
    pen.u32(heading.kind);
    pen.u32(heading.zone);
    pen.u64(r.v.0);
    pen.u64(r.p.0);
    pen.u64(r.size);
    pen.u64(r.rights.0);
}
