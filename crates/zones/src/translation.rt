// Translation: from a guest address of a zone, on one side, to the physical address, and how far that goes on.
ghost use Rattle.std.specs.Prelude.{◌≤◌, ◌<◌, ◌≡◌, length, position};
ghost use Rattle.rules.specs.Limits.{most_zones, most_in_set, limits};
ghost use Rattle.rules.specs.Translation.{covers_guest, translation, translated};
ghost use Rattle.zones.specs.Translate.{told, Near};
ghost use Rattle.zones.specs.View.{stored_config, stored_table, set_in, zones_in};

use crate::config::Config;
use crate::decide::named_zone;
use crate::layout::{CONFIG_WORDS, TABLE_WORDS};
use crate::sound::standing;
use crate::table::{Table, region_at, set_find};
use region::guest_overlap;
use rules::{Guest, Phys, Refusal, Region, Rights, Side};

// Where an address comes out, and how many bytes of the region that covers it there are from it on.
#[derive(Clone, Copy)]
pub struct Stretch {
    pub phys: Phys,
    pub remaining: u64,
}

// Where the device or processor of a zone comes out, for any words and any address.
pub fn translate(c: Config, t: Table, zone: u32, side: Side, a: Guest) -> Result<Stretch, Refusal>
    ensures { told result ≡ translated limits (stored_config c.words) (stored_table t.words) zone side a }
{
    let config = c.words;
    let table = t.words;
    translate_in(&config, &table, zone, side, a)
}

// The same where the two lie.
pub fn translate_in(
    c: &[u64; CONFIG_WORDS],
    t: &[u64; TABLE_WORDS],
    zone: u32,
    side: Side,
    a: Guest,
) -> Result<Stretch, Refusal>
    ensures { told result ≡ translated limits (stored_config c.now) (stored_table t.now) zone side a }
{
    standing(c, t)?;
    translate_near(t, zone, side, a)
}

// The same at a table whose regions are in reach, so that no sum can wrap.
fn translate_near(
    t: &[u64; TABLE_WORDS],
    zone: u32,
    side: Side,
    a: Guest,
) -> Result<Stretch, Refusal>
    requires { Near (zones_in t.now) }
    ensures { told result ≡ translation (zones_in t.now) zone side a.0 }
{
    let z = named_zone(t, zone as u64)?;
    let Some(i) = find_covering(t, z, side, a) else {
        return Err(Refusal::NotCovered);
    };
    let r = region_at(t, z, side, i);
    let offset = a.0 - r.v.0;
    Ok(Stretch {
        phys: Phys(r.p.0 + offset),
        remaining: r.size - offset,
    })
}

// The first region of a set that covers the address: a region of one byte overlaps exactly those that do.
fn find_covering(t: &[u64; TABLE_WORDS], z: usize, side: Side, a: Guest) -> Option<usize>
    requires { (z < most_zones) × (length (set_in t.now z side) ≤ most_in_set) }
    ensures { result ≡ position (covers_guest a.0) (set_in t.now z side) }
{
    let byte = Region {
        v: a,
        p: Phys(0),
        size: 1,
        rights: Rights(0),
    };
    set_find(t, z, side, |e| guest_overlap(byte, e))
}
