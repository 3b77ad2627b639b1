// That no two zones hold one region, by one pass over what they hold, zone by zone: each held region is looked for among the configured
// ones, and its position is then the zone's. For each configured position it is noted whose it is, if a zone was met that holds its region.
ghost use Rattle.std.specs.Prelude.{◌≤◌, ◌<◌, true, ◌≡◌, length};
ghost use Rattle.rules.specs.Limits.{most_zones, most_in_set};
ghost use Rattle.rules.specs.declared.Side.{Side};
ghost use Rattle.zones.specs.Owners.{Owns, Keeps, HasSet, HasZone};
ghost use Rattle.zones.specs.View.{config_in, set_in, zones_in};
ghost use Rattle.zones.specs.Words.{Within};

use crate::keys::Keyed;
use crate::layout::TABLE_WORDS;
use crate::passed::Passed;
use crate::table::{id_at, region_at, set_len};
use rules::Side;
use rules::limits::{HIGHEST_ID, MOST_REGIONS};

// The positions of a zone's regions are its own, unless one is another's or no position is found. No region is looked for where the id is
// too high, since the zone is refused for that.
pub fn own_zone(
    c: &Keyed<'_>,
    t: &[u64; TABLE_WORDS],
    owners: &mut [Option<u8>; MOST_REGIONS],
    z: usize,
) -> bool
    requires { Within (zones_in t.now) × (z < length (zones_in t.now)) }
    ensures { Keeps owners.old owners.new
        × (result ≡ true → HasZone (config_in c.now.config.words.now) t.now owners.new z) }
{
    if HIGHEST_ID < id_at(t, z) {
        return false;
    }
    own_set(c, t, owners, z, Side::Cpu) && own_set(c, t, owners, z, Side::Iommu)
}

// The positions of a set's regions are zone z's, unless one is another's or no position is found.
fn own_set(
    c: &Keyed<'_>,
    t: &[u64; TABLE_WORDS],
    owners: &mut [Option<u8>; MOST_REGIONS],
    z: usize,
    side: Side,
) -> bool
    requires { (z < most_zones) × (length (set_in t.now z side) ≤ most_in_set) }
    ensures { Keeps owners.old owners.new
        × (result ≡ true → HasSet (config_in c.now.config.words.now) t.now owners.new z side (length (set_in t.now z side))) }
{
    for i in 0..set_len(t, z, side) {
        let Some(k) = c.place_of(region_at(t, z, side, i)) else {
            return false;
        };
        if !own(&c.config, owners, k, z) {
            return false;
        }
    }
    true
}

// Position k is zone z's, unless it is another's.
fn own(c: &Passed<'_>, owners: &mut [Option<u8>; MOST_REGIONS], k: usize, z: usize) -> bool
    requires { (k < length (config_in c.now.words.now).regions) × (z < most_zones) }
    ensures { Keeps owners.old owners.new × (result ≡ true → Owns (config_in c.now.words.now) owners.new z k) }
{
    if k == c.gic() {
        return true;
    }
    if let Some(owner) = owners[k] {
        return owner as usize == z;
    }
    owners[k] = Some(z as u8);
    true
}
