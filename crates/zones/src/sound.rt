// The table check: whether a table is sound under a configuration.
ghost use Rattle.std.specs.Prelude.{◌≤◌, ◌<◌, true, false, ◌≡◌, length, drop, IfNone, IfSome};
ghost use Rattle.lists.specs.First.{first_from, any, all};
ghost use Rattle.lists.specs.Pairs.{pairwise};
ghost use Rattle.rules.specs.Numbers.{code};
ghost use Rattle.rules.specs.Requests.{standing};
ghost use Rattle.rules.specs.declared.Side.{Side};
ghost use Rattle.rules.specs.Limits.{most_zones, most_in_set, limits};
ghost use Rattle.rules.specs.Tables.{modest, configured, guest_apart, off_gic, sound_set, sound_zone, ids_differ, sound, check_table};
ghost use Rattle.zones.specs.Holding.{used_well, holds, held_once, held_at, held_apart, apart_after};
ghost use Rattle.zones.specs.Owners.{ZoneConfigured};
ghost use Rattle.zones.specs.View.{stored_config, stored_table, config_in, set_in, zone_in, zones_in};
ghost use Rattle.zones.specs.Words.{Within};

use crate::config::{Config, check_with};
use crate::keys::Keyed;
use crate::layout::{CONFIG_WORDS, TABLE_WORDS};
use crate::owners::own_zone;
use crate::passed::Passed;
use crate::table::{Table, find_zone, id_at, is_packed, region_at, set_find, set_len, zone_count};
use region::{guest_overlap, is_excessive, phys_overlap, region_eq};
use rules::limits::{HIGHEST_ID, MOST_REGIONS};
use rules::{Checked, Refusal, Region, Side};

// Yes exactly for a sound table under a sound configuration.
pub fn check_table(c: Config, t: Table) -> bool
    ensures { result ≡ check_table limits (stored_config c.words) (stored_table t.words) }
{
    let config = c.words;
    let table = t.words;
    is_sound(&config, &table)
}

// The same where the two lie.
pub fn is_sound(c: &[u64; CONFIG_WORDS], t: &[u64; TABLE_WORDS]) -> bool
    ensures { result ≡ check_table limits (stored_config c.now) (stored_table t.now) }
{
    let mut keys = [0u64; MOST_REGIONS];
    let found = check_with(c, &mut keys);
    let Checked::Sound = found else {
        return false;
    };
    table_sound(&Keyed::new(c, &keys), t)
}

// What refuses any request before it is looked at: 1 for the configuration, 2 for the table. It stays a call of its own: put into a caller,
// its keys would lie on the stack while the caller goes on.
#[inline(never)]
pub fn standing(c: &[u64; CONFIG_WORDS], t: &[u64; TABLE_WORDS]) -> Result<(), Refusal>
    ensures { code result ≡ standing limits (stored_config c.now) (stored_table t.now) }
{
    let mut keys = [0u64; MOST_REGIONS];
    let found = check_with(c, &mut keys);
    let Checked::Sound = found else {
        return Err(Refusal::UnsoundConfig);
    };
    if !table_sound(&Keyed::new(c, &keys), t) {
        return Err(Refusal::UnsoundTable);
    }
    Ok(())
}

// Whether the words are packed and their table is sound, under a sound configuration.
fn table_sound(c: &Keyed<'_>, t: &[u64; TABLE_WORDS]) -> bool
    ensures { result ≡ check_table limits (stored_config c.now.config.words.now) (stored_table t.now) }
{
    is_packed(t) && zones_sound(c, t)
}

fn zones_sound(c: &Keyed<'_>, t: &[u64; TABLE_WORDS]) -> bool
    requires { Within (zones_in t.now) }
    ensures { result ≡ sound limits (config_in c.now.config.words.now) (zones_in t.now) }
{
    let Some(led) = each_sound(c, t) else {
        return false;
    };
    ids_differ(t) && held_apart(c, t, led)
}

// ---- each zone

// Whether each zone is sound; and if so, whether the keys led every held region to its position, and no position but the GIC's to two
// zones. As long as they do, the regions of a zone are not looked for again.
fn each_sound(c: &Keyed<'_>, t: &[u64; TABLE_WORDS]) -> Option<bool>
    requires { Within (zones_in t.now) }
    ensures none { IfNone result (all (sound_zone limits (config_in c.now.config.words.now)) (zones_in t.now) ≡ false) }
    ensures some { IfSome result (λ led. (all (sound_zone limits (config_in c.now.config.words.now)) (zones_in t.now) ≡ true)
        × (led ≡ true → held_apart (config_in c.now.config.words.now) (zones_in t.now) ≡ true)) }
{
    let mut owners: [Option<u8>; MOST_REGIONS] = [None; MOST_REGIONS];
    let mut led = true;
    for z in 0..zone_count(t) {
        led = led && own_zone(c, t, &mut owners, z);
        if !zone_sound(c, t, z, led) {
            return None;
        }
    }
    Some(led)
}

// Led: the keys led to each region of the zone.
fn zone_sound(c: &Keyed<'_>, t: &[u64; TABLE_WORDS], z: usize, led: bool) -> bool
    requires { (Within (zones_in t.now) × (z < length (zones_in t.now))) × (led ≡ true → ZoneConfigured (config_in c.now.config.words.now) t.now z) }
    ensures { result ≡ sound_zone limits (config_in c.now.config.words.now) (zone_in t.now z) }
{
    id_at(t, z) <= HIGHEST_ID
        && set_sound(c, t, z, Side::Cpu, led)
        && set_sound(c, t, z, Side::Iommu, led)
        && used_well(&c.config, t, z)
}

// How the regions of a zone are used: none of its processor overlaps the GIC, and none has too many rights.
fn used_well(c: &Passed<'_>, t: &[u64; TABLE_WORDS], z: usize) -> bool
    requires { ((z < most_zones) × (length (set_in t.now z Side.Cpu) ≤ most_in_set)) × (length (set_in t.now z Side.Iommu) ≤ most_in_set) }
    ensures { result ≡ used_well (config_in c.now.words.now) (set_in t.now z Side.Cpu) (set_in t.now z Side.Iommu) }
{
    off_gic(c, t, z) && set_modest(t, z, Side::Cpu) && set_modest(t, z, Side::Iommu)
}

fn set_sound(c: &Keyed<'_>, t: &[u64; TABLE_WORDS], z: usize, side: Side, led: bool) -> bool
    requires { ((z < most_zones) × (length (set_in t.now z side) ≤ most_in_set))
        × (led ≡ true → all (configured (config_in c.now.config.words.now)) (set_in t.now z side) ≡ true) }
    ensures { result ≡ sound_set limits (config_in c.now.config.words.now) (set_in t.now z side) }
{
    set_configured(c, t, z, side, led) && guest_apart(t, z, side)
}

fn set_configured(c: &Keyed<'_>, t: &[u64; TABLE_WORDS], z: usize, side: Side, led: bool) -> bool
    requires { ((z < most_zones) × (length (set_in t.now z side) ≤ most_in_set))
        × (led ≡ true → all (configured (config_in c.now.config.words.now)) (set_in t.now z side) ≡ true) }
    ensures { result ≡ all (configured (config_in c.now.config.words.now)) (set_in t.now z side) }
{
    led || (0..set_len(t, z, side)).all(|i| c.is_configured(region_at(t, z, side, i)))
}

fn guest_apart(t: &[u64; TABLE_WORDS], z: usize, side: Side) -> bool
    requires { (z < most_zones) × (length (set_in t.now z side) ≤ most_in_set) }
    ensures { result ≡ pairwise guest_apart (set_in t.now z side) }
{
    (0..set_len(t, z, side)).all(|i| apart_later(t, z, side, i))
}

// Whether region i of a set overlaps no later one in guest addresses.
fn apart_later(t: &[u64; TABLE_WORDS], z: usize, side: Side, i: usize) -> bool
    requires { ((z < most_zones) × (length (set_in t.now z side) ≤ most_in_set)) × (i < length (set_in t.now z side)) }
    ensures { result ≡ apart_after t.now z side i }
{
    let r = region_at(t, z, side, i);
    (i + 1..set_len(t, z, side)).all(|j| !guest_overlap(r, region_at(t, z, side, j)))
}

fn off_gic(c: &Passed<'_>, t: &[u64; TABLE_WORDS], z: usize) -> bool
    requires { (z < most_zones) × (length (set_in t.now z Side.Cpu) ≤ most_in_set) }
    ensures { result ≡ all (off_gic (config_in c.now.words.now)) (set_in t.now z Side.Cpu) }
{
    let gic = c.gic_region();
    (0..set_len(t, z, Side::Cpu)).all(|i| !phys_overlap(region_at(t, z, Side::Cpu, i), gic))
}

// Whether no region of a set has too many rights for its side.
fn set_modest(t: &[u64; TABLE_WORDS], z: usize, side: Side) -> bool
    requires { (z < most_zones) × (length (set_in t.now z side) ≤ most_in_set) }
    ensures { result ≡ all (modest side) (set_in t.now z side) }
{
    (0..set_len(t, z, side)).all(|i| !is_excessive(side, region_at(t, z, side, i)))
}

// ---- zones beside each other

fn ids_differ(t: &[u64; TABLE_WORDS]) -> bool
    requires { Within (zones_in t.now) }
    ensures { result ≡ pairwise ids_differ (zones_in t.now) }
{
    (0..zone_count(t)).all(|z| find_zone(t, id_at(t, z)) == Some(z))
}

// Held regions are configured ones, and configured regions overlap only if they are equal. So no two zones share a physical address
// outside the GIC exactly when each configured region but the GIC is held by at most one zone. Where the keys led to each position for one
// zone alone, that is so; where they did not, each configured region is looked for in each zone.
fn held_apart(c: &Keyed<'_>, t: &[u64; TABLE_WORDS], led: bool) -> bool
    requires { Within (zones_in t.now) × (led ≡ true → held_apart (config_in c.now.config.words.now) (zones_in t.now) ≡ true) }
    ensures { result ≡ held_apart (config_in c.now.config.words.now) (zones_in t.now) }
{
    led || (0..c.config.count()).all(|k| held_well(&c.config, t, k))
}

// Whether configured region k is the GIC, or is held by at most one zone.
fn held_well(c: &Passed<'_>, t: &[u64; TABLE_WORDS], k: usize) -> bool
    requires { Within (zones_in t.now) × (k < length (config_in c.now.words.now).regions) }
    ensures { result ≡ held_at (config_in c.now.words.now) (zones_in t.now) k }
{
    k == c.gic() || held_once(t, c.region(k))
}

fn held_once(t: &[u64; TABLE_WORDS], r: Region) -> bool
    requires { Within (zones_in t.now) }
    ensures { result ≡ held_once r (zones_in t.now) }
{
    match first_holder(t, r, 0) {
        Some(first) => first_holder(t, r, first + 1).is_none(),
        None => true,
    }
}

// The first zone from position z on that holds the region.
fn first_holder(t: &[u64; TABLE_WORDS], r: Region, z: usize) -> Option<usize>
    requires { Within (zones_in t.now) }
    ensures none { IfNone result (any (holds r) (drop z (zones_in t.now)) ≡ false) }
    ensures some { IfSome result (λ k. (any (holds r) (drop z (zones_in t.now)) ≡ true) × (k ≡ first_from (holds r) (zones_in t.now) z)) }
{
    (z..zone_count(t)).find(|k| zone_holds(t, *k, r))
}

pub fn zone_holds(t: &[u64; TABLE_WORDS], z: usize, r: Region) -> bool
    requires { Within (zones_in t.now) × (z < length (zones_in t.now)) }
    ensures { result ≡ holds r (zone_in t.now z) }
{
    set_find(t, z, Side::Cpu, |e| region_eq(r, e)).is_some()
        || set_find(t, z, Side::Iommu, |e| region_eq(r, e)).is_some()
}
