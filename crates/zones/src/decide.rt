// Which change a request asks for, or why it is refused. Nothing is written here.
ghost use Rattle.std.specs.Prelude.{◌≤◌, ◌<◌, true, false, ◌≡◌, length};
ghost use Rattle.lists.specs.First.{any};
ghost use Rattle.rules.specs.Limits.{most_zones, limits};
ghost use Rattle.rules.specs.Tables.{configured};
ghost use Rattle.rules.specs.Requests.{find, others, holds_any, on_gic, region_rules, set_rules};
ghost use Rattle.zones.specs.Decide.{in_numbers, ruled, id_rules, name_rules, use_rules, decided, decided_add, decided_drop, decided_insert, decided_cut, Ready, shared_elsewhere};
ghost use Rattle.zones.specs.Holding.{holds};
ghost use Rattle.zones.specs.View.{config_in, zones_in};
ghost use Rattle.zones.specs.Words.{Within};

use crate::layout::{CONFIG_WORDS, TABLE_WORDS};
use crate::passed::Passed;
use crate::sound::zone_holds;
use crate::table::{find_zone, set_find, set_len, zone_count};
use region::{guest_overlap, in_reach, is_excessive, phys_overlap, region_eq, well_formed};
use rules::limits::{HIGHEST_ID, MOST_IN_SET, MOST_ZONES};
use rules::{Kind, Refusal, Region, Request, Side};

// A position and an index stand for the zone and the region found there.
#[derive(Clone, Copy)]
pub enum Change {
    Add(u64),
    Drop(usize),
    Push(usize, Side, Region),
    Cut(usize, Side, usize),
}

pub fn decide(
    c: &[u64; CONFIG_WORDS],
    t: &[u64; TABLE_WORDS],
    q: Request,
) -> Result<Change, Refusal>
    requires { Ready c.now t.now }
    ensures { in_numbers result ≡ decided (config_in c.now) (zones_in t.now) q }
{
    let id = q.zone as u64;
    match q.kind {
        Kind::AddZone => decide_add(t, id),
        Kind::RemoveZone => decide_drop(t, id),
        Kind::Insert(side, r) => decide_insert(c, t, id, side, r),
        Kind::Remove(side, r) => decide_cut(t, id, side, r),
        Kind::NoRequest => Err(Refusal::NoRequest),
    }
}

fn decide_add(t: &[u64; TABLE_WORDS], id: u64) -> Result<Change, Refusal>
    requires { Within (zones_in t.now) }
    ensures { in_numbers result ≡ decided_add id (zones_in t.now) }
{
    check_id(id)?;
    if find_zone(t, id).is_some() {
        return Err(Refusal::ZoneThere);
    }
    if MOST_ZONES <= zone_count(t) {
        return Err(Refusal::ZonesFull);
    }
    Ok(Change::Add(id))
}

fn decide_drop(t: &[u64; TABLE_WORDS], id: u64) -> Result<Change, Refusal>
    requires { Within (zones_in t.now) }
    ensures { in_numbers result ≡ decided_drop id (zones_in t.now) }
{
    let z = named_zone(t, id)?;
    if holds_any(t, z) {
        return Err(Refusal::ZoneInUse);
    }
    Ok(Change::Drop(z))
}

fn decide_cut(t: &[u64; TABLE_WORDS], id: u64, side: Side, r: Region) -> Result<Change, Refusal>
    requires { Within (zones_in t.now) }
    ensures { in_numbers result ≡ decided_cut id side r (zones_in t.now) }
{
    let z = named_zone(t, id)?;
    let Some(i) = set_find(t, z, side, |e| region_eq(r, e)) else {
        return Err(Refusal::NoRegion);
    };
    Ok(Change::Cut(z, side, i))
}

fn decide_insert(
    c: &[u64; CONFIG_WORDS],
    t: &[u64; TABLE_WORDS],
    id: u64,
    side: Side,
    r: Region,
) -> Result<Change, Refusal>
    requires { Ready c.now t.now }
    ensures { in_numbers result ≡ decided_insert (config_in c.now) id side r (zones_in t.now) }
{
    let z = named_zone(t, id)?;
    refuse_region(&Passed { words: c }, side, r)?;
    refuse_set(c, t, z, side, r)?;
    Ok(Change::Push(z, side, r))
}

// No zone has a higher id.
fn check_id(id: u64) -> Result<(), Refusal>
    ensures { in_numbers result ≡ ruled (id_rules id) tt }
{
    if HIGHEST_ID < id {
        return Err(Refusal::ZoneIdTooHigh);
    }
    Ok(())
}

// The position of the zone with that id.
pub fn named_zone(t: &[u64; TABLE_WORDS], id: u64) -> Result<usize, Refusal>
    requires { length (zones_in t.now) ≤ most_zones }
    ensures { in_numbers result ≡ ruled (name_rules id (zones_in t.now)) (find id (zones_in t.now)) }
{
    check_id(id)?;
    find_zone(t, id).ok_or(Refusal::NoZone)
}

// Whether either set of the zone at z holds a region.
fn holds_any(t: &[u64; TABLE_WORDS], z: usize) -> bool
    requires { Within (zones_in t.now) × (z < length (zones_in t.now)) }
    ensures { result ≡ holds_any z (zones_in t.now) }
{
    0 < set_len(t, z, Side::Cpu) || 0 < set_len(t, z, Side::Iommu)
}

// What looks at the region and the configuration: 9 to 11, 19 and 12.
fn refuse_region(c: &Passed<'_>, side: Side, r: Region) -> Result<(), Refusal>
    ensures { in_numbers result ≡ ruled (region_rules limits (config_in c.now.words.now) side r) tt }
{
    if !well_formed(r) {
        return Err(Refusal::Form);
    }
    if !in_reach(r) {
        return Err(Refusal::Reach);
    }
    if !c.is_configured(r) {
        return Err(Refusal::NotConfigured);
    }
    refuse_use(c, side, r)
}

// The part of it that looks at how the region is to be used.
fn refuse_use(c: &Passed<'_>, side: Side, r: Region) -> Result<(), Refusal>
    ensures { in_numbers result ≡ ruled (use_rules (config_in c.now.words.now) side r) tt }
{
    if is_excessive(side, r) {
        return Err(Refusal::TooManyRights);
    }
    if on_gic(c, side, r) {
        return Err(Refusal::OverGic);
    }
    Ok(())
}

fn on_gic(c: &Passed<'_>, side: Side, r: Region) -> bool
    ensures { result ≡ on_gic (config_in c.now.words.now) side r }
{
    match side {
        Side::Cpu => phys_overlap(r, c.gic_region()),
        Side::Iommu => false,
    }
}

// What looks at the table: 13 to 16.
fn refuse_set(
    c: &[u64; CONFIG_WORDS],
    t: &[u64; TABLE_WORDS],
    z: usize,
    side: Side,
    r: Region,
) -> Result<(), Refusal>
    requires { (Ready c.now t.now × (z < length (zones_in t.now))) × ((configured (config_in c.now) r ≡ true) × (on_gic (config_in c.now) side r ≡ false)) }
    ensures { in_numbers result ≡ ruled (set_rules limits (config_in c.now) z side r (zones_in t.now)) tt }
{
    if set_find(t, z, side, |e| region_eq(r, e)).is_some() {
        return Err(Refusal::RegionThere);
    }
    if is_forbidden(c, t, z, r) {
        return Err(Refusal::PhysicalOverlap);
    }
    if set_find(t, z, side, |e| guest_overlap(r, e)).is_some() {
        return Err(Refusal::GuestOverlap);
    }
    if MOST_IN_SET <= set_len(t, z, side) {
        return Err(Refusal::SetFull);
    }
    Ok(())
}

// The region and all held ones are configured, so an overlap is an equality; and the region is not in the zone's own set of that side.
// So it is forbidden exactly when it is not the GIC and another zone holds it.
fn is_forbidden(c: &[u64; CONFIG_WORDS], t: &[u64; TABLE_WORDS], z: usize, r: Region) -> bool
    requires { Ready c.now t.now × (z < length (zones_in t.now)) }
    ensures { result ≡ shared_elsewhere (config_in c.now) z r (zones_in t.now) }
{
    let config = Passed { words: c };
    !region_eq(r, config.gic_region()) && held_elsewhere(t, z, r)
}

// Whether a zone other than the one at z holds the region.
fn held_elsewhere(t: &[u64; TABLE_WORDS], z: usize, r: Region) -> bool
    requires { Within (zones_in t.now) × (z < length (zones_in t.now)) }
    ensures { result ≡ any (holds r) (others z (zones_in t.now)) }
{
    (0..zone_count(t)).any(|k| k != z && zone_holds(t, k, r))
}
