// Who may hold what, and whether every zone holds what it may.
ghost use Rattle.std.specs.Prelude.{◌+◌, ◌≤◌, ◌<◌, ◌≡◌, get_or};
ghost use Rattle.rules.specs.Configuration.{gic_of};
ghost use Rattle.rules.specs.Limits.{most_zones};
ghost use Rattle.rules.specs.Owners.{owner_of, may_hold};
ghost use Rattle.rules.specs.Regions.{region_eq};
ghost use Rattle.zones.specs.Layout.{set_words, table_words};
ghost use Rattle.zones.specs.Records.{records_at};
ghost use Rattle.zones.specs.View.{config_in, zone_in, zones_in};
ghost use Rattle.owners.specs.Fitting.{own_set, own_zone, own_table};
ghost use Rattle.owners.specs.View.{owned_in};

use crate::check::GIC_OWNER;
use crate::owned::{Owned, read_region};
use region::region_eq;
use rules::limits::{MOST_IN_SET, MOST_ZONES};
use rules::{Region, Side};
use zones::{CONFIG_GIC, REGION_WORDS, SET_WORDS, TABLE_WORDS, zone_start};

impl Owned<'_> {
    // The owner of a region: the one at its position. The GIC's own number is nobody's, and stands for no owner too.
    fn owner_of(&self, r: Region) -> u32
        ensures { result ≡ owner_of (owned_in self.now.config.now self.now.owners.now) r }
    {
        let position = (0..self.count()).find(|i| region_eq(r, self.region(*i)));
        position.map_or(GIC_OWNER, |i| self.owners[i])
    }

    fn is_gic(&self, r: Region) -> bool
        ensures { result ≡ region_eq r (gic_of (config_in self.now.config.now)) }
    {
        region_eq(r, self.region(self.config[CONFIG_GIC] as usize))
    }

    // Whether the zone with that id may hold the region on that side.
    pub fn may_hold(&self, id: u64, side: Side, r: Region) -> bool
        ensures { result ≡ may_hold (owned_in self.now.config.now self.now.owners.now) id side r }
    {
        let owns = u64::from(self.owner_of(r)) == id;
        owns || match side {
            Side::Cpu => false,
            Side::Iommu => self.is_gic(r),
        }
    }

    // Whether counts are within limits and every zone holds what it may.
    pub fn holds_own(&self, t: &[u64; TABLE_WORDS]) -> bool
        ensures { result ≡ own_table (owned_in self.now.config.now self.now.owners.now) (zones_in t.now) }
    {
        let n = t[0] as usize;
        n <= MOST_ZONES && (0..n).all(|z| self.zone_own(t, z))
    }

    fn zone_own(&self, t: &[u64; TABLE_WORDS], z: usize) -> bool
        requires { z < most_zones }
        ensures { result ≡ own_zone (owned_in self.now.config.now self.now.owners.now) (zone_in t.now z) }
    {
        let k = zone_start(z);
        let id = t[k];
        self.set_own(id, Side::Cpu, t, k + 1) && self.set_own(id, Side::Iommu, t, k + 1 + SET_WORDS)
    }

    // The same of the set whose count stands in word k.
    fn set_own(&self, id: u64, side: Side, t: &[u64; TABLE_WORDS], k: usize) -> bool
        requires { k + set_words ≤ table_words }
        ensures { result ≡ own_set (owned_in self.now.config.now self.now.owners.now) id side (records_at t.now (k + 1) (get_or t.now k 0)) }
    {
        let n = t[k] as usize;
        n <= MOST_IN_SET
            && (0..n).all(|i| self.may_hold(id, side, read_region(t, k + 1 + i * REGION_WORDS)))
    }
}
