// A configuration with its owners, once neither C1 nor C2 applies: whose a region is, is asked of one of these.
ghost use Rattle.std.specs.Prelude.{false, ◌≡◌, ◌+◌, ◌*◌, ◌≤◌, ◌<◌, length, get_or, IfNone, IfSome};
ghost use Rattle.rules.specs.Limits.{most_regions};
ghost use Rattle.zones.specs.Layout.{config_count, config_records, region_words};
ghost use Rattle.zones.specs.Records.{region_at};
ghost use Rattle.owners.specs.Fitting.{in_range, Ranged};

use rules::limits::MOST_REGIONS;
use rules::{Guest, Phys, Region, Rights};
use zones::{CONFIG_COUNT, CONFIG_GIC, CONFIG_RECORDS, CONFIG_WORDS, REGION_WORDS};

#[derive(Clone, Copy)]
pub struct Owned<'a> {
    pub config: &'a [u64; CONFIG_WORDS],
    pub owners: &'a [u32; MOST_REGIONS],
    ghost ranged: { Ranged config.now },
}

impl<'a> Owned<'a> {
    pub fn new(
        config: &'a [u64; CONFIG_WORDS],
        owners: &'a [u32; MOST_REGIONS],
    ) -> Option<Owned<'a>>
        ensures none { IfNone result (in_range config.now ≡ false) }
        ensures some { IfSome result (λ o. (o.config.now ≡ config.now) × (o.owners.now ≡ owners.now)) }
    {
        let count = config[CONFIG_COUNT];
        if (MOST_REGIONS as u64) < count || count <= config[CONFIG_GIC] {
            return None;
        }
        Some(Owned { config, owners })
    }

    // How many regions are configured.
    pub fn count(&self) -> usize
        ensures { result ≡ get_or self.now.config.now config_count 0 }
    {
        self.config[CONFIG_COUNT] as usize
    }

    // The region at a position.
    pub fn region(&self, i: usize) -> Region
        requires { i < most_regions }
        ensures { result ≡ region_at self.now.config.now (config_records + i * region_words) }
    {
        let config = self.config;
        read_region(config, CONFIG_RECORDS + i * REGION_WORDS)
    }
}

// The region whose record starts at word k.
pub fn read_region(s: &[u64], k: usize) -> Region
    requires { k + region_words ≤ length s.now }
    ensures { result ≡ region_at s.now k }
{
    Region {
        v: Guest(s[k]),
        p: Phys(s[k + 1]),
        size: s[k + 2],
        rights: Rights(s[k + 3]),
    }
}
