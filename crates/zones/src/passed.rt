// A configuration that the check finds sound, and what is read of it.
ghost use Rattle.std.specs.Prelude.{◌<◌, ◌≤◌, ◌≡◌, length, get_or};
ghost use Rattle.rules.specs.Limits.{most_regions};
ghost use Rattle.rules.specs.Regions.{no_region};
ghost use Rattle.rules.specs.Configuration.{gic_of};
ghost use Rattle.rules.specs.Tables.{configured};
ghost use Rattle.zones.specs.View.{config_in, ConfigPassed};

use crate::config::region_at;
use crate::layout::{CONFIG_COUNT, CONFIG_GIC, CONFIG_RECORDS, CONFIG_WORDS};
use crate::words::find_record;
use region::region_eq;
use rules::Region;

#[derive(Clone, Copy)]
pub struct Passed<'a> {
    pub words: &'a [u64; CONFIG_WORDS],
    ghost sound: { ConfigPassed words.now },
}

impl Passed<'_> {
    pub fn count(&self) -> usize
        ensures { (result ≡ length (config_in self.now.words.now).regions) × (result ≤ most_regions) }
    {
        self.words[CONFIG_COUNT] as usize
    }

    // The GIC's position.
    pub fn gic(&self) -> usize
        ensures { (result ≡ (config_in self.now.words.now).gic) × (result < most_regions) }
    {
        self.words[CONFIG_GIC] as usize
    }

    pub fn region(&self, i: usize) -> Region
        requires { i < length (config_in self.now.words.now).regions }
        ensures { result ≡ get_or (config_in self.now.words.now).regions i no_region }
    {
        region_at(self.words, i)
    }

    pub fn gic_region(&self) -> Region
        ensures { result ≡ gic_of (config_in self.now.words.now) }
    {
        let i = self.gic();
        region_at(self.words, i)
    }

    pub fn is_configured(&self, r: Region) -> bool
        ensures { result ≡ configured (config_in self.now.words.now) r }
    {
        let words = self.words;
        find_record(words, CONFIG_RECORDS, self.count(), |e| region_eq(r, e)).is_some()
    }
}
