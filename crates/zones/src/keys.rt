// Keys: they lead from a physical start to the position of a configured region. A key is the region's start, a multiple of the page, and
// its position, which is below the page, in one number. Nothing is known of lent keys, so who follows one looks at what it leads to; keys
// that are out of order cost time and change no answer.
ghost use Rattle.std.specs.Prelude.{◌%◌, ◌≤◌, ◌<◌, ◌≡◌, length, get_or, IfSome};
ghost use Rattle.rules.specs.Limits.{most_regions, page};
ghost use Rattle.rules.specs.Regions.{no_region};
ghost use Rattle.rules.specs.Tables.{configured};
ghost use Rattle.zones.specs.Spans.{fits, FitBelow};
ghost use Rattle.zones.specs.View.{config_in, ConfigPassed};

use crate::config::region_at;
use crate::layout::CONFIG_WORDS;
use crate::passed::Passed;
use region::{in_reach, region_eq, well_formed};
use rules::Region;
use rules::limits::{MOST_REGIONS, PAGE};

// Fewer regions than these are compared two by two: keys of them are not worth their ordering.
pub const MANY: usize = 16;

// The keys of the positions from the first on, as far as regions are well formed and in reach; so many they are.
pub fn fill_keys(c: &[u64; CONFIG_WORDS], keys: &mut [u64]) -> usize
    requires { length keys.old ≤ most_regions }
    ensures { ((result ≤ length keys.old) × FitBelow c.now result) × (length keys.new ≡ length keys.old) }
{
    for i in 0..keys.len() {
        let r = region_at(c, i);
        if !is_fit(r) {
            return i;
        }
        keys[i] = r.p.0 + i as u64;
    }
    keys.len()
}

fn is_fit(r: Region) -> bool
    ensures { result ≡ fits r }
{
    well_formed(r) && in_reach(r)
}

// The position that a key names.
pub fn position_of(key: u64) -> usize
    ensures { result ≡ key % page }
{
    (key % PAGE) as usize
}

// A sound configuration with the keys of its regions.
#[derive(Clone, Copy)]
pub struct Keyed<'a> {
    pub config: Passed<'a>,
    pub keys: &'a [u64; MOST_REGIONS],
}

impl<'a> Keyed<'a> {
    pub fn new(words: &'a [u64; CONFIG_WORDS], keys: &'a [u64; MOST_REGIONS]) -> Keyed<'a>
        requires { ConfigPassed words.now }
        ensures { result.config.words.now ≡ words.now }
    {
        let config = Passed { words };
        Keyed { config, keys }
    }

    // A position whose region is r, if there are many and the keys lead to one.
    pub fn place_of(&self, r: Region) -> Option<usize>
        ensures { IfSome result (λ k. (k < length (config_in self.now.config.words.now).regions) × (r ≡ get_or (config_in self.now.config.words.now).regions k no_region)) }
    {
        let n = self.config.count();
        if n < MANY {
            return None;
        }
        let all = self.keys;
        let keys = &all[..n];
        let j = keys.partition_point(|key| *key < r.p.0);
        let k = position_of(*keys.get(j)?);
        if k < n && region_eq(r, self.config.region(k)) {
            return Some(k);
        }
        None
    }

    // Whether a region is configured: as the keys lead to it, or else as a look at every position tells.
    pub fn is_configured(&self, r: Region) -> bool
        ensures { result ≡ configured (config_in self.now.config.words.now) r }
    {
        self.place_of(r).is_some() || self.config.is_configured(r)
    }
}
