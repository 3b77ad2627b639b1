// The configuration and the owners that a plan gives, held against lent words: each is compared where it stands.
ghost use Rattle.std.specs.Prelude.{◌≤◌, ◌≡◌};
ghost use Rattle.lists.specs.First.{all};
ghost use Rattle.lists.specs.Places.{places};
ghost use Rattle.rules.specs.Limits.{most_regions};
ghost use Rattle.owned.specs.Held.{same_owner, owners_held, owned_held};

use fields::u32_at;
use plan::{pass_numbers, pass_regions, same_config};
use rules::limits::MOST_REGIONS;
use rules::widths::SHORT_BYTES;
use zones::CONFIG_WORDS;

// The bytes from the regions' count on, and the GIC's position, held against a configuration's words and its owners.
pub fn same_owned(
    s: &[u8],
    gic: u32,
    config: &[u64; CONFIG_WORDS],
    owners: &[u32; MOST_REGIONS],
) -> bool
    ensures { result ≡ owned_held s.now gic config.now owners.now }
{
    if !same_config(s, gic, config) {
        return false;
    }
    let Ok(end) = pass_regions(s) else {
        return false;
    };
    same_owners(&s[end..], u32_at(s, 0), owners)
}

// The owners' section from its count on, held against the first `count` of the owners.
fn same_owners(s: &[u8], count: u32, owners: &[u32; MOST_REGIONS]) -> bool
    requires { count ≤ most_regions }
    ensures { result ≡ owners_held s.now count owners.now }
{
    let Ok(_) = pass_numbers(s, count) else {
        return false;
    };
    same_ids(s, count as usize, owners)
}

// Whether the n ids behind the count are the first n of the owners.
fn same_ids(s: &[u8], n: usize, owners: &[u32; MOST_REGIONS]) -> bool
    requires { n ≤ most_regions }
    ensures { result ≡ all (same_owner s.now owners.now) (places 0 n) }
{
    (0..n).all(|i| owners[i] == u32_at(s, SHORT_BYTES + i * SHORT_BYTES))
}
