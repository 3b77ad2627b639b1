// The owners' section: a count, which must be the regions', and an id for each of them.
ghost use Rattle.std.specs.Prelude.{◌≤◌, ◌≡◌};
ghost use Rattle.lists.specs.Places.{tab};
ghost use Rattle.lists.specs.Room.{room};
ghost use Rattle.rules.specs.Limits.{most_regions, limits};
ghost use Rattle.rules.specs.OwnedPlan.{owned_regions};
ghost use Rattle.owned.specs.Section.{id_at, owners_in};

use fields::u32_at;
use plan::{pass_numbers, pass_regions};
use rules::limits::MOST_REGIONS;
use rules::widths::SHORT_BYTES;

// The owners behind the regions whose count `s` begins with, and zeros in what is free; zeros where they do not read.
pub fn read_owners(s: &[u8]) -> [u32; MOST_REGIONS]
    ensures { result ≡ owners_in ((owned_regions limits).read s.now) }
{
    let Ok(end) = pass_regions(s) else {
        return [0; MOST_REGIONS];
    };
    let count = u32_at(s, 0);
    let Ok(_) = pass_numbers(&s[end..], count) else {
        return [0; MOST_REGIONS];
    };
    ids_at(&s[end..], count as usize)
}

// The n ids behind the count, and zeros in what is free.
fn ids_at(s: &[u8], n: usize) -> [u32; MOST_REGIONS]
    requires { n ≤ most_regions }
    ensures { result ≡ room most_regions 0 (tab n (id_at s.now)) }
{
    let mut owners = [0; MOST_REGIONS];
    for i in 0..n {
        owners[i] = u32_at(s, SHORT_BYTES + i * SHORT_BYTES);
    }
    owners
}
