// Applying a plan with owners.
ghost use Rattle.std.specs.Prelude.{◌≡◌};
ghost use Rattle.rules.specs.Applying.{answer_alone_by};
ghost use Rattle.rules.specs.Limits.{limits};
ghost use Rattle.rules.specs.OwnedPlan.{owned_steps};
ghost use Rattle.owned.specs.Applying.{OwnedApplied};

use crate::finding::find_sections;
use crate::machine::Owned;
use crate::owners_section::read_owners;
use plan::{MARKS_BYTES, apply_by, read_regions_in, read_zones_in};
use rules::Outcome;
use rules::limits::MOST_REGIONS;
use zones::{CONFIG_WORDS, TABLE_WORDS};

// Where the words lie: the table changes only on 0, and the edition is the caller's to raise then.
pub fn apply_words(
    config: &[u64; CONFIG_WORDS],
    owners: &[u32; MOST_REGIONS],
    table: &mut [u64; TABLE_WORDS],
    edition: u32,
    plan: &[u8],
) -> Outcome
    ensures { OwnedApplied config.now owners.now table.old edition plan.now result table.new }
{
    apply_by(&Owned { config, owners }, table, edition, plan)
}

// A plan applied to its own configuration, owners, edition and zones.
pub fn apply_alone(plan: &[u8]) -> Outcome
    ensures { result ≡ answer_alone_by (owned_steps limits) plan.now }
{
    let found = match find_sections(plan) {
        Ok(found) => found,
        Err(refused) => return Outcome::refused(refused.why, refused.at),
    };
    let owners = read_owners(&plan[MARKS_BYTES..]);
    // Neither section is refused: the plan reads whole.
    let mut config = [0u64; CONFIG_WORDS];
    let _ = read_regions_in(&plan[MARKS_BYTES..], found.gic, &mut config);
    let mut table = [0u64; TABLE_WORDS];
    let _ = read_zones_in(&plan[found.zones..], &mut table);
    apply_words(&config, &owners, &mut table, found.edition, plan)
}
