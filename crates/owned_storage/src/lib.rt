// The state of a terminal with owners in storage.
#![tactic(auto)]

ghost use Rattle.owned_storage.specs.Storage.{OwnedPrepared};

use owned::Owned;
use rules::limits::MOST_REGIONS;
use storage::{Prepared, apply_beside_by};
use zones::{CONFIG_WORDS, TABLE_WORDS};

// Applies a plan beside the current table: a plan for this base is run on a copy in the other slot. 20 to 26 come before the copy is made, and
// leave the other slot as it was; after any other refusal it has the current table.
pub fn apply_beside(
    config: &[u64; CONFIG_WORDS],
    owners: &[u32; MOST_REGIONS],
    current: &[u64; TABLE_WORDS],
    other: &mut [u64; TABLE_WORDS],
    mark: u32,
    plan: &[u8],
) -> Prepared
    ensures { OwnedPrepared config.now owners.now current.now other.old mark plan.now result other.new }
{
    apply_beside_by(&Owned { config, owners }, current, other, mark, plan)
}
