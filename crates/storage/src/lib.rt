// A terminal's state in storage, where the power may be cut at any time: a mark, which is the edition, and two slots for its table.
#![tactic(auto)]

mod copying;

ghost use Rattle.std.specs.Prelude.{◌≡◌};
ghost use Rattle.storage.specs.Beside.{judged_before, BesideBy, PreparedBy};
ghost use Rattle.storage.specs.Storage.{slot_number, PreparedIn, StoredIn};

use copying::copy_words;
use plan::{Machine, Plain, judge};
use rules::Outcome;
use rules::numbers::{CUT, OTHER_ZONES};
use zones::{CONFIG_WORDS, TABLE_WORDS};

// What a plan is answered, and the mark that is to be written then: where the number is not 0, the one that stands.
#[derive(Clone, Copy)]
pub struct Prepared {
    pub outcome: Outcome,
    pub mark: u32,
}

// Which slot has the table of an edition.
pub fn slot_of(mark: u32) -> u32
    ensures { result ≡ slot_number mark }
{
    mark % 2
}

// The same table in another slot.
pub fn copy_table(current: &[u64; TABLE_WORDS], other: &mut [u64; TABLE_WORDS])
    ensures { other.new ≡ current.now }
{
    copy_words(current, other);
}

// Whether a number is told before anything is copied: bytes that are no plan, or a plan for another base.
pub fn judged_before(number: u32) -> bool
    ensures { result ≡ judged_before number }
{
    (CUT..=OTHER_ZONES).contains(&number)
}

// Applies a plan beside the current table: a plan for this base is run on a copy in the other slot. 20 to 26 come before the copy is made, and
// leave the other slot as it was; after any other refusal it has the current table.
pub fn apply_beside(
    config: &[u64; CONFIG_WORDS],
    current: &[u64; TABLE_WORDS],
    other: &mut [u64; TABLE_WORDS],
    mark: u32,
    plan: &[u8],
) -> Prepared
    ensures { PreparedIn config.now current.now other.old mark plan.now result other.new }
{
    apply_beside_by(&Plain { config }, current, other, mark, plan)
}

// The same of a terminal of any kind.
pub fn apply_beside_by<M: Machine>(
    machine: &M,
    current: &[u64; TABLE_WORDS],
    other: &mut [u64; TABLE_WORDS],
    mark: u32,
    plan: &[u8],
) -> Prepared
    ensures { PreparedBy M.rule (M.config machine.now) current.now other.old mark plan.now result other.new }
{
    let outcome = answer_beside(machine, current, other, mark, plan);
    if outcome.number == 0 {
        return Prepared {
            outcome,
            mark: mark + 1,
        };
    }
    if !judged_before(outcome.number) {
        copy_table(current, other);
    }
    Prepared { outcome, mark }
}

// The requests run on a copy. The table that they began with is still there, so nothing is undone.
fn answer_beside<M: Machine>(
    machine: &M,
    current: &[u64; TABLE_WORDS],
    other: &mut [u64; TABLE_WORDS],
    edition: u32,
    plan: &[u8],
) -> Outcome
    ensures { BesideBy M.rule (M.config machine.now) current.now other.old edition plan.now result other.new }
{
    match judge(machine, current, edition, plan) {
        Ok(own) => {
            copy_table(current, other);
            machine.run_in(other, own.requests)
        }
        Err(away) => away,
    }
}

// The same of two slots. The mark is the caller's to write, after the slot that is not current lasts; and so is the answer to give, after the
// mark lasts.
pub fn apply_stored(
    config: &[u64; CONFIG_WORDS],
    first: &mut [u64; TABLE_WORDS],
    second: &mut [u64; TABLE_WORDS],
    mark: u32,
    plan: &[u8],
) -> Prepared
    ensures { StoredIn config.now first.old second.old mark plan.now result first.new second.new }
{
    let slot = slot_of(mark);
    if slot == 0 {
        return apply_beside(config, first, second, mark, plan);
    }
    apply_beside(config, second, first, mark, plan)
}
