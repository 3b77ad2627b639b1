// Applying a plan to a terminal's state: where its words lie, and by value.
ghost use Rattle.std.specs.Prelude.{true, ◌≡◌};
ghost use Rattle.rules.specs.Limits.{limits};
ghost use Rattle.rules.specs.Applying.{answer_alone};
ghost use Rattle.plan.specs.Applying.{applied, AppliedIn, Refilled};
ghost use Rattle.plan.specs.Held.{table_held};
ghost use Rattle.plan.specs.Steps.{AppliedBy, RanOrUndoneBy};

use crate::base::judge;
use crate::finding::{MARKS_BYTES, Parts, find_sections};
use crate::machine::Machine;
use crate::plain::Plain;
use crate::sections::{read_regions_in, read_zones_in};
use crate::words::read_table;
use rules::Outcome;
use rules::numbers::REQUEST_REFUSED;
use zones::{CONFIG_WORDS, Config, TABLE_WORDS, Table, clear_zones};

// A terminal's state.
#[repr(C)]
#[derive(Clone, Copy)]
pub struct State {
    pub config: Config,
    pub table: Table,
    pub edition: u32,
}

// What a terminal answers, and its next state: the state that was given where the number is not 0.
#[derive(Clone, Copy)]
pub struct Applied {
    pub outcome: Outcome,
    pub state: State,
}

// Where the words lie: the table changes only on 0, and the edition is the caller's to raise then.
pub fn apply_words(
    config: &[u64; CONFIG_WORDS],
    table: &mut [u64; TABLE_WORDS],
    edition: u32,
    plan: &[u8],
) -> Outcome
    ensures { AppliedIn config.now table.old edition plan.now result table.new }
{
    apply_by(&Plain { config }, table, edition, plan)
}

// The same of a terminal of any kind.
pub fn apply_by<M: Machine>(
    machine: &M,
    table: &mut [u64; TABLE_WORDS],
    edition: u32,
    plan: &[u8],
) -> Outcome
    ensures { AppliedBy M.rule (M.config machine.now) table.old edition plan.now result table.new }
{
    match judge(machine, table, edition, plan) {
        Ok(parts) => run_or_undo(machine, table, parts),
        Err(away) => away,
    }
}

// The requests in turn, where the table lies. After a refused one the table is read back from the plan's base zones, which are what
// lay there before.
fn run_or_undo<M: Machine>(machine: &M, table: &mut [u64; TABLE_WORDS], plan: Parts) -> Outcome
    requires { table_held plan.zones.now table.old ≡ true }
    ensures { RanOrUndoneBy M.rule (M.config machine.now) table.old plan.entry.requests.now result table.new }
{
    let outcome = machine.run_in(table, plan.requests);
    if outcome.number == REQUEST_REFUSED {
        refill(table, plan.zones);
    }
    outcome
}

// The zones of a section, read into a table's words from which its own are cleared.
pub fn refill(table: &mut [u64; TABLE_WORDS], zones: &[u8])
    ensures { Refilled zones.now table.old table.new }
{
    clear_zones(table);
    let _ = read_table(zones, table);
}

// The same by value.
pub fn apply(state: State, plan: &[u8]) -> Applied
    ensures { result ≡ applied state plan.now }
{
    let words = state.config.words;
    let mut table = state.table.words;
    let edition = state.edition;
    let outcome = apply_words(&words, &mut table, edition, plan);
    if outcome.number != 0 {
        return Applied { outcome, state };
    }
    let config = state.config;
    Applied {
        outcome,
        state: State {
            config,
            table: Table { words: table },
            edition: edition + 1,
        },
    }
}

// A plan applied to its own configuration, edition and zones.
pub fn apply_alone(plan: &[u8]) -> Outcome
    ensures { result ≡ answer_alone limits plan.now }
{
    let found = match find_sections(plan) {
        Ok(found) => found,
        Err(refused) => return Outcome::refused(refused.why, refused.at),
    };
    // Neither section is refused: the plan reads whole. They are read where they are used, since a configuration and a table in a result are copied.
    let mut config = [0u64; CONFIG_WORDS];
    let _ = read_regions_in(&plan[MARKS_BYTES..], found.gic, &mut config);
    let mut table = [0u64; TABLE_WORDS];
    let _ = read_zones_in(&plan[found.zones..], &mut table);
    apply_words(&config, &mut table, found.edition, plan)
}
