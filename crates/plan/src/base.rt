// A plan judged for a terminal's state, whatever its kind: turned away, or for the state's own base.
ghost use Rattle.rules.specs.Numbers.{code, number};
ghost use Rattle.std.specs.Prelude.{◌≡◌};
ghost use Rattle.plan.specs.Machines.{Judged, JudgedBy};
ghost use Rattle.plan.specs.Steps.{away_with, base_number, own_by};

use crate::comparing::same_zones;
use crate::finding::Parts;
use crate::machine::Machine;
use crate::refused::Refused;
use rules::{Outcome, Refusal};
use zones::TABLE_WORDS;

const LAST_EDITION: u32 = u32::MAX;

// The parts of a plan for the state's own base; or what a plan is answered that is turned away. 1 and 2 speak of the state and come before all
// others, but it is looked at once, and last: here for a refusal that the plan has earned anyway, and else by the run of the requests.
pub fn judge<'a, M: Machine>(
    machine: &M,
    table: &[u64; TABLE_WORDS],
    edition: u32,
    plan: &'a [u8],
) -> Result<Parts<'a>, Outcome>
    ensures judged { Judged (M.found plan.entry.now) (M.given machine.now) (own_by M.rule (M.config machine.now) table.now) table.now edition plan.entry.now result }
    ensures applied { JudgedBy M.rule (M.config machine.now) table.now edition plan.entry.now result }
{
    let found = match machine.find_sections(plan) {
        Ok(found) => found,
        Err(refused) => return Err(away(machine.standing(table), refused)),
    };
    let parts = found.parts(plan);
    let given = machine.gives(parts.regions, parts.gic);
    match base_number(given, table, edition, parts.edition, parts.zones) {
        Ok(()) => Ok(parts),
        Err(why) => Err(away(machine.standing(table), Refused { why, at: 0 })),
    }
}

// The first of 23 to 26 that applies: whether a plan gives the terminal's configuration, both editions, and the plan's bytes from the
// zones' count on.
pub fn base_number(
    same: bool,
    table: &[u64; TABLE_WORDS],
    edition: u32,
    base: u32,
    zones: &[u8],
) -> Result<(), Refusal>
    ensures { code result ≡ base_number same table.now edition base zones.now }
{
    if !same {
        return Err(Refusal::OtherConfig);
    }
    if edition != base {
        return Err(Refusal::OtherEdition);
    }
    if edition == LAST_EDITION {
        return Err(Refusal::NoNextEdition);
    }
    if !same_zones(zones, table) {
        return Err(Refusal::OtherZones);
    }
    Ok(())
}

// What a plan is answered that has earned a refusal, by how the terminal's own state stands.
fn away(own: Result<(), Refusal>, earned: Refused) -> Outcome
    ensures { result ≡ away_with (code own) (number earned.why) earned.at }
{
    match own {
        Ok(()) => turned_away(0, u32::from(earned.why), earned.at),
        Err(unsound) => turned_away(u32::from(unsound), u32::from(earned.why), earned.at),
    }
}

// A number that the plan has earned, unless the terminal's own number says that its state is unsound. Both are any numbers: `away` gives it
// those of refusals.
pub fn turned_away(own: u32, number: u32, place: usize) -> Outcome
    ensures { result ≡ away_with own number place }
{
    if own != 0 {
        return Outcome {
            number: own,
            place: 0,
            inner: 0,
        };
    }
    Outcome {
        number,
        place,
        inner: 0,
    }
}
