// What one kind of terminal has of its own. How a plan is judged, and what is done with one that is for the terminal's base, is written once
// for all kinds (base, applying).
ghost use Rattle.std.specs.Prelude.{ℕ, Bool, List, ◌≡◌};
ghost use Rattle.formats.specs.Formats.{bad};
ghost use Rattle.rules.specs.Numbers.{code};
ghost use Rattle.rules.specs.Steps.{StepRule};
ghost use Rattle.plan.specs.Machines.{FindsBy, StandsBy};
ghost use Rattle.plan.specs.Steps.{own_by, RanBy};
ghost use Rattle.plan.specs.Told.{Told, told};
ghost use Rattle.plan.specs.declared.finding.Found.{Found as Plan·Found};

use crate::finding::Found;
use crate::refused::Refused;
use rules::{Outcome, Refusal};
use zones::TABLE_WORDS;

pub trait Machine {
    // Its step rule, and the configuration that a value of it has.
    ghost rule: { StepRule };

    ghost config: { Self → rule.Config };

    // Where the sections of a plan for it begin; and whether bytes from the regions' count on, with the GIC's position, give its configuration.
    ghost found: { List ℕ → Told Plan·Found };

    ghost given: { Self → List ℕ → ℕ → Bool };

    fn find_sections(&self, plan: &[u8]) -> Result<Found, Refused>
        ensures told { told result ≡ found plan.now }
        ensures finds { FindsBy rule (config self.now) (given self.now) plan.now result };

    fn gives(&self, regions: &[u8], gic: u32) -> bool
        ensures { result ≡ given self.now regions.now gic };

    // 1 or 2, which speak of the state.
    fn standing(&self, table: &[u64; TABLE_WORDS]) -> Result<(), Refusal>
        ensures { code result ≡ own_by rule (config self.now) table.now };

    fn run_in(&self, table: &mut [u64; TABLE_WORDS], requests: &[u8]) -> Outcome
        ensures ran { RanBy rule (config self.now) table.old requests.now result table.new }
        ensures stands { StandsBy rule (config self.now) table.old };

    // No refusal of bytes has the number of none.
    ghost refuses: { (b : List ℕ) (k : ℕ) (left : List ℕ) → rule.read b ≡ bad k left → k ≡ 0 → ⊥ };
}
