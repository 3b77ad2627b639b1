// The terminal's one state, changed where it lies.
#![tactic(auto)]

ghost use Rattle.terminal.specs.Terminal.{Applies};

use plan::State;
use rules::Outcome;

// The plan is judged and run by value, and then the next state is stored whole; until then nothing of the lent state is changed.
pub fn apply_in(state: &mut State, plan: &[u8]) -> Outcome
    ensures { Applies state.old plan.now state.new result }
{
    let done = plan::apply(*state, plan);
    *state = done.state;
    done.outcome
}
