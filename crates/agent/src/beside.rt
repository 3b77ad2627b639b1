// A plan for a terminal whose state is in storage.
ghost use Rattle.storage.specs.Beside.{prepared_in};
ghost use Rattle.storage.specs.Storage.{PreparedIn};

use storage::apply_beside;
use zones::{CONFIG_WORDS, TABLE_WORDS};

// Applies a plan beside the current table, which is not written: the number; and the mark to write, the place and the inner number. After 0
// the next table lies in the other slot, after 20 to 26 what lay there, and after any other number a copy of the current table.
#[unsafe(no_mangle)]
pub extern "C" fn peatmitten_beside_words(
    config: &[u64; CONFIG_WORDS],
    current: &[u64; TABLE_WORDS],
    other: &mut [u64; TABLE_WORDS],
    mark: u32,
    plan: &[u8],
    answer: &mut [u64; 3],
) -> u32
    ensures { PreparedIn config.now current.now other.old mark plan.now (prepared_in result answer.new) other.new }
{
    let prepared = apply_beside(config, current, other, mark, plan);
    let outcome = prepared.outcome;
    *answer = [
        prepared.mark as u64,
        outcome.place as u64,
        outcome.inner as u64,
    ];
    outcome.number
}
