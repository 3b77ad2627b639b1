// The requests from two tables: those that lead from the one that is there to the one that is wanted, into a lent buffer, as a plan holds
// them.
#![tactic(auto)]

mod list;
mod tables;

ghost use Rattle.std.specs.Prelude.{◌≡◌};
ghost use Rattle.rules.specs.Numbers.{code};
ghost use Rattle.rules.specs.Wanted.{requests_for};
ghost use Rattle.zones.specs.View.{zones_in};
ghost use Rattle.wanted.specs.Wanted.{own_number, told, InLimits, FillsIn, ListsIn};

use crate::list::put_list;
use puts::fill_measured;
use rules::Refusal;
use rules::limits::MOST_REQUESTS;
use rules::widths::REQUEST_BYTES;
use zones::{CONFIG_WORDS, TABLE_WORDS, standing};

// As many requests as a plan may have.
const MOST: usize = MOST_REQUESTS as usize;

// How many requests stand in the buffer. The two tables are only read. A refusal changes no byte of the buffer; otherwise the list stands at
// its start, and what lies behind stays.
pub fn list_words(
    config: &[u64; CONFIG_WORDS],
    from: &[u64; TABLE_WORDS],
    to: &[u64; TABLE_WORDS],
    buffer: &mut [u8],
) -> Result<usize, Refusal>
    ensures { ListsIn config.now from.now to.now buffer.old (told result) buffer.new }
{
    both_stand(config, from, to)?;
    fill(from, to, buffer)
}

// 1, or 2 of either table.
fn both_stand(
    config: &[u64; CONFIG_WORDS],
    from: &[u64; TABLE_WORDS],
    to: &[u64; TABLE_WORDS],
) -> Result<(), Refusal>
    ensures { code result ≡ own_number config.now from.now to.now }
{
    standing(config, from)?;
    standing(config, to)
}

// Measure, then fill: the list is put where there is no room for it, which says how long it is, and then into the buffer.
fn fill(
    from: &[u64; TABLE_WORDS],
    to: &[u64; TABLE_WORDS],
    buffer: &mut [u8],
) -> Result<usize, Refusal>
    requires { InLimits from.now × InLimits to.now }
    ensures { FillsIn (requests_for (zones_in from.now) (zones_in to.now)) buffer.old (told result) buffer.new }
{
    let put = |b: &mut [u8]| put_list(from, to, b);
    let length = put(&mut [0u8; 0]);
    let count = length / REQUEST_BYTES;
    if MOST < count {
        return Err(Refusal::TooManyRequests);
    }
    let Some(_) = fill_measured(length, put, buffer) else {
        return Err(Refusal::BufferShort);
    };
    Ok(count)
}
