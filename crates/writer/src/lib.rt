// The planner's writer: from a configuration, a table, an edition and a list of requests, the plan into a lent buffer. And a terminal's
// zones alone, as a plan would hold them.
#![tactic(auto)]

mod base;
mod room;
mod sections;

ghost use Rattle.std.specs.Prelude.{◌≡◌};
ghost use Rattle.writer.specs.Writer.{no_next, WritesIn};

use crate::sections::put_plan;
pub use base::write_zones;
pub use room::fill_buffer;
use rules::{Outcome, Refusal};
use zones::{CONFIG_WORDS, TABLE_WORDS, standing, try_in};

const LAST_EDITION: u32 = u32::MAX;

// The requests are lent as the bytes that a plan holds them as; bytes after the last whole one are not looked at. A refusal changes no byte
// of the buffer. The table is lent so that the requests can be tried where it lies, and is afterwards what it was.
pub fn write_words(
    config: &[u64; CONFIG_WORDS],
    table: &mut [u64; TABLE_WORDS],
    edition: u32,
    requests: &[u8],
    buffer: &mut [u8],
) -> Outcome
    ensures { WritesIn config.now table.old edition requests.now buffer.old result table.new buffer.new }
{
    if edition == LAST_EDITION {
        return no_next(config, table);
    }
    let tried = try_in(config, table, requests);
    if tried.number != 0 {
        return tried;
    }
    let put = |b: &mut [u8]| put_plan(config, table, edition, requests, b);
    fill_buffer(put, buffer)
}

// 25, unless the state itself is unsound.
fn no_next(config: &[u64; CONFIG_WORDS], table: &[u64; TABLE_WORDS]) -> Outcome
    ensures { result ≡ no_next config.now table.now }
{
    match standing(config, table) {
        Ok(()) => Outcome::refused(Refusal::NoNextEdition, 0),
        Err(why) => Outcome::refused(why, 0),
    }
}
