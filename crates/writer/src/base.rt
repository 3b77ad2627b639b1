// The zones of a terminal's table as a plan holds its base: the section with its count, into a lent buffer.
ghost use Rattle.writer.specs.Writer.{WritesZonesIn};

use crate::room::fill_buffer;
use crate::sections::put_base;
use rules::Outcome;
use zones::{CONFIG_WORDS, TABLE_WORDS, standing};

// 1, 2, 28, or 0 with how many bytes the section has. A refusal changes no byte of the buffer.
pub fn write_zones(
    config: &[u64; CONFIG_WORDS],
    table: &[u64; TABLE_WORDS],
    buffer: &mut [u8],
) -> Outcome
    ensures { WritesZonesIn config.now table.now buffer.old result buffer.new }
{
    if let Err(why) = standing(config, table) {
        return Outcome::refused(why, 0);
    }
    fill_buffer(|b| put_base(table, b), buffer)
}
