// The map listing of a table into a lent buffer; and that of the table which a plan leaves at its own base.
#![tactic(auto)]

mod lines;
mod size;
mod text;

ghost use Rattle.std.specs.Prelude.{◌≡◌};
ghost use Rattle.rules.specs.Limits.{limits};
ghost use Rattle.rules.specs.Listing.{list, list_alone, list_after};
ghost use Rattle.plan.specs.Applying.{terminal_in, state_in};
ghost use Rattle.rules.specs.Applying.{apply};
ghost use Rattle.zones.specs.View.{stored_config, stored_table};

use crate::lines::put_listing;
use plan::{MARKS_BYTES, apply_words, find_sections, read_regions_in, read_zones_in};
use rules::Outcome;
pub use size::LONGEST_LISTING;
use writer::fill_buffer;
use zones::{CONFIG_WORDS, TABLE_WORDS, standing};

// A refusal changes no byte of the buffer.
pub fn list_table(
    config: &[u64; CONFIG_WORDS],
    table: &[u64; TABLE_WORDS],
    buffer: &mut [u8],
) -> Outcome
    ensures { record { outcome = result; buffer = buffer.new } ≡ list limits (stored_config config.now) (stored_table table.now) buffer.old }
{
    if let Err(why) = standing(config, table) {
        return Outcome::refused(why, 0);
    }
    fill_buffer(|b| put_listing(b, table), buffer)
}

// For a program without a terminal: the plan is applied to its own configuration, edition and zones, and what it leaves is listed.
pub fn list_alone(plan: &[u8], buffer: &mut [u8]) -> Outcome
    ensures { record { outcome = result; buffer = buffer.new } ≡ list_alone limits plan.now buffer.old }
{
    let found = match find_sections(plan) {
        Ok(found) => found,
        Err(refused) => return Outcome::refused(refused.why, refused.at),
    };
    // Neither section is refused: the plan reads whole. They are read where they are used, as by `apply_alone`.
    let mut config = [0u64; CONFIG_WORDS];
    let _ = read_regions_in(&plan[MARKS_BYTES..], found.gic, &mut config);
    let mut table = [0u64; TABLE_WORDS];
    let _ = read_zones_in(&plan[found.zones..], &mut table);
    list_after(&config, &mut table, found.edition, plan, buffer)
}

// The plan at a state, and the listing of what it leaves there.
fn list_after(
    config: &[u64; CONFIG_WORDS],
    table: &mut [u64; TABLE_WORDS],
    edition: u32,
    plan: &[u8],
    buffer: &mut [u8],
) -> Outcome
    ensures { record { outcome = result; buffer = buffer.new } ≡ list_after limits (apply limits (terminal_in (state_in config.now table.old edition)) plan.now) buffer.old }
{
    let outcome = apply_words(config, table, edition, plan);
    if outcome.number != 0 {
        return outcome;
    }
    list_table(config, table, buffer)
}
