// Logs that terminals send back: the rules are run beside what one claims, and its end zones written.
#![tactic(auto)]

mod finding;
mod size;

ghost use Rattle.std.specs.Prelude.{◌≡◌};
ghost use Rattle.logs.specs.Logs.{CheckedIn, JudgedIn};

pub use finding::{FoundLog, find_log};
use plan::{MARKS_BYTES, read_regions_in, read_zones_in};
use rules::widths::SHORT_BYTES;
use rules::{LogAnswer, Outcome};
pub use size::LONGEST_LOG;
use writer::write_zones;
use zones::{CONFIG_WORDS, TABLE_WORDS, audit_in};

// The two lent arrays are room to work in: where the log reads whole, they hold afterwards its configuration and the table at which the
// check ended. Only where the number is 0 is the buffer changed.
pub fn check_log(
    config: &mut [u64; CONFIG_WORDS],
    table: &mut [u64; TABLE_WORDS],
    log: &[u8],
    buffer: &mut [u8],
) -> LogAnswer
    ensures { CheckedIn config.old table.old log.now buffer.old result config.new table.new buffer.new }
{
    match find_log(log) {
        Err(refused) => LogAnswer {
            outcome: Outcome::refused(refused.why, refused.at),
            claimed: 0,
        },
        Ok(found) => {
            let claims = found.end + SHORT_BYTES;
            judge(
                config,
                table,
                found.gic,
                &log[MARKS_BYTES..],
                &log[found.zones..],
                &log[found.requests..found.end],
                &log[claims..],
                buffer,
            )
        }
    }
}

// A log that reads whole: its bytes from the regions' count and from the zones' count on, its requests and its claims.
fn judge(
    config: &mut [u64; CONFIG_WORDS],
    table: &mut [u64; TABLE_WORDS],
    gic: u32,
    regions: &[u8],
    zones: &[u8],
    requests: &[u8],
    claims: &[u8],
    buffer: &mut [u8],
) -> LogAnswer
    ensures { JudgedIn gic regions.now zones.now requests.now claims.now buffer.old result config.new table.new buffer.new }
{
    // Neither section is refused: the log reads whole.
    let _ = read_regions_in(regions, gic, config);
    let _ = read_zones_in(zones, table);
    let audited = audit_in(config, table, requests, claims);
    let outcome = audited.outcome;
    if outcome.number != 0 {
        return audited;
    }
    let written = write_zones(config, table, buffer);
    LogAnswer {
        outcome: written,
        claimed: 0,
    }
}
