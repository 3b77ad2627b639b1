// Where the parts of a log begin: every field is passed over once, and nothing is stored.
ghost use Rattle.std.specs.Prelude.{◌≡◌, length};
ghost use Rattle.rules.specs.Limits.{limits};
ghost use Rattle.rules.specs.Logs.{read_log};
ghost use Rattle.plan.specs.Told.{told};
ghost use Rattle.logs.specs.Found.{found_log};

use plan::{Four, Refused, find_four, pass_numbers_at};
use rules::Refusal;
use rules::limits::LOG_FORMAT;
use rules::widths::REQUEST_BYTES;

// The GIC's position, where the base zones (at their count) and the first request begin, and where the requests end, which is where the
// claims' count stands.
#[derive(Clone, Copy)]
pub struct FoundLog {
    pub gic: u32,
    pub zones: usize,
    pub requests: usize,
    pub end: usize,
}

// 20 or 21 in the order of the file, then 22: as many claims as there are requests, and nothing after them.
pub fn find_log(log: &[u8]) -> Result<FoundLog, Refused>
    ensures { told result ≡ found_log (length log.now) (read_log limits log.now) }
{
    let Four { found, end } = find_four(log, LOG_FORMAT)?;
    let count = (end - found.requests) / REQUEST_BYTES;
    let last = pass_numbers_at(log, end, count as u32)?;
    if last < log.len() {
        return Err(Refused {
            why: Refusal::Trailing,
            at: last,
        });
    }
    Ok(FoundLog {
        gic: found.gic,
        zones: found.zones,
        requests: found.requests,
        end,
    })
}
