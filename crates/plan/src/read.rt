// A whole plan: what it says, and the stretches of its base zones and of its requests.
ghost use Rattle.std.specs.Prelude.{◌≡◌, length};
ghost use Rattle.rules.specs.Differing.{zones_of};
ghost use Rattle.rules.specs.Limits.{limits};
ghost use Rattle.rules.specs.Plan.{read_plan};
ghost use Rattle.plan.specs.Told.{told};
ghost use Rattle.plan.specs.Read.{records_in, read_answer};

use crate::finding::{Found, MARKS_BYTES, find_sections};
use crate::refused::Refused;
use crate::sections::{read_regions_in, read_zones_in};
use rules::widths::SHORT_BYTES;
use zones::{CONFIG_WORDS, Config, TABLE_WORDS, Table};

// What a plan says: where its first request begins, and its configuration, edition and zones.
#[derive(Clone, Copy)]
pub struct Read {
    pub requests: usize,
    pub edition: u32,
    pub config: Config,
    pub table: Table,
}

pub fn read_plan(plan: &[u8]) -> Result<Read, Refused>
    ensures { told result ≡ read_answer (length plan.now) (read_plan limits plan.now) }
{
    let Found {
        gic,
        edition,
        zones,
        requests,
    } = find_sections(plan)?;
    // Neither section is refused: the plan reads whole.
    let mut config = [0u64; CONFIG_WORDS];
    let _ = read_regions_in(&plan[MARKS_BYTES..], gic, &mut config);
    let mut table = [0u64; TABLE_WORDS];
    let _ = read_zones_in(&plan[zones..], &mut table);
    Ok(Read {
        requests,
        edition,
        config: Config { words: config },
        table: Table { words: table },
    })
}

// The base zones of a plan, their count with them: that stretch of the caller's own bytes; empty where the plan does not read whole.
pub fn find_base(plan: &[u8]) -> &[u8]
    ensures { result.now ≡ zones_of limits plan.now }
{
    let Ok(found) = find_sections(plan) else {
        return &plan[..0];
    };
    let end = found.requests - SHORT_BYTES;
    &plan[found.zones..end]
}

// The requests of a plan: that stretch of the caller's own bytes, their count left out; empty where the plan does not read whole.
pub fn find_requests(plan: &[u8]) -> &[u8]
    ensures { result.now ≡ records_in plan.now }
{
    let Ok(found) = find_sections(plan) else {
        return &plan[..0];
    };
    &plan[found.requests..]
}
