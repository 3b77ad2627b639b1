// The longest log, from the limits.
use plan::LONGEST_PLAN;
use rules::limits::MOST_REQUESTS;
use rules::widths::SHORT_BYTES;

// A plan with all that it may have, and a claim for each request after their count; specs/Logs.antt of `rules` says how many bytes that is.
pub const LONGEST_LOG: usize = LONGEST_PLAN + SHORT_BYTES + MOST_REQUESTS as usize * SHORT_BYTES;
