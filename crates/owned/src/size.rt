// The longest plan with owners, from the limits.
use plan::LONGEST_PLAN;
use rules::limits::MOST_REGIONS;
use rules::widths::SHORT_BYTES;

// An owners section for as many regions as there may be; specs/OwnedSizes.antt of `rules` says how many bytes that is.
pub const LONGEST_OWNED_PLAN: usize = LONGEST_PLAN + SHORT_BYTES + MOST_REGIONS * SHORT_BYTES;
