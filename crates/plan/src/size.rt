// The longest plan, from the limits.
use crate::finding::MARKS_BYTES;
use rules::limits::{MOST_IN_SET, MOST_REGIONS, MOST_REQUESTS, MOST_ZONES};
use rules::widths::{REGION_BYTES, REQUEST_BYTES, SHORT_BYTES};

// The longest of each section, its count among it.
const REGIONS_BYTES: usize = SHORT_BYTES + MOST_REGIONS * REGION_BYTES;

const SET_BYTES: usize = SHORT_BYTES + MOST_IN_SET * REGION_BYTES;

const ZONE_BYTES: usize = SHORT_BYTES + SET_BYTES + SET_BYTES;

const ZONES_BYTES: usize = SHORT_BYTES + MOST_ZONES * ZONE_BYTES;

const REQUESTS_BYTES: usize = SHORT_BYTES + MOST_REQUESTS as usize * REQUEST_BYTES;

// With all that a plan may have; specs/Sizes.antt of `rules` says how many bytes that is.
pub const LONGEST_PLAN: usize = MARKS_BYTES + REGIONS_BYTES + ZONES_BYTES + REQUESTS_BYTES;
