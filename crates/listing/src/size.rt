// How long a listing can be.
use rules::limits::{MOST_IN_SET, MOST_ZONES};

// The longest fields, each with what stands after it: an id, three numbers of `0x` and 16 digits, rights, a shift; and the word of a side.
const OTHER_FIELDS: usize = 4 + 3 * 19 + 2 + 12;

const CPU_LINE: usize = OTHER_FIELDS + 4;

const IOMMU_LINE: usize = OTHER_FIELDS + 6;

// A buffer of so many bytes is always long enough.
pub const LONGEST_LISTING: usize = MOST_ZONES * (MOST_IN_SET * CPU_LINE + MOST_IN_SET * IOMMU_LINE);
