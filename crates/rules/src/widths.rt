// How wide a region and what holds one are: the numbers of specs/Fields.antt and specs/Run.antt for code.
// The numbers of a region: v, p, size, rights.
pub const REGION_NUMBERS: usize = 4;

// Bytes of a count, a mark, an id or a kind; of a number of a region.
pub const SHORT_BYTES: usize = 4;

pub const LONG_BYTES: usize = 8;

pub const REGION_BYTES: usize = REGION_NUMBERS * LONG_BYTES;

// A request is its kind, its zone id and its region.
pub const REQUEST_BYTES: usize = 2 * SHORT_BYTES + REGION_BYTES;
