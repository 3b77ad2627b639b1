// Every number that refuses, once; the names are those of the header for C and of the crate for Rust.
// A configuration or a table that is unsound.
pub const UNSOUND_CONFIG: u32 = 1;

pub const UNSOUND_TABLE: u32 = 2;

// A request.
pub const NO_REQUEST: u32 = 3;

pub const ZONE_ID_TOO_HIGH: u32 = 4;

pub const ZONE_THERE: u32 = 5;

pub const NO_ZONE: u32 = 6;

pub const ZONES_FULL: u32 = 7;

pub const ZONE_IN_USE: u32 = 8;

pub const FORM: u32 = 9;

pub const REACH: u32 = 10;

pub const NOT_CONFIGURED: u32 = 11;

pub const TOO_MANY_RIGHTS: u32 = 19;

pub const OVER_GIC: u32 = 12;

pub const REGION_THERE: u32 = 13;

pub const PHYSICAL_OVERLAP: u32 = 14;

pub const GUEST_OVERLAP: u32 = 15;

pub const SET_FULL: u32 = 16;

pub const NO_REGION: u32 = 17;

// A translation.
pub const NOT_COVERED: u32 = 18;

// A plan.
pub const CUT: u32 = 20;

pub const COUNT: u32 = 21;

pub const TRAILING: u32 = 22;

pub const OTHER_CONFIG: u32 = 23;

pub const OTHER_EDITION: u32 = 24;

pub const NO_NEXT_EDITION: u32 = 25;

pub const OTHER_ZONES: u32 = 26;

pub const REQUEST_REFUSED: u32 = 27;

// A lent buffer.
pub const BUFFER_SHORT: u32 = 28;

// A list of requests.
pub const TOO_MANY_REQUESTS: u32 = 29;

// A log: what a terminal claims is not what the rules answer.
pub const FALSE_CLAIM: u32 = 30;

// C1 to C6, of a configuration, and C7, of its owners.
pub const C1_COUNT: u32 = 1;

pub const C2_GIC: u32 = 2;

pub const C3_NOT_ZERO: u32 = 3;

pub const C4_FORM: u32 = 4;

pub const C5_REACH: u32 = 5;

pub const C6_OVERLAP: u32 = 6;

pub const C7_OWNER: u32 = 7;
