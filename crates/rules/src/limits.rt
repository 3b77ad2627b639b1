// Every limit, once: the numbers of specs/Limits.antt for code.
pub const PAGE: u64 = 4096;

// Read, write and execute together.
pub const ALL_RIGHTS: u64 = 7;

pub const GUEST_REACH: u64 = 0x100_0000_0000;

pub const PHYS_REACH: u64 = 0x1_0000_0000_0000;

pub const MOST_REGIONS: usize = 256;

pub const MOST_ZONES: usize = 32;

pub const HIGHEST_ID: u64 = 255;

pub const MOST_IN_SET: usize = 16;

pub const MOST_REQUESTS: u32 = 512;

// The marks of a plan: the GIC's position, the base edition, and the mark of its format.
pub const MARKS: u32 = 3;

pub const FORMAT: u32 = 2;

// The mark of a log in the place of a plan's.
pub const LOG_FORMAT: u32 = 3;
