// Where things stand among words: the numbers of specs/Layout.antt for code.
use rules::limits::{MOST_IN_SET, MOST_REGIONS, MOST_ZONES};
use rules::widths::REGION_NUMBERS;

// A record is a region's numbers.
pub const REGION_WORDS: usize = REGION_NUMBERS;

// A configuration is its count, the GIC's position, then its records.
pub const CONFIG_COUNT: usize = 0;

pub const CONFIG_GIC: usize = 1;

pub const CONFIG_RECORDS: usize = 2;

pub const CONFIG_WORDS: usize = CONFIG_RECORDS + MOST_REGIONS * REGION_WORDS;

// A set is its count, then its records; a zone is its id, then its CPU and its IOMMU set; a table is its count, then its zones.
pub const SET_WORDS: usize = 1 + MOST_IN_SET * REGION_WORDS;

pub const ZONE_WORDS: usize = 1 + 2 * SET_WORDS;

pub const TABLE_WORDS: usize = 1 + MOST_ZONES * ZONE_WORDS;
