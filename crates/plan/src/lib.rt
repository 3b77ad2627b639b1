// Plans: bytes that nobody trusts become requests, or a number and a place.
#![tactic(auto)]

mod applying;
mod base;
mod comparing;
mod field;
mod finding;
mod machine;
mod plain;
mod read;
mod refused;
mod sections;
mod size;
mod words;

pub use applying::{Applied, State, apply, apply_alone, apply_by, apply_words, refill};
pub use base::{base_number, judge, turned_away};
pub use comparing::same_config;
pub use finding::{
    Found, Four, MARKS_BYTES, Parts, find_four, find_from_zones, find_sections, pass_numbers,
    pass_numbers_at, pass_regions, pass_regions_at, pass_zones, whole_at, whole_numbered,
};
pub use machine::Machine;
pub use plain::Plain;
pub use read::{Read, find_base, find_requests, read_plan};
pub use refused::{Numbered, Refused};
pub use sections::{
    Marks, Regions, Zones, read_format_marks, read_marks, read_regions, read_regions_in,
    read_requests, read_zones, read_zones_in,
};
pub use size::LONGEST_PLAN;
