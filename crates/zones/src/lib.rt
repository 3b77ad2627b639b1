// The configuration and the zone table as words of memory, and what is checked and done there.
#![tactic(auto)]

mod apart;
mod claims;
mod commit;
mod config;
mod decide;
mod keys;
mod layout;
mod owners;
mod passed;
mod reading;
mod run;
mod sound;
mod steps;
mod table;
mod translation;
mod trial;
mod words;

pub use claims::audit_in;
pub use config::{Config, check_config, check_earlier, check_number, check_place, check_words};
pub use layout::{
    CONFIG_COUNT, CONFIG_GIC, CONFIG_RECORDS, CONFIG_WORDS, REGION_WORDS, SET_WORDS, TABLE_WORDS,
    ZONE_WORDS,
};
pub use reading::{region_from, request_in};
pub use run::{make_request, run_in};
pub use sound::{check_table, is_sound, standing};
pub use steps::{answer_in, step, step_in};
pub use table::{Table, clear_zones, zone_start};
pub use translation::{Stretch, translate, translate_in};
pub use trial::try_in;
pub use words::{clear_words, count_words, holds_region, put_region, region_in, same_words};
