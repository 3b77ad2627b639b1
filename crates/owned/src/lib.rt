// Plans of terminals with owners: an owners section stands between the regions and the base zones, and has as many entries as there are
// regions. All else is the first machine's plan, and its parts are asked.
#![tactic(auto)]

mod applying;
mod comparing;
mod finding;
mod machine;
mod owners_section;
mod size;

pub use applying::{apply_alone, apply_words};
pub use comparing::same_owned;
pub use finding::find_sections;
pub use machine::Owned;
pub use owners_section::read_owners;
pub use size::LONGEST_OWNED_PLAN;
