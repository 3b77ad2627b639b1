// A second machine over the first: every configured region but the GIC has an owner, and no other zone may hold it. The first machine answers;
// whose a region is, is asked here.
#![tactic(auto)]

mod check;
mod holding;
mod owned;
mod run;
mod sound;
mod steps;
mod translation;

pub use check::{check_earlier, check_number, check_owned, check_place};
pub use run::run_in;
pub use sound::{is_sound, standing};
pub use steps::step_in;
pub use translation::translate_in;
