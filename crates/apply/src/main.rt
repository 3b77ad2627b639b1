// Reads one plan file, applies the plan to the configuration, edition and zones that it holds itself, and prints the number, the
// place and the inner number on one line. Where there are no bytes to judge it says why on standard error and prints nothing.
#![tactic(auto)]

use plan::apply_alone;
use plan_file::{answer_one, print, room};
use std::io;

fn main(rt: HostRuntime) -> io::Result<()> {
    answer_one(
        &rt,
        b"apply",
        &mut room(),
        |plan| print(&rt, apply_alone(plan)),
    )
}
