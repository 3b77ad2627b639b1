// Reads plan files, applies each plan to the configuration, edition and zones that it holds itself, and prints for each, on a line, the number,
// the place and the inner number. Where a file has no bytes to judge it says why on standard error and prints nothing.
#![tactic(auto)]

use plan::apply_alone;
use plan_file::{answer_each, print, room};
use std::io;

fn main(rt: HostRuntime) -> io::Result<()> {
    answer_each(&rt, b"apply_each", &mut room(), |plan| {
        print(&rt, apply_alone(plan))
    })
}
