// Reads one plan file for terminals with owners, applies the plan to the configuration, owners, edition and zones that it holds itself, and
// prints the number, the place and the inner number on one line. Where there are no bytes to judge it says why on standard error and prints
// nothing.
#![tactic(auto)]

ghost use Rattle.std.specs.Prelude.{◌+◌, ◌≡◌, length};
ghost use Rattle.rules.specs.Limits.{limits};
ghost use Rattle.rules.specs.OwnedSizes.{longest_owned_size};

use owned::{LONGEST_OWNED_PLAN, apply_alone};
use plan_file::{answer_one, print};
use std::io;

// A byte more, by which a file that is longer than any plan shows.
const BYTES_READ: usize = LONGEST_OWNED_PLAN + 1;

// Room for the bytes that are read. bank_apply_each has the same: a crate above plan_file and owned for these lines alone would be no plainer.
fn room() -> [u8; BYTES_READ]
    ensures { longest_owned_size limits + 1 ≡ length result }
{
    [0; BYTES_READ]
}

fn main(rt: HostRuntime) -> io::Result<()> {
    answer_one(
        &rt,
        b"bank_apply",
        &mut room(),
        |plan| print(&rt, apply_alone(plan)),
    )
}
