// How much of a file is read.
ghost use Rattle.std.specs.Prelude.{◌+◌, ◌≡◌, length};
ghost use Rattle.rules.specs.Limits.{limits};
ghost use Rattle.rules.specs.Sizes.{longest_size};

use plan::LONGEST_PLAN;

// A byte more, by which a file that is longer than any plan shows.
pub const BYTES_READ: usize = LONGEST_PLAN + 1;

// Room for the bytes that are read.
pub fn room() -> [u8; BYTES_READ]
    ensures { longest_size limits + 1 ≡ length result }
{
    [0; BYTES_READ]
}
