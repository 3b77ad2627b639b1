// What the programs over plan files share: the file that an argument names is read, its bytes are judged, and an answer is printed. Where
// there are no bytes to judge it is said why on standard error.
#![tactic(auto)]

mod reading;
mod report;
mod size;

ghost use Rattle.std.specs.Prelude.{IfSome};
ghost use Rattle.io.specs.Counts.{IsPrefixLen};
ghost use Rattle.plan_file.specs.Judging.{Judges};

use reading::argument_count;
pub use reading::read_at;
use report::usage;
pub use report::{Line, print};
pub use size::room;
use std::io;
use std::rt::{Env, Files};

// The program's own name and the file's.
const ARGUMENTS: usize = 2;

// What a program over one file does: the file is read into the lent bytes, and those that it has are judged. No plan has as many bytes as
// `room` has, so of a longer file the rest would not change the answer.
pub fn answer_one<R: Env + Files + Eprint, F: Fn(&[u8]) -> io::Result<()>>(
    rt: &R,
    program: &[u8],
    bytes: &mut [u8],
    judge: F,
) -> io::Result<()>
    requires { F.IsAlwaysCallable judge }
    ensures { Judges F.Fn judge bytes.new result }
{
    match read(rt, program, bytes) {
        Some(count) => judge(&bytes[..count]),
        None => Ok(()),
    }
}

// How many bytes of the one file stand at the buffer's start; where there is no such file, standard error says why.
pub fn read<R: Env + Files + Eprint>(rt: &R, program: &[u8], bytes: &mut [u8]) -> Option<usize>
    ensures { IfSome result (λ n. IsPrefixLen n bytes.new) }
{
    if argument_count(rt) != ARGUMENTS {
        usage(rt, program);
        return None;
    }
    read_at(rt, program, 1, bytes)
}

// The same over many files, each in turn; where there is none, standard error says how the program is called.
pub fn answer_each<R: Env + Files + Eprint, F: Fn(&[u8]) -> io::Result<()>>(
    rt: &R,
    program: &[u8],
    bytes: &mut [u8],
    judge: F,
) -> io::Result<()>
    requires { F.IsAlwaysCallable judge }
    ensures { Judges F.Fn judge bytes.new result }
{
    let count = argument_count(rt);
    if count < ARGUMENTS {
        usage(rt, program);
    }
    for argument in 1..count {
        answer(rt, program, argument, bytes, &judge)?;
    }
    Ok(())
}

// What is said of the file that an argument names.
fn answer<R: Env + Files + Eprint, F: Fn(&[u8]) -> io::Result<()>>(
    rt: &R,
    program: &[u8],
    argument: usize,
    bytes: &mut [u8],
    judge: &F,
) -> io::Result<()>
    requires { F.IsAlwaysCallable judge.now }
    ensures { Judges F.Fn judge.now bytes.new result }
{
    let Some(count) = read_at(rt, program, argument, bytes) else {
        return Ok(());
    };
    judge(&bytes[..count])
}
