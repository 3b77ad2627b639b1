// The file that an argument names, read into lent bytes. Where it can't be, standard error says why.
ghost use Rattle.std.specs.Prelude.{IfSome};
ghost use Rattle.io.specs.Counts.{IsPrefixLen};
ghost use Rattle.std.specs.Io.{ReadsAtMost};

use crate::report::{cannot_open, cannot_open_bytes, cannot_read, say};
use std::env::FillError;
use std::io::Read;
use std::rt::{Env, Files};
use std::{fs, io};

// The longest name that the system opens has a byte less.
const NAME_BYTES: usize = 4096;

// How many arguments there are, the program's own name among them. An argument that has no place in the buffer is one too.
pub fn argument_count(env: &impl Env) -> usize {
    (0..usize::MAX)
        .find(|i| matches!(env.arg(*i, &mut [0u8; 1]), Err(FillError::NotPresent)))
        .unwrap_or(usize::MAX)
}

// How many bytes of the file stand at the buffer's start. The program's name is for what it says.
pub fn read_at<R: Env + Files + Eprint>(
    rt: &R,
    program: &[u8],
    argument: usize,
    bytes: &mut [u8],
) -> Option<usize>
    ensures { IfSome result (λ n. IsPrefixLen n bytes.new) }
{
    let mut name = [0u8; NAME_BYTES];
    let Ok(length) = rt.arg(argument, &mut name) else {
        say(rt, program, "the file's name is too long");
        return None;
    };
    read_named(rt, program, &name[..length], bytes)
}

// std opens only names that are text.
fn read_named<R: Files + Eprint>(
    rt: &R,
    program: &[u8],
    name: &[u8],
    bytes: &mut [u8],
) -> Option<usize>
    ensures { IfSome result (λ n. IsPrefixLen n bytes.new) }
{
    let Ok(path) = str::from_utf8(name) else {
        cannot_open_bytes(rt, program, name);
        return None;
    };
    read_path(rt, program, path, bytes)
}

fn read_path<R: Files + Eprint>(
    rt: &R,
    program: &[u8],
    path: &str,
    bytes: &mut [u8],
) -> Option<usize>
    ensures { IfSome result (λ n. IsPrefixLen n bytes.new) }
{
    let mut file = fs::open(rt, path)
        .map_err(|e| cannot_open(rt, program, path, e))
        .ok()?;
    fill(&mut file, bytes)
        .map_err(|_| cannot_read(rt, program, path))
        .ok()
}

// Reads until the buffer is full or the file ends, and answers how many bytes stand at the buffer's start.
fn fill(file: &mut impl Read, bytes: &mut [u8]) -> io::Result<usize>
    ensures { ReadsAtMost result bytes.new }
{
    let mut done = 0;
    while done < bytes.len() {
        let n = file.read(&mut bytes[done..])?;
        if n == 0 {
            break;
        }
        done += n;
    }
    Ok(done)
}
