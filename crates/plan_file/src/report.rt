// What the programs write: an answer to standard output, anything else to standard error. Where standard error takes no text there is nowhere to
// say so, and such a failure is let go.
use rules::Outcome;
use std::fmt::InlineText;
use std::{fmt, io};

// An outcome as the programs write it: the number, the place and the inner number.
#[derive(Clone, Copy)]
pub struct Line(pub Outcome);

impl fmt::Display for Line {
    fn fmt<W: fmt::Write>(&self, f: &mut fmt::Formatter<W>) -> fmt::Result {
        let Line(outcome) = self;
        write!(f, "{} {} {}", outcome.number, outcome.place, outcome.inner)
    }
}

pub fn print(rt: &impl Print, outcome: Outcome) -> io::Result<()> {
    println!(rt; "{}", Line(outcome))
}

// Bytes as text: what is no text in them shows as the sign that stands for it.
#[derive(Clone, Copy)]
struct Text<'a>(&'a [u8]);

impl fmt::Display for Text<'_> {
    fn fmt<W: fmt::Write>(&self, f: &mut fmt::Formatter<W>) -> fmt::Result {
        for chunk in self.0.utf8_chunks() {
            f.write_str(chunk.valid())?;
            if !chunk.invalid().is_empty() {
                f.write_str("\u{fffd}")?;
            }
        }
        Ok(())
    }
}

pub fn say(rt: &impl Eprint, program: &[u8], text: &str) {
    let _ = eprintln!(rt; "{}: {text}", Text(program));
}

pub fn usage(rt: &impl Eprint, program: &[u8]) {
    let _ = eprintln!(rt; "usage: {} FILE", Text(program));
}

// More than the longest of the system's texts has, with the number behind it.
const REASON_BYTES: usize = 320;

// With the system's reason.
pub fn cannot_open(rt: &impl Eprint, program: &[u8], name: &str, error: io::Error) {
    let reason = InlineText::<REASON_BYTES>::of(error);
    let words = without_number(reason.as_str());
    let _ = eprintln!(rt; "{}: cannot open {name}: {words}", Text(program));
}

// std writes the error's number behind the system's text.
fn without_number(reason: &str) -> &str {
    reason
        .split_once(" (os error ")
        .map_or(reason, |(words, _)| words)
}

pub fn cannot_open_bytes(rt: &impl Eprint, program: &[u8], name: &[u8]) {
    let _ = eprintln!(rt;
        "{}: cannot open {}: its name is not UTF-8",
        Text(program),
        Text(name)
    );
}

pub fn cannot_read(rt: &impl Eprint, program: &[u8], name: &str) {
    let _ = eprintln!(rt; "{}: cannot read {name}", Text(program));
}
