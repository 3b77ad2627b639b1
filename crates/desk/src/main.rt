// The desk examples, run through the code: each line says what was asked and what was answered, and a table where one matters.
#![tactic(auto)]

mod checks;
mod given;
mod regions;
mod report;
mod requests;

use std::io;

fn main(rt: HostRuntime) -> io::Result<()> {
    regions::examples(&rt)?;
    checks::examples(&rt)?;
    requests::examples(&rt)?;
    requests::more_examples(&rt)?;
    requests::rights_examples(&rt)
}
