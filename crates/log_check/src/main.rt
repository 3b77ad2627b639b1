// Reads one log file, runs the rules beside what it claims, and prints on one line the number, the place, what the rules answer and what was
// claimed. Where there are no bytes to judge it says why on standard error and prints nothing. It calls itself `log`.
#![tactic(auto)]

use logs::{LONGEST_LOG, check_log};
use plan_file::{Line, answer_one};
use rules::LogAnswer;
use std::io;
use zones::{CONFIG_WORDS, TABLE_WORDS};

// A byte more, by which a file that is longer than any log shows.
const BYTES_READ: usize = LONGEST_LOG + 1;

fn main(rt: HostRuntime) -> io::Result<()> {
    answer_one(&rt, b"log", &mut [0; BYTES_READ], |log| {
        let LogAnswer { outcome, claimed } = check(log);
        println!(rt; "{} {claimed}", Line(outcome))
    })
}

// The end zones are as long as those of a log can be, and nobody reads them here.
fn check(log: &[u8]) -> LogAnswer {
    let mut config = [0u64; CONFIG_WORDS];
    let mut table = [0u64; TABLE_WORDS];
    let mut zones = [0u8; LONGEST_LOG];
    check_log(&mut config, &mut table, log, &mut zones)
}
