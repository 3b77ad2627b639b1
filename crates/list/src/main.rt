// Reads one plan file, applies the plan to the configuration, edition and zones that it holds itself, and prints the map listing of the table
// that it leaves; of a refused plan it prints what `apply` prints.
#![tactic(auto)]

use listing::{LONGEST_LISTING, list_alone};
use plan_file::{answer_one, print, room};
use std::io;

fn main(rt: HostRuntime) -> io::Result<()> {
    answer_one(&rt, b"list", &mut room(), |plan| list(&rt, plan))
}

fn list(rt: &impl Print, plan: &[u8]) -> io::Result<()> {
    let mut text = [0u8; LONGEST_LISTING];
    list_into(rt, plan, &mut text)
}

fn list_into(rt: &impl Print, plan: &[u8], text: &mut [u8]) -> io::Result<()> {
    let outcome = list_alone(plan, text);
    if outcome.number != 0 {
        return print(rt, outcome);
    }
    rt.write_all(&text[..outcome.place])
}
