// The desk examples on regions, and each way in which two of them can lie.
use crate::given::region;
use crate::report::{Name, say};
use region::{guest_overlap, in_reach, phys_overlap, region_eq, well_formed};
use std::io;

pub fn examples(rt: &impl Print) -> io::Result<()> {
    for letter in b"AFHIJKLXVZWST" {
        ask(rt, *letter)?;
    }
    beside(rt, b'A', b"ABUYCG")?;
    beside(rt, b'C', b"A")?;
    beside(rt, b'G', b"G")?;
    beside(rt, b'M', b"ONPQR")
}

fn ask(rt: &impl Print, letter: u8) -> io::Result<()> {
    let r = region(letter);
    println!(rt; "region {}", Name(letter))?;
    say(rt, "    is well formed", well_formed(r))?;
    say(rt, "    is in reach", in_reach(r))
}

// One region beside each of the others.
fn beside(rt: &impl Print, one: u8, others: &[u8]) -> io::Result<()> {
    for other in others {
        ask_both(rt, one, *other)?;
    }
    Ok(())
}

fn ask_both(rt: &impl Print, one: u8, other: u8) -> io::Result<()> {
    let r = region(one);
    let s = region(other);
    println!(rt; "regions {} and {}", Name(one), Name(other))?;
    say(rt, "    are equal", region_eq(r, s))?;
    say(rt, "    overlap physically", phys_overlap(r, s))?;
    say(rt, "    overlap in guest addresses", guest_overlap(r, s))
}
