// The desk's regions, and each way in which two of them can lie, run through the code. A line has the letters of what was asked and what was
// answered. Examples on requests and on the checks are stored questions with stored answers: vectors/DESK.md says where each of them runs.
#![tactic(auto)]

mod given;

use given::region;
use region::{guest_overlap, in_reach, phys_overlap, region_eq, well_formed};
use std::io;

fn main(rt: HostRuntime) -> io::Result<()> {
    println!(rt; "A region: is it well formed, is it in reach?")?;
    for letter in b"AFHIJKLXVZWST" {
        ask(&rt, *letter)?;
    }
    println!(rt;
        "Two regions: are they equal, do they overlap physically, do they in guest addresses?"
    )?;
    beside(&rt, b'A', b"ABUYCG")?;
    beside(&rt, b'C', b"A")?;
    beside(&rt, b'G', b"G")?;
    beside(&rt, b'M', b"ONPQR")
}

fn ask(rt: &impl Print, letter: u8) -> io::Result<()> {
    let r = region(letter);
    let name = letter as char;
    let formed = said(well_formed(r));
    let reached = said(in_reach(r));
    println!(rt; "{name} {formed} {reached}")
}

// One region beside each of the others.
fn beside(rt: &impl Print, one: u8, others: &[u8]) -> io::Result<()> {
    for other in others {
        ask_both(rt, one, *other)?;
    }
    Ok(())
}

fn ask_both(rt: &impl Print, one: u8, other: u8) -> io::Result<()> {
    let r = region(one);
    let s = region(other);
    let name = one as char;
    let name_beside = other as char;
    let equal = said(region_eq(r, s));
    let phys = said(phys_overlap(r, s));
    let guest = said(guest_overlap(r, s));
    println!(rt; "{name} {name_beside} {equal} {phys} {guest}")
}

fn said(holds: bool) -> &'static str {
    if holds { "yes" } else { "no" }
}
