// What the program writes.
use crate::given::region;
use std::{fmt, io};
use zones::{REGION_WORDS, SET_WORDS, TABLE_WORDS, ZONE_WORDS};

// What was asked, and whether it is so.
pub fn say(rt: &impl Print, asked: &str, holds: bool) -> io::Result<()> {
    let answer = if holds { "yes" } else { "no" };
    println!(rt; "{asked}: {answer}")
}

// A region by its letter, A to E or G, or else by its numbers.
#[derive(Clone, Copy)]
pub struct Name(pub u8);

impl fmt::Display for Name {
    fn fmt<W: fmt::Write>(&self, f: &mut fmt::Formatter<W>) -> fmt::Result {
        let letter = self.0;
        match letter {
            b'A'..=b'E' | b'G' => write!(f, "{}", letter as char),
            _ => {
                let r = region(letter);
                write!(f, "{}", Record(&[r.v.0, r.p.0, r.size, r.rights.0]))
            }
        }
    }
}

// The numbers of a region.
#[derive(Clone, Copy)]
struct Record<'a>(&'a [u64; REGION_WORDS]);

impl fmt::Display for Record<'_> {
    fn fmt<W: fmt::Write>(&self, f: &mut fmt::Formatter<W>) -> fmt::Result {
        let [v, p, size, rights] = self.0;
        write!(f, "(v 0x{v:x} p 0x{p:x} size 0x{size:x} rights {rights})")
    }
}

// The regions of a set, whose words are their count and then the records.
#[derive(Clone, Copy)]
struct Set<'a>(&'a [u64]);

impl fmt::Display for Set<'_> {
    fn fmt<W: fmt::Write>(&self, f: &mut fmt::Formatter<W>) -> fmt::Result {
        let Some((count, records)) = self.0.split_first() else {
            return Ok(());
        };
        if *count == 0 {
            return f.write_str(" none");
        }
        let (records, _) = records.as_chunks::<REGION_WORDS>();
        for record in records.iter().take(*count as usize) {
            write!(f, " {}", Record(record))?;
        }
        Ok(())
    }
}

// A table, a line for each zone in order: its id and its two sets.
pub fn show_table(rt: &impl Print, table: &[u64; TABLE_WORDS]) -> io::Result<()> {
    let (zones, _) = table[1..].as_chunks::<ZONE_WORDS>();
    for zone in zones.iter().take(table[0] as usize) {
        let (cpu, iommu) = zone[1..].split_at(SET_WORDS);
        println!(rt;
            "    zone {}: CPU{}; IOMMU{}",
            zone[0],
            Set(cpu),
            Set(iommu)
        )?;
    }
    Ok(())
}
