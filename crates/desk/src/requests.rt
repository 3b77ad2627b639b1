// The desk examples on requests. A request is three letters: its kind, its zone and its region. The zone is a digit, a letter from
// a for 10 to w for 32, x for 255 or y for 256; the region is F, nothing, where the kind takes none.
use crate::given::{Given, region, two_zones};
use crate::report::{Name, say, show_table};
use std::{fmt, io};
use zones::{CONFIG_WORDS, TABLE_WORDS, make_request, step_in};

pub fn examples(rt: &impl Print) -> io::Result<()> {
    // Add 5 again, 256 and 255.
    run(rt, Given::plain(4, 3), 5, "15F 1yF 1xF")?;
    // A on both sides of 5 and in 6; B, which adjoins A, in 6.
    run(rt, Given::plain(4, 3), 5, "35A 35A 55A 56A 36A 36B")?;
    // The GIC.
    run(rt, Given::plain(4, 3), 5, "35G 55G 56G 55G")?;
    // C crosses A in guest addresses.
    run(rt, Given::plain(4, 3), 5, "35A 35C 36C")?;
    // A zone that holds only the GIC, removed after it.
    run(rt, Given::plain(4, 3), 5, "55G 25F 65G 25F")?;
    // Zones 0 to 31, and one too many, also after one is removed.
    run(
        rt,
        Given::plain(4, 3),
        5,
        "10F 11F 12F 13F 14F 17F 18F 19F 1aF 1bF 1cF 1dF 1eF 1fF 1gF 1hF 1iF 1jF 1kF 1lF 1mF 1nF 1oF 1pF 1qF 1rF 1sF 1tF 1uF 1vF 1wF 26F 1wF",
    )?;
    // Form, reach, and whether a region is configured.
    run(rt, Given::plain(4, 3), 5, "35F 35H 35K 35X 35V 35Z 35W 35Y")
}

pub fn more_examples(rt: &impl Print) -> io::Result<()> {
    // Order is kept: A, D and E; A taken away; A put back.
    run(rt, Given::plain(6, 3), 5, "35A 35D 35E")?;
    run(rt, Given::plain(6, 3), 5, "35A 35D 35E 45A")?;
    run(rt, Given::plain(6, 3), 5, "35A 35D 35E 45A 35A")?;
    // A region and a zone that are not there, and what is no request.
    run(rt, Given::plain(4, 3), 5, "35A 45B 37B 05F 0yF")?;
    // An unsound configuration, an unsound table, both.
    run(rt, Given::plain(4, 4), 5, "17F")?;
    run(rt, Given::plain(4, 3), 256, "17F")?;
    run(rt, Given::plain(4, 4), 256, "17F")
}

pub fn rights_examples(rt: &impl Print) -> io::Result<()> {
    // A with each of the rights, on both sides.
    run_with(rt, 0, b'1', "351 551")?;
    run_with(rt, 0, b'2', "352 552")?;
    run_with(rt, 0, b'3', "353 553")?;
    run_with(rt, 0, b'4', "354 554")?;
    run_with(rt, 0, b'5', "355 555")?;
    run_with(rt, 0, b'6', "356 556")?;
    run_with(rt, 0, b'7', "357 557")?;
    // No right, and a bit more than there are.
    run_with(rt, 0, b'A', "350 358 359")?;
    // Too many rights: not asked where the region is not configured, and asked before the GIC.
    run_with(rt, 3, b'g', "357 35g 55g 35A 35A")?;
    // What is held, named with other rights; and rights alone, where a zone is added or removed.
    run_with(rt, 0, b'A', "35A 351 451 45A 17f 26f")
}

// The configuration, two empty zones of which the second is 6; then requests, and the table that they leave.
fn run(rt: &impl Print, given: Given, first: u64, requests: &str) -> io::Result<()> {
    heading(rt, given, first)?;
    println!(rt; "")?;
    at_desk(rt, given, first, requests)
}

// The document's four regions with another at a position, and zones 5 and 6.
fn run_with(rt: &impl Print, position: u8, letter: u8, requests: &str) -> io::Result<()> {
    let given = Given {
        position,
        letter,
        ..Given::plain(4, 3)
    };
    heading(rt, given, 5)?;
    println!(rt; "; {} at {position}", Name(letter))?;
    at_desk(rt, given, 5, requests)
}

fn heading(rt: &impl Print, given: Given, first: u64) -> io::Result<()> {
    let Given { count, gic, .. } = given;
    print!(rt; "---- {count} regions, the GIC at {gic}; zones {first} and 6")
}

fn at_desk(rt: &impl Print, given: Given, first: u64, requests: &str) -> io::Result<()> {
    let config = given.words();
    let mut table = two_zones(first);
    for asked in requests.split(' ').filter_map(Asked::read) {
        make(rt, &config, &mut table, asked)?;
    }
    show_table(rt, &table)
}

// Makes a request and writes what was asked and answered; of a refusal, also whether the table is the one that was given.
fn make(
    rt: &impl Print,
    config: &[u64; CONFIG_WORDS],
    table: &mut [u64; TABLE_WORDS],
    asked: Asked,
) -> io::Result<()> {
    let before = *table;
    let request = make_request(asked.kind, asked.zone, region(asked.letter));
    match step_in(config, table, request) {
        Ok(()) => println!(rt; "{asked}: 0"),
        Err(why) => {
            println!(rt; "{asked}: {}", u32::from(why))?;
            say(
                rt,
                "    the table is the one that was given",
                before == *table,
            )
        }
    }
}

#[derive(Clone, Copy)]
struct Asked {
    kind: u32,
    zone: u32,
    letter: u8,
}

impl Asked {
    fn read(text: &str) -> Option<Asked> {
        let [kind, id, letter] = text.as_bytes() else {
            return None;
        };
        Some(Asked {
            kind: digit(*kind)?,
            zone: zone_of(*id)?,
            letter: *letter,
        })
    }
}

fn zone_of(id: u8) -> Option<u32> {
    match id {
        b'x' => Some(255),
        b'y' => Some(256),
        _ => digit(id),
    }
}

// The letters go on after 9.
fn digit(letter: u8) -> Option<u32> {
    (letter as char).to_digit(36)
}

impl fmt::Display for Asked {
    fn fmt<W: fmt::Write>(&self, f: &mut fmt::Formatter<W>) -> fmt::Result {
        let name = Name(self.letter);
        match (self.kind, self.letter) {
            (0, _) => write!(f, "no request, of"),
            (1, b'F') => write!(f, "add"),
            (2, b'F') => write!(f, "remove"),
            // Such a request has no region; one that has is no request.
            (1, _) => write!(f, "add with {name},"),
            (2, _) => write!(f, "remove with {name},"),
            (3, _) => write!(f, "CPU {name} to"),
            (4, _) => write!(f, "CPU {name} out of"),
            (5, _) => write!(f, "IOMMU {name} to"),
            _ => write!(f, "IOMMU {name} out of"),
        }?;
        write!(f, " {}", self.zone)
    }
}
