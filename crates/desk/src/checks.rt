// The check of the desk's configuration and each fault it can find, and the check of the desk's tables.
use crate::given::{Given, two_zones};
use crate::report::{Name, say};
use rules::limits::MOST_REGIONS;
use std::io;
use zones::{
    Config, TABLE_WORDS, Table, check_config, check_earlier, check_number, check_place, check_table,
};

const ONE_TOO_MANY: u64 = MOST_REGIONS as u64 + 1;

// How many are counted, the position of the GIC, another position and the region put there.
const CHECKED: [(u64, u64, u8, u8); 11] = [
    (4, 3, 0, b'A'),
    (0, 3, 0, b'A'),
    (ONE_TOO_MANY, 3, 0, b'A'),
    (4, 4, 0, b'A'),
    (4, 3, 4, b'H'),
    (4, 3, 2, b'H'),
    (4, 3, 2, b'K'),
    (4, 3, 2, b'X'),
    (4, 3, 2, b'V'),
    (4, 3, 2, b'W'),
    (4, 3, 2, b'B'),
];

pub fn examples(rt: &impl Print) -> io::Result<()> {
    for (count, gic, position, letter) in CHECKED {
        let given = Given {
            count,
            gic,
            position,
            letter,
        };
        check(rt, given)?;
    }
    let none = [0u64; TABLE_WORDS];
    sound(rt, "no zones", 4, none)?;
    for (configured, first) in [(4, 5), (0, 5), (4, 6), (4, 255), (4, 256)] {
        zones(rt, configured, first)?;
    }
    Ok(())
}

// The number, the place and the earlier place that the check gives.
fn check(rt: &impl Print, given: Given) -> io::Result<()> {
    let words = given.words();
    let found = check_config(Config { words });
    println!(rt;
        "the check of {} with the GIC at {} and {} at {}: {} {} {}",
        given.count,
        given.gic,
        Name(given.letter),
        given.position,
        check_number(found),
        check_place(found),
        check_earlier(found)
    )
}

// Two empty zones, the second of them 6.
fn zones(rt: &impl Print, configured: u64, first: u64) -> io::Result<()> {
    print!(rt; "zones {first}")?;
    sound(rt, " and 6", configured, two_zones(first))
}

fn sound(
    rt: &impl Print,
    asked: &str,
    configured: u64,
    words: [u64; TABLE_WORDS],
) -> io::Result<()> {
    let config = Config {
        words: Given::plain(configured, 3).words(),
    };
    let holds = check_table(config, Table { words });
    print!(rt; "{asked} under {configured}")?;
    say(rt, " regions are sound", holds)
}
