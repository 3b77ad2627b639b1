// What the examples speak of: the regions, each a letter, and the words of configurations and tables.
use rules::limits::ALL_RIGHTS;
use rules::{Guest, Phys, Region, Rights};
use zones::{
    CONFIG_COUNT, CONFIG_GIC, CONFIG_RECORDS, CONFIG_WORDS, REGION_WORDS, TABLE_WORDS, put_region,
    zone_start,
};

// ---- regions

// The regions from A to Z: v, p, size and rights; all but F may be read and written.
const REGIONS: [[u64; REGION_WORDS]; 26] = [
    // The document's A, B and C, then D and E, which fit beside A in one set.
    [0x4000_0000, 0x8000_0000, 0x20_0000, 3],
    [0x4000_0000, 0x8020_0000, 0x20_0000, 3],
    [0x4010_0000, 0x9000_0000, 0x20_0000, 3],
    [0x5000_0000, 0xa000_0000, 0x1000, 3],
    [0x5000_1000, 0xb000_0000, 0x1000, 3],
    // F: nothing. G: the GIC.
    [0, 0, 0, 0],
    [0x0800_0000, 0x0800_0000, 0x1_0000, 3],
    // H to J: one number that is no multiple of a page.
    [0, 0, 0x1800, 3],
    [1, 0, 0x1000, 3],
    [0, 0x800, 0x1000, 3],
    // K, L: an end past 2^64, of p and of v.
    [0, 0xffff_ffff_ffff_f000, 0x2000, 3],
    [0xffff_ffff_ffff_f000, 0, 0x2000, 3],
    // M, and N to R beside it: inside, around, before, after, inside of size 0.
    [0x8000_0000, 0x8000_0000, 0x4000, 3],
    [0x8000_1000, 0x8000_1000, 0x1000, 3],
    [0x7fff_c000, 0x7fff_c000, 0xc000, 3],
    [0x7fff_c000, 0x7fff_c000, 0x4000, 3],
    [0x8000_4000, 0x8000_4000, 0x4000, 3],
    [0x8000_1000, 0x8000_1000, 0, 3],
    // S: as long as the reach of guest addresses. T: as long as can be.
    [0, 0, 0x100_0000_0000, 3],
    [0, 0, 0xffff_ffff_ffff_ffff, 3],
    // U: A with another v.
    [0, 0x8000_0000, 0x20_0000, 3],
    // V, W: an end one page past reach, of v and of p. X: both ends exactly there, v's at 2^40 and p's at 2^48.
    [0x100_0000_0000, 0, 0x1000, 3],
    [0, 0x1_0000_0000_0000, 0x1000, 3],
    [0xff_ffff_f000, 0xffff_ffff_f000, 0x1000, 3],
    // Y: A with size 0x1000. Z: the end of v where that of p may be.
    [0x4000_0000, 0x8000_0000, 0x1000, 3],
    [0xffff_ffff_f000, 0, 0x1000, 3],
];

// The region that a letter stands for; a digit is A with these rights, g the GIC with all rights, and f nothing but a right.
pub fn region(letter: u8) -> Region {
    match letter {
        b'0'..=b'9' => allowing(b'A', u64::from(letter - b'0')),
        b'g' => allowing(b'G', ALL_RIGHTS),
        b'f' => allowing(b'F', 1),
        _ => named(letter),
    }
}

fn allowing(letter: u8, rights: u64) -> Region {
    Region {
        rights: Rights(rights),
        ..named(letter)
    }
}

// What is no letter stands for nothing, as F does.
fn named(letter: u8) -> Region {
    let [v, p, size, rights] = letter
        .checked_sub(b'A')
        .and_then(|k| REGIONS.get(usize::from(k)))
        .copied()
        .unwrap_or_default();
    Region {
        v: Guest(v),
        p: Phys(p),
        size,
        rights: Rights(rights),
    }
}

// ---- configurations

// So many of A, B, C and the GIC, then D and E where more than four are counted; the GIC at a position; and one more region put at another.
#[derive(Clone, Copy)]
pub struct Given {
    pub count: u64,
    pub gic: u64,
    pub position: u8,
    pub letter: u8,
}

impl Given {
    // With no other region put among them.
    pub fn plain(count: u64, gic: u64) -> Given {
        Given {
            count,
            gic,
            position: 0,
            letter: b'A',
        }
    }

    pub fn words(self) -> [u64; CONFIG_WORDS] {
        let mut words = [0u64; CONFIG_WORDS];
        words[CONFIG_COUNT] = self.count;
        words[CONFIG_GIC] = self.gic;
        for (position, letter) in (0..).zip(b"ABCG") {
            put(&mut words, position, *letter);
        }
        if self.count > 4 {
            put(&mut words, 4, b'D');
            put(&mut words, 5, b'E');
        }
        put(&mut words, self.position, self.letter);
        words
    }
}

// Puts a region at a position, counted or not.
fn put(words: &mut [u64; CONFIG_WORDS], position: u8, letter: u8) {
    let k = CONFIG_RECORDS + usize::from(position) * REGION_WORDS;
    put_region(words, k, region(letter));
}

// ---- tables

// Two empty zones: one with the first id, and 6.
pub fn two_zones(first: u64) -> [u64; TABLE_WORDS] {
    let mut words = [0u64; TABLE_WORDS];
    words[0] = 2;
    for (z, id) in [first, 6].into_iter().enumerate() {
        if let Some(word) = words.get_mut(zone_start(z)) {
            *word = id;
        }
    }
    words
}
