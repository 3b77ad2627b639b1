// The regions that the examples speak of, each a letter. The program `desk` has the same table: in a crate of its own the two lines of code
// would be a public function, whose contract would say the whole table once more.
use rules::{Guest, Phys, Region, Rights};

// The regions from A to Z: v, p, size and rights; all but F may be read and written.
const REGIONS: [[u64; 4]; 26] = [
    // The document's A, B and C. D and E are in no example here.
    [0x4000_0000, 0x8000_0000, 0x20_0000, 3],
    [0x4000_0000, 0x8020_0000, 0x20_0000, 3],
    [0x4010_0000, 0x9000_0000, 0x20_0000, 3],
    [0x5000_0000, 0xa000_0000, 0x1000, 3],
    [0x5000_1000, 0xb000_0000, 0x1000, 3],
    // F: nothing. G: the GIC.
    [0, 0, 0, 0],
    [0x0800_0000, 0x0800_0000, 0x1_0000, 3],
    // H to J: one number that is no multiple of a page.
    [0, 0, 0x1800, 3],
    [1, 0, 0x1000, 3],
    [0, 0x800, 0x1000, 3],
    // K, L: an end past 2^64, of p and of v.
    [0, 0xffff_ffff_ffff_f000, 0x2000, 3],
    [0xffff_ffff_ffff_f000, 0, 0x2000, 3],
    // M, and N to R beside it: inside, around, before, after, inside of size 0.
    [0x8000_0000, 0x8000_0000, 0x4000, 3],
    [0x8000_1000, 0x8000_1000, 0x1000, 3],
    [0x7fff_c000, 0x7fff_c000, 0xc000, 3],
    [0x7fff_c000, 0x7fff_c000, 0x4000, 3],
    [0x8000_4000, 0x8000_4000, 0x4000, 3],
    [0x8000_1000, 0x8000_1000, 0, 3],
    // S: as long as the reach of guest addresses. T: as long as can be.
    [0, 0, 0x100_0000_0000, 3],
    [0, 0, 0xffff_ffff_ffff_ffff, 3],
    // U: A with another v.
    [0, 0x8000_0000, 0x20_0000, 3],
    // V, W: an end one page past reach, of v and of p. X: both ends exactly there, v's at 2^40 and p's at 2^48.
    [0x100_0000_0000, 0, 0x1000, 3],
    [0, 0x1_0000_0000_0000, 0x1000, 3],
    [0xff_ffff_f000, 0xffff_ffff_f000, 0x1000, 3],
    // Y: A with size 0x1000. Z: the end of v where that of p may be.
    [0x4000_0000, 0x8000_0000, 0x1000, 3],
    [0xffff_ffff_f000, 0, 0x1000, 3],
];

// The region that a letter stands for; what is no letter stands for nothing, as F does.
pub fn region(letter: u8) -> Region {
    let [v, p, size, rights] = letter
        .checked_sub(b'A')
        .and_then(|k| REGIONS.get(usize::from(k)))
        .copied()
        .unwrap_or_default();
    Region {
        v: Guest(v),
        p: Phys(p),
        size,
        rights: Rights(rights),
    }
}
