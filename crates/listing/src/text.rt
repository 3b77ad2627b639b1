// A line put by a pen, field by field, each with what stands after it.
ghost use Rattle.std.specs.Prelude.{◌+◌, ◌^◌, ◌/◌, ◌%◌, ◌≤◌, ◌<◌, [], ◌∷◌, ◌++◌, ◌≡◌, length};
ghost use Rattle.std.proofs.Math.IntN.{sub_ℕ};
ghost use Rattle.formats.specs.Texts.{digits, decimal, signed, hex};
ghost use Rattle.formats.specs.Texts.{glyph as Texts·glyph, width as Texts·width};
ghost use Rattle.puts.specs.Pens.{Wrote};
ghost use Rattle.puts.specs.Puts.{put_at};
ghost use Rattle.rules.specs.Limits.{page, limits};
ghost use Rattle.rules.specs.Listing.{side_word, line};
ghost use Rattle.zones.specs.Layout.{region_words};
ghost use Rattle.zones.specs.Records.{region_at};
ghost use Rattle.listing.specs.Lines.{line_room, number_fields, last_fields, Near};

use puts::{Pen, put_byte};
use rules::limits::PAGE;
use rules::{Guest, Phys, Side};

const SPACE: u8 = b' ';

const LINE_FEED: u8 = b'\n';

// `CPU ` and `IOMM`, the lowest byte first.
const CPU_AND_SPACE: u32 = 0x2055_5043;

const IOMM: u32 = 0x4d4d_4f49;

// The line of the region whose record starts at word k.
pub fn put_line(pen: &mut Pen, id: u64, side: Side, w: &[u64], k: usize)
    requires { (pen.old.at < 2 ^ 33) × (k + region_words ≤ length w.now) }
    ensures wrote { Wrote pen.old pen.new (line limits id side (region_at w.now k)) }
    ensures moved { pen.new.at ≤ pen.old.at + line_room }
{
    put_decimal(pen, id, SPACE);
    put_side(pen, side);
    put_numbers(pen, w, k);
}

// Its guest start, physical start and size, and the rest.
fn put_numbers(pen: &mut Pen, w: &[u64], k: usize)
    requires { (pen.old.at < 2 ^ 34) × (k + region_words ≤ length w.now) }
    ensures wrote { Wrote pen.old pen.new (number_fields (region_at w.now k)) }
    ensures moved { pen.new.at ≤ pen.old.at + 100 }
{
    put_hex(pen, w[k]);
    put_hex(pen, w[k + 1]);
    put_hex(pen, w[k + 2]);
    put_last(pen, w, k);
}

// Its rights and its shift.
fn put_last(pen: &mut Pen, w: &[u64], k: usize)
    requires { (pen.old.at < 2 ^ 35) × (k + region_words ≤ length w.now) }
    ensures wrote { Wrote pen.old pen.new (last_fields (region_at w.now k)) }
    ensures moved { pen.new.at ≤ pen.old.at + 43 }
{
    put_decimal(pen, w[k + 3], SPACE);
    put_signed(pen, pages_apart(Guest(w[k]), Phys(w[k + 1])));
}

// Physical start minus guest start, counted in pages. Any two addresses are less than 2^52 pages apart.
fn pages_apart(v: Guest, p: Phys) -> i64
    ensures { (result ≡ sub_ℕ (p.0 / page) (v.0 / page)) × Near result }
{
    (p.0 / PAGE) as i64 - (v.0 / PAGE) as i64
}

// The last field: decimal, minus below 0.
fn put_signed(pen: &mut Pen, n: i64)
    requires { (pen.old.at < 2 ^ 36) × Near n }
    ensures wrote { Wrote pen.old pen.new (signed n ++ (10 ∷ [])) }
    ensures moved { pen.new.at ≤ pen.old.at + 22 }
{
    if n < 0 {
        pen.byte(b'-');
        put_decimal(pen, (0 - n) as u64, LINE_FEED);
        return;
    }
    put_decimal(pen, n as u64, LINE_FEED);
}

fn put_decimal(pen: &mut Pen, n: u64, end: u8)
    requires { pen.old.at < 2 ^ 37 }
    ensures wrote { Wrote pen.old pen.new (decimal n ++ (end ∷ [])) }
    ensures moved { pen.new.at ≤ pen.old.at + 21 }
{
    put_number::<10>(pen, width(n), n, end);
}

fn put_hex(pen: &mut Pen, n: u64)
    requires { pen.old.at < 2 ^ 37 }
    ensures wrote { Wrote pen.old pen.new (hex n ++ (32 ∷ [])) }
    ensures moved { pen.new.at ≤ pen.old.at + 19 }
{
    pen.bytes(b"0x");
    put_number::<16>(pen, 16, n, SPACE);
}

// The last k digits of a number, and what stands after them.
fn put_number<const BASE: u64>(pen: &mut Pen, k: usize, n: u64, end: u8)
    requires { (pen.old.at < 2 ^ 38) × ((k ≤ 20) × ((1 ≤ BASE) × (BASE ≤ 16))) }
    ensures wrote { Wrote pen.old pen.new (digits BASE k n ++ (end ∷ [])) }
    ensures moved { pen.new.at ≤ pen.old.at + (k + 1) }
{
    put_digits::<BASE>(pen.bytes, pen.at, k, n);
    pen.at += k;
    pen.byte(end);
}

// How many decimal digits a number has. No index is counted: the loop goes on while there is more to divide.
fn width(n: u64) -> usize
    ensures { (result ≡ Texts·width n) × (result ≤ 20) }
{
    let mut k = 1;
    let mut rest = n;
    while 10 <= rest {
        rest = rest / 10;
        k += 1;
    }
    k
}

// The last k digits of a number. The lowest is known first, and is put last: a pen goes only on, so these are put by their places.
fn put_digits<const BASE: u64>(b: &mut [u8], at: usize, k: usize, n: u64)
    requires { (at < 2 ^ 38) × ((k ≤ 20) × ((1 ≤ BASE) × (BASE ≤ 16))) }
    ensures { b.new ≡ put_at at (digits BASE k n) b.old }
{
    let mut rest = n;
    for i in 0..k {
        let digit = (rest % BASE) as u8;
        put_byte(b, at + (k - i - 1), glyph(digit));
        rest = rest / BASE;
    }
}

// `0` to `9`, then `a` to `f`.
fn glyph(d: u8) -> u8
    requires { d < 16 }
    ensures { result ≡ Texts·glyph d }
{
    if d < 10 { 48 + d } else { 87 + d }
}

// `CPU` or `IOMMU`, and a space. Four bytes are put as one number: a loop over an array would become a call of memcpy.
fn put_side(pen: &mut Pen, side: Side)
    requires { pen.old.at < 2 ^ 37 }
    ensures wrote { Wrote pen.old pen.new (side_word side ++ (32 ∷ [])) }
    ensures moved { pen.new.at ≤ pen.old.at + 6 }
{
    match side {
        Side::Cpu => pen.u32(CPU_AND_SPACE),
        Side::Iommu => {
            pen.u32(IOMM);
            pen.bytes(b"U ");
        }
    }
}
