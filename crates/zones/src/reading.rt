// Regions among lent words, and requests as lent bytes, of any length: what lies past the end counts as 0.
ghost use Rattle.std.specs.Prelude.{◌≡◌, get_or};
ghost use Rattle.rules.specs.Fields.{region_of};
ghost use Rattle.rules.specs.Run.{request_from};
ghost use Rattle.zones.specs.Records.{region_at};

use crate::run::make_request;
use crate::words::region_in;
use fields::u32_at;
use rules::widths::SHORT_BYTES;
use rules::{Guest, Phys, Region, Request, Rights};

// The region whose record starts at word k. A record that is wholly there is read at once.
pub fn region_from(s: &[u64], k: usize) -> Region
    ensures { result ≡ region_at s.now k }
{
    let record = &s[k.min(s.len())..];
    if let [v, p, size, rights, ..] = record {
        return region_of(*v, *p, *size, *rights);
    }
    region_of(
        word_in(record, 0),
        word_in(record, 1),
        word_in(record, 2),
        word_in(record, 3),
    )
}

fn word_in(s: &[u64], k: usize) -> u64
    ensures { result ≡ get_or s.now k 0 }
{
    s.get(k).copied().unwrap_or(0)
}

fn region_of(v: u64, p: u64, size: u64, rights: u64) -> Region
    ensures { result ≡ region_of v p size rights }
{
    Region {
        v: Guest(v),
        p: Phys(p),
        size,
        rights: Rights(rights),
    }
}

// The request that the first bytes are.
pub fn request_in(s: &[u8]) -> Request
    ensures { result ≡ request_from s.now 0 }
{
    let kind = u32_at(s, 0);
    let zone = u32_at(s, SHORT_BYTES);
    let region = s.len().min(2 * SHORT_BYTES);
    make_request(kind, zone, region_in(&s[region..]))
}
