// A run of requests from lent bytes, up to the first that is refused.
ghost use Rattle.std.specs.Prelude.{◌*◌, ◌/◌, ◌≤◌, ◌<◌, ◌≡◌, length};
ghost use Rattle.rules.specs.Limits.{limits};
ghost use Rattle.rules.specs.Numbers.{number};
ghost use Rattle.rules.specs.Run.{bare, make_kind, make_request, request_size, request_from, requests_in, run, ended};
ghost use Rattle.zones.specs.Decide.{Ready};
ghost use Rattle.zones.specs.Run.{RanIn};
ghost use Rattle.zones.specs.View.{config_in, zones_in};
ghost use Rattle.zones.specs.Words.{words_of};

use crate::layout::{CONFIG_WORDS, TABLE_WORDS};
use crate::reading::request_in;
use crate::sound::standing;
use crate::steps::step_ready;
use crate::words::is_used;
use rules::numbers::REQUEST_REFUSED;
use rules::widths::REQUEST_BYTES;
use rules::{Kind, Outcome, Refusal, Region, Request, Side};

// The requests that the bytes hold, one after another at the lent table. The first refused one ends the run and leaves the table
// as the earlier ones made it. Bytes after the last whole request are not looked at.
pub fn run_in(c: &[u64; CONFIG_WORDS], t: &mut [u64; TABLE_WORDS], requests: &[u8]) -> Outcome
    ensures { RanIn c.now t.old requests.now result t.new }
{
    if let Err(why) = standing(c, t) {
        return Outcome::refused(why, 0);
    }
    run_ready(c, t, requests)
}

// The same at a sound table: its soundness is carried from request to request and not looked for again.
fn run_ready(c: &[u64; CONFIG_WORDS], t: &mut [u64; TABLE_WORDS], requests: &[u8]) -> Outcome
    requires { Ready c.now t.old }
    ensures { (result ≡ ended (run limits (config_in c.now) (zones_in t.old) (requests_in requests.now))) × (t.new ≡ words_of (run limits (config_in c.now) (zones_in t.old) (requests_in requests.now)).table) }
{
    let n = requests.len() / REQUEST_BYTES;
    for i in 0..n {
        if let Err(why) = step_ready(c, t, request_at(requests, i)) {
            return stopped_at(i, why);
        }
    }
    Outcome::done(n)
}

// A run that ends at a refused request.
pub fn stopped_at(place: usize, why: Refusal) -> Outcome
    ensures { result ≡ record { number = 27; place = place; inner = number why } }
{
    Outcome {
        number: REQUEST_REFUSED,
        place,
        inner: u32::from(why),
    }
}

// Request i of those that are wholly there.
pub fn request_at(s: &[u8], i: usize) -> Request
    requires { i < length s.now / request_size }
    ensures { result ≡ request_from s.now (i * request_size) }
{
    let at = i * REQUEST_BYTES;
    let end = at + REQUEST_BYTES;
    request_in(&s[at..end])
}

// The request with these numbers, or the one that is refused where they make none.
pub fn make_request(kind: u32, zone: u32, r: Region) -> Request
    ensures { result ≡ make_request kind zone r }
{
    Request {
        zone,
        kind: make_kind(kind, r),
    }
}

// No TryFrom: numbers that make no request are kept as the one that is refused, as `Kind` has it.
fn make_kind(n: u32, r: Region) -> Kind
    ensures { result ≡ make_kind n r }
{
    match n {
        1 => bare(Kind::AddZone, r),
        2 => bare(Kind::RemoveZone, r),
        3 => Kind::Insert(Side::Cpu, r),
        4 => Kind::Remove(Side::Cpu, r),
        5 => Kind::Insert(Side::Iommu, r),
        6 => Kind::Remove(Side::Iommu, r),
        _ => Kind::NoRequest,
    }
}

// A kind that takes no region: with a nonzero one it is no request.
fn bare(kind: Kind, r: Region) -> Kind
    ensures { result ≡ bare kind r }
{
    if is_used(r) {
        return Kind::NoRequest;
    }
    kind
}
