// Where the sections of a plan begin: every field is passed over once, and nothing is stored.
ghost use Rattle.std.specs.Prelude.{ℕ, ◌≤◌, ◌<◌, [], ◌∷◌, ◌≡◌, length, drop};
ghost use Rattle.formats.specs.Formats.{listed, read_count, read_many};
ghost use Rattle.rules.specs.Limits.{limits, in_format};
ghost use Rattle.rules.specs.Plan.{region_field, zone_format, regions_section, zones_section, requests_section, plan_format, read_plan};
ghost use Rattle.plan.specs.Told.{told, by_number, told_by, TellsAs};
ghost use Rattle.plan.specs.Sections.{section_answer, fields_answer, numbers_section, reached};
ghost use Rattle.plan.specs.Found.{found_in, four_in, whole_of, WholeAt, zones_found, FitsIn, PartsOf};

use crate::field::{count_at, number_at};
use crate::refused::{Numbered, Refused};
use crate::sections::{Marks, read_format_marks};
use rules::Refusal;
use rules::limits::{FORMAT, MARKS, MOST_IN_SET, MOST_REGIONS, MOST_REQUESTS, MOST_ZONES};
use rules::widths::{REGION_BYTES, REQUEST_BYTES, SHORT_BYTES};

// The marks' count and the marks.
pub const MARKS_BYTES: usize = SHORT_BYTES + MARKS as usize * SHORT_BYTES;

// The marks, and where the base zones (at their count) and the first request begin.
#[derive(Clone, Copy)]
pub struct Found {
    pub gic: u32,
    pub edition: u32,
    pub zones: usize,
    pub requests: usize,
}

// What applying a plan looks at: its marks, and its bytes from the regions' count, from the zones' count and from the first request on.
#[derive(Clone, Copy)]
pub struct Parts<'a> {
    pub gic: u32,
    pub edition: u32,
    pub regions: &'a [u8],
    pub zones: &'a [u8],
    pub requests: &'a [u8],
}

impl Found {
    // The parts of the bytes in which this was found.
    pub(crate) fn parts<'a>(self, plan: &'a [u8]) -> Parts<'a>
        requires { FitsIn plan.now self }
        ensures { PartsOf plan.now self result }
    {
        Parts {
            gic: self.gic,
            edition: self.edition,
            regions: &plan[MARKS_BYTES..],
            zones: &plan[self.zones..],
            requests: &plan[self.requests..],
        }
    }
}

// The same of bytes that begin with a plan, and where its requests end.
#[derive(Clone, Copy)]
pub struct Four {
    pub found: Found,
    pub end: usize,
}

// 20 or 21 in the order of the file, then 22.
pub fn find_sections(plan: &[u8]) -> Result<Found, Refused>
    ensures { told result ≡ found_in (length plan.now) (read_plan limits plan.now) }
{
    let four = find_four(plan, FORMAT);
    whole_at(four, plan.len())
}

// What was found of the four sections, where they must end with the bytes, of which there are so many. A refusal may be of any type that is made
// of this crate's too, and goes on as it came.
pub fn whole_at<E: From<Refused>>(four: Result<Four, E>, bytes: usize) -> Result<Found, E>
    ensures answer { WholeAt E.from_gives bytes four result }
    ensures told_by_any { (t : E → ℕ × ℕ) → TellsAs E.from_gives t → told_by t result ≡ whole_of bytes (told_by t four) }
{
    let Four { found, end } = four?;
    if end < bytes {
        return Err(E::from(Refused {
            why: Refusal::Trailing,
            at: end,
        }));
    }
    Ok(found)
}

// The same of refusals by numbers, which may be any.
pub fn whole_numbered(four: Result<Four, Numbered>, bytes: usize) -> Result<Found, Numbered>
    ensures { told_by by_number result ≡ whole_of bytes (told_by by_number four) }
{
    whole_at(four, bytes)
}

// The four sections of the format with that mark, 20 or 21 in their order; what follows them is not looked at.
pub fn find_four(s: &[u8], format: u32) -> Result<Four, Refused>
    ensures { told result ≡ four_in (length s.now) ((plan_format (in_format (format ∷ []) limits)).read s.now) }
{
    let Marks { gic, edition } = read_format_marks(s, format)?;
    let zones = pass_regions_at(s, MARKS_BYTES)?;
    find_from_zones(s, zones, gic, edition)
}

// The same from the zones on, of bytes with these marks whose zones begin at byte `zones`.
pub fn find_from_zones(s: &[u8], zones: usize, gic: u32, edition: u32) -> Result<Four, Refused>
    ensures { told result ≡ zones_found gic edition zones (length s.now) (drop zones s.now) }
{
    reaches(s, zones)?;
    let last = pass_zones_at(s, zones)?;
    let end = pass_requests(s, last)?;
    let requests = last + SHORT_BYTES;
    Ok(Four {
        found: Found {
            gic,
            edition,
            zones,
            requests,
        },
        end,
    })
}

// Bytes that end before a place are cut at their end.
fn reaches(s: &[u8], place: usize) -> Result<(), Refused>
    ensures { told result ≡ reached (length s.now) place }
{
    if s.len() < place {
        return Err(Refused {
            why: Refusal::Cut,
            at: s.len(),
        });
    }
    Ok(())
}

// ---- sections and their parts

// A count from lo to hi at byte `start`, and as many fields, all of one width: so none is looked at.
fn pass_fields(s: &[u8], start: usize, lo: u32, hi: u32, width: usize) -> Result<usize, Refused>
    requires { (start ≤ length s.now) × (0 < width) }
    ensures { told result ≡ fields_answer width (length s.now) start (read_count 4 lo hi (drop start s.now)) }
{
    let n = count_at(s, start, lo, hi)? as usize;
    let first = start + SHORT_BYTES;
    let whole = (s.len() - first) / width;
    if whole < n {
        return Err(Refused {
            why: Refusal::Cut,
            at: first + whole * width,
        });
    }
    Ok(first + n * width)
}

// The regions' section from its count on.
pub fn pass_regions(s: &[u8]) -> Result<usize, Refused>
    ensures { told result ≡ section_answer (length s.now) ((regions_section limits).read s.now) }
{
    pass_regions_at(s, 0)
}

// The same where the count is at byte `start`.
pub fn pass_regions_at(s: &[u8], start: usize) -> Result<usize, Refused>
    ensures { told result ≡ section_answer (length s.now) ((regions_section limits).read (drop start s.now)) }
{
    reaches(s, start)?;
    pass_list(s, start, 1, MOST_REGIONS as u32)
}

// A count from lo to hi at byte `start`, and as many regions.
pub fn pass_list(s: &[u8], start: usize, lo: u32, hi: u32) -> Result<usize, Refused>
    requires { start ≤ length s.now }
    ensures { told result ≡ section_answer (length s.now) ((listed 4 lo hi region_field).read (drop start s.now)) }
{
    pass_fields(s, start, lo, hi, REGION_BYTES)
}

// The zone at byte `start`: its id is only passed over.
fn pass_zone(s: &[u8], start: usize) -> Result<usize, Refused>
    requires { start ≤ length s.now }
    ensures { told result ≡ section_answer (length s.now) ((zone_format limits).read (drop start s.now)) }
{
    number_at(s, start)?;
    let at = pass_list(s, start + SHORT_BYTES, 0, MOST_IN_SET as u32)?;
    pass_list(s, at, 0, MOST_IN_SET as u32)
}

// The n zones from byte `start` on.
fn pass_zone_list(s: &[u8], start: usize, n: usize) -> Result<usize, Refused>
    requires { start ≤ length s.now }
    ensures { told result ≡ section_answer (length s.now) (read_many (zone_format limits) n (drop start s.now)) }
{
    let mut at = start;
    for i in 0..n {
        at = pass_zone(s, at)?;
    }
    Ok(at)
}

// The zones' section from its count on.
pub fn pass_zones(s: &[u8]) -> Result<usize, Refused>
    ensures { told result ≡ section_answer (length s.now) ((zones_section limits).read s.now) }
{
    pass_zones_at(s, 0)
}

// The same where the count is at byte `start`.
fn pass_zones_at(s: &[u8], start: usize) -> Result<usize, Refused>
    requires { start ≤ length s.now }
    ensures { told result ≡ section_answer (length s.now) ((zones_section limits).read (drop start s.now)) }
{
    let n = count_at(s, start, 0, MOST_ZONES as u32)?;
    pass_zone_list(s, start + SHORT_BYTES, n as usize)
}

// The requests' section, its count at byte `start`.
pub fn pass_requests(s: &[u8], start: usize) -> Result<usize, Refused>
    requires { start ≤ length s.now }
    ensures { told result ≡ section_answer (length s.now) ((requests_section limits).read (drop start s.now)) }
{
    pass_fields(s, start, 0, MOST_REQUESTS, REQUEST_BYTES)
}

// A count, which must be that one, and as many numbers.
pub fn pass_numbers(s: &[u8], count: u32) -> Result<usize, Refused>
    ensures { told result ≡ section_answer (length s.now) ((numbers_section count).read s.now) }
{
    pass_numbers_at(s, 0, count)
}

// The same where the count is at byte `start`.
pub fn pass_numbers_at(s: &[u8], start: usize, count: u32) -> Result<usize, Refused>
    ensures { told result ≡ section_answer (length s.now) ((numbers_section count).read (drop start s.now)) }
{
    reaches(s, start)?;
    pass_fields(s, start, count, count, SHORT_BYTES)
}
