// Fields among lent bytes: each is wholly there, or refused.
ghost use Rattle.std.specs.Prelude.{◌≤◌, ◌≡◌, length, drop};
ghost use Rattle.formats.specs.Formats.{read_number, read_count};
ghost use Rattle.rules.specs.Fields.{region_size, short_size};
ghost use Rattle.rules.specs.Plan.{region_field};
ghost use Rattle.plan.specs.Fields.{FieldRead};

use crate::refused::Refused;
use fields::u32_at;
use rules::widths::{REGION_BYTES, SHORT_BYTES};
use rules::{Refusal, Region};
use zones::region_in;

// A count, a mark or an id.
pub fn number_at(s: &[u8], at: usize) -> Result<u32, Refused>
    requires { at ≤ length s.now }
    ensures { FieldRead short_size s.now at (read_number 4 (drop at s.now)) result }
{
    if s.len() - at < SHORT_BYTES {
        return Err(Refused {
            why: Refusal::Cut,
            at,
        });
    }
    Ok(u32_at(s, at))
}

// A count that must lie from lo to hi.
pub fn count_at(s: &[u8], at: usize, lo: u32, hi: u32) -> Result<u32, Refused>
    requires { at ≤ length s.now }
    ensures { FieldRead short_size s.now at (read_count 4 lo hi (drop at s.now)) result }
{
    let count = number_at(s, at)?;
    if !(lo..=hi).contains(&count) {
        return Err(Refused {
            why: Refusal::Count,
            at,
        });
    }
    Ok(count)
}

pub fn region_field_at(s: &[u8], at: usize) -> Result<Region, Refused>
    requires { at ≤ length s.now }
    ensures { FieldRead region_size s.now at (region_field.read (drop at s.now)) result }
{
    if s.len() - at < REGION_BYTES {
        return Err(Refused {
            why: Refusal::Cut,
            at,
        });
    }
    let end = at + REGION_BYTES;
    Ok(region_in(&s[at..end]))
}
