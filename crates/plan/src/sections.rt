// The four sections of a plan. Each reader is lent the part of the plan that begins at its section's count, and answers offsets in that
// part.
ghost use Rattle.std.specs.Prelude.{[], ◌∷◌, ◌≡◌, length};
ghost use Rattle.rules.specs.Limits.{limits, in_format};
ghost use Rattle.rules.specs.Plan.{marks_section, regions_section, zones_section, requests_section};
ghost use Rattle.plan.specs.Told.{told};
ghost use Rattle.plan.specs.Sections.{marks_answer, regions_answer, zones_answer, section_answer, RegionsIn, ZonesIn};

use crate::field::{count_at, number_at};
use crate::finding::{pass_regions, pass_requests, pass_zones};
use crate::refused::Refused;
use crate::words::{read_set, read_table};
use rules::limits::{FORMAT, MARKS, MOST_REGIONS};
use zones::{
    CONFIG_COUNT, CONFIG_GIC, CONFIG_RECORDS, CONFIG_WORDS, Config, TABLE_WORDS, Table, clear_words,
};

#[derive(Clone, Copy)]
pub struct Marks {
    pub gic: u32,
    pub edition: u32,
}

// Where the section ends, and the configuration.
#[derive(Clone, Copy)]
pub struct Regions {
    pub end: usize,
    pub config: Config,
}

// Where the section ends, and the table of the base zones.
#[derive(Clone, Copy)]
pub struct Zones {
    pub end: usize,
    pub table: Table,
}

// Marks of a plan: those of its format.
pub fn read_marks(s: &[u8]) -> Result<Marks, Refused>
    ensures { told result ≡ marks_answer (length s.now) ((marks_section limits).read s.now) }
{
    read_format_marks(s, FORMAT)
}

// Marks: the GIC's position, the base edition, and the mark of a format, which is judged as it is read.
pub fn read_format_marks(s: &[u8], format: u32) -> Result<Marks, Refused>
    ensures { told result ≡ marks_answer (length s.now) ((marks_section (in_format (format ∷ []) limits)).read s.now) }
{
    count_at(s, 0, MARKS, MARKS)?;
    let gic = number_at(s, 4)?;
    let edition = number_at(s, 8)?;
    count_at(s, 12, format, format)?;
    Ok(Marks { gic, edition })
}

// Configured regions: with the GIC's position they make the configuration.
pub fn read_regions(s: &[u8], gic: u32) -> Result<Regions, Refused>
    ensures { told result ≡ regions_answer gic (length s.now) ((regions_section limits).read s.now) }
{
    let mut words = [0u64; CONFIG_WORDS];
    let end = read_regions_in(s, gic, &mut words)?;
    Ok(Regions {
        end,
        config: Config { words },
    })
}

// The same into lent words, whatever they held: they are zero where the section is refused.
pub fn read_regions_in(
    s: &[u8],
    gic: u32,
    words: &mut [u64; CONFIG_WORDS],
) -> Result<usize, Refused>
    ensures { RegionsIn gic s.now result words.new }
{
    clear_words(words);
    pass_regions(s)?;
    words[CONFIG_GIC] = gic as u64;
    read_set(
        s,
        0,
        1,
        MOST_REGIONS as u32,
        words,
        CONFIG_COUNT,
        CONFIG_RECORDS,
    )
}

// Base zones.
pub fn read_zones(s: &[u8]) -> Result<Zones, Refused>
    ensures { told result ≡ zones_answer (length s.now) ((zones_section limits).read s.now) }
{
    let mut words = [0u64; TABLE_WORDS];
    let end = read_zones_in(s, &mut words)?;
    Ok(Zones {
        end,
        table: Table { words },
    })
}

// The same into lent words, whatever they held: they are zero where the section is refused.
pub fn read_zones_in(s: &[u8], words: &mut [u64; TABLE_WORDS]) -> Result<usize, Refused>
    ensures { ZonesIn s.now result words.new }
{
    clear_words(words);
    pass_zones(s)?;
    read_table(s, words)
}

// Requests: only where the section ends.
pub fn read_requests(s: &[u8]) -> Result<usize, Refused>
    ensures { told result ≡ section_answer (length s.now) ((requests_section limits).read s.now) }
{
    pass_requests(s, 0)
}
