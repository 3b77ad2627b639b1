// A walker over a plan: the lent bytes and the place in them, kept together, one number of 4 bytes after the other. What it finds at a plan's
// start says which base edition the plan is for; `judge`, whose parameters are plain, says how.
#![tactic(auto)]

ghost use Rattle.std.specs.Prelude.{◌≡◌};
ghost use Rattle.plan.specs.Told.{told};
ghost use Rattle.rules.specs.declared.refusal.Refusal.TheVariants.{Cut, Count};
ghost use Rattle.walker.specs.Walker.{start_of, next_of};
ghost use Rattle.walker.specs.Edition.{judged, edition_of};

use fields::u32_at;
use plan::Refused;
use rules::Refusal;
use rules::limits::{FORMAT, MARKS};
use rules::widths::SHORT_BYTES;

// Where the marks stand, behind their count.
const GIC_AT: usize = SHORT_BYTES;

const EDITION_AT: usize = 2 * SHORT_BYTES;

const FORMAT_AT: usize = 3 * SHORT_BYTES;

#[derive(Clone, Copy)]
pub struct Walker<'a> {
    pub plan: &'a [u8],
    pub at: usize,
}

impl<'a> Walker<'a> {
    // At the plan's first byte.
    pub fn new(plan: &'a [u8]) -> Walker<'a>
        ensures { result ≡ start_of plan.entry }
    {
        Walker { plan, at: 0 }
    }
}

impl<'a> Iterator for Walker<'a> {
    type Item = u32;

    ghost next_gives = { λ w number v. (number ≡ (next_of w).0) × (v ≡ (next_of w).1) };

    // The number at the walker's place, which then is the one behind it. One that is not wholly there is none, and the walker stays,
    // also past the end: a sum that could wrap is never made.
    fn next(&mut self) -> Option<u32> {
        let left = self.plan.len().checked_sub(self.at)?;
        if left < SHORT_BYTES {
            return None;
        }
        let number = u32_at(self.plan, self.at);
        self.at += SHORT_BYTES;
        Some(number)
    }
}

// The four numbers at a plan's start, in the order of the file: the count is judged before the marks are looked at, and the format's mark
// as it is read.
#[tactic(auto, unfolding(crate::specs::Edition::judged, crate::specs::Edition::or_cut))]
fn judge(
    count: Option<u32>,
    gic: Option<u32>,
    edition: Option<u32>,
    format: Option<u32>,
) -> Result<u32, Refused>
    ensures { told result ≡ judged count gic edition format }
{
    if count.ok_or(cut(0))? != MARKS {
        return Err(other(0));
    }
    gic.ok_or(cut(GIC_AT))?;
    let named = edition.ok_or(cut(EDITION_AT))?;
    if format.ok_or(cut(FORMAT_AT))? != FORMAT {
        return Err(other(FORMAT_AT));
    }
    Ok(named)
}

// A number that is not wholly there.
fn cut(at: usize) -> Refused
    ensures { result ≡ record { why = Cut; at = at } }
{
    Refused {
        why: Refusal::Cut,
        at,
    }
}

// A number that is another than it must be.
fn other(at: usize) -> Refused
    ensures { result ≡ record { why = Count; at = at } }
{
    Refused {
        why: Refusal::Count,
        at,
    }
}

// The base edition that a plan is for, by its marks alone: nothing behind them is looked at. Or a refusal and its offset.
pub fn edition_of(plan: &[u8]) -> Result<u32, Refused>
    ensures { told result ≡ edition_of plan.now }
{
    let mut walker = Walker::new(plan);
    let count = walker.next();
    let gic = walker.next();
    let edition = walker.next();
    let format = walker.next();
    judge(count, gic, edition, format)
}
