// The configuration's check.
ghost use Rattle.std.specs.Prelude.{◌-◌, ◌<◌, ◌≤◌, true, false, ◌≡◌, length, drop, IfNone, IfSome};
ghost use mathlib.Core.List.{flat_map};
ghost use Rattle.lists.specs.First.{first_from, any};
ghost use Rattle.lists.specs.Places.{places};
ghost use Rattle.lists.specs.Rules.{first_rule};
ghost use Rattle.rules.specs.declared.Checked.{Checked};
ghost use Rattle.rules.specs.Limits.{most_regions, limits};
ghost use Rattle.rules.specs.Regions.{used};
ghost use Rattle.rules.specs.Configuration.{position_rules, check, check_number, check_place, check_earlier};
ghost use Rattle.zones.specs.Layout.{config_records};
ghost use Rattle.zones.specs.Records.{record_at};
ghost use Rattle.zones.specs.View.{stored_config, all_records};

use crate::apart::clear_below;
use crate::layout::{CONFIG_COUNT, CONFIG_GIC, CONFIG_RECORDS, CONFIG_WORDS, REGION_WORDS};
use crate::words::{find_record, is_used, read_region, zeros_in};
use region::{in_reach, phys_overlap, well_formed};
use rules::limits::MOST_REGIONS;
use rules::numbers::{C1_COUNT, C2_GIC, C3_NOT_ZERO, C4_FORM, C5_REACH, C6_OVERLAP};
use rules::{Checked, Region};

#[repr(C)]
#[derive(Clone, Copy)]
pub struct Config {
    pub words: [u64; CONFIG_WORDS],
}

// The document's check: what it finds first.
pub fn check_config(c: Config) -> Checked
    ensures { result ≡ check limits (stored_config c.words) }
{
    let words = c.words;
    check_words(&words)
}

// The document's number of what the check found: 0, or 1 to 6 for C1 to C6.
pub fn check_number(f: Checked) -> u32
    ensures { result ≡ check_number f }
{
    match f {
        Checked::Sound => 0,
        Checked::BadCount => C1_COUNT,
        Checked::BadGic => C2_GIC,
        Checked::NotZero(_) => C3_NOT_ZERO,
        Checked::Malformed(_) => C4_FORM,
        Checked::OutOfReach(_) => C5_REACH,
        Checked::Overlap(_, _) => C6_OVERLAP,
    }
}

// The place that goes with the number, or 0.
pub fn check_place(f: Checked) -> usize
    ensures { result ≡ check_place f }
{
    match f {
        Checked::Sound | Checked::BadCount | Checked::BadGic => 0,
        Checked::NotZero(i)
        | Checked::Malformed(i)
        | Checked::OutOfReach(i)
        | Checked::Overlap(i, _) => i,
    }
}

// The lowest earlier position that the place overlaps, for C6, or 0.
pub fn check_earlier(f: Checked) -> usize
    ensures { result ≡ check_earlier f }
{
    match f {
        Checked::Overlap(_, k) => k,
        _ => 0,
    }
}

// The same where the configuration lies.
pub fn check_words(c: &[u64; CONFIG_WORDS]) -> Checked
    ensures { result ≡ check limits (stored_config c.now) }
{
    let mut keys = [0u64; MOST_REGIONS];
    check_with(c, &mut keys)
}

// The same with room for the keys of its regions. Those of a sound one are then in order, if it has many regions.
// The fault is the document's datum all the way down, and no Result: `check limits`, which the clause cites, and `check_config` answer with one.
pub fn check_with(c: &[u64; CONFIG_WORDS], keys: &mut [u64; MOST_REGIONS]) -> Checked
    ensures { result ≡ check limits (stored_config c.now) }
{
    let count = c[CONFIG_COUNT] as usize;
    if count == 0 || MOST_REGIONS < count {
        return Checked::BadCount;
    }
    if c[CONFIG_COUNT] <= c[CONFIG_GIC] {
        return Checked::BadGic;
    }
    if let Some(k) = first_used(c, count) {
        return Checked::NotZero(k);
    }
    check_positions(c, &mut keys[..count])
}

pub fn region_at(c: &[u64; CONFIG_WORDS], i: usize) -> Region
    requires { i < most_regions }
    ensures { result ≡ record_at c.now config_records i }
{
    read_region(c, CONFIG_RECORDS + i * REGION_WORDS)
}

// The first record from position n on that is not all zero. That there is none is told by looking at many words at once.
fn first_used(c: &[u64; CONFIG_WORDS], n: usize) -> Option<usize>
    requires { n ≤ most_regions }
    ensures none { IfNone result (any used (drop n (all_records c.now)) ≡ false) }
    ensures some { IfSome result (λ k. (any used (drop n (all_records c.now)) ≡ true) × (k ≡ first_from used (all_records c.now) n)) }
{
    if zeros_in(c, CONFIG_RECORDS + n * REGION_WORDS, CONFIG_WORDS) {
        return None;
    }
    (n..MOST_REGIONS).find(|i| is_used(region_at(c, *i)))
}

// The first fault at the positions for which there are keys: those that a quick look finds clear are not looked at again.
fn check_positions(c: &[u64; CONFIG_WORDS], keys: &mut [u64]) -> Checked
    requires { length keys.old ≤ most_regions }
    ensures { (result ≡ first_rule (flat_map (position_rules limits (all_records c.now)) (places 0 (length keys.old))) Checked.Sound)
        × (length keys.new ≡ length keys.old) }
{
    let n = keys.len();
    check_from(c, clear_below(c, keys), n)
}

// The first fault at the positions from k up to n.
fn check_from(c: &[u64; CONFIG_WORDS], k: usize, n: usize) -> Checked
    requires { (k ≤ n) × (n ≤ most_regions) }
    ensures { result ≡ first_rule (flat_map (position_rules limits (all_records c.now)) (places k (n - k))) Checked.Sound }
{
    for i in k..n {
        let found = check_at(c, i);
        let Checked::Sound = found else {
            return found;
        };
    }
    Checked::Sound
}

// The fault at position i, if there is one.
fn check_at(c: &[u64; CONFIG_WORDS], i: usize) -> Checked
    requires { i < most_regions }
    ensures { result ≡ first_rule (position_rules limits (all_records c.now) i) Checked.Sound }
{
    let r = region_at(c, i);
    if !well_formed(r) {
        return Checked::Malformed(i);
    }
    if !in_reach(r) {
        return Checked::OutOfReach(i);
    }
    if let Some(k) = find_record(c, CONFIG_RECORDS, i, |e| phys_overlap(r, e)) {
        return Checked::Overlap(i, k);
    }
    Checked::Sound
}
