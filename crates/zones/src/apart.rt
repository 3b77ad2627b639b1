// A configuration without a fault, told without comparing every two regions: where each region is well formed and in reach, and none starts
// before the one in front of it ends, no two overlap. The regions are looked at as they stand, and else in the order of their starts.
ghost use Rattle.std.specs.Prelude.{◌≤◌, true, ◌≡◌, length};
ghost use Rattle.rules.specs.Limits.{most_regions};
ghost use Rattle.zones.specs.Spans.{FitBelow, ClearBelow};

use crate::config::region_at;
use crate::keys::{MANY, fill_keys, position_of};
use crate::layout::CONFIG_WORDS;

// So many of the positions for which there are keys, from the first on, have no fault: all before the first fault, if there are many or
// they stand in order. The keys are then theirs, in the order of starts.
pub fn clear_below(c: &[u64; CONFIG_WORDS], keys: &mut [u64]) -> usize
    requires { length keys.old ≤ most_regions }
    ensures { ((result ≤ length keys.old) × ClearBelow c.now result) × (length keys.new ≡ length keys.old) }
{
    let fit = fill_keys(c, keys);
    if in_turn(c, fit) {
        return fit;
    }
    if fit < MANY {
        return 0;
    }
    keys[..fit].sort_unstable();
    most_apart(c, &keys[..fit])
}

// Whether no region below n starts before the one in front of it ends.
fn in_turn(c: &[u64; CONFIG_WORDS], n: usize) -> bool
    requires { (n ≤ most_regions) × FitBelow c.now n }
    ensures { result ≡ true → ClearBelow c.now n }
{
    let mut end: u64 = 0;
    for i in 0..n {
        let r = region_at(c, i);
        if r.p.0 < end {
            return false;
        }
        end = r.p.0 + r.size;
    }
    true
}

// So many positions, from the first on, have regions that are apart: as many as there are keys, or as halving finds them. A number of
// positions is taken only where the keys show it. (The library halves a slice; these numbers stand in none, so the halving is written out.)
fn most_apart(c: &[u64; CONFIG_WORDS], keys: &[u64]) -> usize
    requires { (length keys.now ≤ most_regions) × FitBelow c.now (length keys.now) }
    ensures { (result ≤ length keys.now) × ClearBelow c.now result }
{
    let n = keys.len();
    if apart_below(c, keys, n) {
        return n;
    }
    let mut lo = 0;
    let mut hi = n;
    while 1 < hi - lo {
        let mid = lo + (hi - lo) / 2;
        if apart_below(c, keys, mid) {
            lo = mid;
        } else {
            hi = mid;
        }
    }
    lo
}

// Whether the regions below m, taken as the keys name them, are all there and none starts before the one in front of it ends. Nothing is
// known of the keys, so those met are counted: regions that stand so differ, and m of them are all.
fn apart_below(c: &[u64; CONFIG_WORDS], keys: &[u64], m: usize) -> bool
    requires { (m ≤ most_regions) × FitBelow c.now m }
    ensures { result ≡ true → ClearBelow c.now m }
{
    let mut reached: u64 = 0;
    let mut met = 0;
    for key in keys {
        let i = position_of(*key);
        if m <= i {
            continue;
        }
        let r = region_at(c, i);
        if r.p.0 < reached {
            return false;
        }
        reached = r.p.0 + r.size;
        met += 1;
    }
    met == m
}
