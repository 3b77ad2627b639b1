// Checks on regions and their addresses, for any 64-bit numbers: no sum is formed that could wrap.
#![tactic(auto)]

ghost use Rattle.std.specs.Prelude.{◌+◌, ◌≡◌, leb};
ghost use Rattle.rules.specs.Limits.{limits};
ghost use Rattle.rules.specs.Addresses.{overlaps};
ghost use Rattle.rules.specs.Tables.{excessive};
ghost use Rattle.rules.specs.Regions.{well_formed, in_reach, region_eq, phys_overlap, guest_overlap};

use rules::limits::{ALL_RIGHTS, GUEST_REACH, PAGE, PHYS_REACH};
use rules::{Region, Side};

#[tactic(auto, unfolding(rules::specs::Regions::well_formed, lists::specs::Tests::all_of))]
pub fn well_formed(r: Region) -> bool
    ensures { result ≡ well_formed limits.page r }
{
    r.size != 0
        && r.v.0 % PAGE == 0
        && r.p.0 % PAGE == 0
        && r.size % PAGE == 0
        && r.rights.0 != 0
        && r.rights.0 <= ALL_RIGHTS
}

// Whether a region has too many rights for its side: devices never execute, and the processor never executes what it may write.
#[tactic(auto, unfolding(rules::specs::Tables::excessive))]
pub fn is_excessive(side: Side, r: Region) -> bool
    ensures { result ≡ excessive side r }
{
    let may_write = r.rights.0 / 2 % 2 == 1;
    let may_execute = r.rights.0 / 4 % 2 == 1;
    match side {
        Side::Cpu => may_write && may_execute,
        Side::Iommu => may_execute,
    }
}

#[tactic(auto, unfolding(rules::specs::Regions::in_reach, lists::specs::Tests::all_of))]
pub fn in_reach(r: Region) -> bool
    ensures { result ≡ in_reach limits r }
{
    ends_by(r.v.0, r.size, GUEST_REACH) && ends_by(r.p.0, r.size, PHYS_REACH)
}

#[tactic(auto, unfolding(rules::specs::Regions::region_eq, rules::specs::Fields::numbers_of, lists::specs::Tests::all_of, lists::specs::Tests::each_two))]
pub fn region_eq(a: Region, b: Region) -> bool
    ensures { result ≡ region_eq a b }
{
    a == b
}

pub fn phys_overlap(a: Region, b: Region) -> bool
    ensures { result ≡ phys_overlap a b }
{
    overlap(a.p.0, a.size, b.p.0, b.size)
}

pub fn guest_overlap(a: Region, b: Region) -> bool
    ensures { result ≡ guest_overlap a b }
{
    overlap(a.v.0, a.size, b.v.0, b.size)
}

// Whether [a, a + m) and [b, b + n) share an address: the later start lies less than the earlier one's size past it.
#[tactic(auto, unfolding(rules::specs::Addresses::overlaps))]
fn overlap(a: u64, m: u64, b: u64, n: u64) -> bool
    ensures { result ≡ overlaps a m b n }
{
    if a <= b {
        n != 0 && b - a < m
    } else {
        m != 0 && a - b < n
    }
}

// Whether start + size, as a whole number, is at most `last`.
fn ends_by(start: u64, size: u64, last: u64) -> bool
    ensures { result ≡ leb (start + size) last }
{
    size <= last && start <= last - size
}
