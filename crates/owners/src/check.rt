// The configuration's check with owners: the first machine's, with C3 and C7 for the owners in their places.
ghost use Rattle.std.specs.Prelude.{◌≤◌, ◌<◌, ◌≡◌};
ghost use Rattle.rules.specs.Configuration.{check};
ghost use Rattle.rules.specs.Limits.{most_regions, limits};
ghost use Rattle.rules.specs.Owners.{owned_check, owned_check_number, owned_check_place, owned_check_earlier};
ghost use Rattle.zones.specs.View.{stored_config};
ghost use Rattle.owners.specs.Fitting.{fits_at, first_unfit, first_wrong, owners_fit, used_record};
ghost use Rattle.owners.specs.View.{stored_owned};

use crate::owned::Owned;
use rules::limits::{HIGHEST_ID, MOST_REGIONS};
use rules::numbers::C7_OWNER;
use rules::{Checked, OwnedChecked};
use zones::{CONFIG_GIC, CONFIG_WORDS, check_words};

// What stands as owner of the GIC, and of it only.
pub const GIC_OWNER: u32 = u32::MAX;

// What the check finds first.
pub fn check_owned(c: &[u64; CONFIG_WORDS], owners: &[u32; MOST_REGIONS]) -> OwnedChecked
    ensures { result ≡ owned_check limits (stored_owned c.now owners.now) }
{
    let found = check_words(c);
    match Owned::new(c, owners) {
        Some(owned) => owned.check(found),
        None => OwnedChecked::Plain(found),
    }
}

// The document's number of what the check found: 0, or 1 to 7 for C1 to C7.
pub fn check_number(f: OwnedChecked) -> u32
    ensures { result ≡ owned_check_number f }
{
    match f {
        OwnedChecked::Plain(found) => zones::check_number(found),
        OwnedChecked::WrongOwner(_) => C7_OWNER,
    }
}

// The place that goes with the number, or 0.
pub fn check_place(f: OwnedChecked) -> usize
    ensures { result ≡ owned_check_place f }
{
    match f {
        OwnedChecked::Plain(found) => zones::check_place(found),
        OwnedChecked::WrongOwner(i) => i,
    }
}

// The lowest earlier position that the place overlaps, for C6, or 0.
pub fn check_earlier(f: OwnedChecked) -> usize
    ensures { result ≡ owned_check_earlier f }
{
    match f {
        OwnedChecked::Plain(found) => zones::check_earlier(found),
        OwnedChecked::WrongOwner(_) => 0,
    }
}

impl Owned<'_> {
    // The same past C1 and C2, where the first machine's check found that.
    fn check(&self, found: Checked) -> OwnedChecked
        requires { found ≡ check limits (stored_config self.now.config.now) }
        ensures { result ≡ owned_check limits (stored_owned self.now.config.now self.now.owners.now) }
    {
        match (self.first_unfit(self.count()), used_record(found)) {
            (Some(owner), None) => OwnedChecked::Plain(Checked::NotZero(owner)),
            (Some(owner), Some(record)) if owner < record => {
                OwnedChecked::Plain(Checked::NotZero(owner))
            }
            (_, Some(_)) => OwnedChecked::Plain(found),
            (None, None) => match self.first_wrong() {
                Some(i) => OwnedChecked::WrongOwner(i),
                None => OwnedChecked::Plain(found),
            },
        }
    }

    // Whether no owner is a reason for C3 or C7.
    pub fn owners_fit(&self) -> bool
        ensures { result ≡ owners_fit self.now.config.now self.now.owners.now }
    {
        self.first_unfit(0).is_none()
    }

    // The first position from k on whose owner does not fit.
    fn first_unfit(&self, k: usize) -> Option<usize>
        requires { k ≤ most_regions }
        ensures { result ≡ first_unfit self.now.config.now self.now.owners.now k }
    {
        (k..MOST_REGIONS).find(|i| !self.fits_at(*i))
    }

    // The first configured position whose owner does not fit.
    fn first_wrong(&self) -> Option<usize>
        ensures { result ≡ first_wrong self.now.config.now self.now.owners.now }
    {
        (0..self.count()).find(|i| !self.fits_at(*i))
    }

    fn fits_at(&self, i: usize) -> bool
        requires { i < most_regions }
        ensures { result ≡ fits_at (stored_owned self.now.config.now self.now.owners.now) i }
    {
        let owner = self.owners[i];
        if self.count() <= i {
            return owner == 0;
        }
        if i as u64 == self.config[CONFIG_GIC] {
            return owner == GIC_OWNER;
        }
        u64::from(owner) <= HIGHEST_ID
    }
}

// The place of C3, where the check found that.
fn used_record(found: Checked) -> Option<usize>
    ensures { result ≡ used_record found }
{
    match found {
        Checked::NotZero(record) => Some(record),
        _ => None,
    }
}
