// Where the sections of a plan with owners begin: the first machine's, with the owners' section passed over behind the regions'.
ghost use Rattle.std.specs.Prelude.{◌≡◌, length};
ghost use Rattle.rules.specs.Limits.{limits};
ghost use Rattle.rules.specs.OwnedPlan.{owned_format, read_owned};
ghost use Rattle.plan.specs.Told.{told};
ghost use Rattle.owned.specs.Found.{found_owned, four_owned};

use fields::u32_at;
use plan::{
    Found, Four, MARKS_BYTES, Marks, Refused, find_from_zones, pass_numbers_at, pass_regions_at,
    read_marks, whole_at,
};

// 20 or 21 in the order of the file, then 22.
pub fn find_sections(plan: &[u8]) -> Result<Found, Refused>
    ensures { told result ≡ found_owned (length plan.now) (read_owned limits plan.now) }
{
    let four = find_four(plan);
    whole_at(four, plan.len())
}

// The sections one after another; what follows them is not looked at. The regions' count is the owners' too.
fn find_four(plan: &[u8]) -> Result<Four, Refused>
    ensures { told result ≡ four_owned (length plan.now) ((owned_format limits).read plan.now) }
{
    let Marks { gic, edition } = read_marks(plan)?;
    let owners = pass_regions_at(plan, MARKS_BYTES)?;
    let count = u32_at(plan, MARKS_BYTES);
    let zones = pass_numbers_at(plan, owners, count)?;
    find_from_zones(plan, zones, gic, edition)
}
