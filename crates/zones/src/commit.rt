// A change made where the table lies.
ghost use Rattle.std.specs.Prelude.{◌≡◌};
ghost use Rattle.zones.specs.Decide.{changed, Allowed};
ghost use Rattle.zones.specs.View.{zones_in};
ghost use Rattle.zones.specs.Words.{words_of, Packed};

use crate::decide::Change;
use crate::layout::TABLE_WORDS;
use crate::table::{add_zone, cut_region, push_region, remove_zone};

pub fn commit(t: &mut [u64; TABLE_WORDS], change: Change)
    requires { Packed t.old × Allowed change (zones_in t.old) }
    ensures { t.new ≡ words_of (changed change (zones_in t.old)) }
{
    match change {
        Change::Add(id) => add_zone(t, id),
        Change::Drop(z) => remove_zone(t, z),
        Change::Push(z, side, r) => push_region(t, z, side, r),
        Change::Cut(z, side, i) => cut_region(t, z, side, i),
    }
}
