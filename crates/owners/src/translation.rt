// Translation: 1 and 2 as this machine has them, and else the first machine's.
ghost use Rattle.std.specs.Prelude.{◌≡◌};
ghost use Rattle.rules.specs.Limits.{limits};
ghost use Rattle.rules.specs.Owners.{owned_translated};
ghost use Rattle.zones.specs.Translate.{told};
ghost use Rattle.zones.specs.View.{stored_table};
ghost use Rattle.owners.specs.View.{stored_owned};

use crate::sound::vetted;
use rules::limits::MOST_REGIONS;
use rules::{Guest, Refusal, Side};
use zones::{CONFIG_WORDS, Stretch, TABLE_WORDS};

// Where the device or processor of a zone comes out, for any words and any address.
pub fn translate_in(
    c: &[u64; CONFIG_WORDS],
    owners: &[u32; MOST_REGIONS],
    t: &[u64; TABLE_WORDS],
    zone: u32,
    side: Side,
    a: Guest,
) -> Result<Stretch, Refusal>
    ensures { told result ≡ owned_translated limits (stored_owned c.now owners.now) (stored_table t.now) zone side a }
{
    vetted(c, owners, t)?;
    zones::translate_in(c, t, zone, side, a)
}
