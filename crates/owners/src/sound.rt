// 1 and 2, and the table check. What is asked of the owners needs nothing of the first machine's check, so that one runs once: here, or in the
// function that a caller goes on with.
ghost use Rattle.std.specs.Prelude.{◌≡◌, IfOk};
ghost use Rattle.rules.specs.Limits.{limits};
ghost use Rattle.rules.specs.Numbers.{code};
ghost use Rattle.rules.specs.Owners.{owned_check_table, owned_standing};
ghost use Rattle.zones.specs.View.{stored_table};
ghost use Rattle.owners.specs.Fitting.{Told};
ghost use Rattle.owners.specs.View.{stored_owned};

use crate::owned::Owned;
use rules::limits::MOST_REGIONS;
use rules::{Checked, Refusal};
use zones::{CONFIG_WORDS, TABLE_WORDS, check_words};

// Yes exactly for a sound table under a sound configuration with owners, where no zone holds another's region.
pub fn is_sound(
    c: &[u64; CONFIG_WORDS],
    owners: &[u32; MOST_REGIONS],
    t: &[u64; TABLE_WORDS],
) -> bool
    ensures { result ≡ owned_check_table limits (stored_owned c.now owners.now) (stored_table t.now) }
{
    standing(c, owners, t).is_ok()
}

// What refuses any request before it is looked at: 1 for the configuration and its owners, 2 for the table.
pub fn standing(
    c: &[u64; CONFIG_WORDS],
    owners: &[u32; MOST_REGIONS],
    t: &[u64; TABLE_WORDS],
) -> Result<(), Refusal>
    ensures { code result ≡ owned_standing limits (stored_owned c.now owners.now) (stored_table t.now) }
{
    vetted(c, owners, t)?;
    zones::standing(c, t)
}

// 1 or 2 where that is for the owners; where it is not, it is for the first machine's check.
pub fn vetted<'a>(
    c: &'a [u64; CONFIG_WORDS],
    owners: &'a [u32; MOST_REGIONS],
    t: &[u64; TABLE_WORDS],
) -> Result<Owned<'a>, Refusal>
    ensures told { Told c.now owners.now t.now (code result) }
    ensures same { IfOk result (λ o. (o.config.now ≡ c.now) × (o.owners.now ≡ owners.now)) }
{
    let Some(owned) = Owned::new(c, owners) else {
        return Err(Refusal::UnsoundConfig);
    };
    if !owned.owners_fit() {
        return Err(Refusal::UnsoundConfig);
    }
    if owned.holds_own(t) {
        return Ok(owned);
    }
    match check_words(c) {
        Checked::Sound => Err(Refusal::UnsoundTable),
        _ => Err(Refusal::UnsoundConfig),
    }
}
