// One request.
ghost use Rattle.std.specs.Prelude.{◌≡◌};
ghost use Rattle.rules.specs.Limits.{limits};
ghost use Rattle.rules.specs.Numbers.{code};
ghost use Rattle.rules.specs.Requests.{refusal, next, answer};
ghost use Rattle.zones.specs.Decide.{Ready};
ghost use Rattle.zones.specs.Step.{words_left, Stepped};
ghost use Rattle.zones.specs.View.{stored_config, stored_table, config_in, zones_in};
ghost use Rattle.zones.specs.Words.{words_of};

use crate::commit::commit;
use crate::config::Config;
use crate::decide::decide;
use crate::layout::{CONFIG_WORDS, TABLE_WORDS};
use crate::sound::standing;
use crate::table::Table;
use rules::{Refusal, Request};

// The next table, or why the request is refused.
pub fn step(c: Config, t: Table, q: Request) -> Result<Table, Refusal>
    ensures { Stepped c.words t.words q (code result) (words_left t.words result) }
{
    let config = c.words;
    let mut words = t.words;
    step_in(&config, &mut words, q)?;
    Ok(Table { words })
}

// The same where the table lies: a refusal leaves it as it was.
pub fn step_in(
    c: &[u64; CONFIG_WORDS],
    t: &mut [u64; TABLE_WORDS],
    q: Request,
) -> Result<(), Refusal>
    ensures { Stepped c.now t.old q (code result) t.new }
{
    standing(c, t)?;
    step_ready(c, t, q)
}

// The answer alone: the table is only looked at.
pub fn answer_in(c: &[u64; CONFIG_WORDS], t: &[u64; TABLE_WORDS], q: Request) -> Result<(), Refusal>
    ensures { code result ≡ answer limits (stored_config c.now) (stored_table t.now) q }
{
    standing(c, t)?;
    decide(c, t, q)?;
    Ok(())
}

// One request at a sound table, whose soundness is known and not looked for again.
pub fn step_ready(
    c: &[u64; CONFIG_WORDS],
    t: &mut [u64; TABLE_WORDS],
    q: Request,
) -> Result<(), Refusal>
    requires { Ready c.now t.old }
    ensures { (code result ≡ refusal limits (config_in c.now) (zones_in t.old) q) × (t.new ≡ words_of (next limits (config_in c.now) (zones_in t.old) q)) }
{
    let change = decide(c, t, q)?;
    commit(t, change);
    Ok(())
}
