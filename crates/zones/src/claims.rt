// The requests of a log beside the answers that are claimed of them, both from lent bytes, up to the first claim that is false.
ghost use Rattle.std.specs.Prelude.{◌≡◌};
ghost use Rattle.rules.specs.Limits.{limits};
ghost use Rattle.rules.specs.Logs.{claimless, false_claim, audit_from, claims_in};
ghost use Rattle.rules.specs.Numbers.{code};
ghost use Rattle.rules.specs.Run.{requests_in};
ghost use Rattle.zones.specs.Audit.{AuditedIn};
ghost use Rattle.zones.specs.Decide.{Ready};
ghost use Rattle.zones.specs.View.{config_in, zones_in};
ghost use Rattle.zones.specs.Words.{words_of};

use crate::commit::commit;
use crate::decide::{Change, decide};
use crate::layout::{CONFIG_WORDS, TABLE_WORDS};
use crate::run::request_at;
use crate::sound::standing;
use fields::u32_at;
use rules::numbers::FALSE_CLAIM;
use rules::widths::{REQUEST_BYTES, SHORT_BYTES};
use rules::{LogAnswer, Outcome, Refusal};

// As many claims as there are requests and claims wholly there. A refused request leaves the table and stops nothing; the first false claim
// does, and the table is then what the requests before it made of it.
pub fn audit_in(
    c: &[u64; CONFIG_WORDS],
    t: &mut [u64; TABLE_WORDS],
    requests: &[u8],
    claims: &[u8],
) -> LogAnswer
    ensures { AuditedIn c.now t.old requests.now claims.now result t.new }
{
    if let Err(why) = standing(c, t) {
        return without_claim(Outcome::refused(why, 0));
    }
    audit_ready(c, t, requests, claims)
}

// The same at a sound table: its soundness is carried from request to request and not looked for again.
fn audit_ready(
    c: &[u64; CONFIG_WORDS],
    t: &mut [u64; TABLE_WORDS],
    requests: &[u8],
    claims: &[u8],
) -> LogAnswer
    requires { Ready c.now t.old }
    ensures { (result ≡ (audit_from limits (config_in c.now) 0 (zones_in t.old) (requests_in requests.now) (claims_in claims.now)).answer) × (t.new ≡ words_of (audit_from limits (config_in c.now) 0 (zones_in t.old) (requests_in requests.now) (claims_in claims.now)).table) }
{
    let asked = requests.len() / REQUEST_BYTES;
    let told = claims.len() / SHORT_BYTES;
    let n = asked.min(told);
    for i in 0..n {
        let decision = decide(c, t, request_at(requests, i));
        let right = number(decision);
        let claimed = u32_at(claims, i * SHORT_BYTES);
        if right != claimed {
            return false_claim(i, claimed, right);
        }
        if let Ok(change) = decision {
            commit(t, change);
        }
    }
    without_claim(Outcome::done(n))
}

// The number that goes with a decision: 0 where a change is made.
fn number(decision: Result<Change, Refusal>) -> u32
    ensures { result ≡ code decision }
{
    match decision {
        Ok(_) => 0,
        Err(why) => u32::from(why),
    }
}

fn false_claim(i: usize, claimed: u32, right: u32) -> LogAnswer
    ensures { result ≡ false_claim i claimed right }
{
    LogAnswer {
        outcome: Outcome {
            number: FALSE_CLAIM,
            place: i,
            inner: right,
        },
        claimed,
    }
}

// An answer that speaks of no claim.
fn without_claim(outcome: Outcome) -> LogAnswer
    ensures { result ≡ claimless outcome }
{
    LogAnswer {
        outcome,
        claimed: 0,
    }
}
