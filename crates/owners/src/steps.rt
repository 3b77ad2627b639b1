// One request: 11 where the zone may not hold what it is to be given, and else the first machine's answer.
ghost use Rattle.std.specs.Prelude.{true, ◌≡◌};
ghost use Rattle.rules.specs.Numbers.{number, code};
ghost use Rattle.rules.specs.Owners.{stranger, eleven_over};
ghost use Rattle.owners.specs.Step.{OwnedStepped};
ghost use Rattle.owners.specs.View.{owned_in};

use crate::owned::Owned;
use crate::sound::vetted;
use rules::limits::MOST_REGIONS;
use rules::numbers::NOT_CONFIGURED;
use rules::{Kind, Refusal, Request};
use zones::{CONFIG_WORDS, TABLE_WORDS, answer_in};

// The table is changed where it lies; a refusal leaves it as it was.
pub fn step_in(
    c: &[u64; CONFIG_WORDS],
    owners: &[u32; MOST_REGIONS],
    t: &mut [u64; TABLE_WORDS],
    q: Request,
) -> Result<(), Refusal>
    ensures { OwnedStepped c.now owners.now t.old q (code result) t.new }
{
    let owned = vetted(c, owners, t)?;
    if owned.is_stranger(q) {
        return Err(eleven_over(answer_in(c, t, q)));
    }
    zones::step_in(c, t, q)
}

impl Owned<'_> {
    // Whether the request is an insert of a region that the zone may not hold.
    pub fn is_stranger(&self, q: Request) -> bool
        ensures { result ≡ stranger (owned_in self.now.config.now self.now.owners.now) q.kind q.zone }
    {
        match q.kind {
            Kind::Insert(side, r) => !self.may_hold(u64::from(q.zone), side, r),
            _ => false,
        }
    }
}

// What 11 makes of the first machine's answer: it comes before every number above it, and before acceptance.
pub fn eleven_over(answer: Result<(), Refusal>) -> Refusal
    ensures { number result ≡ eleven_over true (code answer) }
{
    match answer {
        Err(why) if u32::from(why) < NOT_CONFIGURED => why,
        _ => Refusal::NotConfigured,
    }
}
