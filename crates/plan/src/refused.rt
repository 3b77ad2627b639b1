// Bytes that are refused.
ghost use Rattle.std.specs.Prelude.{◌≡◌};
ghost use Rattle.plan.specs.Told.{by_reason, by_number};

use rules::Refusal;

// Why, and at which byte.
#[derive(Clone, Copy)]
pub struct Refused {
    pub why: Refusal,
    pub at: usize,
}

// The same by a number, which may be any.
#[derive(Clone, Copy)]
pub struct Numbered {
    pub number: u32,
    pub at: usize,
}

impl From<Refused> for Numbered {
    ghost from_gives = { λ r n. by_number n ≡ by_reason r };

    fn from(r: Refused) -> Numbered {
        Numbered {
            number: u32::from(r.why),
            at: r.at,
        }
    }
}
