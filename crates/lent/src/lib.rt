// What every library for C and Rust needs beside its functions: a side by its number, and answers as numbers.
#![tactic(auto)]

ghost use Rattle.std.specs.Prelude.{[], ◌∷◌, ◌≡◌};
ghost use Rattle.rules.specs.Numbers.{code};
ghost use Rattle.lent.specs.Lent.{yes_or_no, side_asked};

use rules::{Outcome, Refusal, Side};

// Side 0 is the CPU, any other the IOMMU.
#[tactic(auto, unfolding(crate::specs::Lent::side_asked))]
pub fn side_asked(number: u32) -> Side
    ensures { result ≡ side_asked number }
{
    match number {
        0 => Side::Cpu,
        _ => Side::Iommu,
    }
}

// 1 for yes, 0 for no.
#[tactic(auto, unfolding(crate::specs::Lent::yes_or_no))]
pub fn yes_or_no(test: bool) -> u32
    ensures { result ≡ yes_or_no test }
{
    u32::from(test)
}

// 0, or the number of the refusal.
pub fn number<T: Drop>(answer: Result<T, Refusal>) -> u32
    ensures { result ≡ code answer }
{
    match answer {
        Ok(_) => 0,
        Err(why) => u32::from(why),
    }
}

// The words are an outcome's place and inner number.
pub fn put_places(places: &mut [u64; 2], outcome: Outcome)
    ensures { places.new ≡ outcome.place ∷ outcome.inner ∷ [] }
{
    *places = [outcome.place as u64, outcome.inner as u64];
}
