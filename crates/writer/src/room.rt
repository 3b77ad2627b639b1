// What is put into a lent buffer, measured first.
ghost use Rattle.std.specs.Prelude.{ℕ, List, [], ◌≡◌};
ghost use Rattle.puts.specs.Filling.{Puts};
ghost use Rattle.rules.specs.Filling.{filling};

use puts::fill;
use rules::{Outcome, Refusal};

// 28 where it does not fit, and then the buffer stays as it was; else 0 with how many bytes stand at its start.
pub fn fill_buffer<F: Fn(&mut [u8]) -> usize>(put: F, buffer: &mut [u8]) -> Outcome
    requires { F.IsAlwaysCallable put }
    ensures { (b : List ℕ) → Puts F.Fn put b → record { outcome = result; buffer = buffer.new } ≡ filling [] b buffer.old }
{
    match fill(put, buffer) {
        Some(length) => Outcome::done(length),
        None => Outcome::refused(Refusal::BufferShort, 0),
    }
}
