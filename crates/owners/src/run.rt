// A run of requests from lent bytes: the first machine's, up to the first insert that the owners refuse.
ghost use Rattle.std.specs.Prelude.{◌≡◌};
ghost use Rattle.owners.specs.Run.{OwnedRan, first_stranger};

use crate::owned::Owned;
use crate::sound::vetted;
use crate::steps::eleven_over;
use rules::Outcome;
use rules::limits::MOST_REGIONS;
use rules::numbers::REQUEST_REFUSED;
use rules::widths::REQUEST_BYTES;
use zones::{CONFIG_WORDS, TABLE_WORDS, answer_in, request_in};

// The requests that the bytes hold, one after another at the lent table. The first refused one ends the run and leaves the table
// as the earlier ones made it. Bytes after the last whole request are not looked at.
pub fn run_in(
    c: &[u64; CONFIG_WORDS],
    owners: &[u32; MOST_REGIONS],
    t: &mut [u64; TABLE_WORDS],
    requests: &[u8],
) -> Outcome
    ensures { OwnedRan c.now owners.now t.old requests.now result t.new }
{
    let owned = match vetted(c, owners, t) {
        Ok(owned) => owned,
        Err(why) => return Outcome::refused(why, 0),
    };
    let Some(k) = owned.first_stranger(requests) else {
        return zones::run_in(c, t, requests);
    };
    let at = k * REQUEST_BYTES;
    let outcome = zones::run_in(c, t, &requests[..at]);
    if outcome.number != 0 {
        return outcome;
    }
    let q = request_in(&requests[at..at + REQUEST_BYTES]);
    Outcome {
        number: REQUEST_REFUSED,
        place: k,
        inner: u32::from(eleven_over(answer_in(c, t, q))),
    }
}

impl Owned<'_> {
    // The first of the requests that is an insert of a region that its zone may not hold.
    fn first_stranger(&self, requests: &[u8]) -> Option<usize>
        ensures { result ≡ first_stranger self.now.config.now self.now.owners.now requests.now }
    {
        (0..requests.len() / REQUEST_BYTES).find(|i| {
            let at = i * REQUEST_BYTES;
            self.is_stranger(request_in(&requests[at..at + REQUEST_BYTES]))
        })
    }
}
