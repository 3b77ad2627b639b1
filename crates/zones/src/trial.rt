// A run that is only tried: the requests are done at the lent table, and what they did is undone, the last first. For this each leaves a
// note of where it took something out; nothing else of the table is kept anywhere.
ghost use Rattle.std.specs.Prelude.{◌*◌, ◌/◌, ◌≤◌, ◌<◌, List, ◌≡◌, length};
ghost use Rattle.rules.specs.Limits.{most_requests, limits};
ghost use Rattle.rules.specs.Run.{request_size, request_from, requests_in, run, ended};
ghost use Rattle.rules.specs.Tables.{Zone};
ghost use Rattle.zones.specs.Decide.{Ready};
ghost use Rattle.zones.specs.Trial.{trial_answer, note_of, Before, Trail, Noted};
ghost use Rattle.zones.specs.View.{config_in, zones_in, stored_config, stored_table};
ghost use Rattle.zones.specs.Words.{words_of, Packed};

use crate::commit::commit;
use crate::decide::{Change, decide};
use crate::layout::{CONFIG_WORDS, TABLE_WORDS};
use crate::run::{request_at, stopped_at};
use crate::sound::standing;
use crate::table::{
    cut_region, find_zone, put_back_region, put_back_zone, remove_zone, set_len, zone_count,
};
use rules::limits::MOST_REQUESTS;
use rules::widths::REQUEST_BYTES;
use rules::{Kind, Outcome, Refusal, Request, Side};

// A note for each request.
const NOTES: usize = MOST_REQUESTS as usize;

// What a run of the requests in the bytes would answer; 29 where there are more than a plan may have. The table is afterwards what it
// was.
pub fn try_in(c: &[u64; CONFIG_WORDS], t: &mut [u64; TABLE_WORDS], requests: &[u8]) -> Outcome
    ensures { (result ≡ trial_answer limits (stored_config c.now) (stored_table t.old) (requests_in requests.now)) × (t.new ≡ t.old) }
{
    if let Err(why) = standing(c, t) {
        return Outcome::refused(why, 0);
    }
    if NOTES < requests.len() / REQUEST_BYTES {
        return Outcome::refused(Refusal::TooManyRequests, 0);
    }
    try_ready(c, t, requests)
}

// The same at a sound table, of requests for which there are notes.
fn try_ready(c: &[u64; CONFIG_WORDS], t: &mut [u64; TABLE_WORDS], requests: &[u8]) -> Outcome
    requires { Ready c.now t.old × (length requests.now / request_size ≤ most_requests) }
    ensures { (result ≡ ended (run limits (config_in c.now) (zones_in t.old) (requests_in requests.now))) × (t.new ≡ t.old) }
{
    let mut notes = [0u8; NOTES];
    let outcome = run_noting(c, t, requests, &mut notes);
    undo_all(t, requests, &notes, outcome.place);
    outcome
}

// A run that notes where each accepted request took something out.
fn run_noting(
    c: &[u64; CONFIG_WORDS],
    t: &mut [u64; TABLE_WORDS],
    requests: &[u8],
    notes: &mut [u8],
) -> Outcome
    requires { Ready c.now t.old × (length requests.now / request_size ≤ length notes.old) }
    ensures { Noted c.now t.old requests.now result t.new notes.new }
{
    let n = requests.len() / REQUEST_BYTES;
    for i in 0..n {
        let change = match decide(c, t, request_at(requests, i)) {
            Ok(change) => change,
            Err(why) => return stopped_at(i, why),
        };
        notes[i] = note(change);
        commit(t, change);
    }
    Outcome::done(n)
}

// The position of a zone or of a region that goes.
fn note(change: Change) -> u8
    requires { note_of change < 256 }
    ensures { result ≡ note_of change }
{
    match change {
        Change::Add(_) | Change::Push(_, _, _) => 0,
        Change::Drop(z) => z as u8,
        Change::Cut(_, _, i) => i as u8,
    }
}

// The first `done` requests undone, the last of them first.
fn undo_all(t: &mut [u64; TABLE_WORDS], requests: &[u8], notes: &[u8], done: usize)
    requires { ((done ≤ length requests.now / request_size) × (done ≤ length notes.now)) × ((b : List Zone) × Trail b requests.now notes.now done t.old) }
    ensures { (b : List Zone) → Trail b requests.now notes.now done t.old → t.new ≡ words_of b }
{
    for i in (0..done).rev() {
        undo(t, request_at(requests, i), usize::from(notes[i]));
    }
}

// One accepted request undone: what it added goes, and what it took out stands where it stood. The zone of an accepted request of a region is
// there, so nothing is left out; `unwrap` would say so too, and bring a trap into the library.
fn undo(t: &mut [u64; TABLE_WORDS], q: Request, place: usize)
    requires { Packed t.old × ((b : List Zone) × Before b q place t.old) }
    ensures { (b : List Zone) → Before b q place t.old → t.new ≡ words_of b }
{
    let id = q.zone as u64;
    match q.kind {
        Kind::AddZone => {
            let n = zone_count(t);
            remove_zone(t, n - 1);
        }
        Kind::RemoveZone => put_back_zone(t, place, id),
        Kind::Insert(side, _) => {
            let Some(z) = find_zone(t, id) else {
                return;
            };
            let n = set_len(t, z, side);
            cut_region(t, z, side, n - 1);
        }
        Kind::Remove(side, r) => {
            let Some(z) = find_zone(t, id) else {
                return;
            };
            put_back_region(t, z, side, place, r);
        }
        Kind::NoRequest => {}
    }
}
