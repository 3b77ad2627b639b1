// Plans that arrive in pieces: the bytes go into one lent buffer, and an end call applies what came.
#![tactic(auto)]

ghost use Rattle.std.specs.Prelude.{◌+◌, ◌≤◌, ◌≡◌, length};
ghost use Rattle.std.proofs.Math.Seq.{paste};
ghost use Rattle.std.specs.Result.{result_unwrap_or};
ghost use Rattle.rules.specs.Limits.{limits};
ghost use Rattle.rules.specs.Numbers.{code};
ghost use Rattle.rules.specs.Receiving.{is_over, stored_in, fitting, grown};
ghost use Rattle.receiver.specs.Words.{TakesIn, EndsIn, over_away};

use plan::{LONGEST_PLAN, apply_words, find_sections};
use rules::{Outcome, Receiver, Refusal};
use zones::{CONFIG_WORDS, TABLE_WORDS, standing};

// What an end call answers, and the next receiver.
#[derive(Clone, Copy)]
pub struct Ending {
    pub outcome: Outcome,
    pub receiver: Receiver,
}

const EMPTY: Receiver = Receiver { stored: 0, more: 0 };

// The longest plan is stored, and more came.
const FULL: Receiver = Receiver {
    stored: LONGEST_PLAN,
    more: 1,
};

// Those of the piece's bytes that the longest plan leaves room for go into the buffer, after the stored ones, and the next receiver is answered.
// Nothing is applied.
pub fn take_piece(receiver: Receiver, buffer: &mut [u8], piece: &[u8]) -> Result<Receiver, Refusal>
    ensures { TakesIn receiver buffer.old piece.now (code result) (result_unwrap_or result receiver) buffer.new }
{
    if buffer.len() < LONGEST_PLAN {
        return Err(Refusal::BufferShort);
    }
    let at = stored_in(receiver);
    let many = fitting(receiver, piece.len());
    put_bytes(buffer, at, &piece[..many]);
    Ok(grown(receiver, piece.len()))
}

// Applies what came to the state whose words are lent, as `plan::apply_words` applies a whole plan.
pub fn end_words(
    config: &[u64; CONFIG_WORDS],
    table: &mut [u64; TABLE_WORDS],
    edition: u32,
    receiver: Receiver,
    buffer: &[u8],
) -> Ending
    ensures { EndsIn config.now table.old edition receiver buffer.now result table.new }
{
    if buffer.len() < LONGEST_PLAN {
        return Ending {
            outcome: Outcome::refused(Refusal::BufferShort, 0),
            receiver,
        };
    }
    let came = &buffer[..stored_in(receiver)];
    let outcome = if is_over(receiver) {
        refuse_over(config, table, came)
    } else {
        apply_words(config, table, edition, came)
    };
    Ending {
        outcome,
        receiver: EMPTY,
    }
}

// ---- a receiver, which is a word of the rules and so has no methods here

// More came than the longest plan has; words that no call leaves count so too.
fn is_over(r: Receiver) -> bool
    ensures { result ≡ is_over limits r }
{
    r.more != 0 || r.stored > LONGEST_PLAN
}

fn stored_in(r: Receiver) -> usize
    ensures { result ≡ stored_in limits r }
{
    if is_over(r) { LONGEST_PLAN } else { r.stored }
}

// How many of the bytes there is room for.
fn fitting(r: Receiver, bytes: usize) -> usize
    ensures { result ≡ fitting limits r bytes }
{
    bytes.min(LONGEST_PLAN - stored_in(r))
}

fn grown(r: Receiver, bytes: usize) -> Receiver
    ensures { result ≡ grown limits r bytes }
{
    let at = stored_in(r);
    if is_over(r) || bytes > LONGEST_PLAN - at {
        return FULL;
    }
    Receiver {
        stored: at + bytes,
        more: 0,
    }
}

// The bytes of a piece, from byte `at` of the buffer on: one by one, as `copy_from_slice` would have the library import memcpy.
fn put_bytes(buffer: &mut [u8], at: usize, piece: &[u8])
    requires { at + length piece.now ≤ length buffer.old }
    ensures { buffer.new ≡ paste buffer.old at piece.now (length piece.now) }
{
    for (i, byte) in piece.iter().enumerate() {
        buffer[at + i] = *byte;
    }
}

// As many bytes as the longest plan has, after which more came: they read alike whatever follows, and are followed by too much.
fn refuse_over(config: &[u64; CONFIG_WORDS], table: &[u64; TABLE_WORDS], stored: &[u8]) -> Outcome
    ensures { result ≡ over_away config.now table.now stored.now }
{
    if let Err(why) = standing(config, table) {
        return Outcome::refused(why, 0);
    }
    match find_sections(stored) {
        Ok(_) => Outcome::refused(Refusal::Trailing, stored.len()),
        Err(refused) => Outcome::refused(refused.why, refused.at),
    }
}
