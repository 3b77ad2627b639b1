// The library for an update agent, for C and Rust to link: include/peatmitten.h has the same functions and layouts. Each function
// answers on every argument; nothing is asked of the caller beyond pointers and lengths that are valid.
#![tactic(auto)]

mod beside;

ghost use Rattle.std.specs.Prelude.{[], ◌∷◌, ◌≡◌, length, get_or};
ghost use Rattle.lent.specs.Lent.{yes_or_no, side_asked, stretch_of};
ghost use Rattle.lists.specs.Alike.{alike};
ghost use Rattle.rules.specs.Fields.{region_of};
ghost use Rattle.rules.specs.Limits.{limits};
ghost use Rattle.rules.specs.Configuration.{check, check_number};
ghost use Rattle.rules.specs.Run.{make_request};
ghost use Rattle.rules.specs.Tables.{check_table};
ghost use Rattle.rules.specs.Translation.{translated};
ghost use Rattle.zones.specs.Step.{Stepped};
ghost use Rattle.zones.specs.View.{stored_config, stored_table};
ghost use Rattle.walker.specs.Edition.{edition_of};
ghost use Rattle.agent.specs.Agent.{layout, places_of, reading_number, reading_place, edition_number, edition_value, receiver_in, AppliesWords, TakesWords, EndsWords, WritesWords, WritesZonesWords};
ghost use Rattle.agent.specs.Agent.{base_stretch, no_byte, ListsWords, ListingWords, ChecksWords};

pub use beside::peatmitten_beside_words;
use differing::lacking_part;
use lent::{number, put_places, side_asked, yes_or_no};
use listing::{LONGEST_LISTING, list_table};
use logs::{LONGEST_LOG, check_log};
use plan::{LONGEST_PLAN, apply_words, find_base, find_sections};
use receiver::{end_words, take_piece};
use rules::limits::{MOST_IN_SET, MOST_REGIONS, MOST_REQUESTS, MOST_ZONES};
use rules::{Guest, Receiver};
use walker::edition_of;
use wanted::list_words;
use writer::{write_words, write_zones};
use zones::{
    CONFIG_WORDS, REGION_WORDS, TABLE_WORDS, check_earlier, check_number, check_place, check_words,
    is_sound, make_request, region_from, step_in, translate_in,
};

// What is said of a place that has no byte.
const NO_BYTE: u64 = 256;

// What a header must have for this library, one number at a time; 0 past the last.
const LAYOUT: [u64; 8] = [
    MOST_REGIONS as u64,
    MOST_ZONES as u64,
    MOST_IN_SET as u64,
    MOST_REQUESTS as u64,
    REGION_WORDS as u64,
    LONGEST_PLAN as u64,
    LONGEST_LISTING as u64,
    LONGEST_LOG as u64,
];

// The function's name says them too, so that a program with the header of another library does not link.
#[tactic(auto, unfolding(rules::specs::Listing::longest_listing, rules::specs::Listing::longest_line, rules::specs::Listing::side_word, formats::specs::Texts::ascii))]
#[unsafe(no_mangle)]
pub extern "C" fn peatmitten_layout_256_32_16_512_4(which: u32) -> u64
    ensures { result ≡ get_or layout which 0 }
{
    LAYOUT.get(which as usize).copied().unwrap_or(0)
}

// The number of a configuration's check, 1 to 6 for C1 to C6; and its two places.
#[unsafe(no_mangle)]
pub extern "C" fn peatmitten_check_config(
    config: &[u64; CONFIG_WORDS],
    places: &mut [u64; 2],
) -> u32
    ensures { (result ≡ check_number (check limits (stored_config config.now))) × (places.new ≡ places_of (check limits (stored_config config.now))) }
{
    let found = check_words(config);
    *places = [check_place(found) as u64, check_earlier(found) as u64];
    check_number(found)
}

// 1 for a sound table under a sound configuration, else 0.
#[unsafe(no_mangle)]
pub extern "C" fn peatmitten_check_table(
    config: &[u64; CONFIG_WORDS],
    table: &[u64; TABLE_WORDS],
) -> u32
    ensures { result ≡ yes_or_no (check_table limits (stored_config config.now) (stored_table table.now)) }
{
    yes_or_no(is_sound(config, table))
}

// One request; the table is changed where it lies.
#[unsafe(no_mangle)]
pub extern "C" fn peatmitten_request(
    config: &[u64; CONFIG_WORDS],
    table: &mut [u64; TABLE_WORDS],
    kind: u32,
    zone: u32,
    v: u64,
    p: u64,
    size: u64,
    rights: u64,
) -> u32
    ensures { Stepped config.now table.old (make_request kind zone (region_of v p size rights)) result table.new }
{
    let region = region_from(&[v, p, size, rights], 0);
    let request = make_request(kind, zone, region);
    number(step_in(config, table, request))
}

// Where a guest address of a zone comes out, and how many bytes of the covering region there are from it on. Side 0 is the CPU, any
// other the IOMMU.
#[unsafe(no_mangle)]
pub extern "C" fn peatmitten_translate_words(
    config: &[u64; CONFIG_WORDS],
    table: &[u64; TABLE_WORDS],
    zone: u32,
    side: u32,
    address: u64,
    stretch: &mut [u64; 2],
) -> u32
    ensures { (result ≡ (translated limits (stored_config config.now) (stored_table table.now) zone (side_asked side) (record { 0 = address })).number) × (stretch.new ≡ stretch_of (translated limits (stored_config config.now) (stored_table table.now) zone (side_asked side) (record { 0 = address }))) }
{
    let asked = side_asked(side);
    match translate_in(config, table, zone, asked, Guest(address)) {
        Ok(found) => {
            *stretch = [found.phys.0, found.remaining];
            0
        }
        Err(why) => {
            *stretch = [0, 0];
            u32::from(why)
        }
    }
}

// Applies a plan to the state that is lent in three parts: the number, and its place and inner number. Table and edition are changed where
// they lie, and only where the number is 0. While the call runs, the table may hold what earlier requests of the plan made of it.
#[unsafe(no_mangle)]
pub extern "C" fn peatmitten_apply_words(
    config: &[u64; CONFIG_WORDS],
    table: &mut [u64; TABLE_WORDS],
    edition: &mut u32,
    plan: &[u8],
    places: &mut [u64; 2],
) -> u32
    ensures { AppliesWords config.now table.old edition.old plan.now result table.new edition.new places.new }
{
    let held = *edition;
    let outcome = apply_words(config, table, held, plan);
    put_places(places, outcome);
    if outcome.number == 0 {
        *edition = held + 1;
    }
    outcome.number
}

// Takes a piece of a plan into the buffer that is lent at each call: 0, or 28 where that is shorter than the longest plan.
#[unsafe(no_mangle)]
pub extern "C" fn peatmitten_take_piece(
    receiver: &mut [u64; 2],
    buffer: &mut [u8],
    piece: &[u8],
) -> u32
    ensures { TakesWords receiver.old buffer.old piece.now result receiver.new buffer.new }
{
    let held = receiver_in(receiver);
    let taken = take_piece(held, buffer, piece);
    let next = taken.unwrap_or(held);
    *receiver = [next.stored as u64, next.more];
    number(taken)
}

// Applies what came in pieces, as `peatmitten_apply_words` applies a whole plan.
#[unsafe(no_mangle)]
pub extern "C" fn peatmitten_end_words(
    config: &[u64; CONFIG_WORDS],
    table: &mut [u64; TABLE_WORDS],
    edition: &mut u32,
    receiver: &mut [u64; 2],
    buffer: &[u8],
    places: &mut [u64; 2],
) -> u32
    ensures { EndsWords config.now table.old edition.old receiver.old buffer.now result table.new edition.new receiver.new places.new }
{
    let at = *edition;
    let held = receiver_in(receiver);
    let ending = end_words(config, table, at, held, buffer);
    *receiver = [ending.receiver.stored as u64, ending.receiver.more];
    put_places(places, ending.outcome);
    if ending.outcome.number == 0 {
        *edition = at + 1;
    }
    ending.outcome.number
}

// Writes the plan for a state's base that asks for requests, which are lent as the bytes that a plan holds them as: the number, and its place
// and inner number. Only the buffer and the places are changed, the buffer only where the number is 0; while the call runs, the table may
// hold what the requests made of it.
#[unsafe(no_mangle)]
pub extern "C" fn peatmitten_write_words(
    config: &[u64; CONFIG_WORDS],
    table: &mut [u64; TABLE_WORDS],
    edition: u32,
    requests: &[u8],
    buffer: &mut [u8],
    places: &mut [u64; 2],
) -> u32
    ensures { WritesWords config.now table.old edition requests.now buffer.old result table.new buffer.new places.new }
{
    let outcome = write_words(config, table, edition, requests, buffer);
    put_places(places, outcome);
    outcome.number
}

// Writes the zones of a terminal's table as a plan holds its base, their count with them: the number, and on 0 how many bytes that is. The
// buffer is changed only where the number is 0.
#[unsafe(no_mangle)]
pub extern "C" fn peatmitten_zones_words(
    config: &[u64; CONFIG_WORDS],
    table: &[u64; TABLE_WORDS],
    buffer: &mut [u8],
    place: &mut [u64; 1],
) -> u32
    ensures { WritesZonesWords config.now table.now buffer.old result buffer.new place.new }
{
    let outcome = write_zones(config, table, buffer);
    *place = [outcome.place as u64];
    outcome.number
}

// Where a plan's own zones section begins, at its count, and how many bytes it has; or 20, 21 or 22 with its offset, and 0.
#[unsafe(no_mangle)]
pub extern "C" fn peatmitten_base_zones(plan: &[u8], stretch: &mut [u64; 2]) -> u32
    ensures { (result ≡ reading_number plan.now) × (stretch.new ≡ base_stretch plan.now) }
{
    let base = find_base(plan);
    match find_sections(plan) {
        Ok(found) => {
            *stretch = [found.zones as u64, base.len() as u64];
            0
        }
        Err(refused) => {
            *stretch = [refused.at as u64, base.len() as u64];
            u32::from(refused.why)
        }
    }
}

// The first place where the second of two stretches lacks the same byte, or the first one's length, and the byte that each has there.
#[unsafe(no_mangle)]
pub extern "C" fn peatmitten_lacking(first: &[u8], second: &[u8], bytes: &mut [u64; 2]) -> u64
    ensures { (result ≡ alike first.now second.now) × (bytes.new ≡ get_or first.now result no_byte ∷ get_or second.now result no_byte ∷ []) }
{
    let part = lacking_part(first, second);
    let at = first.len() - part.len();
    *bytes = [byte_at(first, at), byte_at(second, at)];
    at as u64
}

// A byte, or what is none past the end.
fn byte_at(s: &[u8], at: usize) -> u64
    ensures { result ≡ get_or s.now at no_byte }
{
    s.get(at).copied().map_or(NO_BYTE, u64::from)
}

// Works out the requests that lead from one table to another, into the buffer, as a plan holds them: the number, and how many there are. Only
// the buffer and the count are changed, the buffer only where the number is 0.
#[unsafe(no_mangle)]
pub extern "C" fn peatmitten_wanted_words(
    config: &[u64; CONFIG_WORDS],
    from: &[u64; TABLE_WORDS],
    to: &[u64; TABLE_WORDS],
    buffer: &mut [u8],
    count: &mut [u64; 1],
) -> u32
    ensures { ListsWords config.now from.now to.now buffer.old result buffer.new count.new }
{
    let listing = list_words(config, from, to, buffer);
    *count = [listing.unwrap_or(0) as u64];
    number(listing)
}

// Writes the map listing of a table: the number, and on 0 how many bytes it has, else 0. Only on 0 is the buffer changed.
#[unsafe(no_mangle)]
pub extern "C" fn peatmitten_list(
    config: &[u64; CONFIG_WORDS],
    table: &[u64; TABLE_WORDS],
    buffer: &mut [u8],
    length: &mut [u64; 1],
) -> u32
    ensures { ListingWords config.now table.now buffer.old result buffer.new length.new }
{
    let outcome = list_table(config, table, buffer);
    *length = [outcome.place as u64];
    outcome.number
}

// Checks a log: the number, its place, at a false claim what the rules answer and what was claimed. The configuration and the table are room to
// work in: of a log that reads whole they hold afterwards its configuration and the table at which the check ended. Only on 0 is the buffer
// changed: it begins with the end zones, and the place is how many bytes they are.
#[unsafe(no_mangle)]
pub extern "C" fn peatmitten_check_log(
    config: &mut [u64; CONFIG_WORDS],
    table: &mut [u64; TABLE_WORDS],
    log: &[u8],
    buffer: &mut [u8],
    places: &mut [u64; 3],
) -> u32
    ensures { ChecksWords config.old table.old log.now buffer.old result config.new table.new buffer.new places.new }
{
    let answer = check_log(config, table, log, buffer);
    let outcome = answer.outcome;
    *places = [
        outcome.place as u64,
        outcome.inner as u64,
        answer.claimed as u64,
    ];
    outcome.number
}

fn receiver_in(words: &[u64; 2]) -> Receiver
    ensures { result ≡ receiver_in words.now }
{
    Receiver {
        stored: words[0] as usize,
        more: words[1],
    }
}

// Reads a plan and applies nothing: 20, 21 or 22 with its offset, or 0 with the offset of the first request.
#[unsafe(no_mangle)]
pub extern "C" fn peatmitten_read(plan: &[u8], place: &mut [u64; 1]) -> u32
    ensures { (result ≡ reading_number plan.now) × (place.new ≡ reading_place plan.now ∷ []) }
{
    match find_sections(plan) {
        Ok(found) => {
            *place = [found.requests as u64];
            0
        }
        Err(refused) => {
            *place = [refused.at as u64];
            u32::from(refused.why)
        }
    }
}

// Which base edition a plan is for, by its marks alone: 20 or 21 with its offset, or 0 with the edition.
#[unsafe(no_mangle)]
pub extern "C" fn peatmitten_edition(plan: &[u8], answer: &mut [u64; 1]) -> u32
    ensures { (result ≡ edition_number (edition_of plan.now)) × (answer.new ≡ edition_value (edition_of plan.now) ∷ []) }
{
    match edition_of(plan) {
        Ok(named) => {
            *answer = [u64::from(named)];
            0
        }
        Err(refused) => {
            *answer = [refused.at as u64];
            u32::from(refused.why)
        }
    }
}
