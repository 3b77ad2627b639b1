// Plans of terminals with owners.
ghost use Rattle.std.specs.Prelude.{[], ◌∷◌, ◌≡◌};
ghost use Rattle.bank.specs.Applying.{reading_number, reading_place, BankApplies};

use lent::put_places;
use owned::{apply_words, find_sections};
use rules::limits::MOST_REGIONS;
use zones::{CONFIG_WORDS, TABLE_WORDS};

// Applies a plan to the state that is lent in four parts: the number, and its place and inner number. Table and edition are changed where
// they lie, and only where the number is 0. While the call runs, the table may hold what earlier requests of the plan made of it.
#[unsafe(no_mangle)]
pub extern "C" fn peatmitten_bank_apply_words(
    config: &[u64; CONFIG_WORDS],
    owners: &[u32; MOST_REGIONS],
    table: &mut [u64; TABLE_WORDS],
    edition: &mut u32,
    plan: &[u8],
    places: &mut [u64; 2],
) -> u32
    ensures { BankApplies config.now owners.now table.old edition.old plan.now result table.new edition.new places.new }
{
    let held = *edition;
    let outcome = apply_words(config, owners, table, held, plan);
    put_places(places, outcome);
    if outcome.number == 0 {
        *edition = held + 1;
    }
    outcome.number
}

// Reads a plan and applies nothing: 20, 21 or 22 with its offset, or 0 with the offset of the first request.
#[unsafe(no_mangle)]
pub extern "C" fn peatmitten_bank_read(plan: &[u8], place: &mut [u64; 1]) -> u32
    ensures { (result ≡ reading_number plan.now) × (place.new ≡ reading_place plan.now ∷ []) }
{
    match find_sections(plan) {
        Ok(found) => {
            *place = [found.requests as u64];
            0
        }
        Err(refused) => {
            *place = [refused.at as u64];
            u32::from(refused.why)
        }
    }
}
