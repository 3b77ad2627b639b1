// The second library, for terminals with owners: include/peatmitten_bank.h has the same functions and layouts. Each function answers on every
// argument; nothing is asked of the caller beyond pointers and lengths that are valid.
#![tactic(auto)]

mod beside;
mod plans;

ghost use Rattle.std.specs.Prelude.{◌≡◌, get_or};
ghost use Rattle.lent.specs.Lent.{yes_or_no, side_asked, stretch_of};
ghost use Rattle.rules.specs.Limits.{limits};
ghost use Rattle.rules.specs.Owners.{owned_check, owned_check_number, owned_check_table, owned_translated};
ghost use Rattle.rules.specs.Run.{make_request};
ghost use Rattle.zones.specs.Records.{region_at};
ghost use Rattle.zones.specs.View.{stored_table};
ghost use Rattle.owners.specs.Step.{OwnedStepped};
ghost use Rattle.owners.specs.View.{stored_owned};
ghost use Rattle.bank.specs.Bank.{layout, owned_places_of};

pub use beside::peatmitten_bank_beside_words;
use lent::{number, side_asked, yes_or_no};
use owned::LONGEST_OWNED_PLAN;
use owners::{
    check_earlier, check_number, check_owned, check_place, is_sound, step_in, translate_in,
};
pub use plans::{peatmitten_bank_apply_words, peatmitten_bank_read};
use rules::Guest;
use rules::limits::{MOST_IN_SET, MOST_REGIONS, MOST_REQUESTS, MOST_ZONES};
use zones::{CONFIG_WORDS, REGION_WORDS, TABLE_WORDS, make_request, region_from};

// What a header must have for this library, one number at a time; 0 past the last.
const LAYOUT: [u64; 6] = [
    MOST_REGIONS as u64,
    MOST_ZONES as u64,
    MOST_IN_SET as u64,
    MOST_REQUESTS as u64,
    REGION_WORDS as u64,
    LONGEST_OWNED_PLAN as u64,
];

// The function's name says them too, so that a program with the header of another library does not link.
#[unsafe(no_mangle)]
pub extern "C" fn peatmitten_bank_layout_256_32_16_512_4(which: u32) -> u64
    ensures { result ≡ get_or layout which 0 }
{
    LAYOUT.get(which as usize).copied().unwrap_or(0)
}

// The number of the check of a configuration with owners, 1 to 7 for C1 to C7; and its two places.
#[unsafe(no_mangle)]
pub extern "C" fn peatmitten_bank_check_config(
    config: &[u64; CONFIG_WORDS],
    owners: &[u32; MOST_REGIONS],
    places: &mut [u64; 2],
) -> u32
    ensures { (result ≡ owned_check_number (owned_check limits (stored_owned config.now owners.now))) × (places.new ≡ owned_places_of (owned_check limits (stored_owned config.now owners.now))) }
{
    let found = check_owned(config, owners);
    *places = [check_place(found) as u64, check_earlier(found) as u64];
    check_number(found)
}

// 1 for a sound table under a sound configuration, where no zone holds another's region; else 0.
#[unsafe(no_mangle)]
pub extern "C" fn peatmitten_bank_check_table(
    config: &[u64; CONFIG_WORDS],
    owners: &[u32; MOST_REGIONS],
    table: &[u64; TABLE_WORDS],
) -> u32
    ensures { result ≡ yes_or_no (owned_check_table limits (stored_owned config.now owners.now) (stored_table table.now)) }
{
    yes_or_no(is_sound(config, owners, table))
}

// One request, whose region is lent in its words; the table is changed where it lies.
#[unsafe(no_mangle)]
pub extern "C" fn peatmitten_bank_request(
    config: &[u64; CONFIG_WORDS],
    owners: &[u32; MOST_REGIONS],
    table: &mut [u64; TABLE_WORDS],
    kind: u32,
    zone: u32,
    region: &[u64; REGION_WORDS],
) -> u32
    ensures { OwnedStepped config.now owners.now table.old (make_request kind zone (region_at region.now 0)) result table.new }
{
    let request = make_request(kind, zone, region_from(region, 0));
    number(step_in(config, owners, table, request))
}

// Where a guest address of a zone comes out, and how many bytes of the covering region there are from it on. Side 0 is the CPU, any
// other the IOMMU.
#[unsafe(no_mangle)]
pub extern "C" fn peatmitten_bank_translate_words(
    config: &[u64; CONFIG_WORDS],
    owners: &[u32; MOST_REGIONS],
    table: &[u64; TABLE_WORDS],
    zone: u32,
    side: u32,
    address: u64,
    stretch: &mut [u64; 2],
) -> u32
    ensures { (result ≡ (owned_translated limits (stored_owned config.now owners.now) (stored_table table.now) zone (side_asked side) (record { 0 = address })).number) × (stretch.new ≡ stretch_of (owned_translated limits (stored_owned config.now owners.now) (stored_table table.now) zone (side_asked side) (record { 0 = address }))) }
{
    let asked = side_asked(side);
    match translate_in(config, owners, table, zone, asked, Guest(address)) {
        Ok(found) => {
            *stretch = [found.phys.0, found.remaining];
            0
        }
        Err(why) => {
            *stretch = [0, 0];
            u32::from(why)
        }
    }
}
