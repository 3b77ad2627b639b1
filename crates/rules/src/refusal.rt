// Why something is refused, and the document's number of it.
ghost use Rattle.std.specs.Prelude.{◌≡◌};
ghost use Rattle.rules.specs.Numbers.{number};

use crate::numbers::{
    BUFFER_SHORT, COUNT, CUT, FALSE_CLAIM, FORM, GUEST_OVERLAP, NO_NEXT_EDITION, NO_REGION,
    NO_REQUEST, NO_ZONE, NOT_CONFIGURED, NOT_COVERED, OTHER_CONFIG, OTHER_EDITION, OTHER_ZONES,
    OVER_GIC, PHYSICAL_OVERLAP, REACH, REGION_THERE, REQUEST_REFUSED, SET_FULL, TOO_MANY_REQUESTS,
    TOO_MANY_RIGHTS, TRAILING, UNSOUND_CONFIG, UNSOUND_TABLE, ZONE_ID_TOO_HIGH, ZONE_IN_USE,
    ZONE_THERE, ZONES_FULL,
};

#[derive(Clone, Copy, PartialEq, Eq)]
pub enum Refusal {
    // A configuration or a table that is unsound.
    UnsoundConfig = UNSOUND_CONFIG as isize,
    UnsoundTable = UNSOUND_TABLE as isize,
    // A request.
    NoRequest = NO_REQUEST as isize,
    ZoneIdTooHigh = ZONE_ID_TOO_HIGH as isize,
    ZoneThere = ZONE_THERE as isize,
    NoZone = NO_ZONE as isize,
    ZonesFull = ZONES_FULL as isize,
    ZoneInUse = ZONE_IN_USE as isize,
    Form = FORM as isize,
    Reach = REACH as isize,
    NotConfigured = NOT_CONFIGURED as isize,
    TooManyRights = TOO_MANY_RIGHTS as isize,
    OverGic = OVER_GIC as isize,
    RegionThere = REGION_THERE as isize,
    PhysicalOverlap = PHYSICAL_OVERLAP as isize,
    GuestOverlap = GUEST_OVERLAP as isize,
    SetFull = SET_FULL as isize,
    NoRegion = NO_REGION as isize,
    // A translation.
    NotCovered = NOT_COVERED as isize,
    // A plan.
    Cut = CUT as isize,
    Count = COUNT as isize,
    Trailing = TRAILING as isize,
    OtherConfig = OTHER_CONFIG as isize,
    OtherEdition = OTHER_EDITION as isize,
    NoNextEdition = NO_NEXT_EDITION as isize,
    OtherZones = OTHER_ZONES as isize,
    RequestRefused = REQUEST_REFUSED as isize,
    // A lent buffer.
    BufferShort = BUFFER_SHORT as isize,
    // A list of requests.
    TooManyRequests = TOO_MANY_REQUESTS as isize,
    // A log: what a terminal claims is not what the rules answer.
    FalseClaim = FALSE_CLAIM as isize,
}

impl From<Refusal> for u32 {
    ghost from_gives = { λ r n. n ≡ number r };

    fn from(r: Refusal) -> u32 {
        r as u32
    }
}
