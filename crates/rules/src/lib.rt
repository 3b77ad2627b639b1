// The vocabulary of the rules as plain data: specs/ has every definition, proofs/ the laws about them. The only code says the number of a refusal.
#![tactic(auto)]

ghost use Rattle.std.specs.Prelude.{◌≡◌};
ghost use Rattle.rules.specs.Numbers.{number};

pub mod limits;
pub mod numbers;
mod refusal;
pub mod widths;

pub use refusal::Refusal;

// An address that a zone uses.
#[derive(Clone, Copy, PartialEq, Eq)]
pub struct Guest(pub u64);

// An address of the machine's memory.
#[derive(Clone, Copy, PartialEq, Eq)]
pub struct Phys(pub u64);

// What may be done with a region: read 1, write 2, execute 4.
#[derive(Clone, Copy, PartialEq, Eq)]
pub struct Rights(pub u64);

// `size` bytes: the guest addresses from `v` on stand for the physical ones from `p` on.
#[derive(Clone, Copy, PartialEq, Eq)]
pub struct Region {
    pub v: Guest,
    pub p: Phys,
    pub size: u64,
    pub rights: Rights,
}

// What the check of a configuration finds: nothing, or the first fault with its place. specs/Configuration.antt gives each case
// its number.
#[derive(Clone, Copy)]
pub enum Checked {
    Sound,
    BadCount,
    BadGic,
    NotZero(usize),
    Malformed(usize),
    OutOfReach(usize),
    Overlap(usize, usize),
}

// Who uses a zone's regions: its processor, or its devices.
#[derive(Clone, Copy)]
pub enum Side {
    Cpu,
    Iommu,
}

// What is asked of a zone. Numbers that make no request are kept as one that is refused.
#[derive(Clone, Copy)]
pub enum Kind {
    AddZone,
    RemoveZone,
    Insert(Side, Region),
    Remove(Side, Region),
    NoRequest,
}

#[derive(Clone, Copy)]
pub struct Request {
    pub zone: u32,
    pub kind: Kind,
}

// What a run of requests answers: a number, the place that it speaks of, and the number of the request that was refused, or 0.
#[repr(C)]
#[derive(Clone, Copy)]
pub struct Outcome {
    pub number: u32,
    pub place: usize,
    pub inner: u32,
}

impl Outcome {
    // Nothing is refused.
    pub fn done(place: usize) -> Outcome
        ensures { result ≡ record { number = 0; place = place; inner = 0 } }
    {
        Outcome {
            number: 0,
            place,
            inner: 0,
        }
    }

    pub fn refused(why: Refusal, place: usize) -> Outcome
        ensures { result ≡ record { number = number why; place = place; inner = 0 } }
    {
        Outcome {
            number: u32::from(why),
            place,
            inner: 0,
        }
    }
}

// What the check of a log answers: the outcome, whose inner number at a false claim is what the rules answer; and what was claimed there, or
// 0.
#[derive(Clone, Copy)]
pub struct LogAnswer {
    pub outcome: Outcome,
    pub claimed: u32,
}

// What a translation answers: 0, the physical address and how many bytes of the covering region there are from it on; or a number, and
// 0 for both.
#[derive(Clone, Copy)]
pub struct Translated {
    pub number: u32,
    pub phys: Phys,
    pub remaining: u64,
}

// The same of a configuration with owners: what the plain check finds, or a wrong owner and its place.
#[derive(Clone, Copy)]
pub enum OwnedChecked {
    Plain(Checked),
    WrongOwner(usize),
}

// What takes a plan in pieces: how many bytes are stored, and 0 unless more came than the longest plan has.
#[derive(Clone, Copy)]
pub struct Receiver {
    pub stored: usize,
    pub more: u64,
}
