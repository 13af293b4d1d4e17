// A session, and how a host call on it ends.

#![tactic(auto)]

ghost use Rattle.std.specs.Prelude.{◌≡◌};
ghost use Rattle.fault.specs.Fault.{told_of};
ghost use Rattle.session.specs.Session.{fresh_of, start_of};
ghost use Rattle.session.specs.Numbers.{number_of, numbers_of};

use fault::{Fault, Telling};
use place::GuestAddr;

// The support note: 16 bytes, as two numbers.
#[derive(Clone, Copy, PartialEq, Eq)]
pub struct Note {
    pub low: u64,
    pub high: u64,
}

// A note that is absent has no content.
#[derive(Clone, Copy, PartialEq, Eq)]
pub struct Session {
    pub regs: [u64; 32],
    pub pc: GuestAddr,
    pub total: u64,
    pub note: Option<Note>,
}

impl Session {
    // The most steps that one run may be given, and the most that a session may come to.
    pub const BUDGET: u64 = 1_000_000;

    pub const TOTAL: u64 = 0x8000_0000_0000_0000;

    pub fn fresh() -> Session
        ensures { result ≡ fresh_of }
    {
        Session {
            regs: [0; 32],
            pc: GuestAddr(0),
            total: 0,
            note: None,
        }
    }

    // What the bench program runs: the first word of the code is next, and all else is zero.
    pub fn start() -> Session
        ensures { result ≡ start_of }
    {
        Session {
            pc: GuestAddr(GuestAddr::CODE),
            ..Session::fresh()
        }
    }
}

// Why a run stopped. A step cannot raise "spent": it is no fault. No Option of a fault, since 01 names both stops (docs/DECISIONS.md).
#[derive(Clone, Copy)]
pub enum Stop {
    Raised(Fault),
    Spent,
}

// Why a call was refused, by 01's numbers.
#[derive(Clone, Copy, PartialEq, Eq)]
pub enum Refusal {
    CodeLength = 1,
    WindowLength = 2,
    WindowPlace = 3,
    ZeroRegister = 4,
    Budget = 5,
    Total = 6,
    NoSyscall = 7,
    FileKind = 11,
    FileCut = 12,
    FileExtra = 13,
    BufferLength = 14,
}

impl From<Refusal> for u64 {
    ghost from_gives = { λ refusal number. number ≡ number_of refusal };

    fn from(refusal: Refusal) -> u64 {
        refusal as u64
    }
}

#[derive(Clone, Copy)]
pub enum Outcome {
    Stopped(Stop),
    Answered,
    Refused(Refusal),
}

// What a run and an answer return.
#[derive(Clone, Copy)]
pub struct Reply {
    pub outcome: Outcome,
    pub steps: u64,
    pub session: Session,
}

// An outcome by 01's numbers: 0 is "not refused", and a stop of 0, 0, 0 is "none, nothing".
#[derive(Clone, Copy)]
pub struct Numbers {
    pub refused: u64,
    pub stop: Telling,
}

const NO_STOP: Telling = Telling {
    ecode: 0,
    subcode: 0,
    carried: 0,
};

// The numbers of an outcome: the only source of them.
impl From<Outcome> for Numbers {
    ghost from_gives = { λ outcome numbers. numbers ≡ numbers_of outcome };

    fn from(outcome: Outcome) -> Numbers {
        match outcome {
            Outcome::Stopped(Stop::Raised(f)) => Numbers {
                refused: 0,
                stop: Telling::from(f),
            },
            Outcome::Stopped(Stop::Spent) | Outcome::Answered => Numbers {
                refused: 0,
                stop: NO_STOP,
            },
            Outcome::Refused(refusal) => Numbers {
                refused: u64::from(refusal),
                stop: NO_STOP,
            },
        }
    }
}
