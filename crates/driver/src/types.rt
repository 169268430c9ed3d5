ghost use Rattle.std.specs.Prelude.{◌≡◌, Ok};
ghost use Rattle.aka.specs.Told.{told_resync};
ghost use Rattle.driver.specs.declared.types.Stopped.TheVariants.{Refused, Memory};
ghost use Rattle.driver.specs.Yields.{yield_of};

use aka::Resynced;
use block::Refusal;
use std::alloc::AllocError;
use std::error::Error;

// One of the two ends of a pair.
#[derive(Clone, Copy, Debug, PartialEq, Eq)]
pub enum End {
    Network,
    Card,
}

// A call that a technician has made at a pair, with its arguments: of a ticket its serial, of a buffer and of the scratch its length.
// `B` is how those bytes are handed that a technician may take from the log.
// The index of a trace is a number, as in the call: one that no function has is refused there.
#[derive(Debug, Drop, PartialEq, Eq)]
pub enum Step<B = Vec<u8>> {
    Challenge {
        rand: Vec<u8>,
        amf: Vec<u8>,
        room: usize,
        scratch: usize,
    },
    Confirm {
        serial: u32,
        res: B,
    },
    Resync {
        serial: u32,
        auts: B,
        scratch: usize,
    },
    Lapse {
        serial: u32,
    },
    Receive {
        rand: B,
        autn: B,
        room: usize,
        auts_room: usize,
        scratch: usize,
    },
    Trace {
        end: End,
        index: usize,
        rand: B,
        size: usize,
        carried: Vec<u8>,
        room: usize,
        scratch: usize,
    },
}

// What a call yielded that was not refused.
#[derive(Clone, Copy, Debug, PartialEq, Eq)]
pub enum Outcome {
    Issued(u32),
    Confirmed(bool),
    Raised,
    Kept,
    Lapsed,
    Accepted,
    Traced,
}

impl From<Resynced> for Outcome {
    ghost from_gives = { λ how outcome. yield_of (Ok outcome) ≡ told_resync (Ok how) };

    fn from(how: Resynced) -> Outcome {
        match how {
            Resynced::Raised => Outcome::Raised,
            Resynced::Kept => Outcome::Kept,
        }
    }
}

// What a call answered: what it yielded or why it was refused, the bytes that it wrote, and those that it wrote as AUTS.
#[derive(Debug, Drop, PartialEq, Eq)]
pub struct Answer {
    pub yielded: Result<Outcome, Refusal>,
    pub wrote: Vec<u8>,
    pub wrote_auts: Vec<u8>,
}

// An entry of the log: a call and what it answered.
#[derive(Debug, Drop, PartialEq, Eq)]
pub struct Noted {
    pub call: Step,
    pub answer: Answer,
}

// Why a run has no log: what it needs was refused, as a key, an OPc or the opening of an end, or there was no memory.
#[derive(Clone, Copy, Debug, PartialEq, Eq)]
pub enum Stopped {
    Refused(Refusal),
    Memory,
}

impl Error for Stopped {}

// The conversions are by hand: those that thiserror derives have no clause, and the contract of `run_pair` names the error that `?` makes.
// Its print then stands by hand too, in `text`: one more crate for two lines of it would be no plainer.

impl From<Refusal> for Stopped {
    ghost from_gives = { λ e stopped. stopped ≡ Refused e };

    fn from(e: Refusal) -> Stopped {
        Stopped::Refused(e)
    }
}

impl From<AllocError> for Stopped {
    ghost from_gives = { λ _ stopped. stopped ≡ Memory };

    fn from(_e: AllocError) -> Stopped {
        Stopped::Memory
    }
}
