// What a call answers (document 01, What the host hears).

#![tactic(auto)]

ghost use Rattle.std.specs.Prelude.{◌≡◌, ℕ};
ghost use Rattle.answers.specs.Reports.{Report, report_of, status_in, unread, unwritten};

use pictures::{ReadError, WriteError};
use std::ops::ControlFlow;

// Why a call is refused, with what belongs to it.
#[derive(Clone, Copy, PartialEq, Eq)]
pub enum Refusal {
    Malformed,
    WrongSize,
    NoEntries,
    PastTheEnd,
    SlotsFull,
    // The place of the first illegal entry.
    IllegalEntry(usize),
    Busy,
    EntryHeld,
    // An illegal entry was fetched after so many steps.
    IllegalFetch(u64),
    NotAPicture,
}

// The outcome of a call: done, with the steps of a run (0 of any other call), or refused.
pub type Status = Result<u64, Refusal>;

// The outcome of a part of a run: it ends the run, or leaves more of it to come after so many steps.
pub type Part = ControlFlow<Status, u64>;

impl Refusal {
    // Document 01's number.
    pub fn number(self) -> u32
        ensures { result ≡ (report_of (Err self)).number }
    {
        match self {
            Refusal::Malformed => 1,
            Refusal::WrongSize => 2,
            Refusal::NoEntries => 3,
            Refusal::PastTheEnd => 4,
            Refusal::SlotsFull => 5,
            Refusal::IllegalEntry(_) => 6,
            Refusal::Busy => 7,
            Refusal::EntryHeld => 8,
            Refusal::IllegalFetch(_) => 9,
            Refusal::NotAPicture => 11,
        }
    }
}

impl From<ReadError> for Refusal {
    ghost from_gives = { λ e r. r ≡ unread e };

    fn from(error: ReadError) -> Refusal {
        match error {
            ReadError::WrongSize => Refusal::WrongSize,
            ReadError::NotAPicture => Refusal::NotAPicture,
        }
    }
}

impl From<WriteError> for Refusal {
    ghost from_gives = { λ e r. r ≡ unwritten e };

    fn from(error: WriteError) -> Refusal {
        match error {
            WriteError::WrongSize => Refusal::WrongSize,
            WriteError::TooShort => Refusal::PastTheEnd,
        }
    }
}

// What the host hears of an outcome.
pub trait Heard {
    ghost report: { Self → Report };

    // Document 01's number.
    fn number(self) -> u32
        ensures { result ≡ (report self).number };

    // The steps of a run, 0 of any other call.
    fn steps(self) -> u64
        ensures { result ≡ (report self).steps };

    // The place of the first illegal entry, 0 of any other answer.
    fn place(self) -> usize
        ensures { result ≡ (report self).place };
}

impl Heard for Status {
    ghost report = { report_of };

    fn number(self) -> u32 {
        match self {
            Ok(_) => 0,
            Err(refusal) => refusal.number(),
        }
    }

    fn steps(self) -> u64 {
        match self {
            Ok(steps) => steps,
            Err(Refusal::IllegalFetch(steps)) => steps,
            Err(_) => 0,
        }
    }

    fn place(self) -> usize {
        match self {
            Err(Refusal::IllegalEntry(place)) => place,
            _ => 0,
        }
    }
}

impl Heard for Part {
    ghost report = { λ part. report_of (status_in part) };

    fn number(self) -> u32 {
        match self {
            ControlFlow::Continue(_) => 0,
            ControlFlow::Break(status) => status.number(),
        }
    }

    fn steps(self) -> u64 {
        match self {
            ControlFlow::Continue(steps) => steps,
            ControlFlow::Break(status) => status.steps(),
        }
    }

    fn place(self) -> usize {
        match self {
            ControlFlow::Continue(_) => 0,
            ControlFlow::Break(status) => status.place(),
        }
    }
}
