// Why a line changes and answers nothing.
ghost use Rattle.std.specs.Prelude.{◌≡◌};
ghost use Rattle.session_undo.specs.Refusals.{number_of, text_of_refusal};
ghost use Rattle.session_undo.specs.Serving.{IsStopFor};

use netlist_text::{LineFault, Misfit};

/// Why a line changes and answers nothing. Want of memory is none of these.
#[derive(Clone, Copy, Debug, PartialEq, Eq)]
pub enum Refusal {
    /// The line has more bytes than a line may have.
    LineTooLong,
    /// The line cannot be read.
    Unreadable(LineFault),
    /// The change does not go with the present, or a cell is none of it. (Want of memory is no refusal.)
    Misfit(Misfit),
    /// The load of the present after the change would be larger than the largest that is kept.
    LoadTooLarge,
    /// There is no earlier present.
    NothingToUndo,
    /// The label of the fact is empty.
    NoSuchValue,
    /// There is no conflict of that number.
    NoSuchConflict,
    /// There are more diagnoses than are listed.
    TooManyDiagnoses,
    /// The number of diagnoses that is asked for is 0, or too large.
    BadCount,
    /// What the line asks is not answered yet.
    NotBuilt,
}

/// Why a change is not made, or a question not answered. All is as before.
#[derive(Clone, Copy, Debug, PartialEq, Eq)]
pub enum Stop {
    /// It is refused.
    Refused(Refusal),
    /// It found no memory.
    OutOfMemory,
}

impl Refusal {
    /// The number that the reply has: from 10 to 15, that of a misfit, 34, 42 to 45, 47 or 50.
    pub fn number(&self) -> u64
        ensures { result ≡ number_of self.now }
    {
        match self {
            Refusal::LineTooLong => 10,
            Refusal::Unreadable(fault) => u64::from(fault.number()),
            Refusal::Misfit(misfit) => u64::from(misfit.number()),
            Refusal::LoadTooLarge => 34,
            Refusal::NothingToUndo => 42,
            Refusal::NoSuchValue => 43,
            Refusal::NoSuchConflict => 44,
            Refusal::TooManyDiagnoses => 45,
            Refusal::BadCount => 47,
            Refusal::NotBuilt => 50,
        }
    }

    /// The text after the number.
    pub fn text(&self) -> &'static [u8]
        ensures { result.now ≡ text_of_refusal self.now }
    {
        match self {
            Refusal::LineTooLong => b"line too long",
            Refusal::Unreadable(fault) => fault.text(),
            Refusal::Misfit(misfit) => misfit.text(),
            Refusal::LoadTooLarge => b"load too large",
            Refusal::NothingToUndo => b"nothing to undo",
            Refusal::NoSuchValue => b"no such value",
            Refusal::NoSuchConflict => b"no such conflict",
            Refusal::TooManyDiagnoses => b"too many diagnoses",
            Refusal::BadCount => b"bad count",
            Refusal::NotBuilt => b"not built",
        }
    }
}

// What a change is stopped with that does not go with the present.
pub fn stop_for(misfit: Misfit) -> Stop
    ensures { IsStopFor misfit result }
{
    if misfit == Misfit::OutOfMemory {
        return Stop::OutOfMemory;
    }
    Stop::Refused(Refusal::Misfit(misfit))
}
