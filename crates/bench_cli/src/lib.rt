//! A diagnosis bench for digital circuits: it reads a session, and answers each of its lines; or it makes a circuit, and
//! tells what is answered about it. The program is a crate of its own, over `exit_number`.
#![tactic(auto)]

ghost use Rattle.std.specs.Prelude.{◌≡◌};
ghost use Rattle.bench_cli.specs.Program.{Performs, Exits, HasWords, AsksForSession};
ghost use Rattle.bench_cli.specs.Statuses.{number_of, status_by};
ghost use Rattle.bench_cli.specs.Words.{IsRun};

mod making;
mod session;
mod turn;
mod words;
mod writing;

use crate::making::make;
pub use crate::session::run;
use crate::words::{boxes_of, is_make, is_ordered_run, is_plain_run, picker_of, seed_of};
use bench_io::{Sink, Source, write_all};
use propagation_agenda::Oldest;
use std::alloc::Global;

/// The number that the program exits with where the words of the command line are not handed out.
pub const NO_WORDS: u8 = 7;

/// The words of the command line, as the system gives them.
#[derive(Drop)]
pub enum CommandLine {
    /// The words, without the program's own name.
    Words(Vec<String>),
    /// They were not handed out.
    NotHandedOut,
    /// There was no memory to keep them.
    NotKept,
}

/// How a run of the program ends. Where several apply, the order is `WriteFault`, `Usage`, `ReadFault`, `TooMuch`,
/// `NoMemory`, `SomeRefused`, `Done`.
#[derive(Clone, Copy, Debug, PartialEq, Eq)]
pub enum Status {
    /// All was read and answered, and no reply is a refusal.
    Done,
    /// All was read and answered, and some reply is a refusal.
    SomeRefused,
    /// The words of the command line ask for nothing that there is.
    Usage,
    /// A read failed. The lines whose newline came before it are answered.
    ReadFault,
    /// A write failed.
    WriteFault,
    /// More bytes came than a session may have. The lines that end among its most bytes are answered.
    TooMuch,
    /// Some line found no memory, or there was none to begin with.
    NoMemory,
}

impl Status {
    // The status of what was answered and written whole.
    fn of(no_memory: bool, refused: bool) -> Status
        ensures { result ≡ status_by no_memory refused }
    {
        if no_memory {
            Status::NoMemory
        } else if refused {
            Status::SomeRefused
        } else {
            Status::Done
        }
    }

    /// The number that the program exits with: 0 to 6.
    pub fn number(&self) -> u8
        ensures { result ≡ number_of self.now }
    {
        match self {
            Status::Done => 0,
            Status::SomeRefused => 1,
            Status::Usage => 2,
            Status::ReadFault => 3,
            Status::WriteFault => 4,
            Status::TooMuch => 5,
            Status::NoMemory => 6,
        }
    }
}

/// Runs the program. `words` are those of the command line without the program's own name. In whatever order labels are
/// worked out, with `run order N`, the replies are the same.
///
/// What no clause says: that memory is found.
pub fn gde<S: Source, K: Sink>(
    alloc: Global,
    words: &[String],
    source: &mut S,
    sink: &mut K,
) -> Status
    ensures performs { Performs words.now result (S.told source.old) (S.told source.new) (K.told sink.old) (K.told sink.new) }
    ensures unread { (IsRun words.now → ⊥) → source.new ≡ source.old }
{
    if is_plain_run(words) {
        return run(alloc, &mut Oldest, source, sink);
    }
    if is_ordered_run(words) {
        return run(alloc, &mut picker_of(words), source, sink);
    }
    if is_make(words) {
        return make(alloc, boxes_of(words), seed_of(words), sink);
    }
    match write_all(
        sink,
        b"usage: gde run | run order N | make N SEED | audit\n",
    ) {
        Ok(()) => Status::Usage,
        Err(_) => Status::WriteFault,
    }
}

/// The whole program: the number that it exits with, 0 to 7. It is that of the status of `gde`; where there are no words,
/// nothing is read or written.
pub fn exit_number<S: Source, K: Sink>(
    alloc: Global,
    command_line: &CommandLine,
    source: &mut S,
    sink: &mut K,
) -> u8
    ensures exits { Exits command_line.now result (S.told source.old) (S.told source.new) (K.told sink.old) (K.told sink.new) }
    ensures unread { (AsksForSession command_line.now → ⊥) → source.new ≡ source.old }
    ensures unwritten { (HasWords command_line.now → ⊥) → sink.new ≡ sink.old }
{
    match command_line {
        CommandLine::Words(words) => gde(alloc, words, source, sink).number(),
        CommandLine::NotHandedOut => NO_WORDS,
        CommandLine::NotKept => Status::NoMemory.number(),
    }
}
