// A whole session: a line is read, its step is taken and its reply is written, until the end.
ghost use Rattle.std.specs.Prelude.{◌≡◌, ◌≤◌, ◌<◌, ◌↔◌, false};
ghost use Rattle.bench_io.specs.Causes.{Rose};
ghost use Rattle.bench_cli.specs.Session as whole;
ghost use Rattle.bench_cli.specs.Session.{WhereTold};
ghost use Rattle.bench_cli.specs.Causes.{TakesTooMuch};
ghost use Rattle.bench_cli.specs.Turns.{Steps, tally_after, status_of, status_at};
ghost use Rattle.bench_cli.specs.Answering.{IsReply, IsWritable};
ghost use Rattle.session_undo.specs.Replies.{Reply, text_of};
ghost use Rattle.bench_io.specs.Writing.{Writes};
ghost use Rattle.session_undo.specs.Presents.{State};

use crate::Status;
use crate::turn::{LineAnswer, take};
use crate::writing::write_answer;
use bench_io::{Failed, Line, LineReader, ReadStop, Sink, Source};
use propagation_agenda::Picker;
use session_undo::{Refusal, Session};
use std::alloc::Global;

// What was answered so far.
#[derive(Clone, Copy, Debug)]
pub struct Tally {
    refused: bool,
    no_memory: bool,
}

impl Tally {
    // Takes note of one answer more.
    fn note(&mut self, answer: &LineAnswer)
        ensures { (s : State) (reply : Reply) → IsReply s answer.now reply → self.new ≡ tally_after self.old reply }
    {
        match answer {
            LineAnswer::Nothing | LineAnswer::Accepted | LineAnswer::Told(_) => {}
            LineAnswer::Refused(_) => self.refused = true,
            LineAnswer::NoMemory => self.no_memory = true,
        }
    }

    // The status of a session that was read to its end.
    fn status(&self) -> Status
        ensures { result ≡ status_of self.now }
    {
        Status::of(self.no_memory, self.refused)
    }
}

// Why no more lines come.
#[derive(Clone, Copy, Debug)]
enum Ending {
    End,
    Failed,
    TooMuch,
}

// Reads a line and takes its step.
fn step<P: Picker, S: Source>(
    reader: &mut LineReader,
    session: &mut Session,
    picker: &mut P,
    source: &mut S,
) -> Result<LineAnswer, Ending>
    requires { reader.old.is_over ≡ false }
    ensures { Steps reader.old reader.new session.old session.new (S.told source.old) (S.told source.new) result }
{
    match reader.next_line(source) {
        Ok(Line::Text(line)) => Ok(take(session, line, picker)),
        Ok(Line::TooLong) => Ok(LineAnswer::Refused(Refusal::LineTooLong)),
        Ok(Line::End) => Err(Ending::End),
        Err(ReadStop::Failed) => Err(Ending::Failed),
        Err(ReadStop::TooMuch) => Err(Ending::TooMuch),
    }
}

// Takes note of the answer, and writes its reply. At `Err` a front of it was written.
fn reply<K: Sink>(
    tally: &mut Tally,
    session: &Session,
    answer: LineAnswer,
    sink: &mut K,
) -> Result<(), Failed>
    requires { IsWritable session.now answer }
    ensures { (reply : Reply) × IsReply session.now answer reply × (tally.new ≡ tally_after tally.old reply)
        × Writes (K.told sink.old) (K.told sink.new) result (text_of reply) }
{
    tally.note(&answer);
    write_answer(session, &answer, sink)
}

// The status of a session that ends so.
fn status_at(ending: Ending, tally: &Tally) -> Status
    ensures { result ≡ status_at ending tally.now }
{
    match ending {
        Ending::End => tally.status(),
        Ending::Failed => Status::ReadFault,
        Ending::TooMuch => Status::TooMuch,
    }
}

/// Runs the session that is read, in the order that the picker chooses. Whatever it chooses, the replies are the same. Where
/// the reader or the session cannot be opened nothing is read or written. What no clause says: that memory is found.
pub fn run<P: Picker, S: Source, K: Sink>(
    alloc: Global,
    picker: &mut P,
    source: &mut S,
    sink: &mut K,
) -> Status
    ensures session { whole.Session result (S.told source.old) (S.told source.new) (K.told sink.old) (K.told sink.new) }

    // A read or a write failed just where the status says so.
    ensures read_fault { result ≡ Status.ReadFault → Rose (S.told source.old).faults (S.told source.new).faults }
    ensures read_counted { (S.told source.old).faults < (S.told source.new).faults → result ≡ Status.ReadFault }
    ensures write_fault { result ≡ Status.WriteFault → Rose (K.told sink.old).faults (K.told sink.new).faults }
    ensures write_counted { (K.told sink.old).faults < (K.told sink.new).faults → result ≡ Status.WriteFault }

    ensures too_much { WhereTold (S.told source.old).bytes (S.told source.new).bytes (λ input left.
        (result ≡ Status.TooMuch) ↔ TakesTooMuch input left) }
    ensures source_later { (S.told source.old).faults ≤ (S.told source.new).faults }
    ensures sink_later { (K.told sink.old).faults ≤ (K.told sink.new).faults }
{
    let mut reader = match LineReader::open(alloc) {
        Ok(reader) => reader,
        Err(_) => return Status::NoMemory,
    };
    let mut session = match Session::open(alloc) {
        Ok(session) => session,
        Err(_) => return Status::NoMemory,
    };
    let mut tally = Tally {
        refused: false,
        no_memory: false,
    };
    loop {
        match step(&mut reader, &mut session, picker, source) {
            Ok(answer) => {
                if let Err(_) = reply(&mut tally, &session, answer, sink) {
                    return Status::WriteFault;
                }
            }
            Err(ending) => return status_at(ending, &tally),
        }
    }
}
