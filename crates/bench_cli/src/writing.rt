// How what a line is answered is written.
ghost use Rattle.std.specs.Prelude.{◌<◌, ◌++◌, ℕ, List, codes, length};
ghost use Rattle.bench_io.specs.Writing.{Writes};
ghost use Rattle.circuit_model.specs.Printed.{Labelled, IsPrintedLabel};
ghost use Rattle.answer_text.specs.Texts.{label_lines};
ghost use Rattle.session_undo.specs.Answers as answers;
ghost use Rattle.session_undo.specs.Replies.{Reply, text_of, refusal_line};
ghost use Rattle.bench_cli.specs.Answering.{IsReply, IsWritable};
ghost use Rattle.bench_cli.specs.Summary.{reply_for};

use crate::turn::LineAnswer;
use answer_text::{write_derivation, write_label, write_probe, write_sets};
use bench_io::{Failed, Sink, write_all, write_pieces};
use circuit_model::Cell;
use itoa::Buffer;
use netlist_text::write_present;
use session_undo::{Answer, Session, Stop};

/// The number of the refusal for want of memory.
const NO_MEMORY: u64 = 90;

fn write_refusal<K: Sink>(sink: &mut K, number: u64, text: &[u8]) -> Result<(), Failed>
    ensures { Writes (K.told sink.old) (K.told sink.new) result
        (refusal_line number text.now) }
{
    let mut buffer = Buffer::new();
    let digits = buffer.format(number).as_bytes();
    write_pieces(sink, &[b"no ", digits, b" ", text, b"\n"])
}

// The lines of the printed label of a cell, and `ok`.
fn write_cell<K: Sink>(session: &Session, cell: Cell, sink: &mut K) -> Result<(), Failed>
    requires { cell.net < length session.now.present.nets }
    ensures { (label : List Labelled) × IsPrintedLabel session.now.present cell label
        × Writes (K.told sink.old) (K.told sink.new) result (label_lines session.now.present cell label ++ codes "ok\n") }
{
    let remembered = session.remembered();
    write_label(
        session.present(),
        &remembered.engine,
        &remembered.standing,
        cell,
        sink,
    )
}

// Writes the answer to a question.
fn write_told<K: Sink>(session: &Session, answer: &Answer, sink: &mut K) -> Result<(), Failed>
    requires { answers.IsWritable session.now answer.now }
    ensures { (text : List ℕ) × answers.IsToldAs session.now answer.now text
        × Writes (K.told sink.old) (K.told sink.new) result text }
{
    match answer {
        Answer::Label { cell } => write_cell(session, *cell, sink),
        Answer::Conflicts(found) => write_sets(session.present(), found, sink),
        Answer::Diagnoses(found) => write_sets(session.present(), found, sink),
        Answer::Probe(best) => write_probe(session.present(), best, sink),
        Answer::Explained { under, derivation } => {
            write_derivation(session.present(), under, derivation, sink)
        }
        Answer::Show => write_present(session.present(), sink),
    }
}

/// Writes the line of what was stopped. At `Err` a front of it was written.
pub fn write_stop<K: Sink>(sink: &mut K, stop: &Stop) -> Result<(), Failed>
    ensures { Writes (K.told sink.old) (K.told sink.new) result (text_of (reply_for stop.now)) }
{
    match stop {
        Stop::Refused(refusal) => write_refusal(sink, refusal.number(), refusal.text()),
        Stop::OutOfMemory => write_refusal(sink, NO_MEMORY, b"no memory"),
    }
}

/// Writes the reply. At `Err` a front of it was written.
pub fn write_answer<K: Sink>(
    session: &Session,
    answer: &LineAnswer,
    sink: &mut K,
) -> Result<(), Failed>
    requires { IsWritable session.now answer.now }
    ensures { (reply : Reply) × IsReply session.now answer.now reply
        × Writes (K.told sink.old) (K.told sink.new) result (text_of reply) }
{
    match answer {
        LineAnswer::Nothing => write_all(sink, b""),
        LineAnswer::Accepted => write_all(sink, b"ok\n"),
        LineAnswer::Told(answer) => write_told(session, answer, sink),
        LineAnswer::Refused(refusal) => write_refusal(sink, refusal.number(), refusal.text()),
        LineAnswer::NoMemory => write_refusal(sink, NO_MEMORY, b"no memory"),
    }
}
