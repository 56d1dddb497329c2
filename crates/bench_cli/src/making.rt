// Generated polyboxes, and a summary of what is answered about them.
ghost use Rattle.std.specs.Prelude.{◌≡◌, ◌<◌, List, [], ◌∷◌, length, false};
ghost use Rattle.std.specs.List.{All};
ghost use Rattle.std.specs.Option.{ForSome};
ghost use Rattle.std.specs.Result.{ForOk};
ghost use Rattle.bench_io.specs.Puts.{Puts};
ghost use Rattle.circuit_model.specs.Diagnoses.{IsConflict, IsDiagnosis};
ghost use Rattle.circuit_model.specs.Present.{circuit_of};
ghost use Rattle.environment_sets.specs.Counts.{AreSoMany};
ghost use Rattle.netlist_text.specs.Grammar.{IsPadded};
ghost use Rattle.netlist_text.specs.declared.requests.Query.TheVariants as query;
ghost use Rattle.session_undo.specs.Replies.{Reply, text_of};
ghost use Rattle.bench_cli.specs.Summary as summary;
ghost use Rattle.bench_cli.specs.Summary.{ChangesAll, RunsBoxes, CanBeMade, Finds, IsBest, AreFindings, IsSummary, EndsWith, count_line, count_reply, probe_reply, reply_for, replies_of, texts_of};

use crate::Status;
use crate::writing::write_stop;
use answer_text::put_best;
use bench_io::{Sink, put, put_number};
use circuit_model::Present;
use netlist_text::{Change, Query};
use probe_planner::Probe;
use propagation_agenda::Oldest;
use session_undo::{Answer, Session, Stop};
use std::alloc::Global;
use workload_maker::polyboxes;

/// What the questions about the boxes were answered.
#[derive(Drop)]
struct Findings {
    /// How many conflicts there are.
    conflicts: Result<usize, Stop>,
    /// How many diagnoses there are.
    diagnoses: Result<usize, Stop>,
    /// Where to measure next.
    best: Result<Option<Probe>, Stop>,
}

// Makes the changes one after another, up to the first that is stopped.
fn change_all(session: &mut Session, changes: &[Change]) -> Result<(), Stop>
    requires { All IsPadded changes.now }
    ensures { ChangesAll session.old changes.now result session.new }
{
    for change in changes {
        if let Err(stop) = session.change(change, &mut Oldest) {
            return Err(stop);
        }
    }
    Ok(())
}

// A fresh session in which so many boxes by the seed stand.
fn run_boxes(alloc: Global, count: u64, seed: u64) -> Result<Session, Stop>
    requires { CanBeMade count }
    ensures { RunsBoxes count seed result }
{
    let Ok(changes) = polyboxes(alloc, count, seed) else {
        return Err(Stop::OutOfMemory);
    };
    let Ok(mut session) = Session::open(alloc) else {
        return Err(Stop::OutOfMemory);
    };
    if let Err(stop) = change_all(&mut session, &changes) {
        return Err(stop);
    }
    Ok(session)
}

// How many conflicts there are.
fn count_conflicts(session: &mut Session) -> Result<usize, Stop>
    ensures found { Finds session.old query.Conflicts (AreSoMany (IsConflict (circuit_of session.old.present))) result }
    ensures same { session.new ≡ session.old }
{
    match session.ask(&Query::Conflicts) {
        Ok(Answer::Conflicts(found)) => Ok(found.len()),
        Ok(
            Answer::Label { .. }
            | Answer::Diagnoses(_)
            | Answer::Probe(_)
            | Answer::Explained { .. }
            | Answer::Show,
        ) => unreachable!(),
        Err(stop) => Err(stop),
    }
}

// How many diagnoses there are.
fn count_diagnoses(session: &mut Session) -> Result<usize, Stop>
    ensures found { Finds session.old query.Diagnose (AreSoMany (IsDiagnosis (circuit_of session.old.present))) result }
    ensures same { session.new ≡ session.old }
{
    match session.ask(&Query::Diagnose) {
        Ok(Answer::Diagnoses(found)) => Ok(found.len()),
        Ok(
            Answer::Label { .. }
            | Answer::Conflicts(_)
            | Answer::Probe(_)
            | Answer::Explained { .. }
            | Answer::Show,
        ) => unreachable!(),
        Err(stop) => Err(stop),
    }
}

// The best next measurement.
fn find_best(session: &mut Session) -> Result<Option<Probe>, Stop>
    ensures found { Finds session.old query.Probe (IsBest session.old.present) result }
    ensures same { session.new ≡ session.old }
    ensures writable { ForOk result (λ best. ForSome best (λ p. p.cell.net < length session.old.present.nets)) }
{
    match session.ask(&Query::Probe) {
        Ok(Answer::Probe(best)) => Ok(best),
        Ok(
            Answer::Label { .. }
            | Answer::Conflicts(_)
            | Answer::Diagnoses(_)
            | Answer::Explained { .. }
            | Answer::Show,
        ) => unreachable!(),
        Err(stop) => Err(stop),
    }
}

// Asks the questions.
fn find(session: &mut Session) -> Findings
    ensures found { AreFindings session.old result }
    ensures same { session.new ≡ session.old }
    ensures writable { ForOk result.best (λ best. ForSome best (λ p. p.cell.net < length session.old.present.nets)) }
{
    let conflicts = count_conflicts(session);
    let diagnoses = count_diagnoses(session);
    let best = find_best(session);
    Findings {
        conflicts,
        diagnoses,
        best,
    }
}

// The line of a refusal, or of the want of memory.
fn put_stop<K: Sink>(sink: &mut K, failed: bool, stop: &Stop) -> bool
    ensures { Puts failed result (K.told sink.old) (K.told sink.new) (text_of (reply_for stop.now)) }
{
    if failed {
        return true;
    }
    write_stop(sink, stop).is_err()
}

// The line of a word and a number.
fn put_count<K: Sink>(sink: &mut K, failed: bool, word: &[u8], count: u64) -> bool
    ensures { Puts failed result (K.told sink.old) (K.told sink.new) (count_line word.now count) }
{
    let failed = put(sink, failed, word);
    let failed = put(sink, failed, b" ");
    let failed = put_number(sink, failed, count);
    put(sink, failed, b"\n")
}

// The line that says how many there are, or why that is not said.
fn put_counted<K: Sink>(
    sink: &mut K,
    failed: bool,
    word: &[u8],
    counted: &Result<usize, Stop>,
) -> bool
    ensures { Puts failed result (K.told sink.old) (K.told sink.new) (text_of (count_reply word.now counted.now)) }
{
    match counted {
        Ok(count) => put_count(sink, failed, word, *count as u64),
        Err(stop) => put_stop(sink, failed, stop),
    }
}

// The line that says where to measure next, or why that is not said.
fn put_found<K: Sink>(
    sink: &mut K,
    failed: bool,
    present: &Present,
    found: &Result<Option<Probe>, Stop>,
) -> bool
    requires { ForOk found.now (λ best. ForSome best (λ p. p.cell.net < length present.now.nets)) }
    ensures { Puts failed result (K.told sink.old) (K.told sink.new) (text_of (probe_reply present.now found.now)) }
{
    match found {
        Ok(best) => put_best(sink, failed, present, best),
        Err(stop) => put_stop(sink, failed, stop),
    }
}

// The four lines.
fn put_summary<K: Sink>(sink: &mut K, present: &Present, count: u64, findings: &Findings) -> bool
    requires { ForOk findings.now.best (λ best. ForSome best (λ p. p.cell.net < length present.now.nets)) }
    ensures { Puts false result (K.told sink.old) (K.told sink.new) (texts_of (replies_of present.now count findings.now)) }
{
    let failed = put_count(sink, false, b"boxes", count);
    let failed = put_counted(sink, failed, b"conflicts", &findings.conflicts);
    let failed = put_counted(sink, failed, b"diagnoses", &findings.diagnoses);
    put_found(sink, failed, present, &findings.best)
}

// Whether the question found no memory.
fn found_no_memory<T>(found: &Result<T, Stop>) -> bool
    ensures { result ≡ summary.found_no_memory found.now }
{
    match found {
        Err(Stop::OutOfMemory) => true,
        Err(Stop::Refused(_)) | Ok(_) => false,
    }
}

// Whether the question was refused.
fn was_refused<T>(found: &Result<T, Stop>) -> bool
    ensures { result ≡ summary.was_refused found.now }
{
    match found {
        Err(Stop::Refused(_)) => true,
        Err(Stop::OutOfMemory) | Ok(_) => false,
    }
}

impl Findings {
    // The status of a summary that tells these.
    fn status(&self) -> Status
        ensures { result ≡ summary.status_of_findings self.now }
    {
        let no_memory = found_no_memory(&self.conflicts)
            || found_no_memory(&self.diagnoses)
            || found_no_memory(&self.best);
        let refused = was_refused(&self.conflicts)
            || was_refused(&self.diagnoses)
            || was_refused(&self.best);
        Status::of(no_memory, refused)
    }
}

// The status of a summary whose only line tells this.
fn status_of_stop(stop: &Stop) -> Status
    ensures { result ≡ summary.status_of_stop stop.now }
{
    match stop {
        Stop::Refused(_) => Status::SomeRefused,
        Stop::OutOfMemory => Status::NoMemory,
    }
}

// Tells what stopped the boxes.
fn tell_stop<K: Sink>(stop: &Stop, sink: &mut K) -> Status
    ensures { EndsWith result (reply_for stop.now ∷ []) (K.told sink.old) (K.told sink.new) }
{
    if put_stop(sink, false, stop) {
        return Status::WriteFault;
    }
    status_of_stop(stop)
}

// Tells what the questions were answered.
fn tell_findings<K: Sink>(
    present: &Present,
    count: u64,
    findings: &Findings,
    sink: &mut K,
) -> Status
    requires { ForOk findings.now.best (λ best. ForSome best (λ p. p.cell.net < length present.now.nets)) }
    ensures { EndsWith result (replies_of present.now count findings.now) (K.told sink.old) (K.told sink.new) }
{
    if put_summary(sink, present, count, findings) {
        return Status::WriteFault;
    }
    findings.status()
}

/// Makes so many polyboxes by the seed, runs them in a fresh session, and tells how many conflicts and diagnoses there are
/// and where to measure next.
pub fn make<K: Sink>(alloc: Global, count: u64, seed: u64, sink: &mut K) -> Status
    requires { CanBeMade count }
    ensures { (replies : List Reply) × IsSummary count seed replies × EndsWith result replies (K.told sink.old) (K.told sink.new) }
{
    let mut session = match run_boxes(alloc, count, seed) {
        Ok(session) => session,
        Err(stop) => return tell_stop(&stop, sink),
    };
    let findings = find(&mut session);
    tell_findings(session.present(), count, &findings, sink)
}
