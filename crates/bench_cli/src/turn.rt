// What a line is answered, and what it does to a session.
ghost use Rattle.std.specs.Prelude.{◌≡◌, ◌≤◌, length};
ghost use Rattle.bench_io.specs.declared.limits.TheConstants.{LONGEST_LINE};
ghost use Rattle.netlist_text.specs.Grammar.{AsksPadded, IsPadded};
ghost use Rattle.netlist_text.specs.declared.requests.Request.TheVariants as request;
ghost use Rattle.session_undo.specs.Replies.{Reply};
ghost use Rattle.session_undo.specs.Steps.{Takes};
ghost use Rattle.bench_cli.specs.Answering.{IsReply, IsWritable};
ghost use Rattle.bench_cli.specs.Serving.{Serves, answer_for};

use netlist_text::{Change, Query, Request, read_line};
use propagation_agenda::Picker;
use session_undo::{Answer, Refusal, Session, Stop};

/// What a line is answered.
#[derive(Drop)]
pub enum LineAnswer {
    /// The line asks for nothing.
    Nothing,
    /// The change was made.
    Accepted,
    /// The question has this answer.
    Told(Answer),
    /// The line is refused, and changes nothing.
    Refused(Refusal),
    /// The line found no memory, and changes nothing.
    NoMemory,
}

// What a line is answered that was stopped.
fn stopped(stop: Stop) -> LineAnswer
    ensures { result ≡ answer_for stop }
{
    match stop {
        Stop::Refused(refusal) => LineAnswer::Refused(refusal),
        Stop::OutOfMemory => LineAnswer::NoMemory,
    }
}

// Makes a change.
fn apply<P: Picker>(session: &mut Session, change: &Change, picker: &mut P) -> LineAnswer
    requires { IsPadded change.now }
    ensures serves { (reply : Reply) → IsReply session.new result reply → Serves session.old (request.Change change.now) reply session.new }
    ensures writable { IsWritable session.new result }
{
    match session.change(change, picker) {
        Ok(()) => LineAnswer::Accepted,
        Err(stop) => stopped(stop),
    }
}

// Answers a question.
fn ask(session: &mut Session, query: &Query) -> LineAnswer
    ensures serves { (reply : Reply) → IsReply session.new result reply → Serves session.old (request.Query query.now) reply session.new }
    ensures writable { IsWritable session.new result }
{
    match session.ask(query) {
        Ok(answer) => LineAnswer::Told(answer),
        Err(stop) => stopped(stop),
    }
}

// Answers a request.
fn serve<P: Picker>(session: &mut Session, request: &Request, picker: &mut P) -> LineAnswer
    requires { AsksPadded request.now }
    ensures serves { (reply : Reply) → IsReply session.new result reply → Serves session.old request.now reply session.new }
    ensures writable { IsWritable session.new result }
{
    match request {
        Request::Nothing => LineAnswer::Nothing,
        Request::Change(change) => apply(session, change, picker),
        Request::Query(query) => ask(session, query),
    }
}

/// Answers a line that is not too long: at most 1,024 bytes. A line that is refused, or finds no memory, leaves all as
/// before.
pub fn take<P: Picker>(session: &mut Session, line: &[u8], picker: &mut P) -> LineAnswer
    requires { length line.now ≤ LONGEST_LINE }
    ensures takes { (reply : Reply) → IsReply session.new result reply → Takes session.old line.now reply session.new }
    ensures writable { IsWritable session.new result }
{
    match read_line(line) {
        Ok(request) => serve(session, &request, picker),
        Err(fault) => LineAnswer::Refused(Refusal::Unreadable(fault)),
    }
}
