// All lines: which one it is, what its words stand for, and what it asks.
ghost use Rattle.std.specs.Prelude.{◌≡◌, ◌≤◌, ◌+◌, length};
ghost use Rattle.netlist_text.specs.Commands.{command_named, inside_command, command_of, form_of, request_of};
ghost use Rattle.netlist_text.specs.Places.{FitEach};
ghost use Rattle.netlist_text.specs.Words.{words_of};

use crate::changes::{ChangeWord, change_named};
use crate::faults::LineFault;
use crate::parts::{PartWord, part_named};
use crate::places::{Place, name_at};
use crate::queries::{QueryWord, query_named};
use crate::requests::{Change, Request};
use crate::words::{count_words, first_word, word_at};

/// What a line is, by the word that begins it; or, after `inside` and the name of a definition, by the third.
#[derive(Clone, Copy, Debug)]
pub enum Command {
    Part(PartWord),
    Inside(PartWord),
    Change(ChangeWord),
    Query(QueryWord),
}

// The command of a line that begins with this word, other than `inside`.
fn command_named(word: &[u8]) -> Option<Command>
    ensures { result ≡ command_named word.now }
{
    if let Some(part) = part_named(word) {
        return Some(Command::Part(part));
    }
    if let Some(change) = change_named(word) {
        return Some(Command::Change(change));
    }
    if let Some(query) = query_named(word) {
        return Some(Command::Query(query));
    }
    None
}

// The command of a line that begins with `inside`.
fn inside_command(line: &[u8]) -> Result<Command, LineFault>
    ensures { result ≡ inside_command (words_of line.now) }
{
    if count_words(line) < 3 {
        return Err(LineFault::WordCount);
    }
    match part_named(word_at(line, 2)) {
        Some(part) => Ok(Command::Inside(part)),
        None => Err(LineFault::UnknownCommand),
    }
}

/// The command of the line, if it is one that there is.
pub fn command_of(line: &[u8]) -> Result<Command, LineFault>
    ensures { result ≡ command_of (words_of line.now) }
{
    let (word, _) = first_word(line);
    if word == b"inside".as_slice() {
        return inside_command(line);
    }
    match command_named(word) {
        Some(command) => Ok(command),
        None => Err(LineFault::UnknownCommand),
    }
}

// What a line asks that has `inside`, the name of a definition, and the line of a component.
fn inner_part(part: PartWord, line: &[u8]) -> Change
    requires { FitEach (form_of (Command.Inside part)).places (words_of line.now) }
    ensures { Request.Change result ≡ request_of (Command.Inside part) (words_of line.now) }
{
    let (_, inner) = first_word(line);
    let (_, inner) = first_word(inner);
    Change::Inside {
        block: name_at(line, 1),
        name: name_at(inner, 1),
        kind: part.kind_of(inner),
        nets: part.nets_of(inner),
    }
}

impl Command {
    /// What the words of the line stand for.
    pub fn places(self) -> &'static [Place]
        ensures { result.now ≡ (form_of self).places }
    {
        match self {
            Command::Part(part) => part.places(),
            Command::Inside(part) => part.inner_places(),
            Command::Change(change) => change.places(),
            Command::Query(query) => query.places(),
        }
    }

    /// How many names more may follow.
    pub fn more(self) -> usize
        ensures { result ≡ (form_of self).more }
    {
        match self {
            Command::Change(change) => change.more(),
            Command::Part(_) | Command::Inside(_) | Command::Query(_) => 0,
        }
    }

    /// What the line asks.
    pub fn request_of(self, line: &[u8]) -> Request
        requires fit { FitEach (form_of self).places (words_of line.now) }
        requires most { length (words_of line.now) ≤ length (form_of self).places + (form_of self).more }
        ensures { result ≡ request_of self (words_of line.now) }
    {
        match self {
            Command::Part(part) => Request::Change(Change::Add {
                name: name_at(line, 1),
                kind: part.kind_of(line),
                nets: part.nets_of(line),
            }),
            Command::Inside(part) => Request::Change(inner_part(part, line)),
            Command::Change(change) => Request::Change(change.change_of(line)),
            Command::Query(query) => Request::Query(query.query_of(line)),
        }
    }
}
