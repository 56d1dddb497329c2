// What a line asks, or the fault that it has.
ghost use Rattle.std.specs.Prelude.{◌≡◌, IfOk, length};
ghost use Rattle.netlist_text.specs.Commands.{form_of};
ghost use Rattle.netlist_text.specs.Grammar.{fault_of, reading_of, reading_by, AsksPadded};
ghost use Rattle.netlist_text.specs.Places.{has_count};
ghost use Rattle.netlist_text.specs.Words.{words_of, are_silent};

use crate::commands::{Command, command_of};
use crate::faults::LineFault;
use crate::places::{have_names, have_numbers};
use crate::requests::Request;
use crate::words::{count_words, has_only_printable, next_word};

// Whether the line asks for nothing: it has no word, or is a comment.
fn is_silent(line: &[u8]) -> bool
    ensures { result ≡ are_silent (words_of line.now) }
{
    match next_word(line) {
        Some((word, _)) => word[0] == b'#',
        None => true,
    }
}

// Whether a line of the command may have as many words as this one.
fn has_count(command: Command, line: &[u8]) -> bool
    ensures { result ≡ has_count (form_of command) (length (words_of line.now)) }
{
    let count = count_words(line);
    let least = command.places().len();
    least <= count && count <= least + command.more()
}

// The first of the faults that the words of a line of the command have.
fn fault_of(command: Command, line: &[u8]) -> Option<LineFault>
    ensures { result ≡ fault_of command (words_of line.now) }
{
    if !has_count(command, line) {
        return Some(LineFault::WordCount);
    }
    if !have_names(command.places(), line) {
        return Some(LineFault::BadName);
    }
    if !have_numbers(command.places(), line) {
        return Some(LineFault::BadNumber);
    }
    None
}

// What a line of the command asks, or that fault.
fn read_by(command: Command, line: &[u8]) -> Result<Request, LineFault>
    ensures { result ≡ reading_by command (words_of line.now) }
{
    match fault_of(command, line) {
        Some(fault) => Err(fault),
        None => Ok(command.request_of(line)),
    }
}

/// What the line asks, or the first of the faults that it has. A line has no newline; how long it is does not matter
/// here. It takes no memory.
pub fn read_line(bytes: &[u8]) -> Result<Request, LineFault>
    ensures reading { result ≡ reading_of bytes.now }
    ensures padded { IfOk result AsksPadded }
{
    if !has_only_printable(bytes) {
        return Err(LineFault::NotPrintable);
    }
    if is_silent(bytes) {
        return Ok(Request::Nothing);
    }
    match command_of(bytes) {
        Ok(command) => read_by(command, bytes),
        Err(fault) => Err(fault),
    }
}
