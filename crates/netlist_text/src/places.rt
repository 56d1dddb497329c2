// What the words of a line stand for.
ghost use Rattle.std.specs.Prelude.{◌≡◌, true};
ghost use Rattle.std.specs.List.{list_all};
ghost use Rattle.circuit_model.specs.Names.{is_name};
ghost use Rattle.netlist_text.specs.Places.{holds_name, holds_number, have_names, have_numbers};
ghost use Rattle.netlist_text.specs.Words.{words_of, word_at, is_number, number_of};
ghost use Rattle.netlist_text.specs.Cells.{net_part, has_cycle, cycle_of};

use crate::cells::{cycle_of, has_cycle, net_part};
use crate::words::{first_word, is_number, next_word, number_of, word_at};
use circuit_model::Name;

/// What a word of a line stands for.
#[derive(Clone, Copy, Debug)]
pub enum Place {
    /// It says which line this is.
    Keyword,
    Name,
    Number,
    /// The name of a net and, after an `@`, the number of a cycle.
    Cell,
}

fn is_name(word: &[u8]) -> bool
    ensures { result ≡ is_name word.now }
{
    Name::new(word).is_some()
}

impl Place {
    fn holds_name(self, word: &[u8]) -> bool
        ensures { result ≡ holds_name self word.now }
    {
        match self {
            Place::Keyword | Place::Number => true,
            Place::Name => is_name(word),
            Place::Cell => is_name(net_part(word)),
        }
    }

    fn holds_number(self, word: &[u8]) -> bool
        ensures { result ≡ holds_number self word.now }
    {
        match self {
            Place::Keyword | Place::Name => true,
            Place::Number => is_number(word),
            Place::Cell => has_cycle(word),
        }
    }
}

// Whether all words are names.
fn are_names(line: &[u8]) -> bool
    ensures { result ≡ list_all is_name (words_of line.now) }
{
    let mut left = line;
    while let Some((word, rest)) = next_word(left) {
        if !is_name(word) {
            return false;
        }
        left = rest;
    }
    true
}

/// Whether each place of a name holds one, and what follows the places are names.
pub fn have_names(places: &[Place], line: &[u8]) -> bool
    ensures { result ≡ have_names places.now (words_of line.now) }
{
    let mut left = line;
    for place in places {
        let (word, rest) = first_word(left);
        if !place.holds_name(word) {
            return false;
        }
        left = rest;
    }
    are_names(left)
}

/// Whether each place of a number holds one.
pub fn have_numbers(places: &[Place], line: &[u8]) -> bool
    ensures { result ≡ have_numbers places.now (words_of line.now) }
{
    let mut left = line;
    for place in places {
        let (word, rest) = first_word(left);
        if !place.holds_number(word) {
            return false;
        }
        left = rest;
    }
    true
}

/// The name at the place.
pub fn name_at(line: &[u8], place: usize) -> Name
    requires { is_name (word_at (words_of line.now) place) ≡ true }
    ensures { result ≡ word_at (words_of line.now) place }
{
    known_name(word_at(line, place))
}

/// The number at the place.
pub fn number_at(line: &[u8], place: usize) -> u64
    requires { is_number (word_at (words_of line.now) place) ≡ true }
    ensures { result ≡ number_of (word_at (words_of line.now) place) }
{
    number_of(word_at(line, place))
}

/// The name of the net of the cell at the place.
pub fn net_at(line: &[u8], place: usize) -> Name
    requires { is_name (net_part (word_at (words_of line.now) place)) ≡ true }
    ensures { result ≡ net_part (word_at (words_of line.now) place) }
{
    known_name(net_part(word_at(line, place)))
}

/// The cycle of the cell at the place.
pub fn cycle_at(line: &[u8], place: usize) -> u64
    requires { has_cycle (word_at (words_of line.now) place) ≡ true }
    ensures { result ≡ cycle_of (word_at (words_of line.now) place) }
{
    cycle_of(word_at(line, place))
}

/// The name that the word is.
pub fn known_name(word: &[u8]) -> Name
    requires { is_name word.now ≡ true }
    ensures { result ≡ word.now }
{
    match Name::new(word) {
        Some(name) => name,
        None => unreachable!(),
    }
}
