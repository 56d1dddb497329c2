// The lines of changes other than those of components.
ghost use Rattle.std.specs.Prelude.{◌≡◌, ◌≤◌, ◌+◌, length, true};
ghost use Rattle.std.specs.List.{list_all};
ghost use Rattle.circuit_model.specs.Names.{is_name};
ghost use Rattle.circuit_model.specs.declared.limits.TheConstants.{MOST_PINS};
ghost use Rattle.netlist_text.specs.Changes.{change_named, form_of_change, change_of};
ghost use Rattle.netlist_text.specs.Places.{FitEach};
ghost use Rattle.netlist_text.specs.Words.{words_of, rest};

use crate::name_list::NameList;
use crate::places::{Place, cycle_at, known_name, name_at, net_at, number_at};
use crate::requests::Change;
use crate::words::{first_word, next_word};
use circuit_model::limits;

/// The first word of the line of a change other than a component.
#[derive(Clone, Copy, Debug)]
pub enum ChangeWord {
    Cycles,
    Net,
    Cost,
    Stuck,
    Acts,
    Define,
    Pin,
    Use,
    Measure,
    Retract,
    Undo,
}

/// What the word begins, if it is the first of the line of a change other than a component.
#[tactic(auto, unfolding(crate::specs::Changes::change_named))]
pub fn change_named(word: &[u8]) -> Option<ChangeWord>
    ensures { result ≡ change_named word.now }
{
    match word {
        b"cycles" => Some(ChangeWord::Cycles),
        b"net" => Some(ChangeWord::Net),
        b"cost" => Some(ChangeWord::Cost),
        b"stuck" => Some(ChangeWord::Stuck),
        b"acts" => Some(ChangeWord::Acts),
        b"define" => Some(ChangeWord::Define),
        b"pin" => Some(ChangeWord::Pin),
        b"use" => Some(ChangeWord::Use),
        b"measure" => Some(ChangeWord::Measure),
        b"retract" => Some(ChangeWord::Retract),
        b"undo" => Some(ChangeWord::Undo),
        _ => None,
    }
}

// The words, all of them names.
fn names_of(line: &[u8]) -> NameList
    requires names { list_all is_name (words_of line.now) ≡ true }
    requires most { length (words_of line.now) ≤ MOST_PINS }
    ensures { result ≡ words_of line.now }
{
    let mut names = NameList::new();
    let mut left = line;
    while let Some((word, rest)) = next_word(left) {
        names.push(known_name(word));
        left = rest;
    }
    names
}

// The words after the third, all of them names.
fn nets_of(line: &[u8]) -> NameList
    requires fit { FitEach (form_of_change ChangeWord.Use).places (words_of line.now) }
    requires most { length (words_of line.now) ≤ 3 + MOST_PINS }
    ensures { result ≡ rest (rest (rest (words_of line.now))) }
{
    let (_, left) = first_word(line);
    let (_, left) = first_word(left);
    let (_, left) = first_word(left);
    names_of(left)
}

impl ChangeWord {
    /// What the words of the line stand for.
    pub fn places(self) -> &'static [Place]
        ensures { result.now ≡ (form_of_change self).places }
    {
        use Place::{Cell, Keyword, Name, Number};
        match self {
            ChangeWord::Cycles => &[Keyword, Number],
            ChangeWord::Net | ChangeWord::Cost => &[Keyword, Name, Number],
            ChangeWord::Stuck => &[Keyword, Name, Number, Number],
            ChangeWord::Acts | ChangeWord::Pin => &[Keyword, Name, Name, Number],
            ChangeWord::Define => &[Keyword, Name],
            ChangeWord::Use => &[Keyword, Name, Name, Name],
            ChangeWord::Measure => &[Keyword, Cell, Number],
            ChangeWord::Retract => &[Keyword, Cell],
            ChangeWord::Undo => &[Keyword],
        }
    }

    /// How many names more may follow.
    pub fn more(self) -> usize
        ensures { result ≡ (form_of_change self).more }
    {
        match self {
            ChangeWord::Use => limits::MOST_PINS as usize - 1,
            ChangeWord::Cycles
            | ChangeWord::Net
            | ChangeWord::Cost
            | ChangeWord::Stuck
            | ChangeWord::Acts
            | ChangeWord::Define
            | ChangeWord::Pin
            | ChangeWord::Measure
            | ChangeWord::Retract
            | ChangeWord::Undo => 0,
        }
    }

    /// What the line asks.
    pub fn change_of(self, line: &[u8]) -> Change
        requires fit { FitEach (form_of_change self).places (words_of line.now) }
        requires most { length (words_of line.now) ≤ length (form_of_change self).places + (form_of_change self).more }
        ensures { result ≡ change_of self (words_of line.now) }
    {
        match self {
            ChangeWord::Cycles => Change::Cycles {
                count: number_at(line, 1),
            },
            ChangeWord::Net => Change::Net {
                name: name_at(line, 1),
                width: number_at(line, 2),
            },
            ChangeWord::Cost => Change::Cost {
                name: name_at(line, 1),
                cost: number_at(line, 2),
            },
            ChangeWord::Stuck => Change::Stuck {
                name: name_at(line, 1),
                value: number_at(line, 2),
                cost: number_at(line, 3),
            },
            ChangeWord::Acts => Change::Acts {
                name: name_at(line, 1),
                kind: name_at(line, 2),
                cost: number_at(line, 3),
            },
            ChangeWord::Define => Change::Define {
                block: name_at(line, 1),
            },
            ChangeWord::Pin => Change::Pin {
                block: name_at(line, 1),
                name: name_at(line, 2),
                width: number_at(line, 3),
            },
            ChangeWord::Use => Change::UseBlock {
                block: name_at(line, 1),
                name: name_at(line, 2),
                nets: nets_of(line),
            },
            ChangeWord::Measure => Change::Measure {
                net: net_at(line, 1),
                cycle: cycle_at(line, 1),
                value: number_at(line, 2),
            },
            ChangeWord::Retract => Change::Retract {
                net: net_at(line, 1),
                cycle: cycle_at(line, 1),
            },
            ChangeWord::Undo => Change::Undo,
        }
    }
}
