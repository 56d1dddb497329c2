// The words that held at some cells by a round.

ghost use Rattle.std.specs.Prelude.{◌≡◌, map, if◌then◌else◌, None};
ghost use Rattle.circuit_model.specs.Present.{is_cell};
ghost use Rattle.explanations.specs.Words.{AreByRound, word_by, chosen_words};

use circuit_model::Cell;
use proof_check::Closed;

/// The word that held at each of the cells by the round.
pub fn words_by(closed: &Closed, round: u32, cells: &[Cell; 3]) -> [Option<u64>; 3]
    requires { AreByRound closed.now.facts }
    ensures { result ≡ map (word_by closed.now.facts round) cells.now }
{
    let [c, d, e] = *cells;
    [
        word_by(closed, round, c),
        word_by(closed, round, d),
        word_by(closed, round, e),
    ]
}

/// The word that held at the cell by the round.
fn word_by(closed: &Closed, round: u32, cell: Cell) -> Option<u64>
    requires { AreByRound closed.now.facts }
    ensures { result ≡ word_by closed.now.facts round cell }
{
    for i in 0..closed.len() {
        let (fact, first_round) = closed.at(i);
        if first_round > round {
            return None;
        }
        if is_cell(fact.cell, cell) {
            return Some(fact.value);
        }
    }
    None
}

/// Whether it is the same cell.
fn is_cell(one: Cell, other: Cell) -> bool
    ensures { result ≡ is_cell one other }
{
    one == other
}

/// The words at the places of this number, whose lowest bit is the first place; elsewhere none.
pub fn chosen_words(places: u8, words: &[Option<u64>; 3]) -> [Option<u64>; 3]
    ensures { result ≡ chosen_words places words.now }
{
    let [a, b, z] = *words;
    [
        word_if(places % 2 == 1, a),
        word_if(places / 2 % 2 == 1, b),
        word_if(places / 2 / 2 % 2 == 1, z),
    ]
}

fn word_if(chosen: bool, word: Option<u64>) -> Option<u64>
    ensures { result ≡ (if chosen then word else None) }
{
    if chosen { word } else { None }
}
