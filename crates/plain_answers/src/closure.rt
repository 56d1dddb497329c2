// The facts of an environment.

ghost use Rattle.std.specs.Prelude.{◌≡◌};
ghost use Rattle.circuit_model.specs.Present.{is_cell};

use circuit_model::{Cell, Fact};
use proof_check::Closed;
use std::marker::Model;

/// What follows from a consistent environment of a present: for each cell its word, where one follows.
#[derive(Drop)]
pub struct Closure {
    closed: Closed,
}

impl Model for Closure {
    ghost use Rattle.std.specs.Prelude.{List};
    ghost use Rattle.proof_check.specs.Closing.{Timed};

    ghost Value = { List Timed };

    ghost view = { λ closure. closure.closed.facts };
}

impl Closure {
    ghost use Rattle.std.specs.Prelude.{◌≡◌};
    ghost use Rattle.plain_answers.specs.Words.{word_in};

    /// The facts of an environment that was closed.
    pub(crate) fn of(closed: Closed) -> Closure
        ensures { result ≡ closed.facts }
    {
        Closure { closed }
    }

    /// The word that follows at the cell, if one does.
    pub fn value_at(&self, cell: Cell) -> Option<u64>
        ensures { result ≡ word_in self.now cell }
    {
        for place in 0..self.closed.len() {
            let (fact, _round) = self.closed.at(place);
            if is_at(fact, cell) {
                return Some(fact.value);
            }
        }
        None
    }
}

fn is_at(fact: Fact, cell: Cell) -> bool
    ensures { result ≡ is_cell fact.cell cell }
{
    fact.cell == cell
}
