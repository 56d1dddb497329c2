// The facts of one environment, by round.

use crate::derivation::Ending;
use circuit_model::Fact;
use std::marker::Model;

/// A fact, and the round at which it first holds.
#[derive(Clone, Copy, Debug)]
pub struct Timed {
    pub fact: Fact,
    pub round: u32,
}

/// The facts of one environment with the rounds at which they first hold, by round, then by cell, then by word: up to the
/// round after which nothing is added, or up to the first round with a clash. At round 0 hold the measurements, at each
/// later one also what the components force from words of the round before.
#[derive(Drop)]
pub struct Closed {
    facts: Vec<Timed>,
    clash: Option<Ending>,
}

impl Model for Closed {
    ghost use Rattle.proof_check.specs.Closing.{ClosedView};

    ghost Value = { ClosedView };

    ghost view = { λ closed. record { facts = closed.facts.items; clash = closed.clash } };
}

impl Closed {
    ghost use Rattle.std.specs.Prelude.{◌≡◌, ◌<◌, length, slice_get, Some};

    /// These facts, and this clash.
    pub(crate) fn of(facts: Vec<Timed>, clash: Option<Ending>) -> Closed
        ensures { result ≡ record { facts = facts.items; clash = clash } }
    {
        Closed { facts, clash }
    }

    /// How many facts there are. It takes no memory.
    pub fn len(&self) -> usize
        ensures { result ≡ length self.now.facts }
    {
        self.facts.len()
    }

    /// The fact at a place, counted from 0 and below the length, and its round. It takes no memory.
    pub fn at(&self, i: usize) -> (Fact, u32)
        requires { i < length self.now.facts }
        ensures { slice_get self.now.facts i ≡ Some (record { fact = result.0; round = result.1 }) }
    {
        let timed = self.facts[i];
        (timed.fact, timed.round)
    }

    /// The clash at the last round, if there is one. It takes no memory.
    pub fn clash(&self) -> Option<Ending>
        ensures { result ≡ self.now.clash }
    {
        self.clash
    }
}
