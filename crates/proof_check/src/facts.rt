// Facts in order.

ghost use Rattle.std.specs.Prelude.{◌≡◌, ◌↔◌, ℕ, IsTrue, Some, slice_get, MatchOption};
ghost use Rattle.environment_sets.specs.Lists.{IsIn};
ghost use Rattle.circuit_model.specs.Closure.{fact, AreTwoWords};
ghost use Rattle.proof_check.specs.Ordered.{AreInOrder, IsPlaceOf, IsFirstPair};

use crate::derivation::Ending;
use circuit_model::{Cell, Fact};
use std::alloc::{AllocError, Global};
use std::marker::Model;

/// Facts by cell, then by word, none twice. Contracts see them as their list.
#[derive(Drop)]
pub struct Facts {
    list: Vec<Fact>,
}

impl Model for Facts {
    ghost use Rattle.std.specs.Prelude.{List};
    ghost use Rattle.circuit_model.specs.declared.model.Fact.{Fact};
    ghost use Rattle.proof_check.specs.Ordered.{AreInOrder};

    ghost Value = { List Fact };

    ghost view = { λ facts. facts.list.items };

    ghost invariant = { λ facts. AreInOrder facts.list.items };
}

impl Facts {
    ghost use Rattle.std.specs.Prelude.{[], ◌<◌, ◌+◌, length, OnOk, OnErr};
    ghost use Rattle.proof_check.specs.Ordered.{HasPut};

    /// No fact. It takes no memory.
    pub fn new(alloc: Global) -> Facts
        ensures { result ≡ [] }
    {
        Facts {
            list: Vec::new(alloc),
        }
    }

    /// How many facts there are.
    pub fn len(&self) -> usize
        ensures value { result ≡ length self.now }
        ensures order { AreInOrder self.now }
    {
        self.list.len()
    }

    /// The fact at a place of the list.
    pub fn at(&self, i: usize) -> Fact
        requires { i < length self.now }
        ensures { slice_get self.now i ≡ Some result }
    {
        self.list[i]
    }

    /// Whether the fact is one of them.
    pub fn has(&self, fact: Fact) -> bool
        ensures { IsTrue result ↔ IsIn self.now fact }
    {
        has(&self.list, fact)
    }

    /// A word at the cell, if there is one: the least.
    pub fn word_at(&self, cell: Cell) -> Option<u64>
        ensures { MatchOption result ((v : ℕ) → IsIn self.now (fact cell v) → ⊥) (λ v. IsIn self.now (fact cell v)) }
    {
        word_at(&self.list, cell)
    }

    /// The fact with the others. After an error all is as before.
    pub fn put(&mut self, fact: Fact) -> Result<(), AllocError>
        ensures ok { OnOk result (HasPut fact self.old self.new) }
        ensures long { OnOk result ((IsIn self.old fact → ⊥) → length self.new ≡ length self.old + 1) }
        ensures order { OnOk result (AreInOrder self.new) }
        ensures err { OnErr result (self.new ≡ self.old) }
    {
        let place = place_for(&self.list, fact);
        if stands_at(&self.list, place, fact) {
            return Ok(());
        }
        self.list.insert(place, fact)?;
        Ok(())
    }

    /// The first cell with two words, if some cell has two, and its two least words.
    pub fn first_pair(&self) -> Option<Ending>
        ensures { MatchOption result (AreTwoWords (IsIn self.now) → ⊥) (IsFirstPair (IsIn self.now)) }
    {
        first_pair(&self.list)
    }
}

/// The place where the fact stands, or would stand.
fn place_for(facts: &[Fact], fact: Fact) -> usize
    requires { AreInOrder facts.now }
    ensures { IsPlaceOf facts.now fact result }
{
    let mut low = 0;
    let mut high = facts.len();
    while low < high {
        let middle = low + (high - low) / 2;
        if facts[middle].comes_before(fact) {
            low = middle + 1;
        } else {
            high = middle;
        }
    }
    low
}

fn stands_at(facts: &[Fact], place: usize, fact: Fact) -> bool
    ensures { IsTrue result ↔ (slice_get facts.now place ≡ Some fact) }
{
    match facts.get(place) {
        None => false,
        Some(there) => *there == fact,
    }
}

fn has(facts: &[Fact], fact: Fact) -> bool
    requires { AreInOrder facts.now }
    ensures { IsTrue result ↔ IsIn facts.now fact }
{
    stands_at(facts, place_for(facts, fact), fact)
}

/// The word at the place, if it is of the cell.
fn word_from(facts: &[Fact], place: usize, cell: Cell) -> Option<u64>
    ensures { MatchOption result ((v : ℕ) → slice_get facts.now place ≡ Some (fact cell v) → ⊥) (λ v. slice_get facts.now place ≡ Some (fact cell v)) }
{
    let there = facts.get(place)?;
    if there.cell != cell {
        return None;
    }
    Some(there.value)
}

/// The least word at the cell, if there is one.
fn word_at(facts: &[Fact], cell: Cell) -> Option<u64>
    requires { AreInOrder facts.now }
    ensures { MatchOption result ((v : ℕ) → IsIn facts.now (fact cell v) → ⊥) (λ v. IsIn facts.now (fact cell v)) }
{
    word_from(facts, place_for(facts, Fact { cell, value: 0 }), cell)
}

/// The first cell with two words, and its two least words.
fn first_pair(facts: &[Fact]) -> Option<Ending>
    requires { AreInOrder facts.now }
    ensures { MatchOption result (AreTwoWords (IsIn facts.now) → ⊥) (IsFirstPair (IsIn facts.now)) }
{
    for i in 1..facts.len() {
        let low = facts[i - 1];
        let high = facts[i];
        if low.cell == high.cell {
            return Some(Ending::TwoValues {
                cell: low.cell,
                low: low.value,
                high: high.value,
            });
        }
    }
    None
}
