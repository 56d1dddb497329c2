// The index of a list of facts.
ghost use Rattle.std.specs.Prelude.{◌≡◌, ◌<◌, ◌≤◌, ◌++◌, ◌∷◌, [], IfOk, MatchOption, OnErr, OnOk, Some, length, slice_get};
ghost use Rattle.circuit_model.specs.declared.model.Fact.{Fact};
ghost use Rattle.environment_sets.specs.Lists.{IsIn};
ghost use Rattle.fact_index.specs.Listed.{GivesLast};

use crate::links::{
    CELL_NUMBERS, FACT_NUMBERS, Link, drop_heads, fact_of, find_from, last_from, make_room,
    no_heads, number_of_cell, number_of_fact, put_at,
};
use circuit_model::{Cell, Fact};
use std::alloc::{AllocError, Global};
use std::marker::Model;

/// A list of facts in the order in which they were added, and where each stands. Contracts see the list, and for how many
/// facts there is room.
#[derive(Drop)]
pub struct FactIndex {
    // in the order of their facts, and behind those in use the room for more
    links: Vec<Link>,
    // how many are in use, from the first one on
    count: usize,
    // by number of a fact, the last place in use whose fact has it
    by_fact: Vec<Option<usize>>,
    // by number of a cell, the last place in use whose cell has it
    by_cell: Vec<Option<usize>>,
}

impl Model for FactIndex {
    ghost use Rattle.std.specs.Prelude.{length, take};
    ghost use Rattle.fact_index.specs.Listed.{Listed};
    ghost use Rattle.fact_index.specs.Links.{facts_of, AreIndexed};

    ghost Value = { Listed };

    ghost view = { λ i. record { facts = facts_of (take i.count i.links.items); room = length i.links.items } };

    ghost invariant = { λ i. AreIndexed i.links.items i.count i.by_fact.items i.by_cell.items };
}

impl FactIndex {
    /// No fact. The room for the heads of what is linked is taken here; an error says that there is none.
    pub fn open(alloc: Global) -> Result<FactIndex, AllocError>
        ensures { IfOk result (λ i. i.facts ≡ []) }
    {
        Ok(FactIndex {
            links: Vec::new(alloc),
            count: 0,
            by_fact: no_heads(alloc, FACT_NUMBERS)?,
            by_cell: no_heads(alloc, CELL_NUMBERS)?,
        })
    }

    /// For proofs alone: there is room for the facts that are listed.
    pub fn laws(&self)
        ensures { length self.now.facts ≤ self.now.room }
    {
        let _links = &self.links;
    }

    /// The fact at the place.
    pub fn fact_at(&self, place: usize) -> Fact
        requires { place < length self.now.facts }
        ensures { slice_get self.now.facts place ≡ Some result }
    {
        fact_of(&self.links[..self.count], place)
    }

    /// A place of the fact, if it is listed: a look-up, not a walk over all that is listed.
    pub fn find(&self, fact: &Fact) -> Option<usize>
        ensures { MatchOption result (IsIn self.now.facts fact.now → ⊥) (λ place. slice_get self.now.facts place ≡ Some fact.now) }
    {
        let head = self.by_fact[number_of_fact(fact)];
        find_from(&self.links[..self.count], head, fact)
    }

    /// The last place of a fact at the cell.
    pub fn last_at(&self, cell: Cell) -> Option<usize>
        ensures { GivesLast self.now.facts cell (length self.now.facts) result }
    {
        let head = self.by_cell[number_of_cell(cell)];
        last_from(&self.links[..self.count], head, cell)
    }

    /// The last place before this one of a fact at the same cell. From the last place at a cell on, this walks through all
    /// facts at the cell, and no others.
    pub fn before(&self, place: usize) -> Option<usize>
        requires { place < length self.now.facts }
        ensures { (f : Fact) → slice_get self.now.facts place ≡ Some f → GivesLast self.now.facts f.cell place result }
    {
        let link = self.links[place];
        last_from(&self.links[..self.count], link.by_cell, link.fact.cell)
    }

    /// The fact is listed too, at the end. After an error all is as before.
    pub fn push(&mut self, fact: Fact) -> Result<(), AllocError>
        ensures ok { OnOk result (self.new.facts ≡ self.old.facts ++ fact ∷ []) }
        ensures err { OnErr result (self.new.facts ≡ self.old.facts) }
    {
        make_room(&mut self.links, self.count, fact)?;
        self.push_within(fact);
        Ok(())
    }

    /// No fact is listed any more. The room stays. It walks over what was listed alone, and takes no memory.
    pub fn clear(&mut self)
        ensures facts { self.new.facts ≡ [] }
        ensures room { self.new.room ≡ self.old.room }
    {
        drop_heads(
            &self.links[..self.count],
            &mut self.by_fact,
            &mut self.by_cell,
        );
        self.count = 0;
    }

    /// The fact is listed too, at the end, where there is room. It takes no memory.
    pub fn push_within(&mut self, fact: Fact)
        requires { length self.old.facts < self.old.room }
        ensures facts { self.new.facts ≡ self.old.facts ++ fact ∷ [] }
        ensures room { self.new.room ≡ self.old.room }
    {
        put_at(
            &mut self.links,
            &mut self.by_fact,
            &mut self.by_cell,
            self.count,
            fact,
        );
        self.count += 1;
    }
}
