// Nodes, and the inferences that were recorded between them.
ghost use Rattle.std.specs.Prelude.{◌≡◌, ◌<◌, ℕ, [], Some, None, IsSome, IfOk, IsSomeAnd, OnErr, MatchOption};
ghost use Rattle.environment_sets.specs.Lists.{IsIn};
ghost use Rattle.index_lists.specs.Lists.{first_of, next_in};
ghost use Rattle.justifications.specs.Chained.{AreAlike, IsAdded, IsRemoved, AreDropped};
ghost use Rattle.justifications.specs.Woven.{fact_at, inferred_at, name_of, number_of, IsFit, IsThere, head_of_inferred, nodes_at, uses_of, supports_of, made_by, Finds, GoesFrom, IsWoven};
ghost use Rattle.justifications.specs.declared.model.Target.TheVariants.{Node};

use crate::links::{
    behind_in, drop_all_in, drop_uses_in, first_in, first_use_in, next_use_in, place_of_target,
    record_in, remove_from,
};
use crate::model::{Inferred, JustId, NodeId, Target};
use crate::nodes::{add_node, find_in_front, place_of_cell, remove_node};
use crate::table::{Named, number_in};
use circuit_model::{Cell, Fact};
use index_lists::{Chains, Key};
use indexmap::IndexMap;
use std::alloc::{AllocError, Global};
use std::marker::Model;

/// Nodes and recorded inferences (de Kleer 1986). A node is a fact under a number, and no fact has two. Chains lead to the
/// nodes of a cell, to the inferences that go from a node, that lead to one, and that a component makes.
#[derive(Drop)]
pub struct Weave {
    facts: Chains<Fact>,
    inferences: Chains<Inferred>,
    // the number of each fact's node
    table: IndexMap<Named, usize>,
}

impl Model for Weave {
    ghost use Rattle.justifications.specs.Woven.{Woven};
    ghost use Rattle.justifications.specs.Kept.{AreKept};

    ghost Value = { Woven };

    ghost view = { λ w. record { facts = w.facts; inferences = w.inferences } };

    ghost invariant = { λ w. AreKept w.table.entries (record { facts = w.facts; inferences = w.inferences }) };
}

impl Weave {
    /// No node, and nothing recorded. It takes no memory.
    pub fn new(alloc: Global) -> Weave
        ensures nodes { (n : ℕ) → fact_at result n ≡ None }
        ensures inferences { (j : ℕ) → inferred_at result j ≡ None }
    {
        Weave {
            facts: Chains::new(alloc),
            inferences: Chains::new(alloc),
            table: IndexMap::new(alloc),
        }
    }

    /// The node of the fact, if it has one. It is found at the front of the chain of its cell, or else by a hash, in no walk.
    pub fn find(&self, fact: &Fact) -> Option<NodeId>
        ensures { MatchOption result ((n : ℕ) → fact_at self.now n ≡ Some fact.now → ⊥) (λ n. fact_at self.now n.place ≡ Some fact.now) }
    {
        if let Some(node) = find_in_front(&self.facts, fact) {
            return Some(node);
        }
        match number_in(&self.table, fact) {
            Some(place) => Some(NodeId { place }),
            None => None,
        }
    }

    /// The node of the fact, which is made where there is none, first in the chain of its cell. Cells past the limits of a
    /// present share chains. After an error all is as before.
    pub fn node_of(&mut self, fact: Fact) -> Result<NodeId, AllocError>
        ensures found { IfOk result (λ n. Finds self.old self.new n.place fact) }
        ensures err { OnErr result (AreAlike self.old.facts self.new.facts) }
        ensures inferences { self.new.inferences ≡ self.old.inferences }
    {
        if let Some(node) = self.find(&fact) {
            return Ok(node);
        }
        add_node(&mut self.facts, &mut self.table, fact)
    }

    /// The fact of the node.
    pub fn fact_of(&self, node: NodeId) -> Fact
        requires { IsSome (fact_at self.now node.place) }
        ensures { fact_at self.now node.place ≡ Some result }
    {
        *self.facts.get(Key { place: node.place })
    }

    /// The first node in the chain of the cell. Cells past the limits of a present share chains.
    pub fn first_at(&self, cell: Cell) -> Option<NodeId>
        ensures { number_of result ≡ first_of (nodes_at self.now cell) }
    {
        match self.facts.first(0, place_of_cell(cell)) {
            Some(key) => Some(NodeId { place: key.place }),
            None => None,
        }
    }

    /// The node behind this one in the chain of its cell. Cells past the limits of a present share chains.
    pub fn next_at(&self, node: NodeId) -> Option<NodeId>
        requires { IsSome (fact_at self.now node.place) }
        ensures { (cell : Cell) → IsIn (nodes_at self.now cell) node.place → number_of result ≡ next_in (nodes_at self.now cell) node.place }
    {
        match self.facts.next(Key { place: node.place }, 0) {
            Some(key) => Some(NodeId { place: key.place }),
            None => None,
        }
    }

    /// Records the inference, whose nodes are there. After an error all is as before.
    pub fn note(&mut self, inferred: Inferred) -> Result<JustId, AllocError>
        requires { IsFit self.old inferred }
        ensures noted { IfOk result (λ j. IsAdded head_of_inferred self.old.inferences self.new.inferences j.place inferred) }
        ensures err { OnErr result (AreAlike self.old.inferences self.new.inferences) }
        ensures nodes { self.new.facts ≡ self.old.facts }
    {
        record_in(&mut self.inferences, inferred)
    }

    /// The recorded inference of the name.
    pub fn get(&self, just: JustId) -> Inferred
        requires { IsSome (inferred_at self.now just.place) }
        ensures { inferred_at self.now just.place ≡ Some result }
    {
        *self.inferences.get(Key { place: just.place })
    }

    /// The inference is recorded no more. It takes no memory.
    pub fn remove(&mut self, just: JustId) -> Inferred
        requires { IsSome (inferred_at self.old just.place) }
        ensures value { inferred_at self.old just.place ≡ Some result }
        ensures removed { IsRemoved self.old.inferences self.new.inferences just.place }
        ensures nodes { self.new.facts ≡ self.old.facts }
    {
        remove_from(&mut self.inferences, just)
    }

    /// The first recorded inference that goes from the node.
    pub fn first_use(&self, node: NodeId) -> Option<JustId>
        ensures { name_of result ≡ first_of (uses_of self.now node.place) }
    {
        first_use_in(&self.inferences, node.place)
    }

    /// The inference behind this one among those that go from the node.
    pub fn next_use(&self, node: NodeId, just: JustId) -> Option<JustId>
        requires { IsIn (uses_of self.now node.place) just.place }
        ensures { name_of result ≡ next_in (uses_of self.now node.place) just.place }
    {
        next_use_in(&self.inferences, node.place, just)
    }

    /// The first recorded inference that leads to a node, which is there, or to a clash.
    pub fn first_support(&self, target: Target) -> Option<JustId>
        requires { IsThere self.now target }
        ensures { name_of result ≡ first_of (supports_of self.now target) }
    {
        first_in(&self.inferences, 2, place_of_target(target))
    }

    /// The inference behind this one among those that lead to the same.
    pub fn next_support(&self, just: JustId) -> Option<JustId>
        requires { IsSome (inferred_at self.now just.place) }
        ensures { (target : Target) → IsIn (supports_of self.now target) just.place → name_of result ≡ next_in (supports_of self.now target) just.place }
    {
        behind_in(&self.inferences, 2, just)
    }

    /// The first recorded inference that the slot's component makes.
    pub fn first_made(&self, slot: u16) -> Option<JustId>
        ensures { name_of result ≡ first_of (made_by self.now slot) }
    {
        first_in(&self.inferences, 3, slot as usize)
    }

    /// The inference behind this one, which has a maker, among those of its maker.
    pub fn next_made(&self, just: JustId) -> Option<JustId>
        requires { IsSomeAnd (inferred_at self.now just.place) (λ x. IsSome x.maker) }
        ensures { (slot : ℕ) → IsIn (made_by self.now slot) just.place → name_of result ≡ next_in (made_by self.now slot) just.place }
    {
        behind_in(&self.inferences, 3, just)
    }

    /// Exactly the inferences that the slot's component makes are recorded no more, in a walk over them alone. It takes no
    /// memory.
    pub fn drop_made_by(&mut self, slot: u16)
        ensures dropped { AreDropped (λ x. x.maker ≡ Some slot) self.old.inferences self.new.inferences }
        ensures nodes { self.new.facts ≡ self.old.facts }
    {
        drop_all_in(&mut self.inferences, 3, slot as usize);
    }

    /// Exactly the inferences that go from the node are recorded no more, in a walk over them alone. It takes no memory.
    pub fn drop_uses(&mut self, node: NodeId)
        ensures dropped { AreDropped (GoesFrom node.place) self.old.inferences self.new.inferences }
        ensures nodes { self.new.facts ≡ self.old.facts }
    {
        drop_uses_in(&mut self.inferences, node.place);
    }

    /// Drops the node, which no recorded inference goes from or leads to; its number has no node then. It takes no memory.
    pub fn drop_node(&mut self, node: NodeId)
        requires there { IsSome (fact_at self.old node.place) }
        requires unused { uses_of self.old node.place ≡ [] }
        requires unsupported { supports_of self.old (Node node) ≡ [] }
        ensures removed { IsRemoved self.old.facts self.new.facts node.place }
        ensures inferences { self.new.inferences ≡ self.old.inferences }
    {
        remove_node(&mut self.facts, &mut self.table, node);
    }

    /// What is true of all nodes and recorded inferences. It does nothing.
    pub fn laws(&self)
        ensures { IsWoven self.now }
    {
        let _facts = &self.facts;
    }
}
