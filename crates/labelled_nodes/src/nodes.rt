// The facts that were met, each with its label, and the nogoods.

ghost use Rattle.std.specs.Prelude.{◌≡◌, ◌<◌, ◌≤◌, ◌↔◌, ◌++◌, ◌∷◌, ◌-◌, ◌^◌, [], ℕ, IsTrue, IfOk, OnOk, OnErr, MatchOption, Some, None, length, min, position, slice_get, filter, vec_len, vec_capacity};
ghost use Rattle.std.specs.List.{list_any};
ghost use Rattle.environment_sets.specs.Sets.{◌⊆◌};
ghost use Rattle.environment_sets.specs.Members.{members, HasMember};
ghost use Rattle.environment_sets.specs.Families.{Drops, IsCovered};
ghost use Rattle.propagation.specs.Propagating.{IsReached, IsPut};
ghost use Rattle.labelled_nodes.specs.declared.node.Node.{Node};
ghost use Rattle.fact_index.specs.Listed.{GivesLast};
ghost use Rattle.environment_sets.specs.Lists.{AreDistinct};
ghost use Rattle.labelled_nodes.specs.Counted.{ArePairs};
ghost use Rattle.labelled_nodes.specs.Nodes.{is_same, facts_of, label_in, KeptIn, IsMet, AreFactsAt, EachDrops, is_supported};

use crate::counting::{Whole, count_all, count_pairs};
use crate::node::Node;
use circuit_model::{Cell, Fact};
use environment_sets::{Env, SLOTS};
use fact_index::FactIndex;
use label_algebra::Label;
use nogood_store::Nogoods;
use std::alloc::{AllocError, Global};
use std::marker::Model;

/// A node for each fact that was met (de Kleer 1986), and the nogoods. A fact that was not met has no environment. Contracts
/// see the list of nodes and the nogoods.
#[derive(Drop)]
pub struct Nodes {
    list: Vec<Node>,
    // the facts of the nodes, in their order
    index: FactIndex,
    nogoods: Nogoods,
    whole: Whole,
}

impl Model for Nodes {
    ghost use Rattle.std.specs.Prelude.{◌≡◌};
    ghost use Rattle.environment_sets.specs.Lists.{AreDistinct};
    ghost use Rattle.environment_sets.specs.Members.{members};
    ghost use Rattle.labelled_nodes.specs.Nodes.{Labelled, facts_of};
    ghost use Rattle.labelled_nodes.specs.Counted.{IsWhole};

    ghost Value = { Labelled };

    ghost view = { λ n. record { list = n.list.items; nogoods = n.nogoods } };

    ghost invariant = { λ n. AreDistinct (facts_of n.list.items) × (n.index.facts ≡ facts_of n.list.items) × IsWhole n.list.items (members n.whole.reach) n.whole.count };
}

/// Whether the two are the same fact.
pub fn is_same_fact(a: &Fact, b: &Fact) -> bool
    ensures { result ≡ is_same a.now b.now }
{
    a.cell.net == b.cell.net && a.cell.cycle == b.cell.cycle && a.value == b.value
}

// The index lists the facts of the nodes again, in their order.
fn list_again(index: &mut FactIndex, nodes: &[Node])
    requires { length nodes.now ≤ index.old.room }
    ensures { index.new.facts ≡ facts_of nodes.now }
{
    index.clear();
    for node in nodes {
        index.push_within(node.fact);
    }
}

// Takes the room for one node more. After an error all is as before.
fn make_room(nodes: &mut Vec<Node>) -> Result<(), AllocError>
    ensures same { nodes.new.items ≡ nodes.old.items }
    ensures room { IfOk result (λ _. vec_len nodes.new < vec_capacity nodes.new) }
{
    nodes.reserve(1)
}

// The node is put behind the others.
fn push_node(nodes: &mut Vec<Node>, node: Node)
    requires { vec_len nodes.old < vec_capacity nodes.old }
    ensures { nodes.new.items ≡ nodes.old.items ++ node ∷ [] }
{
    if nodes.push(node).is_err() {
        unreachable!();
    }
}

// Drops the environments that contain the nogood.
fn drop_over(nodes: &mut [Node], nogood: &Env)
    ensures { EachDrops (λ F. members nogood.now ⊆ F) nodes.old nodes.new }
{
    for place in 0..nodes.len() {
        let node = &mut nodes[place];
        node.label.drop_over(nogood);
    }
}

// Drops the environments that have the slot.
fn drop_slot_in(nodes: &mut [Node], slot: u16)
    requires { slot < SLOTS }
    ensures { EachDrops (λ F. IsTrue (F slot)) nodes.old nodes.new }
{
    for place in 0..nodes.len() {
        let node = &mut nodes[place];
        node.label.drop_slot(slot);
    }
}

/// Whether the label has an environment.
pub fn has_support(node: &Node) -> bool
    ensures { result ≡ is_supported node.now }
{
    !node.label.members().is_empty()
}

impl Nodes {
    /// No fact was met, and there are no nogoods. The room for the index is taken here; an error says that there is none.
    pub fn open(alloc: Global) -> Result<Nodes, AllocError>
        ensures nodes { IfOk result (λ n. n.list ≡ []) }
        ensures nogoods { IfOk result (λ n. n.nogoods ≡ []) }
    {
        let index = FactIndex::open(alloc)?;
        Ok(Nodes {
            list: Vec::new(alloc),
            index,
            nogoods: Nogoods::new(alloc),
            whole: Whole {
                reach: Env::empty(),
                count: Some(0),
            },
        })
    }

    /// For proofs alone: no fact has two nodes.
    pub fn laws(&self)
        ensures { AreDistinct (facts_of self.now.list) }
    {
        let _list = &self.list;
    }

    /// The nodes, in the order in which their facts were met.
    pub fn list(&self) -> &[Node]
        ensures { result.now ≡ self.now.list }
    {
        &self.list
    }

    /// The nogoods.
    pub fn nogoods(&self) -> &Nogoods
        ensures { result.now ≡ self.now.nogoods }
    {
        &self.nogoods
    }

    /// The place of the last node at the cell.
    pub fn last_at(&self, cell: Cell) -> Option<usize>
        ensures { GivesLast (facts_of self.now.list) cell (length self.now.list) result }
    {
        self.index.last_at(cell)
    }

    /// The last place before this one of a node at the same cell. From the last node at a cell on, this walks through all
    /// nodes at the cell, and no others.
    pub fn before(&self, place: usize) -> Option<usize>
        requires { place < length self.now.list }
        ensures { (n : Node) → slice_get self.now.list place ≡ Some n → GivesLast (facts_of self.now.list) n.fact.cell place result }
    {
        self.index.before(place)
    }

    // The place of the fact's node.
    fn place_of(&self, fact: &Fact) -> Option<usize>
        ensures { result ≡ position (λ n. is_same n.fact fact.now) self.now.list }
    {
        self.index.find(fact)
    }

    /// The facts that were met at one of the cells, in a walk over the facts at these cells alone.
    pub fn facts_at(&self, alloc: Global, cells: &[Cell]) -> Result<Vec<Fact>, AllocError>
        ensures { IfOk result (λ found. AreFactsAt (facts_of self.now.list) cells.now found.items) }
    {
        let mut found = Vec::new(alloc);
        for cell in cells {
            self.index.add_facts_at(&mut found, *cell)?;
        }
        Ok(found)
    }

    /// Whether the fact was met.
    pub fn is_met(&self, fact: &Fact) -> bool
        ensures { result ≡ list_any (λ n. is_same n.fact fact.now) self.now.list }
    {
        self.index.find(fact).is_some()
    }

    /// Whether an environment of the fact's label is a subset.
    fn has_within(&self, fact: &Fact, env: &Env) -> bool
        ensures { IsTrue result ↔ IsCovered (KeptIn self.now (Some fact.now)) (members env.now) }
    {
        match self.place_of(fact) {
            Some(place) => self.list[place].label.covers(env),
            None => false,
        }
    }

    /// Whether an environment there, or a nogood, is a subset.
    pub fn reaches(&self, target: &Option<Fact>, env: &Env) -> bool
        ensures { IsTrue result ↔ IsReached (KeptIn self.now) target.now (members env.now) }
    {
        if self.nogoods.covers(env) {
            return true;
        }
        match target {
            Some(fact) => self.has_within(fact, env),
            None => false,
        }
    }

    /// The fact is met, with an empty label. After an error all is as before.
    pub fn meet(&mut self, alloc: Global, fact: &Fact) -> Result<(), AllocError>
        requires { IsMet self.old.list fact.now → ⊥ }
        ensures ok { OnOk result (self.new.list ≡ self.old.list ++ record { fact = fact.now; label = [] } ∷ []) }
        ensures err { OnErr result (self.new.list ≡ self.old.list) }
        ensures nogoods { self.new.nogoods ≡ self.old.nogoods }
    {
        make_room(&mut self.list)?;
        self.index.push(*fact)?;
        let node = Node {
            fact: *fact,
            label: Label::new(alloc),
        };
        push_node(&mut self.list, node);
        Ok(())
    }

    // A nogood that none of the nogoods is a subset of is put in, and what contains it goes.
    fn put_nogood(&mut self, env: &Env) -> Result<(), AllocError>
        requires { IsReached (KeptIn self.old) None (members env.now) → ⊥ }
        ensures ok { OnOk result (IsPut None (members env.now) (KeptIn self.old) (KeptIn self.new)) }
        ensures err { OnErr result (self.new.list ≡ self.old.list) }
        ensures err_nogoods { OnErr result (self.new.nogoods ≡ self.old.nogoods) }
        ensures facts { facts_of self.new.list ≡ facts_of self.old.list }
    {
        self.nogoods.add(*env)?;
        drop_over(&mut self.list, env);
        self.whole.count = count_all(&self.list);
        Ok(())
    }

    // An environment that none of the fact's label, and no nogood, is a subset of is put into the label.
    fn put_at(&mut self, fact: &Fact, env: &Env) -> Result<(), AllocError>
        requires met { IsMet self.old.list fact.now }
        requires out { IsReached (KeptIn self.old) (Some fact.now) (members env.now) → ⊥ }
        ensures ok { OnOk result (IsPut (Some fact.now) (members env.now) (KeptIn self.old) (KeptIn self.new)) }
        ensures err { OnErr result (self.new.list ≡ self.old.list) }
        ensures nogoods { self.new.nogoods ≡ self.old.nogoods }
        ensures facts { facts_of self.new.list ≡ facts_of self.old.list }
    {
        let place = self.place_of(fact).unwrap();
        let node = &mut self.list[place];
        let before = node.label.members().len();
        node.label.add(*env)?;
        let after = node.label.members().len();
        self.whole = self.whole.changed(env, before, after);
        Ok(())
    }

    /// Puts in an environment at the target, where it is not reached. What contains it goes: at the fact, or everywhere where it
    /// is a nogood. After an error all is as before.
    pub fn put(&mut self, target: &Option<Fact>, env: &Env) -> Result<(), AllocError>
        requires met { (f : Fact) → target.now ≡ Some f → IsMet self.old.list f }
        requires out { IsReached (KeptIn self.old) target.now (members env.now) → ⊥ }
        ensures ok { OnOk result (IsPut target.now (members env.now) (KeptIn self.old) (KeptIn self.new)) }
        ensures err { OnErr result (self.new.list ≡ self.old.list) }
        ensures err_nogoods { OnErr result (self.new.nogoods ≡ self.old.nogoods) }
        ensures facts { facts_of self.new.list ≡ facts_of self.old.list }
    {
        match target {
            Some(fact) => self.put_at(fact, env),
            None => self.put_nogood(env),
        }
    }

    /// The label of the fact, if it was met.
    pub fn label(&self, fact: &Fact) -> Option<&Label>
        ensures { MatchOption result (label_in self.now.list fact.now ≡ []) (λ l. l.now ≡ label_in self.now.list fact.now) }
    {
        match self.place_of(fact) {
            Some(place) => Some(&self.list[place].label),
            None => None,
        }
    }

    /// The environments that have the slot go, and so do the nogoods that have it.
    pub fn drop_slot(&mut self, slot: u16)
        requires { slot < SLOTS }
        ensures labels { EachDrops (λ F. IsTrue (F slot)) self.old.list self.new.list }
        ensures nogoods { Drops (HasMember self.old.nogoods) (HasMember self.new.nogoods) (λ F. IsTrue (F slot)) }
    {
        drop_slot_in(&mut self.list, slot);
        self.nogoods.drop_slot(slot);
        self.whole = Whole {
            reach: self.whole.reach.without(slot),
            count: count_all(&self.list),
        };
    }

    /// Facts that have no environment are met no more.
    pub fn drop_unsupported(&mut self)
        ensures nodes { self.new.list ≡ filter is_supported self.old.list }
        ensures nogoods { self.new.nogoods ≡ self.old.nogoods }
    {
        self.index.laws();
        let before = self.list.len();
        self.list.retain(|node| has_support(node));
        if self.list.len() < before {
            list_again(&mut self.index, &self.list);
        }
    }

    /// How many pairs of a fact and an environment of its label are inside the mask; or 18,446,744,073,709,551,615, where there
    /// are more. Where all environments lie inside it, none is looked at.
    pub fn count_inside(&self, mask: &Env) -> u64
        ensures { (n : ℕ) × ArePairs self.now.list (members mask.now) n × (result ≡ min n (2 ^ 64 - 1)) }
    {
        if self.whole.reach.is_subset(mask) {
            if let Some(count) = self.whole.count {
                return count;
            }
        }
        count_pairs(&self.list, mask)
    }
}
