// What an engine tells, of all assumptions that it remembers or of those of a mask alone. Only what is handed out as a
// list takes memory.

ghost use Rattle.std.specs.Prelude.{◌≡◌, ◌↔◌, ◌<◌, IfOk, IfSome, IsTrue, Some};
ghost use Rattle.std.specs.Option.{ForSome, option_map, option_copied};
ghost use Rattle.environment_sets.specs.declared.environment.TheConstants.{SLOTS};
ghost use Rattle.environment_sets.specs.Members.{members, sets};
ghost use Rattle.environment_sets.specs.Lists.{IsRoster};
ghost use Rattle.environment_sets.specs.Orders.{ListsAll, IsOrder};
ghost use Rattle.environment_sets.specs.Walks.{GivesNext, envs_left};
ghost use Rattle.circuit_model.specs.Stock.{IsEnvironment, IsInLabel, IsNogood, within};
ghost use Rattle.assumption_slots.specs.Slots.{stock};
ghost use Rattle.label_engine.specs.Engine.{label_of, kept_of};
ghost use Rattle.label_engine.specs.Questions.{GivesNextNumber, HasLabel, HasInside, IsAbove, IsLeft, values_left, IsLeastOf, IsLoadShown};

use crate::engine::Engine;
use circuit_model::{Cell, Fact};
use environment_sets::Env;
use labelled_nodes::{Node, Nodes};
use std::alloc::{AllocError, Global};

impl Engine {
    /// The least word above the last one, or above none, that has a label over the assumptions of the mask alone. Calls
    /// that are each given the answer before go through all of them, and the count of those that are left falls.
    pub fn values_after(&self, cell: Cell, mask: &Env, last: Option<u64>) -> Option<u64>
        requires { IsEnvironment (stock self.now.slots) (members mask.now) }
        ensures next { GivesNextNumber (HasLabel (within (members mask.now) (stock self.now.slots)) cell) last result }
        ensures falls { IfSome result (λ v. values_left self.now.kept cell (members mask.now) (Some v) < values_left self.now.kept cell (members mask.now) last) }
    {
        word_after(&self.update.nodes, cell, mask, last)
    }

    /// The first environment, after the last one, of the fact's label over the assumptions of the mask alone.
    pub fn label_after(
        &self,
        fact: Fact,
        mask: &Env,
        order: &[u16],
        last: Option<&Env>,
    ) -> Option<Env>
        requires mask { IsEnvironment (stock self.now.slots) (members mask.now) }
        requires slots { IsOrder SLOTS order.now }
        requires mask_listed { ListsAll order.now (members mask.now) }
        requires last_listed { ForSome last (λ l. ListsAll order.now (members l.now)) }
        ensures next { GivesNext order.now (IsInLabel (within (members mask.now) (stock self.now.slots)) fact) (members mask.now) (option_map members (option_copied last.entry)) (option_map members result) }
        ensures falls { IfSome result (λ e. envs_left order.now (label_of self.now.kept fact) mask.now (Some e) < envs_left order.now (label_of self.now.kept fact) mask.now (option_copied last.entry)) }
    {
        match self.update.nodes.label(&fact) {
            Some(label) => label.next_after(order, mask, last),
            None => None,
        }
    }

    /// The environments that are kept for the fact, each once, in no order that is told: its label over all that is
    /// remembered.
    pub fn label(&self, fact: Fact) -> &[Env]
        ensures { result.now ≡ label_of self.now.kept fact }
    {
        match self.update.nodes.label(&fact) {
            Some(label) => label.members(),
            None => &[],
        }
    }

    /// The first nogood, after the last one, of the assumptions of the mask alone.
    pub fn nogood_after(&self, mask: &Env, order: &[u16], last: Option<&Env>) -> Option<Env>
        requires mask { IsEnvironment (stock self.now.slots) (members mask.now) }
        requires slots { IsOrder SLOTS order.now }
        requires mask_listed { ListsAll order.now (members mask.now) }
        requires last_listed { ForSome last (λ l. ListsAll order.now (members l.now)) }
        ensures next { GivesNext order.now (IsNogood (within (members mask.now) (stock self.now.slots))) (members mask.now) (option_map members (option_copied last.entry)) (option_map members result) }
        ensures falls { IfSome result (λ e. envs_left order.now self.now.nogoods mask.now (Some e) < envs_left order.now self.now.nogoods mask.now (option_copied last.entry)) }
    {
        self.update.nodes.nogoods().next_after(order, mask, last)
    }

    /// All nogoods of the assumptions of the mask alone, each once, in no order that is told.
    pub fn nogoods_within(&self, alloc: Global, mask: &Env) -> Result<Vec<Env>, AllocError>
        ensures { IfOk result (λ found. IsRoster (IsNogood (within (members mask.now) (stock self.now.slots))) (sets found.items)) }
    {
        self.update.nodes.nogoods().inside(alloc, mask)
    }

    /// The load of the assumptions of the mask alone: the environments of all labels, and the nogoods. Where there are
    /// more than 18,446,744,073,709,551,615, it is that number.
    pub fn load_under(&self, mask: &Env) -> u64
        requires { IsEnvironment (stock self.now.slots) (members mask.now) }
        ensures { IsLoadShown (within (members mask.now) (stock self.now.slots)) result }
    {
        let pairs = self.update.nodes.count_inside(mask);
        pairs.saturating_add(self.update.nodes.nogoods().count_inside(mask) as u64)
    }
}

// Whether the word is above the last one, where there is one.
fn is_above(last: Option<u64>, value: u64) -> bool
    ensures { IsTrue result ↔ IsAbove last value }
{
    match last {
        Some(last) => last < value,
        None => true,
    }
}

// Whether the node is of the cell, with a word above the last one, and an environment inside the mask.
fn is_left(node: &Node, cell: Cell, mask: &Env, last: Option<u64>) -> bool
    ensures { IsTrue result ↔ IsLeft cell (members mask.now) last node.now }
{
    node.fact.cell == cell && is_above(last, node.fact.value) && node.label.covers(mask)
}

// The lesser of the word and what was found before.
fn least_of(found: Option<u64>, value: u64) -> u64
    ensures { IsLeastOf found value result }
{
    match found {
        Some(found) => found.min(value),
        None => value,
    }
}

// The least word of the cell above the last one that has an environment inside the mask, in a walk over the words of the cell
// alone.
fn word_after(nodes: &Nodes, cell: Cell, mask: &Env, last: Option<u64>) -> Option<u64>
    ensures { GivesNextNumber (HasInside (kept_of nodes.now.list) cell (members mask.now)) last result }
{
    let mut found = None;
    let mut next = nodes.last_at(cell);
    while let Some(place) = next {
        let node = &nodes.list()[place];
        if is_left(node, cell, mask, last) {
            found = Some(least_of(found, node.fact.value));
        }
        next = nodes.before(place);
    }
    found
}
