// The nodes of facts.
ghost use Rattle.std.specs.Prelude.{◌≡◌, ◌<◌, ℕ, Some, None, IsSome, IfSome, IsTrue, IfOk, OnErr};
ghost use Rattle.index_lists.specs.Chains.{record_at, HaveSameLists, Has, IsInNoLane};
ghost use Rattle.justifications.specs.Chained.{AreAlike, AreAllChained, IsAdded, IsRemoved};
ghost use Rattle.justifications.specs.Woven.{place_of_cell, head_of_fact};
ghost use Rattle.justifications.specs.Kept.{number_in, IsEntered};

use crate::model::{CELLS, MOST_NODES, NodeId};
use crate::table::{Named, enter, strike};
use circuit_model::limits::MOST_CYCLES;
use circuit_model::{Cell, Fact};
use index_lists::{Chains, Key};
use indexmap::IndexMap;
use std::alloc::AllocError;

// The number of the cell's chain. (The remainder alters no cell that a present may have.)
#[tactic(auto, unfolding(crate::specs::Woven::place_of_cell))]
pub(crate) fn place_of_cell(cell: Cell) -> usize
    ensures place { result ≡ place_of_cell cell }
    ensures low { result < CELLS }
{
    (cell.net as usize * MOST_CYCLES as usize + cell.cycle as usize) % CELLS
}

// Whether the key has the fact.
fn is_at(facts: &Chains<Fact>, key: Key, fact: &Fact) -> bool
    requires { IsSome (record_at facts.now key.place) }
    ensures { IsTrue result → record_at facts.now key.place ≡ Some fact.now }
{
    facts.get(key) == fact
}

// The node of the fact, where it is one of the first two in the chain of its cell.
pub(crate) fn find_in_front(facts: &Chains<Fact>, fact: &Fact) -> Option<NodeId>
    requires { AreAllChained head_of_fact facts.now }
    ensures { IfSome result (λ n. record_at facts.now n.place ≡ Some fact.now) }
{
    let first = facts.first(0, place_of_cell(fact.cell))?;
    if is_at(facts, first, fact) {
        return Some(NodeId { place: first.place });
    }
    let second = facts.next(first, 0)?;
    if is_at(facts, second, fact) {
        return Some(NodeId {
            place: second.place,
        });
    }
    None
}

// A record with the fact, in no list. After an error all is as before.
fn put_fact(facts: &mut Chains<Fact>, fact: Fact) -> Result<Key, AllocError>
    ensures free { IfOk result (λ key. record_at facts.old key.place ≡ None) }
    ensures there { IfOk result (λ key. Has facts.old facts.new key.place (Some fact)) }
    ensures in_no_list { IfOk result (λ key. IsInNoLane facts.new key.place) }
    ensures low { IfOk result (λ key. key.place < MOST_NODES) }
    ensures err { OnErr result ((k : ℕ) → record_at facts.new k ≡ record_at facts.old k) }
    ensures lists { HaveSameLists facts.old facts.new }
{
    let Ok(key) = facts.put(fact) else {
        return Err(AllocError);
    };
    if key.place >= MOST_NODES {
        facts.take(key);
        return Err(AllocError);
    }
    Ok(key)
}

// One node more. After an error all is as before.
pub(crate) fn add_node(
    facts: &mut Chains<Fact>,
    table: &mut IndexMap<Named, usize>,
    fact: Fact,
) -> Result<NodeId, AllocError>
    ensures added { IfOk result (λ n. IsAdded head_of_fact facts.old facts.new n.place fact) }
    ensures entered { IfOk result (λ n. IsEntered table.old.entries table.new.entries fact (Some n.place)) }
    ensures low { IfOk result (λ n. n.place < MOST_NODES) }
    ensures err { OnErr result (AreAlike facts.old facts.new) }
    ensures err_table { OnErr result (table.new.entries ≡ table.old.entries) }
{
    let head = place_of_cell(fact.cell);
    facts.make_heads(0, head + 1)?;
    let key = put_fact(facts, fact)?;
    if enter(table, &fact, key.place).is_err() {
        facts.take(key);
        return Err(AllocError);
    }
    facts.link(key, 0, head);
    Ok(NodeId { place: key.place })
}

// One node less. It takes no memory.
pub(crate) fn remove_node(
    facts: &mut Chains<Fact>,
    table: &mut IndexMap<Named, usize>,
    node: NodeId,
)
    requires there { IsSome (record_at facts.old node.place) }
    requires chained { AreAllChained head_of_fact facts.old }
    ensures removed { IsRemoved facts.old facts.new node.place }
    ensures struck { (fact : Fact) → record_at facts.old node.place ≡ Some fact → IsEntered table.old.entries table.new.entries fact None }
{
    let key = Key { place: node.place };
    let fact = *facts.get(key);
    facts.unlink(key, 0);
    strike(table, &fact);
    facts.take(key);
}
