// The inferences of what is remembered.

ghost use Rattle.std.specs.Prelude.{◌≡◌, ℕ, ◌<◌, Some, IfOk, length};
ghost use Rattle.environment_sets.specs.declared.environment.TheConstants.{SLOTS};
ghost use Rattle.inference_search.specs.Choices.{Finds, IsMadeOf, IsDonePart, IsMadeAt, IsMadeAtSome, IsDoneAt};

use crate::asking::Asking;
use crate::choices::add_instance;
use crate::inferred::Inferred;
use assumption_slots::Slots;
use circuit_model::{Assumption, Fact, Part};
use std::alloc::{AllocError, Global};

/// The facts that may be known, and the one that has to be used, if there is one.
#[derive(Drop)]
pub struct Search<'a> {
    pub alloc: Global,
    pub facts: &'a [Fact],
    pub must: Option<Fact>,
}

/// Adds the inferences of the component at the slot.
fn add_part(
    search: &Search,
    found: &mut Vec<Inferred>,
    slot: u16,
    part: &Part,
) -> Result<(), AllocError>
    ensures { IfOk result (λ _. Finds (IsMadeOf slot part.now search.now.must) (IsDonePart slot search.now.facts.now search.now.must part.now) found.old.items found.new.items) }
{
    for index in 0..part.len() {
        let asking = Asking {
            slot,
            instance: *part.at(index),
            must: search.must,
        };
        add_instance(search.alloc, found, search.facts, &asking)?;
    }
    Ok(())
}

/// Adds the inferences of what is remembered at the slot.
pub fn add_slot(
    search: &Search,
    found: &mut Vec<Inferred>,
    slots: &Slots,
    slot: u16,
) -> Result<(), AllocError>
    requires { slot < SLOTS }
    ensures { IfOk result (λ _. Finds (IsMadeAt slots.now search.now.must slot) (IsDoneAt slots.now search.now.facts.now search.now.must slot) found.old.items found.new.items) }
{
    match slots.at(slot) {
        Some(Assumption::Part(part)) => add_part(search, found, slot, part),
        _ => Ok(()),
    }
}

/// Adds the inferences of all that is remembered, which are those of the components with a port at the fact's cell.
pub fn add_near(
    search: &Search,
    found: &mut Vec<Inferred>,
    slots: &Slots,
    fact: Fact,
) -> Result<(), AllocError>
    requires { search.now.must ≡ Some fact }
    ensures { IfOk result (λ _. Finds (IsMadeAtSome slots.now search.now.must) (λ found. (slot : ℕ) → slot < length slots.now → IsDoneAt slots.now search.now.facts.now search.now.must slot found) found.old.items found.new.items) }
{
    let near = slots.near(fact.cell);
    let mut next = 0;
    while let Some(slot) = near.next_from(next) {
        add_slot(search, found, slots, slot)?;
        next = slot + 1;
    }
    Ok(())
}
