// All choices of known words at an instance's ports.

ghost use Rattle.std.specs.Prelude.{◌≡◌, ℕ, IsTrue, IfOk, Option, None, Some, slice_get};
ghost use Rattle.circuit_model.specs.declared.model.Fact.{Fact};
ghost use Rattle.circuit_model.specs.Lawful.{IsLawfulInstance};
ghost use Rattle.circuit_model.specs.Closure.{fact};
ghost use Rattle.environment_sets.specs.Lists.{IsIn};
ghost use Rattle.inference_search.specs.Choices.{Finds, IsMade, AreThirdsDone, AreSecondsDone, AreAllDone, IsDoneFrom, AreChoices};

use crate::asking::{Asking, add_choice};
use crate::inferred::Inferred;
use circuit_model::{Cell, Fact};
use std::alloc::{AllocError, Global};

/// What is tried at each place of an instance: nothing, or a word.
#[derive(Drop)]
struct Choices {
    first: Vec<Option<u64>>,
    second: Vec<Option<u64>>,
    third: Vec<Option<u64>>,
}

/// Adds the inferences of the instance from the facts, and from the fact that has to be used.
pub fn add_instance(
    alloc: Global,
    found: &mut Vec<Inferred>,
    facts: &[Fact],
    asking: &Asking,
) -> Result<(), AllocError>
    requires { IsLawfulInstance asking.now.instance }
    ensures { IfOk result (λ _. Finds (IsMade asking.now.slot asking.now.instance asking.now.must) (IsDoneFrom asking.now.slot facts.now asking.now.must asking.now.instance) found.old.items found.new.items) }
{
    let instance = &asking.instance;
    if !can_use(asking.must, instance.cells) {
        return Ok(());
    }
    let choices = choices_of(alloc, facts, instance.cells, instance.ports)?;
    try_all(found, asking, &choices)
}

/// Whether the fact that has to be used, if there is one, is at one of the cells.
fn can_use(must: Option<Fact>, cells: [Cell; 3]) -> bool
    ensures none { must ≡ None → IsTrue result }
    ensures at { (p : ℕ) (f : Fact) → must ≡ Some f → slice_get cells p ≡ Some f.cell → IsTrue result }
{
    let Some(fact) = must else {
        return true;
    };
    let [a, b, z] = cells;
    a == fact.cell || b == fact.cell || z == fact.cell
}

/// What is tried at each place.
fn choices_of(
    alloc: Global,
    facts: &[Fact],
    cells: [Cell; 3],
    ports: u8,
) -> Result<Choices, AllocError>
    ensures { IfOk result (λ choices. AreChoices facts.now cells ports choices.first.items choices.second.items choices.third.items) }
{
    let first = choices_at(alloc, facts, cells[0], 0 < ports)?;
    let second = choices_at(alloc, facts, cells[1], 1 < ports)?;
    let third = choices_at(alloc, facts, cells[2], 2 < ports)?;
    Ok(Choices {
        first,
        second,
        third,
    })
}

/// What is tried at a place: nothing, and at a port each word of the facts at its cell.
fn choices_at(
    alloc: Global,
    facts: &[Fact],
    cell: Cell,
    is_port: bool,
) -> Result<Vec<Option<u64>>, AllocError>
    ensures { IfOk result (λ choices. IsIn choices.items None × ((v : ℕ) → IsTrue is_port → IsIn facts.now (fact cell v) → IsIn choices.items (Some v))) }
{
    let mut choices = Vec::new(alloc);
    choices.push(None)?;
    if is_port {
        add_words(&mut choices, facts, cell)?;
    }
    Ok(choices)
}

/// Adds each word of the facts at the cell.
fn add_words(choices: &mut Vec<Option<u64>>, facts: &[Fact], cell: Cell) -> Result<(), AllocError>
    ensures stays { IfOk result (λ _. (o : Option ℕ) → IsIn choices.old.items o → IsIn choices.new.items o) }
    ensures words { IfOk result (λ _. (v : ℕ) → IsIn facts.now (fact cell v) → IsIn choices.new.items (Some v)) }
{
    for fact in facts {
        add_word_at(choices, *fact, cell)?;
    }
    Ok(())
}

/// Adds the fact's word, if it is at the cell.
fn add_word_at(choices: &mut Vec<Option<u64>>, fact: Fact, cell: Cell) -> Result<(), AllocError>
    ensures stays { IfOk result (λ _. (o : Option ℕ) → IsIn choices.old.items o → IsIn choices.new.items o) }
    ensures word { IfOk result (λ _. fact.cell ≡ cell → IsIn choices.new.items (Some fact.value)) }
{
    if fact.cell == cell {
        choices.push(Some(fact.value))?;
        return Ok(());
    }
    Ok(())
}

/// Adds what each choice says.
fn try_all(found: &mut Vec<Inferred>, asking: &Asking, choices: &Choices) -> Result<(), AllocError>
    requires { IsLawfulInstance asking.now.instance }
    ensures { IfOk result (λ _. Finds (IsMade asking.now.slot asking.now.instance asking.now.must) (AreAllDone asking.now.slot asking.now.instance asking.now.must choices.now.first.items choices.now.second.items choices.now.third.items) found.old.items found.new.items) }
{
    for first in &choices.first {
        try_first(found, asking, choices, *first)?;
    }
    Ok(())
}

/// Adds what each choice with this at the first place says.
fn try_first(
    found: &mut Vec<Inferred>,
    asking: &Asking,
    choices: &Choices,
    first: Option<u64>,
) -> Result<(), AllocError>
    requires { IsLawfulInstance asking.now.instance }
    ensures { IfOk result (λ _. Finds (IsMade asking.now.slot asking.now.instance asking.now.must) (AreSecondsDone asking.now.slot asking.now.instance asking.now.must choices.now.second.items choices.now.third.items first) found.old.items found.new.items) }
{
    for second in &choices.second {
        try_two(found, asking, choices, first, *second)?;
    }
    Ok(())
}

/// Adds what each choice with these at the first two places says.
fn try_two(
    found: &mut Vec<Inferred>,
    asking: &Asking,
    choices: &Choices,
    first: Option<u64>,
    second: Option<u64>,
) -> Result<(), AllocError>
    requires { IsLawfulInstance asking.now.instance }
    ensures { IfOk result (λ _. Finds (IsMade asking.now.slot asking.now.instance asking.now.must) (AreThirdsDone asking.now.slot asking.now.instance asking.now.must choices.now.third.items first second) found.old.items found.new.items) }
{
    for third in &choices.third {
        add_choice(found, asking, [first, second, *third])?;
    }
    Ok(())
}
