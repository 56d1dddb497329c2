// The search for inferences.

ghost use Rattle.std.specs.Prelude.{◌≡◌, ◌⊎◌, ◌<◌, [], IfOk};
ghost use Rattle.circuit_model.specs.declared.model.Fact.{Fact};
ghost use Rattle.environment_sets.specs.declared.environment.TheConstants.{SLOTS};
ghost use Rattle.environment_sets.specs.Lists.{IsIn};
ghost use Rattle.inference_search.specs.declared.inferred.Inferred.{Inferred};
ghost use Rattle.inference_search.specs.Inferences.{IsOnce};
ghost use Rattle.inference_search.specs.Choices.{Finds, IsClashOf, HasClashOf};
ghost use Rattle.inference_search.specs.Found.{AreFound, AreMadeBy};

use crate::components::{Search, add_near, add_slot};
use crate::inferred::Inferred;
use assumption_slots::Slots;
use circuit_model::Fact;
use std::alloc::{AllocError, Global};

/// The inferences that use a fact (the consumers of de Kleer 1986): those of the remembered components from it and facts
/// that were met, and, first in the list, the clash with each other word that was met at its cell. The fact may have
/// been met itself or not. No inference goes from one fact twice. An error says that memory ran out; nothing outside is
/// changed.
pub fn find_uses(
    alloc: Global,
    slots: &Slots,
    met: &[Fact],
    fact: Fact,
) -> Result<Vec<Inferred>, AllocError>
    ensures exact { IfOk result (λ found. AreFound slots.now met.now fact found.items) }
    ensures once { IfOk result (λ found. (i : Inferred) → IsIn found.items i → IsOnce i) }
{
    let facts = facts_with(alloc, met, fact)?;
    let mut found = clashes(alloc, met, fact)?;
    let search = Search {
        alloc,
        facts: &facts,
        must: Some(fact),
    };
    add_near(&search, &mut found, slots, fact)?;
    Ok(found)
}

/// The inferences that the component at a slot makes from facts that were met, those from no fact too. There are none
/// where the slot is free or stands for a reading. None goes from one fact twice. An error says that memory ran out;
/// nothing outside is changed.
pub fn find_made_by(
    alloc: Global,
    slots: &Slots,
    met: &[Fact],
    slot: u16,
) -> Result<Vec<Inferred>, AllocError>
    requires { slot < SLOTS }
    ensures exact { IfOk result (λ found. AreMadeBy slots.now met.now slot found.items) }
    ensures once { IfOk result (λ found. (i : Inferred) → IsIn found.items i → IsOnce i) }
{
    let mut found = Vec::new(alloc);
    let search = Search {
        alloc,
        facts: met,
        must: None,
    };
    add_slot(&search, &mut found, slots, slot)?;
    Ok(found)
}

/// The fact, and those that were met at other cells.
fn facts_with(alloc: Global, met: &[Fact], fact: Fact) -> Result<Vec<Fact>, AllocError>
    ensures fact { IfOk result (λ facts. IsIn facts.items fact) }
    ensures others { IfOk result (λ facts. (g : Fact) → IsIn met.now g → (g.cell ≡ fact.cell) ⊎ IsIn facts.items g) }
{
    let mut facts = Vec::new(alloc);
    facts.push(fact)?;
    add_others(&mut facts, met, fact)?;
    Ok(facts)
}

/// Adds those that were met at other cells than the fact.
fn add_others(facts: &mut Vec<Fact>, met: &[Fact], fact: Fact) -> Result<(), AllocError>
    ensures stays { IfOk result (λ _. (g : Fact) → IsIn facts.old.items g → IsIn facts.new.items g) }
    ensures others { IfOk result (λ _. (g : Fact) → IsIn met.now g → (g.cell ≡ fact.cell) ⊎ IsIn facts.new.items g) }
{
    for other in met {
        add_other(facts, *other, fact)?;
    }
    Ok(())
}

/// Adds a fact, if it is at another cell.
fn add_other(facts: &mut Vec<Fact>, other: Fact, fact: Fact) -> Result<(), AllocError>
    ensures stays { IfOk result (λ _. (g : Fact) → IsIn facts.old.items g → IsIn facts.new.items g) }
    ensures other { IfOk result (λ _. (other.cell ≡ fact.cell) ⊎ IsIn facts.new.items other) }
{
    if other.cell == fact.cell {
        return Ok(());
    }
    facts.push(other)?;
    Ok(())
}

/// The clashes of the fact with the other words that were met at its cell.
fn clashes(alloc: Global, met: &[Fact], fact: Fact) -> Result<Vec<Inferred>, AllocError>
    ensures { IfOk result (λ found. Finds (IsClashOf fact) (λ found. (g : Fact) → IsIn met.now g → HasClashOf fact g found) [] found.items) }
{
    let mut found = Vec::new(alloc);
    for other in met {
        add_clash(&mut found, fact, *other)?;
    }
    Ok(found)
}

/// Adds the clash of the two, if they are two words at one cell.
fn add_clash(found: &mut Vec<Inferred>, fact: Fact, other: Fact) -> Result<(), AllocError>
    ensures { IfOk result (λ _. Finds (IsClashOf fact) (HasClashOf fact other) found.old.items found.new.items) }
{
    if other.cell != fact.cell || other.value == fact.value {
        return Ok(());
    }
    found.push(Inferred {
        first: Some(fact),
        second: Some(other),
        to: None,
        maker: None,
    })?;
    Ok(())
}
