// What one choice of known words at an instance's ports says.

ghost use Rattle.std.specs.Prelude.{◌≡◌, ℕ, IfOk, Some};
ghost use Rattle.circuit_model.specs.Lawful.{IsLawfulInstance};
ghost use Rattle.environment_sets.specs.Lists.{IsIn};
ghost use Rattle.inference_search.specs.Choices.{Finds, IsForcedWord, HasForcedWord, to_fact, IsMade, IsDone};

use crate::antecedents::{all_agree, antecedents_of, are_using, facts_at};
use crate::consequences::consequences;
use crate::inferred::Inferred;
use circuit_model::{Cell, Fact, Instance};
use component_models::has_open_port;
use std::alloc::AllocError;

/// An instance of the component at a slot, and the fact that its inferences have to use, if there is one.
#[derive(Clone, Copy)]
pub struct Asking {
    pub slot: u16,
    pub instance: Instance,
    pub must: Option<Fact>,
}

/// Adds the inference, to the word at the cell, if there is one.
fn add_word(
    found: &mut Vec<Inferred>,
    clash: Inferred,
    cell: Cell,
    word: Option<u64>,
) -> Result<(), AllocError>
    ensures { IfOk result (λ _. Finds (λ i. (v : ℕ) × (word ≡ Some v) × (i ≡ to_fact clash cell v)) (λ found. (v : ℕ) → word ≡ Some v → IsIn found (to_fact clash cell v)) found.old.items found.new.items) }
{
    if let Some(value) = word {
        found.push(Inferred {
            to: Some(Fact { cell, value }),
            ..clash
        })?;
        return Ok(());
    }
    Ok(())
}

/// Adds an inference to each forced word.
fn add_forced(
    found: &mut Vec<Inferred>,
    clash: Inferred,
    cells: [Cell; 3],
    forced: [Option<u64>; 3],
) -> Result<(), AllocError>
    ensures { IfOk result (λ _. Finds (IsForcedWord cells forced clash) (λ found. (p : ℕ) → HasForcedWord cells forced clash p found) found.old.items found.new.items) }
{
    for port in 0..3 {
        add_word(found, clash, cells[port], forced[port])?;
    }
    Ok(())
}

/// Adds what the known words say, where they use the fact, no two are at one cell, and some port is open.
pub fn add_choice(
    found: &mut Vec<Inferred>,
    asking: &Asking,
    known: [Option<u64>; 3],
) -> Result<(), AllocError>
    requires { IsLawfulInstance asking.now.instance }
    ensures { IfOk result (λ _. Finds (IsMade asking.now.slot asking.now.instance asking.now.must) (IsDone asking.now.slot asking.now.instance asking.now.must known) found.old.items found.new.items) }
{
    let instance = &asking.instance;
    if !has_open_port(instance.ports, known) {
        return Ok(());
    }
    let facts = facts_at(instance.cells, known);
    if !are_using(asking.must, facts.a, facts.b, facts.z) {
        return Ok(());
    }
    if !all_agree(facts.a, facts.b, facts.z) {
        return Ok(());
    }
    let from = antecedents_of(facts.a, facts.b, facts.z);
    let clash = Inferred {
        first: from.first,
        second: from.second,
        to: None,
        maker: Some(asking.slot),
    };
    let said = consequences(instance, known);
    if said.refuted {
        found.push(clash)?;
        return Ok(());
    }
    add_forced(found, clash, instance.cells, said.forced)
}
