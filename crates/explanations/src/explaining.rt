// Canonical derivations.

ghost use Rattle.std.specs.Prelude.{◌≡◌, IfOk};
ghost use Rattle.circuit_model.specs.Chosen.{chosen_places};
ghost use Rattle.circuit_model.specs.Stock.{Has, IsRefutedBy};
ghost use Rattle.circuit_model.specs.Diagnoses.{stock_of};
ghost use Rattle.circuit_model.specs.Derivation as derivations;
ghost use Rattle.circuit_model.specs.Derivation.{IsCanonical};
ghost use Rattle.circuit_model.specs.Present.{circuit_of};
ghost use Rattle.proof_check.specs.Written.{given, ending_of, goal_of, derivation_of};
ghost use Rattle.proof_check.specs.declared.derivation.Goal.TheVariants.{Value, Clash};
ghost use Rattle.explanations.specs.Naming.{IsDerivationOf};

use crate::walk::steps_behind;
use circuit_model::{Chosen, Fact, Present};
use proof_check::{Derivation, Ending, close};
use std::alloc::{AllocError, Global};

/// The canonical derivation of a fact that follows from a consistent environment of a present. Where memory is wanting,
/// nothing is left behind.
pub fn explain_value(
    alloc: Global,
    present: &Present,
    chosen: &Chosen,
    fact: Fact,
) -> Result<Derivation, AllocError>
    requires consistent { IsRefutedBy (stock_of (circuit_of present.now)) (chosen_places chosen.now) → ⊥ }
    requires follows { Has (stock_of (circuit_of present.now)) fact (chosen_places chosen.now) }
    ensures canonical { IfOk result (λ d. IsCanonical (circuit_of present.now) (chosen_places chosen.now) (goal_of (Value fact)) (derivation_of d)) }
    ensures named { IfOk result (λ d. IsDerivationOf present.now (derivation_of d)) }
{
    let closed = close(alloc, present, chosen)?;
    let steps = steps_behind(alloc, present, chosen, &closed, &[Some(fact), None])?;
    Ok(Derivation {
        steps,
        ending: Ending::Holds,
    })
}

/// The canonical derivation of the clash of an environment of a present. Where memory is wanting, nothing is left behind.
pub fn explain_clash(
    alloc: Global,
    present: &Present,
    chosen: &Chosen,
) -> Result<Derivation, AllocError>
    requires clashes { IsRefutedBy (stock_of (circuit_of present.now)) (chosen_places chosen.now) }
    ensures canonical { IfOk result (λ d. IsCanonical (circuit_of present.now) (chosen_places chosen.now) (goal_of Clash) (derivation_of d)) }
    ensures named { IfOk result (λ d. IsDerivationOf present.now (derivation_of d)) }
{
    let closed = close(alloc, present, chosen)?;
    match closed.clash() {
        Some(ending) => {
            let facts = facts_in_clash(&ending);
            let steps = steps_behind(alloc, present, chosen, &closed, &facts)?;
            Ok(Derivation { steps, ending })
        }
        None => unreachable!(),
    }
}

/// The facts that the clash is of.
fn facts_in_clash(ending: &Ending) -> [Option<Fact>; 2]
    ensures { given result ≡ derivations.facts_in_clash (ending_of ending.now) }
{
    match *ending {
        Ending::Holds => [None, None],
        Ending::TwoValues { cell, low, high } => [
            Some(Fact { cell, value: low }),
            Some(Fact { cell, value: high }),
        ],
        Ending::Refuted { from, .. } => from,
    }
}
