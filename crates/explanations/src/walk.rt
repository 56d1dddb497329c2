// The walk back from some facts along what supports them.

ghost use Rattle.std.specs.Prelude.{◌≡◌, ℕ, IfOk, map, length, reverse};
ghost use Rattle.environment_sets.specs.Lists.{IsIn};
ghost use Rattle.circuit_model.specs.declared.model.Fact.{Fact};
ghost use Rattle.circuit_model.specs.Chosen.{chosen_places};
ghost use Rattle.circuit_model.specs.Derivation as derivations;
ghost use Rattle.circuit_model.specs.Derivation.{AreStepsTo};
ghost use Rattle.circuit_model.specs.Present.{IsLawful, circuit_of};
ghost use Rattle.proof_check.specs.Closing.{Closes};
ghost use Rattle.proof_check.specs.Written.{given, step_of};
ghost use Rattle.explanations.specs.Marks.{IsMarked};
ghost use Rattle.explanations.specs.Naming.{IsStepOf};

use crate::marks::mark;
use crate::supports::support_of;
use circuit_model::{Chosen, Fact, Present};
use proof_check::{Closed, Step, Steps};
use std::alloc::{AllocError, Global};

/// The supports of these facts of the environment, of the facts behind them, and so on, in order.
pub fn steps_behind(
    alloc: Global,
    present: &Present,
    chosen: &Chosen,
    closed: &Closed,
    goals: &[Option<Fact>; 2],
) -> Result<Steps, AllocError>
    requires closes { Closes present.now (chosen_places chosen.now) closed.now }
    requires listed { (f : Fact) → IsIn (given goals.now) f → IsIn (map (λ t. t.fact) closed.now.facts) f }
    ensures all { IfOk result (λ steps. AreStepsTo (circuit_of present.now) (chosen_places chosen.now) (given goals.now) (map step_of steps)) }
    ensures named { IfOk result (λ steps. (st : derivations.Step) → IsIn (map step_of steps) st → IsStepOf present.now st) }
{
    // For the proof alone: a present is lawful.
    let _cycles = present.cycles();
    let mut marks = vec![in alloc; false; closed.len()]?;
    let steps = walk(alloc, present, chosen, closed, goals, &mut marks)?;
    reversed(alloc, &steps)
}

/// The same steps, the last one first. Facts that are needed are marked on the way.
fn walk(
    alloc: Global,
    present: &Present,
    chosen: &Chosen,
    closed: &Closed,
    goals: &[Option<Fact>; 2],
    marks: &mut [bool],
) -> Result<Vec<Step>, AllocError>
    requires lawful { IsLawful present.now }
    requires closes { Closes present.now (chosen_places chosen.now) closed.now }
    requires listed { (f : Fact) → IsIn (given goals.now) f → IsIn (map (λ t. t.fact) closed.now.facts) f }
    requires as_many { length marks.old ≡ length closed.now.facts }
    requires fresh { (i : ℕ) → IsMarked marks.old i → ⊥ }
    ensures { IfOk result (λ steps. AreStepsTo (circuit_of present.now) (chosen_places chosen.now) (given goals.now) (map step_of (reverse steps.items))) }
{
    mark(goals, closed, marks);
    let mut steps = Vec::new(alloc);
    for i in (0..closed.len()).rev() {
        if !marks[i] {
            continue;
        }
        let (fact, round) = closed.at(i);
        let step = support_of(present, chosen, closed, fact, round);
        mark(&facts_behind(&step), closed, marks);
        steps.push(step)?;
    }
    Ok(steps)
}

/// The facts that the step is inferred from.
fn facts_behind(step: &Step) -> [Option<Fact>; 2]
    ensures { given result ≡ derivations.facts_behind (step_of step.now) }
{
    match *step {
        Step::Measured { .. } => [None, None],
        Step::Inferred { from, .. } => from,
    }
}

/// The steps from the last one to the first.
fn reversed(alloc: Global, steps: &[Step]) -> Result<Steps, AllocError>
    ensures { IfOk result (λ turned. turned ≡ reverse steps.now) }
{
    let mut turned = Steps::new(alloc);
    for i in (0..steps.len()).rev() {
        turned.push(steps[i])?;
    }
    Ok(turned)
}
