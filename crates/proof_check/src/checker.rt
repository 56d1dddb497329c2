// The checker of derivations.

ghost use Rattle.std.specs.Prelude.{◌≡◌, ◌<◌, ◌↔◌, [], map, IsTrue, Some};
ghost use Rattle.circuit_model.specs.Closure.{fact};
ghost use Rattle.environment_sets.specs.Lists.{IsIn};
ghost use Rattle.circuit_model.specs.declared.model.Assumption.TheVariants.{Reading};
ghost use Rattle.circuit_model.specs.Derivation.{IsAssumed, IsValidStep, IsValidEnding, IsValid, Justifies, JustifiesClash, AreValidAfter};
ghost use Rattle.circuit_model.specs.Chosen.{chosen_places};
ghost use Rattle.circuit_model.specs.Present.{IsLawful, circuit_of};
ghost use Rattle.proof_check.specs.Written.{step_of, ending_of, goal_of, derivation_of, facts_of};
ghost use Rattle.proof_check.specs.Checking.{AllFit, justification_of};

use crate::conclusions::{are_giving, conclusions};
use crate::derivation::{Derivation, Ending, Goal, Step};
use crate::premises::{Claim, is_shown, premises_of};
use circuit_model::{Cell, Cells, Chosen, Fact, Present};

/// Whether the derivation is valid: each step is a measurement of the environment or is forced by facts of earlier
/// steps, and the ending shows the goal from facts of the steps. So it is true only of what follows from these
/// components and measured cells, and it is true of each canonical derivation. Positions and cells that the present
/// does not have say nothing. It takes no memory.
pub fn check(derivation: &Derivation, present: &Present, chosen: &Chosen, goal: Goal) -> bool
    ensures { IsTrue result ↔ IsValid (circuit_of present.now) (chosen_places chosen.now) (goal_of goal) (derivation_of derivation.now) }
{
    // For the proof alone: a present is lawful.
    let _cycles = present.cycles();
    let steps = derivation.steps.as_slice();
    are_valid(steps, present, chosen)
        && is_valid_ending(&derivation.ending, goal, steps, present, chosen)
}

/// Whether each step is valid after those before it.
fn are_valid(steps: &[Step], present: &Present, chosen: &Chosen) -> bool
    requires { IsLawful present.now }
    ensures { IsTrue result ↔ AreValidAfter (circuit_of present.now) (chosen_places chosen.now) [] (map step_of steps.now) }
{
    for i in 0..steps.len() {
        if !is_valid_step(&steps[i], &steps[..i], present, chosen) {
            return false;
        }
    }
    true
}

/// Whether the step is a measurement of the environment, or is forced by facts of earlier steps.
fn is_valid_step(step: &Step, earlier: &[Step], present: &Present, chosen: &Chosen) -> bool
    requires { AllFit present.now (facts_of earlier.now) }
    ensures { IsTrue result ↔ IsValidStep (circuit_of present.now) (chosen_places chosen.now) (facts_of earlier.now) (step_of step.now) }
{
    match *step {
        Step::Measured { fact } => is_measured(fact, present, chosen),
        Step::Inferred {
            fact,
            part,
            instance,
            ports,
            from,
        } => {
            let claim = Claim {
                part,
                instance,
                ports,
                from,
            };
            is_forced(fact, &claim, earlier, present, chosen)
        }
    }
}

/// Whether the fact is a measurement of the environment.
fn is_measured(fact: Fact, present: &Present, chosen: &Chosen) -> bool
    ensures { IsTrue result ↔ IsAssumed (circuit_of present.now) (chosen_places chosen.now) (Reading fact) }
{
    has_cell(&chosen.readings, fact.cell) && is_word(present.reading_at(fact.cell), fact.value)
}

fn is_word(word: Option<u64>, value: u64) -> bool
    ensures { IsTrue result ↔ (word ≡ Some value) }
{
    word == Some(value)
}

/// Whether the cell is one of these.
pub fn has_cell(cells: &Cells, cell: Cell) -> bool
    ensures { IsTrue result ↔ IsIn cells.now cell }
{
    for i in 0..cells.len() {
        if cells.at(i) == cell {
            return true;
        }
    }
    false
}

/// Whether the claimed inference forces the fact from facts of the steps.
fn is_forced(
    fact: Fact,
    claim: &Claim,
    earlier: &[Step],
    present: &Present,
    chosen: &Chosen,
) -> bool
    requires { AllFit present.now (facts_of earlier.now) }
    ensures { IsTrue result ↔ Justifies (circuit_of present.now) (chosen_places chosen.now) (IsIn (facts_of earlier.now)) fact (justification_of claim.now) }
{
    let Some(from) = premises_of(claim, earlier, present, chosen) else {
        return false;
    };
    let said = conclusions(&from.instance, from.known);
    are_giving(&from.instance.cells, &said.forced, fact)
}

/// Whether the claimed inference refutes facts of the steps.
fn is_refuted(claim: &Claim, shown: &[Step], present: &Present, chosen: &Chosen) -> bool
    requires { AllFit present.now (facts_of shown.now) }
    ensures { IsTrue result ↔ JustifiesClash (circuit_of present.now) (chosen_places chosen.now) (IsIn (facts_of shown.now)) (justification_of claim.now) }
{
    let Some(from) = premises_of(claim, shown, present, chosen) else {
        return false;
    };
    conclusions(&from.instance, from.known).refuted
}

/// Whether the ending shows the goal from facts of the steps.
fn is_valid_ending(
    ending: &Ending,
    goal: Goal,
    shown: &[Step],
    present: &Present,
    chosen: &Chosen,
) -> bool
    requires { AllFit present.now (facts_of shown.now) }
    ensures { IsTrue result ↔ IsValidEnding (circuit_of present.now) (chosen_places chosen.now) (facts_of shown.now) (goal_of goal) (ending_of ending.now) }
{
    match (goal, *ending) {
        (Goal::Value(fact), Ending::Holds) => is_shown(fact, shown),
        (Goal::Value(_), Ending::TwoValues { .. }) => false,
        (Goal::Value(_), Ending::Refuted { .. }) => false,
        (Goal::Clash, Ending::Holds) => false,
        (Goal::Clash, Ending::TwoValues { cell, low, high }) => {
            are_two_values(cell, low, high, shown)
        }
        (
            Goal::Clash,
            Ending::Refuted {
                part,
                instance,
                ports,
                from,
            },
        ) => {
            let claim = Claim {
                part,
                instance,
                ports,
                from,
            };
            is_refuted(&claim, shown, present, chosen)
        }
    }
}

/// Whether the steps show both words at the cell, of which the first is the lower one.
fn are_two_values(cell: Cell, low: u64, high: u64, shown: &[Step]) -> bool
    ensures { IsTrue result ↔ ((low < high) × IsIn (facts_of shown.now) (fact cell low) × IsIn (facts_of shown.now) (fact cell high)) }
{
    low < high
        && is_shown(Fact { cell, value: low }, shown)
        && is_shown(Fact { cell, value: high }, shown)
}
