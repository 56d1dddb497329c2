// Conflicts, all diagnoses, and the first of them.

ghost use Rattle.std.specs.Prelude.{◌≡◌, IfOk, IfErr};
ghost use Rattle.circuit_model.specs.Diagnoses.{IsDiagnosis};
ghost use Rattle.circuit_model.specs.Present.{circuit_of};
ghost use Rattle.circuit_model.specs.Probe.{AreConflicts, AreDiagnoses};
ghost use Rattle.environment_sets.specs.Members.{sets};
ghost use Rattle.first_diagnoses.specs.First.{AreFirst};
ghost use Rattle.standing_diagnoses.specs.Listing.{AreConflictsAt, IsStopAt, HasFewDiagnoses, IsBeforeByCost};

use crate::rows::{costs_in_order, positions_in_order};
use crate::sets::positions_of_each;
use circuit_model::Present;
use diagnosis_order::{DiagnosisStop, diagnoses};
use environment_sets::Env;
use first_diagnoses::first;
use hitting_sets::Hitter;
use label_engine::Engine;
use standing_view::{Standing, conflicts};
use std::alloc::{AllocError, Global};

/// The conflicts of the present that the slots stand for, in order, each as the set of the positions of its components.
pub fn conflicts_of(
    alloc: Global,
    engine: &Engine,
    standing: &Standing,
) -> Result<Vec<Env>, AllocError>
    ensures { IfOk result (λ found. AreConflictsAt engine.now standing.now (sets found.items)) }
{
    let found = conflicts(alloc, engine, standing)?;
    positions_of_each(alloc, standing, &found)
}

/// The diagnoses of the present whose conflicts these are, by cost, each as a set of positions. The hitter keeps what it
/// made for the conflicts, for the next question. It alters no answer.
pub fn diagnoses_of(
    alloc: Global,
    hitter: &mut Hitter,
    present: &Present,
    conflicts: &[Env],
) -> Result<Vec<Env>, DiagnosisStop>
    requires { AreConflicts (circuit_of present.now) (sets conflicts.now) }
    ensures all { IfOk result (λ found. AreDiagnoses (circuit_of present.now) (sets found.items)) }
    ensures few { IfOk result (λ found. HasFewDiagnoses (circuit_of present.now)) }
    ensures stopped { IfErr result (IsStopAt (circuit_of present.now)) }
{
    let Ok(order) = positions_in_order(alloc, present.parts()) else {
        return Err(DiagnosisStop::OutOfMemory);
    };
    let Ok(costs) = costs_in_order(alloc, present) else {
        return Err(DiagnosisStop::OutOfMemory);
    };
    diagnoses(alloc, hitter, conflicts, &order, &costs)
}

/// The first `k` diagnoses of the present whose conflicts these are, by cost, or all where there are fewer.
pub fn first_of(
    alloc: Global,
    present: &Present,
    conflicts: &[Env],
    k: usize,
) -> Result<Vec<Env>, AllocError>
    requires { AreConflicts (circuit_of present.now) (sets conflicts.now) }
    ensures { IfOk result (λ found. AreFirst (IsBeforeByCost (circuit_of present.now)) (IsDiagnosis (circuit_of present.now)) k (sets found.items)) }
{
    let order = positions_in_order(alloc, present.parts())?;
    let costs = costs_in_order(alloc, present)?;
    first(alloc, conflicts, &costs, &order, k)
}
