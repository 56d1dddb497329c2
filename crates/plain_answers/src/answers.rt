// Labels, nogoods, conflicts and diagnoses.

ghost use Rattle.std.specs.Prelude.{IfOk};
ghost use Rattle.environment_sets.specs.Lists.{IsRoster};
ghost use Rattle.circuit_model.specs.Stock.{IsInLabel, IsNogood};
ghost use Rattle.circuit_model.specs.Whole.{stock};
ghost use Rattle.circuit_model.specs.Diagnoses.{IsConflict, IsDiagnosis};
ghost use Rattle.circuit_model.specs.Present.{circuit_of};
ghost use Rattle.plain_answers.specs.Subsets.{sets};
ghost use Rattle.plain_answers.specs.Tests.{position_sets};

use crate::environment::Environment;
use crate::keeping::{Test, keep, least};
use crate::subsets::{environments, part_sets};
use circuit_model::{Fact, Present};
use std::alloc::{AllocError, Global};

/// The label of a fact in a present (de Kleer 1986): all of its environments are tried, in time that is
/// exponential in the number of components and measurements. Each environment is listed once, in no order. Where memory
/// is wanting, nothing is left behind, here and below.
pub fn label(alloc: Global, present: &Present, fact: Fact) -> Result<Vec<Environment>, AllocError>
    ensures { IfOk result (λ es. IsRoster (IsInLabel (stock present.now) fact) (sets es.items)) }
{
    let all = environments(alloc, present)?;
    let having = keep(alloc, present, Test::Has(fact), &all)?;
    least(alloc, &having)
}

/// The nogoods of a present, in time that is exponential in the number of components and measurements.
pub fn nogoods(alloc: Global, present: &Present) -> Result<Vec<Environment>, AllocError>
    ensures { IfOk result (λ es. IsRoster (IsNogood (stock present.now)) (sets es.items)) }
{
    let all = environments(alloc, present)?;
    let clashing = keep(alloc, present, Test::Clashes, &all)?;
    least(alloc, &clashing)
}

/// The conflicts of a present (Reiter 1987), as sets of components, in time that is exponential in the
/// number of components.
pub fn conflicts(alloc: Global, present: &Present) -> Result<Vec<Environment>, AllocError>
    ensures { IfOk result (λ es. IsRoster (IsConflict (circuit_of present.now)) (position_sets es.items)) }
{
    let all = part_sets(alloc, present)?;
    let refuted = keep(alloc, present, Test::Refuted, &all)?;
    least(alloc, &refuted)
}

/// The diagnoses of a present (Reiter 1987), as sets of components, in time that is exponential in the
/// number of components.
pub fn diagnoses(alloc: Global, present: &Present) -> Result<Vec<Environment>, AllocError>
    ensures { IfOk result (λ es. IsRoster (IsDiagnosis (circuit_of present.now)) (position_sets es.items)) }
{
    let all = part_sets(alloc, present)?;
    let repaired = keep(alloc, present, Test::Repaired, &all)?;
    least(alloc, &repaired)
}
