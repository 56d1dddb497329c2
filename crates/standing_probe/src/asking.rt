// The best next measurement of the present that slots stand for.
ghost use Rattle.std.specs.Prelude.{◌≤◌, List, IfOk, MatchOption, length};
ghost use Rattle.assumption_slots.specs.Slots.{stock};
ghost use Rattle.circuit_model.specs.declared.limits.TheConstants.{MOST_DIAGNOSES};
ghost use Rattle.circuit_model.specs.declared.model.Fact.{Fact};
ghost use Rattle.circuit_model.specs.Present.{circuit_of};
ghost use Rattle.circuit_model.specs.Probe.{AreDiagnoses, IsBestProbe, HasNoProbe};
ghost use Rattle.environment_sets.specs.Members.{sets};
ghost use Rattle.standing_view.specs.View.{StandsFor};

use crate::sets::slots_of_each;
use circuit_model::Present;
use environment_sets::Env;
use label_engine::Engine;
use probe_planner::{Probe, best_probe};
use standing_view::Standing;
use std::alloc::{AllocError, Global};

/// The best next measurement of the present that the slots stand for. The diagnoses are all of those that it has, as sets
/// of positions, in order. The least score wins, and at a tie the earlier cell.
pub fn probe_of(
    alloc: Global,
    engine: &Engine,
    standing: &Standing,
    present: &Present,
    diagnoses: &[Env],
) -> Result<Option<Probe>, AllocError>
    requires stands { (parked : List Fact) × StandsFor (stock engine.now.slots) standing.now present.now parked }
    requires diagnoses { AreDiagnoses (circuit_of present.now) (sets diagnoses.now) }
    requires few { length diagnoses.now ≤ MOST_DIAGNOSES }
    ensures { IfOk result (λ best. MatchOption best (HasNoProbe present.now) (λ p. IsBestProbe present.now p.cell p.score p.total)) }
{
    let slots = slots_of_each(alloc, standing, diagnoses)?;
    best_probe(alloc, engine, standing, present, &slots)
}
