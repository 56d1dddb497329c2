// The minimal hitting sets of conflicts, each once, by cost.
ghost use Rattle.std.specs.Prelude.{◌≡◌, ◌≤◌, IsTrue, IfOk, IfErr, length, Err};
ghost use Rattle.circuit_model.specs.declared.limits.TheConstants.{MOST_DIAGNOSES};
ghost use Rattle.environment_sets.specs.declared.environment.TheConstants.{SLOTS};
ghost use Rattle.environment_sets.specs.Members.{sets, HasMember};
ghost use Rattle.environment_sets.specs.Lists.{IsListing};
ghost use Rattle.environment_sets.specs.Orders.{IsOrder};
ghost use Rattle.hitting_sets.specs.Hitting.{IsMinimalFor};
ghost use Rattle.environment_sets.specs.Costs.{ComesBeforeByCost, ListsEach};
ghost use Rattle.diagnosis_order.specs.Stops.{IsStopFor, AreFew};

use crate::ranks::in_order;
use circuit_model::limits::MOST_DIAGNOSES;
use environment_sets::Env;
use hitting_sets::Hitter;
use std::alloc::Global;
use thiserror::Error;

/// Why there is no list of diagnoses.
#[derive(Clone, Copy, Debug, PartialEq, Eq, Error)]
pub enum DiagnosisStop {
    /// There are so many minimal hitting sets, more than [`MOST_DIAGNOSES`].
    #[error("there are {count} diagnoses")]
    TooMany { count: u64 },
    /// Memory ran out.
    #[error("memory ran out")]
    OutOfMemory,
}

/// The minimal hitting sets of the conflicts, which are the diagnoses (Reiter 1987), by cost, and those of one cost in
/// the order. The cost of `order[i]` is `costs[i]`, and that of a set is the sum of those of its slots. After
/// `OutOfMemory` the hitter may not be ready; else it stands for the conflicts.
pub fn diagnoses(
    alloc: Global,
    hitter: &mut Hitter,
    conflicts: &[Env],
    order: &[u16],
    costs: &[u8],
) -> Result<Vec<Env>, DiagnosisStop>
    requires slots { IsOrder SLOTS order.now }
    requires listed { ListsEach order.now (HasMember conflicts.now) }
    requires costs { length costs.now ≡ length order.now }
    ensures all { IfOk result (λ found. IsListing (ComesBeforeByCost order.now costs.now) (IsMinimalFor conflicts.now) (sets found.items)) }
    ensures few { IfOk result (λ found. length found.items ≤ MOST_DIAGNOSES) }
    ensures stopped { IfErr result (IsStopFor conflicts.now) }
    ensures scarce { result ≡ Err DiagnosisStop.OutOfMemory → IsTrue hitter.new.ready → AreFew conflicts.now }
    ensures ready { (result ≡ Err DiagnosisStop.OutOfMemory → ⊥) → IsTrue hitter.new.ready }
    ensures conflicts { IsTrue hitter.new.ready → hitter.new.conflicts ≡ conflicts.now }
{
    if hitter.update(conflicts).is_err() {
        return Err(DiagnosisStop::OutOfMemory);
    }
    let sets = hitter.sets();
    if sets.len() > MOST_DIAGNOSES {
        let count = sets.len() as u64;
        return Err(DiagnosisStop::TooMany { count });
    }
    match in_order(alloc, sets, order, costs) {
        Ok(found) => Ok(found),
        Err(_) => Err(DiagnosisStop::OutOfMemory),
    }
}
