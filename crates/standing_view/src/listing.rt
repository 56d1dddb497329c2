// The conflicts of what stands.

ghost use Rattle.std.specs.Prelude.{◌≡◌, IfOk};
ghost use Rattle.std.specs.List.Sorted.{IsPermutation, IsSortedBy};
ghost use Rattle.circuit_model.specs.Stock.{IsEnvironment};
ghost use Rattle.environment_sets.specs.declared.environment.TheConstants.{SLOTS};
ghost use Rattle.environment_sets.specs.Members.{members, sets};
ghost use Rattle.environment_sets.specs.Orders.{ListsAll, IsOrder};
ghost use Rattle.environment_sets.specs.Sets.{◌⊆◌};
ghost use Rattle.assumption_slots.specs.Slots.{stock};
ghost use Rattle.standing_view.specs.Standing.{mask_of};
ghost use Rattle.standing_view.specs.Positions.{AreInParts};
ghost use Rattle.standing_view.specs.Conflicts.{AreConflictsOf, IsConflictOf, IsNogoodFor, AreLeastOf, compare_inside, is_before, meets};

use crate::standing::Standing;
use antichains::Antichain;
use environment_sets::Env;
use label_engine::Engine;
use std::alloc::{AllocError, Global};
use std::cmp::Ordering;

/// The conflicts of the present that the slots stand for, in order, as sets of component slots: the minimal ones of the
/// component parts of its nogoods.
pub fn conflicts(
    alloc: Global,
    engine: &Engine,
    standing: &Standing,
) -> Result<Vec<Env>, AllocError>
    ensures conflicts { IfOk result (λ found. AreConflictsOf engine.now standing.now (sets found.items)) }
    ensures inside { IfOk result (λ found. AreInParts standing.now (sets found.items)) }
{
    let parts = standing.parts();
    let nogoods = engine.nogoods_within(alloc, &standing.mask())?;
    let least = least_parts(alloc, &nogoods, &parts)?;
    let mut found = least.inside(alloc, &parts)?;
    sort(&mut found, standing.order(), &parts);
    Ok(found)
}

/// The first of the nogoods of the present that have exactly the conflict's components.
pub fn conflict_nogood(engine: &Engine, standing: &Standing, conflict: &Env) -> Env
    requires remembered { IsEnvironment (stock engine.now.slots) (mask_of standing.now) }
    requires conflict { IsConflictOf engine.now standing.now (members conflict.now) }
    ensures first { IsNogoodFor engine.now standing.now (members conflict.now) (members result) }
    ensures inside { members result ⊆ mask_of standing.now }
{
    let mask = conflict.union(standing.readings());
    engine.nogood_after(&mask, standing.order(), None).unwrap()
}

// The minimal ones of the parts of the environments.
fn least_parts(alloc: Global, environments: &[Env], parts: &Env) -> Result<Antichain, AllocError>
    ensures { IfOk result (λ least. AreLeastOf (meets (members parts.now) (sets environments.now)) least) }
{
    let mut least = Antichain::new(alloc);
    for environment in environments {
        least.insert(environment.meet(*parts))?;
    }
    Ok(least)
}

// Sorts by the order of the slots that are listed.
fn sort(environments: &mut [Env], order: &[u16], listed: &Env)
    requires slots { IsOrder SLOTS order.now }
    requires listed { ListsAll order.now (members listed.now) }
    ensures permutation { IsPermutation environments.old environments.new }
    ensures sorted { IsSortedBy (is_before order.now (members listed.now)) environments.new }
{
    environments.sort_unstable_by(|a, b| compare(order, listed, a, b));
}

// By the order of the slots that are listed. A sort may compare any two values, and `compare_in` asks that the order has
// all slots of both.
fn compare(order: &[u16], listed: &Env, a: &Env, b: &Env) -> Ordering
    requires slots { IsOrder SLOTS order.now }
    requires listed { ListsAll order.now (members listed.now) }
    ensures { result ≡ compare_inside order.now (members listed.now) a.now b.now }
{
    a.meet(*listed).compare_in(order, &b.meet(*listed))
}
