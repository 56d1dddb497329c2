// The conflicts that are to be hit, and the slots in their order, with their weights.
ghost use Rattle.std.specs.Prelude.{◌≡◌, ℕ, ◌≤◌, ◌<◌, IsTrue, IfOk, if◌then◌else◌, length, map, slice_index};
ghost use Rattle.environment_sets.specs.declared.environment.TheConstants.{SLOTS};
ghost use Rattle.environment_sets.specs.Members.{members};
ghost use Rattle.environment_sets.specs.Orders.{ListsAll};
ghost use Rattle.first_diagnoses.specs.Weights.{weight_for, weight_in, IsProblem};

use environment_sets::{Env, SLOTS};
use std::alloc::{AllocError, Global};

// What a cost of one weighs: more than all slots together by their number.
const COST_UNIT: u32 = SLOTS as u32 + 1;

// The weight of a slot of the greatest cost.
const MOST_WEIGHT: u32 = u8::MAX as u32 * COST_UNIT + 1;

/// The conflicts that are to be hit, and the slots in their order, with their weights. A set of more weight costs more,
/// or as much and has more slots.
#[derive(Drop)]
pub struct Problem<'a> {
    pub conflicts: &'a [Env],
    pub order: &'a [u16],
    pub weights: &'a [u32],
}

/// The weight of each slot, from its cost.
pub fn weights_of(alloc: Global, costs: &[u8]) -> Result<Vec<u32>, AllocError>
    ensures { IfOk result (λ weights. weights.items ≡ map weight_for costs.now) }
{
    costs
        .iter()
        .map(|cost| u32::from(*cost) * COST_UNIT + 1)
        .collect(alloc)
}

/// The sum of the weights of the slots.
pub fn weight_of(problem: &Problem, set: &Env) -> u32
    requires problem { IsProblem problem.now }
    requires listed { ListsAll problem.now.order.now (members set.now) }
    ensures { result ≡ weight_in problem.now (members set.now) }
{
    let mut weight = 0;
    for i in 0..problem.order.len() {
        weight += weight_at(set, problem.order[i], problem.weights[i]);
    }
    weight
}

// What the slot adds to the weight.
fn weight_at(set: &Env, slot: u16, weight: u32) -> u32
    requires { slot < SLOTS }
    ensures { result ≡ (if members set.now slot then weight else 0) }
{
    if set.has(slot) { weight } else { 0 }
}

/// At most the weight of each slot of the set that stands in the order from the place on.
pub fn lightest(problem: &Problem, set: &Env, place: usize) -> u32
    requires { IsProblem problem.now }
    ensures { (i : ℕ) → place ≤ i → i < length problem.now.order.now → IsTrue (members set.now (slice_index problem.now.order.now i)) → result ≤ slice_index problem.now.weights.now i }
{
    let mut least = u32::MAX;
    for i in place..problem.order.len() {
        least = least.min(limit_at(set, problem.order[i], problem.weights[i]));
    }
    least
}

// The weight of the slot where the set has it, and else the greatest number.
fn limit_at(set: &Env, slot: u16, weight: u32) -> u32
    requires { slot < SLOTS }
    ensures { IsTrue (members set.now slot) → result ≤ weight }
{
    if set.has(slot) { weight } else { u32::MAX }
}
