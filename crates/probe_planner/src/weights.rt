// What diagnoses weigh.
ghost use Rattle.std.specs.Prelude.{◌≡◌, ◌^◌, ◌<◌, IfOk, if◌then◌else◌, length, map, slice_index, sum};
ghost use Rattle.environment_sets.specs.Members.{members, sets};
ghost use Rattle.standing_view.specs.Positions.{positions};
ghost use Rattle.probe_planner.specs.Covering.{rest};
ghost use Rattle.probe_planner.specs.Weighing.{weight_at, cost_at};

use crate::labels::rest_of;
use circuit_model::Present;
use circuit_model::limits::MOST_COST;
use environment_sets::Env;
use standing_view::Standing;
use std::alloc::{AllocError, Global};

/// The diagnoses, each by what stands outside it and by its weight, and the weight of all.
#[derive(Drop)]
pub struct Weighed<'a> {
    pub rests: &'a [Env],
    pub weights: &'a [u64],
    pub total: u64,
}

/// What stands outside each diagnosis.
pub fn rests_of(
    alloc: Global,
    standing: &Standing,
    diagnoses: &[Env],
) -> Result<Vec<Env>, AllocError>
    ensures { IfOk result (λ rests. sets rests.items ≡ map (rest standing.now) (sets diagnoses.now)) }
{
    let mut rests = Vec::with_capacity(alloc, diagnoses.len())?;
    for diagnosis in diagnoses {
        rests.push(rest_of(standing, diagnosis))?;
    }
    Ok(rests)
}

/// The weight of each diagnosis.
pub fn weights_of(
    alloc: Global,
    standing: &Standing,
    present: &Present,
    diagnoses: &[Env],
) -> Result<Vec<u64>, AllocError>
    requires { length standing.now.parts ≡ length present.now.parts }
    ensures { IfOk result (λ weights. weights.items ≡ map (λ e. weight_at standing.now present.now (members e)) diagnoses.now) }
{
    let mut weights = Vec::with_capacity(alloc, diagnoses.len())?;
    for diagnosis in diagnoses {
        weights.push(weight_of(standing, present, diagnosis))?;
    }
    Ok(weights)
}

// What the diagnosis weighs.
fn weight_of(standing: &Standing, present: &Present, diagnosis: &Env) -> u64
    requires { length standing.now.parts ≡ length present.now.parts }
    ensures { result ≡ weight_at standing.now present.now (members diagnosis.now) }
{
    let most = u32::from(MOST_COST);
    1 << (most - cost_of(standing, present, diagnosis).min(most))
}

// The sum of the costs of its components.
fn cost_of(standing: &Standing, present: &Present, diagnosis: &Env) -> u32
    requires { length standing.now.parts ≡ length present.now.parts }
    ensures { result ≡ cost_at standing.now present.now (members diagnosis.now) }
{
    let mut cost = 0;
    for place in 0..present.parts() {
        cost += cost_of_part(standing, present, diagnosis, place);
    }
    cost
}

// What the component adds to the cost.
fn cost_of_part(standing: &Standing, present: &Present, diagnosis: &Env, place: u16) -> u32
    requires place { place < length present.now.parts }
    requires parts { length standing.now.parts ≡ length present.now.parts }
    ensures cost { result ≡ (if positions standing.now (members diagnosis.now) place then slice_index (map (λ p. p.cost) present.now.parts) place else 0) }
    ensures low { result < 2 ^ 8 }
{
    if standing.has_part(diagnosis, place) {
        u32::from(present.part_at(place).cost)
    } else {
        0
    }
}

/// The weight of all together.
pub fn total_of(weights: &[u64]) -> u64
    requires { sum weights.now < 2 ^ 64 }
    ensures { result ≡ sum weights.now }
{
    weights.iter().sum()
}
