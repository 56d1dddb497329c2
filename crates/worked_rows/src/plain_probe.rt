// The best next measurement by closing what stands outside each diagnosis, as the definition says it.

use circuit_model::limits::MOST_COST;
use circuit_model::{Cell, Present};
use plain_answers::{Closed, Environment, close_environment};
use std::alloc::Global;
use std::test::Fail;

// A diagnosis, by what it weighs and by the word that it predicts at a cell, if it predicts one.
#[derive(Clone, Copy)]
struct Told {
    weight: u128,
    word: Option<u64>,
}

// Where to measure next, with the score of the cell and that of a cell that tells nothing apart.
#[derive(Clone, Copy)]
pub(crate) struct Best {
    pub(crate) cell: Cell,
    pub(crate) score: u128,
    pub(crate) total: u128,
}

pub(crate) fn best_probe(
    alloc: Global,
    present: &Present,
    diagnoses: &[Environment],
) -> Result<Option<Best>, Fail> {
    let mut best = None;
    for net in 0..present.nets() {
        for cycle in 0..present.cycles() {
            let cell = Cell { net, cycle };
            best = best_with(alloc, present, diagnoses, cell, best)?;
        }
    }
    Ok(best)
}

fn best_with(
    alloc: Global,
    present: &Present,
    diagnoses: &[Environment],
    cell: Cell,
    best: Option<Best>,
) -> Result<Option<Best>, Fail> {
    if present.reading_at(cell).is_some() {
        return Ok(best);
    }
    let told = predictions(alloc, present, diagnoses, cell)?;
    let score = score_of(&told);
    let total = total_of(&told);
    match best {
        _ if total <= score => Ok(best),
        Some(least) if least.score <= score => Ok(best),
        _ => Ok(Some(Best { cell, score, total })),
    }
}

fn predictions(
    alloc: Global,
    present: &Present,
    diagnoses: &[Environment],
    cell: Cell,
) -> Result<Vec<Told>, Fail> {
    let mut told = Vec::new(alloc);
    for diagnosis in diagnoses {
        let word = prediction(alloc, present, diagnosis, cell)?;
        let weight = weight_of(present, diagnosis);
        told.push(Told { weight, word })?;
    }
    Ok(told)
}

fn prediction(
    alloc: Global,
    present: &Present,
    diagnosis: &Environment,
    cell: Cell,
) -> Result<Option<u64>, Fail> {
    let outside = outside(present, diagnosis);
    match close_environment(alloc, present, &outside)? {
        Closed::Clash => Err("a diagnosis that leaves a clash".into()),
        Closed::Facts(closure) => Ok(closure.value_at(cell)),
    }
}

// All measurements, and the components that the diagnosis does not have.
fn outside(present: &Present, diagnosis: &Environment) -> Environment {
    let mut outside = Environment::empty().with_readings_of(present);
    for place in 0..present.parts() {
        if !diagnosis.has_part(place) {
            outside = outside.with_part(place);
        }
    }
    outside
}

// The sum of the costs of the components.
pub(crate) fn cost_of(present: &Present, set: &Environment) -> u32 {
    let mut cost: u32 = 0;
    for place in 0..present.parts() {
        if set.has_part(place) {
            cost = cost.saturating_add(u32::from(present.part_at(place).cost));
        }
    }
    cost
}

fn weight_of(present: &Present, diagnosis: &Environment) -> u128 {
    let most = u32::from(MOST_COST);
    1 << (most - cost_of(present, diagnosis).min(most))
}

// The weight of the first times that of the second, for each two that do not predict two words.
fn score_of(told: &[Told]) -> u128 {
    let mut score: u128 = 0;
    for one in told {
        for other in told {
            if go_together(one.word, other.word) {
                score = score.saturating_add(one.weight.saturating_mul(other.weight));
            }
        }
    }
    score
}

fn go_together(one: Option<u64>, other: Option<u64>) -> bool {
    match (one, other) {
        (Some(word), Some(second)) => word == second,
        _ => true,
    }
}

fn total_of(told: &[Told]) -> u128 {
    let mut weight: u128 = 0;
    for one in told {
        weight = weight.saturating_add(one.weight);
    }
    weight.saturating_mul(weight)
}
