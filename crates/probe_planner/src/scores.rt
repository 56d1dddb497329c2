// The score of a cell.
ghost use Rattle.std.specs.Prelude.{◌≡◌, ◌^◌, ◌*◌, ◌≤◌, ◌<◌, IfOk, if◌then◌else◌, length, sum};
ghost use Rattle.circuit_model.specs.declared.limits.TheConstants.{MOST_COST, MOST_DIAGNOSES};
ghost use Rattle.environment_sets.specs.Costs.{cost_in};
ghost use Rattle.environment_sets.specs.Members.{members};
ghost use Rattle.probe_planner.specs.Covering.{covers};
ghost use Rattle.probe_planner.specs.Words.{CanBeScored, AreWordWeights, score_by, IsScored};

use crate::labels::covers;
use crate::weights::{Weighed, total_of};
use circuit_model::{Cell, Fact};
use environment_sets::Env;
use label_engine::Engine;
use standing_view::{Standing, value_after};
use std::alloc::{AllocError, Global};

/// The score of the cell.
pub fn score_at(
    alloc: Global,
    engine: &Engine,
    standing: &Standing,
    weighed: &Weighed,
    cell: Cell,
) -> Result<u128, AllocError>
    requires { CanBeScored engine.now standing.now weighed.now cell }
    ensures { IfOk result (IsScored engine.now standing.now weighed.now cell) }
{
    let words = word_weights(alloc, engine, standing, weighed, cell)?;
    Ok(score_of(&words, weighed.total))
}

// For each word that has a label at the cell the weight of the diagnoses that predict it, words rising.
fn word_weights(
    alloc: Global,
    engine: &Engine,
    standing: &Standing,
    weighed: &Weighed,
    cell: Cell,
) -> Result<Vec<u64>, AllocError>
    requires { CanBeScored engine.now standing.now weighed.now cell }
    ensures { IfOk result (λ weights. AreWordWeights engine.now standing.now weighed.now cell weights.items) }
{
    let mut weights = Vec::new(alloc);
    let mut last = None;
    'words: while let Some(value) = value_after(engine, standing, cell, last) {
        let label = engine.label(Fact { cell, value });
        weights.push(covered_weight(label, weighed.rests, weighed.weights))?;
        last = Some(value);
    }
    Ok(weights)
}

// The weight of the diagnoses outside which an environment of the label stands.
fn covered_weight(label: &[Env], rests: &[Env], weights: &[u64]) -> u64
    requires as_many { length weights.now ≡ length rests.now }
    requires small { sum weights.now < 2 ^ 64 }
    ensures { result ≡ cost_in rests.now weights.now (λ r. covers label.now (members r)) }
{
    let mut weight = 0;
    for i in 0..rests.len() {
        weight += weight_where(covers(label, &rests[i]), weights[i]);
    }
    weight
}

fn weight_where(covered: bool, weight: u64) -> u64
    ensures { result ≡ (if covered then weight else 0) }
{
    if covered { weight } else { 0 }
}

// The score, by the weights of the predicted words and the weight of all diagnoses.
fn score_of(words: &[u64], total: u64) -> u128
    requires words { sum words.now ≤ total }
    requires few { total ≤ MOST_DIAGNOSES * 2 ^ MOST_COST }
    ensures { result ≡ score_by words.now total }
{
    let silent = total - total_of(words);
    let mut score = u128::from(silent) * u128::from(total);
    for word in words {
        score += u128::from(*word) * (u128::from(*word) + u128::from(silent));
    }
    score
}
