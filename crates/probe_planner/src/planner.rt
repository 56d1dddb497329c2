// The best next measurement.
ghost use Rattle.std.specs.Prelude.{◌≡◌, ◌+◌, ◌*◌, ◌^◌, ◌<◌, ◌≤◌, List, IfOk, MatchOption, length, map};
ghost use Rattle.assumption_slots.specs.Slots.{stock};
ghost use Rattle.circuit_model.specs.declared.limits.TheConstants.{MOST_COST, MOST_DIAGNOSES};
ghost use Rattle.circuit_model.specs.declared.model.Fact.{Fact};
ghost use Rattle.circuit_model.specs.Present.{circuit_of};
ghost use Rattle.circuit_model.specs.Probe.{AreDiagnoses, IsBestProbe, HasNoProbe, IsScore, IsUnmeasured};
ghost use Rattle.environment_sets.specs.Members.{sets};
ghost use Rattle.standing_view.specs.Positions.{positions, AreInParts};
ghost use Rattle.standing_view.specs.View.{StandsFor};
ghost use Rattle.probe_planner.specs.Planning.{CanBePlanned, IsBestSoFar, lesser_of, better_of, after_cell, first_cell};

use crate::scores::score_at;
use crate::weights::{Weighed, rests_of, total_of, weights_of};
use circuit_model::{Cell, Present};
use environment_sets::Env;
use label_engine::Engine;
use standing_view::Standing;
use std::alloc::{AllocError, Global};

/// Where to measure next: the cell, its score, and the square of the weight of all diagnoses, which is the score of a
/// cell that tells none of them apart. With so few and such light diagnoses as there are, both are below 2^108.
#[derive(Clone, Copy, PartialEq, Eq, Debug)]
pub struct Probe {
    pub cell: Cell,
    pub score: u128,
    pub total: u128,
}

/// The best next measurement of the present: of the unmeasured cells that tell diagnoses apart the one with the least
/// score, the earlier one at a tie. There is none exactly where no unmeasured cell tells any apart. The slots of the
/// standing stand for the present, and the diagnoses are all of those that it has, as sets of component slots, in order.
/// Labels are looked into, and no environment is closed.
pub fn best_probe(
    alloc: Global,
    engine: &Engine,
    standing: &Standing,
    present: &Present,
    diagnoses: &[Env],
) -> Result<Option<Probe>, AllocError>
    requires stands { (parked : List Fact) × StandsFor (stock engine.now.slots) standing.now present.now parked }
    requires parts { AreInParts standing.now (sets diagnoses.now) }
    requires diagnoses { AreDiagnoses (circuit_of present.now) (map (positions standing.now) (sets diagnoses.now)) }
    requires few { length diagnoses.now ≤ MOST_DIAGNOSES }
    ensures { IfOk result (λ best. MatchOption best (HasNoProbe present.now) (λ p. IsBestProbe present.now p.cell p.score p.total)) }
{
    // For the proof alone: what is kept is exact.
    engine.exactness();
    let rests = rests_of(alloc, standing, diagnoses)?;
    let weights = weights_of(alloc, standing, present, diagnoses)?;
    let total = total_of(&weights);
    let weighed = Weighed {
        rests: &rests,
        weights: &weights,
        total,
    };
    best_of_all(alloc, engine, standing, present, &weighed)
}

// The best of all cells.
fn best_of_all(
    alloc: Global,
    engine: &Engine,
    standing: &Standing,
    present: &Present,
    weighed: &Weighed,
) -> Result<Option<Probe>, AllocError>
    requires { CanBePlanned engine.now standing.now present.now weighed.now }
    ensures { IfOk result (λ best. MatchOption best (HasNoProbe present.now) (λ p. IsBestProbe present.now p.cell p.score p.total)) }
{
    let mut best = None;
    for net in 0..present.nets() {
        best = best_of_net(alloc, engine, standing, present, weighed, net, best)?;
    }
    Ok(best)
}

// The best of what was found and the cells of the net.
fn best_of_net(
    alloc: Global,
    engine: &Engine,
    standing: &Standing,
    present: &Present,
    weighed: &Weighed,
    net: u16,
    found: Option<Probe>,
) -> Result<Option<Probe>, AllocError>
    requires can { CanBePlanned engine.now standing.now present.now weighed.now }
    requires net { net < length present.now.nets }
    requires found { IsBestSoFar present.now (first_cell net) found }
    ensures { IfOk result (IsBestSoFar present.now (first_cell (net + 1))) }
{
    let mut best = found;
    for cycle in 0..present.cycles() {
        let cell = Cell { net, cycle };
        best = best_with(alloc, engine, standing, present, weighed, cell, best)?;
    }
    Ok(best)
}

// The best of what was found and the cell.
fn best_with(
    alloc: Global,
    engine: &Engine,
    standing: &Standing,
    present: &Present,
    weighed: &Weighed,
    cell: Cell,
    found: Option<Probe>,
) -> Result<Option<Probe>, AllocError>
    requires can { CanBePlanned engine.now standing.now present.now weighed.now }
    requires net { cell.net < length present.now.nets }
    requires cycle { cell.cycle < present.now.cycles }
    requires found { IsBestSoFar present.now cell found }
    ensures { IfOk result (IsBestSoFar present.now (after_cell cell)) }
{
    if present.reading_at(cell).is_some() {
        return Ok(found);
    }
    let score = score_at(alloc, engine, standing, weighed, cell)?;
    let total = squared(weighed.total);
    Ok(better_of(found, Probe { cell, score, total }))
}

fn squared(weight: u64) -> u128
    requires { weight ≤ MOST_DIAGNOSES * 2 ^ MOST_COST }
    ensures { result ≡ weight * weight }
{
    u128::from(weight) * u128::from(weight)
}

// What was found, or the probe where its cell splits and its score is less.
fn better_of(found: Option<Probe>, probe: Probe) -> Option<Probe>
    ensures { result ≡ better_of found probe }
{
    if probe.total <= probe.score {
        return found;
    }
    Some(lesser_of(found, probe))
}

fn lesser_of(found: Option<Probe>, probe: Probe) -> Probe
    ensures { result ≡ lesser_of found probe }
{
    match found {
        Some(found) => {
            if found.score <= probe.score {
                found
            } else {
                probe
            }
        }
        None => probe,
    }
}
