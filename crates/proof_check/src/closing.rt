// The closing of one environment.

ghost use Rattle.std.specs.Prelude.{◌≡◌, ◌+◌, ◌⊎◌, ◌↔◌, [], ◌++◌, false, IfOk, OnOk, MatchOption, length, map};
ghost use Rattle.environment_sets.specs.Lists.{IsIn};
ghost use Rattle.circuit_model.specs.declared.model.Fact.{Fact};
ghost use Rattle.circuit_model.specs.declared.model.Assumption.TheVariants.{Reading};
ghost use Rattle.circuit_model.specs.Chosen.{chosen_places};
ghost use Rattle.circuit_model.specs.Derivation.{IsAssumed};
ghost use Rattle.circuit_model.specs.Present.{IsLawful, circuit_of};
ghost use Rattle.proof_check.specs.Checking.{AllFit};
ghost use Rattle.proof_check.specs.Closing.{Closes};
ghost use Rattle.proof_check.specs.Ordered.{AreInOrder};
ghost use Rattle.proof_check.specs.Rounds.{IsQuietBut};
ghost use Rattle.proof_check.specs.Written.{ending_of};
ghost use Rattle.proof_check.specs.Turns.{at_round, HasAll, AreSeparate, AreForced, IsClashOfFacts, IsAtRound, Turns};

use crate::checker::has_cell;
use crate::closed::{Closed, Timed};
use crate::derivation::Ending;
use crate::facts::Facts;
use crate::looking::{Round, look};
use circuit_model::{Chosen, Fact, Present};
use std::alloc::{AllocError, Global};

/// A closing that is going on: the facts of earlier rounds, as they are listed and in order, and those that first hold
/// at this round.
#[derive(Drop)]
struct Closing {
    timed: Vec<Timed>,
    held: Facts,
    found: Facts,
    round: u32,
}

/// What a round comes to.
#[derive(Clone, Copy)]
enum Turn {
    /// Another one adds facts.
    Goes,
    /// Nothing is added after it.
    Rests,
    /// It has this clash.
    Clashes(Ending),
}

/// What follows from these components and measured cells of a present, round by round. Positions and cells that the present
/// does not have say nothing. Where memory is wanting, nothing is left behind.
pub fn close(alloc: Global, present: &Present, chosen: &Chosen) -> Result<Closed, AllocError>
    ensures { IfOk result (Closes present.now (chosen_places chosen.now)) }
{
    let mut closing = begin(alloc, present, chosen)?;
    loop {
        match go_on(alloc, present, chosen, &mut closing)? {
            Turn::Goes => {}
            Turn::Rests => return Ok(ended(closing, None)),
            Turn::Clashes(ending) => return Ok(ended(closing, Some(ending))),
        }
    }
}

fn ended(closing: Closing, clash: Option<Ending>) -> Closed
    ensures { result ≡ record { facts = closing.timed.items; clash = clash } }
{
    let Closing { timed, .. } = closing;
    Closed::of(timed, clash)
}

/// The first round: what was measured.
fn begin(alloc: Global, present: &Present, chosen: &Chosen) -> Result<Closing, AllocError>
    ensures { IfOk result (IsAtRound present.now (chosen_places chosen.now)) }
{
    let mut found = Facts::new(alloc);
    put_readings(present, chosen, &mut found)?;
    Ok(Closing {
        timed: Vec::new(alloc),
        held: Facts::new(alloc),
        found,
        round: 0,
    })
}

/// Puts in the measurements of the environment.
fn put_readings(present: &Present, chosen: &Chosen, found: &mut Facts) -> Result<(), AllocError>
    requires { found.old ≡ [] }
    ensures lawful { IsLawful present.now }
    ensures order { OnOk result (AreInOrder found.new) }
    ensures readings { OnOk result ((f : Fact) → IsIn found.new f ↔ IsAssumed (circuit_of present.now) (chosen_places chosen.now) (Reading f)) }
{
    for place in 0..present.readings() {
        put_reading(present.reading(place), chosen, found)?;
    }
    Ok(())
}

/// Puts in the measurement, if it is one of the environment.
fn put_reading(reading: Fact, chosen: &Chosen, found: &mut Facts) -> Result<(), AllocError>
    requires { AreInOrder found.old }
    ensures order { OnOk result (AreInOrder found.new) }
    ensures put { OnOk result ((f : Fact) → IsIn found.new f ↔ (((reading ≡ f) × IsIn chosen.now.readings f.cell) ⊎ IsIn found.old f)) }
{
    if !has_cell(&chosen.readings, reading.cell) {
        return Ok(());
    }
    found.put(reading)?;
    Ok(())
}

/// Lists what first holds at this round, and finds what does so at the next one.
fn go_on(
    alloc: Global,
    present: &Present,
    chosen: &Chosen,
    closing: &mut Closing,
) -> Result<Turn, AllocError>
    requires { IsAtRound present.now (chosen_places chosen.now) closing.old }
    ensures { IfOk result (Turns present.now (chosen_places chosen.now) closing.old closing.new) }
{
    hold(
        &mut closing.timed,
        &mut closing.held,
        &closing.found,
        closing.round,
    )?;
    let mut found = Facts::new(alloc);
    let round = Round {
        present,
        chosen,
        held: &closing.held,
        fresh: &closing.found,
        is_first: closing.round == 0,
    };
    let clash = forced(&round, &mut found)?;
    if let Some(ending) = clash {
        return Ok(Turn::Clashes(ending));
    }
    if found.len() == 0 {
        return Ok(Turn::Rests);
    }
    closing.found = found;
    closing.round += 1;
    Ok(Turn::Goes)
}

/// Lists what was found, at its round, and holds it with the others.
fn hold(
    timed: &mut Vec<Timed>,
    held: &mut Facts,
    found: &Facts,
    round: u32,
) -> Result<(), AllocError>
    requires order { AreInOrder held.old }
    requires separate { AreSeparate found.now held.old }
    ensures listed { OnOk result (timed.new.items ≡ timed.old.items ++ map (at_round round) found.now) }
    ensures held { OnOk result (HasAll found.now held.old held.new) }
    ensures long { OnOk result (length held.new ≡ length held.old + length found.now) }
    ensures order { OnOk result (AreInOrder held.new) }
{
    for i in 0..found.len() {
        let fact = found.at(i);
        timed.push(Timed { fact, round })?;
        held.put(fact)?;
    }
    Ok(())
}

/// The clash of the facts, if they clash; else what is forced from them and is none of them.
fn forced(round: &Round, found: &mut Facts) -> Result<Option<Ending>, AllocError>
    requires lawful { IsLawful round.now.present.now }
    requires fit { AllFit round.now.present.now round.now.held.now }
    requires quiet { round.now.is_first ≡ false → IsQuietBut round.now.present.now (chosen_places round.now.chosen.now) round.now.held.now round.now.fresh.now }
    requires empty { found.old ≡ [] }
    ensures { IfOk result (λ clash. MatchOption clash (AreForced round.now.present.now (chosen_places round.now.chosen.now) round.now.held.now found.new) (λ ending. IsClashOfFacts round.now.present.now (chosen_places round.now.chosen.now) round.now.held.now (ending_of ending))) }
{
    let pair = round.held.first_pair();
    if pair.is_some() {
        return Ok(pair);
    }
    let clash = look(round, found)?;
    Ok(clash)
}
