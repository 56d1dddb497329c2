// Looking at all inferences from what is held, one after another.

ghost use Rattle.std.specs.Prelude.{◌≡◌, ◌+◌, ◌<◌, [], true, false, IfOk, length};
ghost use Rattle.circuit_model.specs.Chosen.{chosen_places};
ghost use Rattle.proof_check.specs.Checking.{IsInstanceOf, IsPlaced};
ghost use Rattle.proof_check.specs.Rounds.{AreCalm, AreElsewhere, AreLookedAt, AreWordsOf, IsAtSome, IsQuietBut, Looks, from_here};

use crate::derivation::Ending;
use crate::facts::Facts;
use crate::held::{Site, look_at_ports, words_of};
use crate::premises::has_place;
use crate::written::CHOICES;
use circuit_model::{Cell, Chosen, Instance, Present};
use std::alloc::AllocError;

/// An environment of a present, and the facts that are held; and which of them are held only since the last round, or that
/// it is the first round.
#[derive(Drop)]
pub struct Round<'a> {
    pub present: &'a Present,
    pub chosen: &'a Chosen,
    pub held: &'a Facts,
    pub fresh: &'a Facts,
    pub is_first: bool,
}

/// Finds what the environment's components force from what is held, but for what is held; or the first of their
/// inferences that refutes it: by component, then by instance, then by the number of the ports.
pub fn look(round: &Round, found: &mut Facts) -> Result<Option<Ending>, AllocError>
    requires calm { AreCalm round.now.present.now round.now.held.now }
    requires quiet { round.now.is_first ≡ false → IsQuietBut round.now.present.now (chosen_places round.now.chosen.now) round.now.held.now round.now.fresh.now }
    requires empty { found.old ≡ [] }
    ensures { IfOk result (Looks round.now.present.now (chosen_places round.now.chosen.now) round.now.held.now (from_here (length round.now.present.now.parts) 0 0) found.new) }
{
    for part in 0..round.present.parts() {
        let clash = look_at_part(round, part, found)?;
        if clash.is_some() {
            return Ok(clash);
        }
    }
    Ok(None)
}

/// Looks at the component, if it is one of the environment.
fn look_at_part(round: &Round, part: u16, found: &mut Facts) -> Result<Option<Ending>, AllocError>
    requires calm { AreCalm round.now.present.now round.now.held.now }
    requires quiet { round.now.is_first ≡ false → IsQuietBut round.now.present.now (chosen_places round.now.chosen.now) round.now.held.now round.now.fresh.now }
    requires part { part < length round.now.present.now.parts }
    requires looked { AreLookedAt round.now.present.now (chosen_places round.now.chosen.now) round.now.held.now (from_here part 0 0) found.old }
    ensures { IfOk result (Looks round.now.present.now (chosen_places round.now.chosen.now) round.now.held.now (from_here (part + 1) 0 0) found.new) }
{
    if !has_place(&round.chosen.parts, part) {
        return Ok(None);
    }
    let component = round.present.part_at(part);
    let count = component.part.len() as u16;
    for place in 0..count {
        let instance = component.part.at(place as usize);
        let clash = look_at_instance(round, part, place, instance, found)?;
        if clash.is_some() {
            return Ok(clash);
        }
    }
    Ok(None)
}

/// Looks at the instance, where that may say something new.
fn look_at_instance(
    round: &Round,
    part: u16,
    place: u16,
    instance: &Instance,
    found: &mut Facts,
) -> Result<Option<Ending>, AllocError>
    requires calm { AreCalm round.now.present.now round.now.held.now }
    requires quiet { round.now.is_first ≡ false → IsQuietBut round.now.present.now (chosen_places round.now.chosen.now) round.now.held.now round.now.fresh.now }
    requires there { IsInstanceOf round.now.present.now (chosen_places round.now.chosen.now) part place instance.now }
    requires placed { IsPlaced round.now.present.now instance.now }
    requires looked { AreLookedAt round.now.present.now (chosen_places round.now.chosen.now) round.now.held.now (from_here part place 0) found.old }
    ensures { IfOk result (Looks round.now.present.now (chosen_places round.now.chosen.now) round.now.held.now (from_here part (place + 1) 0) found.new) }
{
    if !round.is_first && !are_at_some(round.fresh, &instance.cells) {
        return Ok(None);
    }
    let site = Site {
        part,
        place,
        instance: *instance,
        words: words_of(&instance.cells, round.held),
    };
    let clash = look_at_site(round, &site, found)?;
    Ok(clash)
}

/// Whether one of the facts is at one of the cells.
fn are_at_some(facts: &Facts, cells: &[Cell; 3]) -> bool
    ensures none { result ≡ false → AreElsewhere facts.now cells.now }
    ensures some { result ≡ true → IsAtSome facts.now cells.now }
{
    for port in 0..3 {
        if facts.word_at(cells[port]).is_some() {
            return true;
        }
    }
    false
}

/// Looks at the instance, for each choice of its ports.
fn look_at_site(round: &Round, site: &Site, found: &mut Facts) -> Result<Option<Ending>, AllocError>
    requires calm { AreCalm round.now.present.now round.now.held.now }
    requires there { IsInstanceOf round.now.present.now (chosen_places round.now.chosen.now) site.now.part site.now.place site.now.instance }
    requires placed { IsPlaced round.now.present.now site.now.instance }
    requires words { AreWordsOf round.now.held.now site.now.instance.cells site.now.words }
    requires looked { AreLookedAt round.now.present.now (chosen_places round.now.chosen.now) round.now.held.now (from_here site.now.part site.now.place 0) found.old }
    ensures { IfOk result (Looks round.now.present.now (chosen_places round.now.chosen.now) round.now.held.now (from_here site.now.part (site.now.place + 1) 0) found.new) }
{
    for ports in 0..CHOICES.len() {
        let clash = look_at_ports(round.held, site, ports as u8, found)?;
        if clash.is_some() {
            return Ok(clash);
        }
    }
    Ok(None)
}
