// What a step is inferred from: the instance, and the words at its ports.

ghost use Rattle.std.specs.Prelude.{◌≡◌, ℕ, ◌↔◌, ◌≤◌, IsTrue, List, length, Option, IfSome, MatchOption};
ghost use Rattle.environment_sets.specs.Lists.{IsIn};
ghost use Rattle.circuit_model.specs.declared.model.Fact.{Fact};
ghost use Rattle.circuit_model.specs.declared.model.Instance.{Instance};
ghost use Rattle.circuit_model.specs.Chosen.{chosen_places};
ghost use Rattle.proof_check.specs.Written.{given, facts_of};
ghost use Rattle.proof_check.specs.Checking.{AreWords, AreAlike, justification_of, IsInstanceOf, IsPlaced, IsPremise};

use crate::derivation::Step;
use crate::written::{CHOICES, are_same, facts_known, in_order, number_of, words_at};
use circuit_model::{Cell, Chosen, Fact, Instance, Places, Present};

/// An inference that is claimed; told as in an inferred step.
#[derive(Clone, Copy)]
pub struct Claim {
    pub part: u16,
    pub instance: u16,
    pub ports: u8,
    pub from: [Option<Fact>; 2],
}

/// An instance, and words at its ports.
#[derive(Clone, Copy)]
pub struct Premises {
    pub instance: Instance,
    pub known: [Option<u64>; 3],
}

/// What the claimed inference is made from, where its facts are among those that the steps show.
pub fn premises_of(
    claim: &Claim,
    shown: &[Step],
    present: &Present,
    chosen: &Chosen,
) -> Option<Premises>
    ensures exact { MatchOption result ((i : Instance) (known : List (Option ℕ)) → IsPremise present.now (chosen_places chosen.now) (IsIn (facts_of shown.now)) (justification_of claim.now) i known → ⊥) (λ p. IsPremise present.now (chosen_places chosen.now) (IsIn (facts_of shown.now)) (justification_of claim.now) p.instance p.known) }
    ensures placed { IfSome result (λ p. IsPlaced present.now p.instance) }
    ensures few { IfSome result (λ _. length (given claim.now.from) ≤ 2) }
{
    let Some(instance) = instance_of(claim.part, claim.instance, present, chosen) else {
        return None;
    };
    let Some(known) = known_words(claim.ports, &claim.from, &instance.cells) else {
        return None;
    };
    if !are_alike(&claim.from) {
        return None;
    }
    if !are_shown(&claim.from, shown) {
        return None;
    }
    Some(Premises { instance, known })
}

/// The instance at the place in the component at the position, if the environment has it.
fn instance_of(position: u16, place: u16, present: &Present, chosen: &Chosen) -> Option<Instance>
    ensures { MatchOption result ((i : Instance) → IsInstanceOf present.now (chosen_places chosen.now) position place i → ⊥) (λ i. IsInstanceOf present.now (chosen_places chosen.now) position place i × IsPlaced present.now i) }
{
    if !has_place(&chosen.parts, position) {
        return None;
    }
    if position >= present.parts() {
        return None;
    }
    let part = &present.part_at(position).part;
    if place as usize >= part.len() {
        return None;
    }
    Some(*part.at(place as usize))
}

/// Whether the position is one of these.
pub fn has_place(places: &Places, position: u16) -> bool
    ensures { IsTrue result ↔ IsIn places.now position }
{
    for i in 0..places.len() {
        if places.at(i) == position {
            return true;
        }
    }
    false
}

/// The words at the ports, where the facts are exactly those at them.
fn known_words(ports: u8, from: &[Option<Fact>; 2], cells: &[Cell; 3]) -> Option<[Option<u64>; 3]>
    ensures exact { MatchOption result ((known : List (Option ℕ)) → AreWords ports (given from.now) cells.now known → ⊥) (λ known. AreWords ports (given from.now) cells.now known) }
    ensures few { length (given from.now) ≤ 2 }
{
    if ports as usize >= CHOICES.len() {
        return None;
    }
    let choice = &CHOICES[ports as usize];
    let facts = in_order(from);
    let known = words_at(choice, &facts);
    if number_of(&known) != ports {
        return None;
    }
    if !are_same(&facts_known(cells, &known), &facts) {
        return None;
    }
    Some(known)
}

/// Whether no two of the facts are two words at one cell.
fn are_alike(from: &[Option<Fact>; 2]) -> bool
    ensures { IsTrue result ↔ AreAlike (given from.now) }
{
    let [first, second] = *from;
    match (first, second) {
        (Some(f), Some(g)) => f.agrees_with(g),
        _ => true,
    }
}

/// Whether each of the facts is one that the steps show.
fn are_shown(from: &[Option<Fact>; 2], shown: &[Step]) -> bool
    ensures { IsTrue result ↔ ((f : Fact) → IsIn (given from.now) f → IsIn (facts_of shown.now) f) }
{
    let [first, second] = *from;
    is_none_or_shown(first, shown) && is_none_or_shown(second, shown)
}

fn is_none_or_shown(fact: Option<Fact>, shown: &[Step]) -> bool
    ensures { IsTrue result ↔ MatchOption fact (Unit {0}) (λ f. IsIn (facts_of shown.now) f) }
{
    match fact {
        None => true,
        Some(fact) => is_shown(fact, shown),
    }
}

/// Whether the fact is one that the steps show.
pub fn is_shown(fact: Fact, shown: &[Step]) -> bool
    ensures { IsTrue result ↔ IsIn (facts_of shown.now) fact }
{
    for step in shown {
        if step.fact() == fact {
            return true;
        }
    }
    false
}
