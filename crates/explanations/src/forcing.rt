// The first words that force a fact.

ghost use Rattle.std.specs.Prelude.{◌≡◌, ◌<◌, ◌^◌, ℕ, ◌↔◌, IsTrue, length, slice_get, Some, MatchOption};
ghost use Rattle.circuit_model.specs.Lawful.{IsLawfulInstance};
ghost use Rattle.circuit_model.specs.Inference.{WordsFit};
ghost use Rattle.circuit_model.specs.Derivation as derivations;
ghost use Rattle.circuit_model.specs.Present.{circuit_of};
ghost use Rattle.proof_check.specs.Written.{at_two_places};
ghost use Rattle.explanations.specs.Words.{AreByRound, chosen_words, HasFitting};
ghost use Rattle.explanations.specs.Forcing.{IsLeast, IsForcing, IsForcingIn, IsFirstIn, IsForcingAt, IsFirstAt, words_of, IsFitting, AllFit};

use crate::words::{chosen_words, words_by};
use circuit_model::{Cell, Fact, Instance, Part, Present};
use proof_check::conclusions::{are_giving, conclusions};
use proof_check::{Closed, facts_known, number_of};

/// How many choices there are among the three places of an instance.
const CHOICES: u8 = 8;

/// Words at some ports of an instance, by its place in a component: the ports as a binary number whose lowest bit is the
/// first port, and the facts at them in their order.
#[derive(Clone, Copy)]
pub struct Forcing {
    pub instance: u16,
    pub ports: u8,
    pub from: [Option<Fact>; 2],
}

/// The first words of the component at the position that force the fact, of those that held by the round; none where
/// the present has no such component.
pub fn forcing_at(
    present: &Present,
    position: u16,
    closed: &Closed,
    round: u32,
    fact: Fact,
) -> Option<Forcing>
    requires order { AreByRound closed.now.facts }
    requires fit { HasFitting present.now closed.now.facts round }
    ensures { MatchOption result ((place ports : ℕ) → IsForcingAt (circuit_of present.now) closed.now.facts round fact position place ports → ⊥) (IsFirstAt (circuit_of present.now) closed.now.facts round fact position) }
{
    if position >= present.parts() {
        return None;
    }
    forcing_in(&present.part_at(position).part, closed, round, fact)
}

/// The first words of a component that force the fact, of those that held by the round: by the place of the instance,
/// then by the number of the ports.
fn forcing_in(part: &Part, closed: &Closed, round: u32, fact: Fact) -> Option<Forcing>
    requires order { AreByRound closed.now.facts }
    requires few { length part.now < 2 ^ 16 }
    requires fit { AllFit closed.now.facts round part.now }
    ensures { MatchOption result ((place ports : ℕ) → IsForcingIn closed.now.facts round fact part.now place ports → ⊥) (IsFirstIn closed.now.facts round fact part.now) }
{
    for place in 0..part.len() {
        let instance = part.at(place);
        if let Some(ports) = forcing_ports(instance, closed, round, fact) {
            return Some(Forcing {
                instance: place as u16,
                ports,
                from: facts_at(instance, ports, closed, round),
            });
        }
    }
    None
}

/// The least number of ports of the instance whose words, as they held by the round, force the fact.
fn forcing_ports(instance: &Instance, closed: &Closed, round: u32, fact: Fact) -> Option<u8>
    requires order { AreByRound closed.now.facts }
    requires lawful { IsLawfulInstance instance.now }
    requires fit { IsFitting closed.now.facts round instance.now }
    ensures { MatchOption result ((ports : ℕ) → IsForcing instance.now (words_of closed.now.facts round instance.now) fact ports → ⊥) (IsLeast (IsForcing instance.now (words_of closed.now.facts round instance.now) fact)) }
{
    if !has_cell(&instance.cells, fact.cell) {
        return None;
    }
    let words = words_by(closed, round, &instance.cells);
    least_ports(instance, &words, fact)
}

/// Whether the cell is one of the three.
fn has_cell(cells: &[Cell; 3], cell: Cell) -> bool
    ensures { IsTrue result ↔ ((port : ℕ) × (slice_get cells.now port ≡ Some cell)) }
{
    let [c, d, e] = *cells;
    c == cell || d == cell || e == cell
}

/// The least number of ports whose words force the fact.
fn least_ports(instance: &Instance, words: &[Option<u64>; 3], fact: Fact) -> Option<u8>
    requires lawful { IsLawfulInstance instance.now }
    requires fit { WordsFit instance.now.widths words.now }
    ensures { MatchOption result ((ports : ℕ) → IsForcing instance.now words.now fact ports → ⊥) (IsLeast (IsForcing instance.now words.now fact)) }
{
    for ports in 0..CHOICES {
        if is_forcing(instance, ports, words, fact) {
            return Some(ports);
        }
    }
    None
}

/// Whether words are known at all of these ports, and force the fact.
fn is_forcing(instance: &Instance, ports: u8, words: &[Option<u64>; 3], fact: Fact) -> bool
    requires lawful { IsLawfulInstance instance.now }
    requires fit { WordsFit instance.now.widths words.now }
    ensures { IsTrue result ↔ IsForcing instance.now words.now fact ports }
{
    let known = chosen_words(ports, words);
    if number_of(&known) != ports {
        return false;
    }
    let said = conclusions(instance, known);
    are_giving(&instance.cells, &said.forced, fact)
}

/// The facts at these ports, as they held by the round; where there are three, the first two.
fn facts_at(instance: &Instance, ports: u8, closed: &Closed, round: u32) -> [Option<Fact>; 2]
    requires { AreByRound closed.now.facts }
    ensures { result ≡ at_two_places (derivations.facts_at instance.now.cells (chosen_words ports (words_of closed.now.facts round instance.now))) }
{
    let words = words_by(closed, round, &instance.cells);
    facts_known(&instance.cells, &chosen_words(ports, &words))
}
