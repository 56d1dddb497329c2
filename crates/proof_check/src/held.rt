// What held words at some ports of an instance say.

ghost use Rattle.std.specs.Prelude.{◌≡◌, ◌≢◌, ◌<◌, if◌then◌else◌, IfOk, MatchOption, None, length};
ghost use Rattle.circuit_model.specs.Derivation as derivations;
ghost use Rattle.proof_check.specs.Checking.{AreAlike};
ghost use Rattle.proof_check.specs.Rounds.{AreAtPorts, AreWordsOf, kept, kept_for, IsReady, Adds, IsWordAt, IsWordBelow, IsQuietAt, IsRefutedAt};

use crate::conclusions::conclusions;
use crate::derivation::Ending;
use crate::facts::Facts;
use crate::written::{CHOICES, facts_known, number_of};
use circuit_model::{Cell, Fact, Instance};
use std::alloc::AllocError;

/// An instance, by its place in the component at the position `part`, and the held words of its cells.
#[derive(Clone, Copy)]
pub struct Site {
    pub part: u16,
    pub place: u16,
    pub instance: Instance,
    pub words: [Option<u64>; 3],
}

/// Adds what held words at exactly the ports of this number force, but for what is held; or tells that they refute.
pub fn look_at_ports(
    held: &Facts,
    site: &Site,
    ports: u8,
    found: &mut Facts,
) -> Result<Option<Ending>, AllocError>
    requires ports { ports < length CHOICES }
    requires alike { AreAlike held.now }
    requires ready { IsReady held.now site.now.instance }
    requires words { AreWordsOf held.now site.now.instance.cells site.now.words }
    ensures { IfOk result (λ clash. MatchOption clash (IsQuietAt held.now site.now.instance ports found.old found.new) (IsRefutedAt held.now site.now.part site.now.place ports site.now.instance)) }
{
    let Some(known) = words_at_ports(&site.words, ports) else {
        return Ok(None);
    };
    let said = conclusions(&site.instance, known);
    if said.refuted {
        return Ok(Some(Ending::Refuted {
            part: site.part,
            instance: site.place,
            ports,
            from: facts_known(&site.instance.cells, &known),
        }));
    }
    add_words(&site.instance.cells, &said.forced, held, found)?;
    Ok(None)
}

/// The words at the ports, where each of these has one.
fn words_at_ports(words: &[Option<u64>; 3], ports: u8) -> Option<[Option<u64>; 3]>
    requires { ports < length CHOICES }
    ensures { MatchOption result (derivations.number_of (kept_for words.now ports) ≢ ports) (AreAtPorts words.now ports) }
{
    let known = keep(words, &CHOICES[ports as usize]);
    if number_of(&known) != ports {
        return None;
    }
    Some(known)
}

/// The words at the chosen places.
fn keep(words: &[Option<u64>; 3], choice: &[bool; 3]) -> [Option<u64>; 3]
    ensures { result ≡ kept words.now choice.now }
{
    let [a, b, z] = *words;
    let [first, second, third] = *choice;
    [keep_if(first, a), keep_if(second, b), keep_if(third, z)]
}

fn keep_if(chosen: bool, word: Option<u64>) -> Option<u64>
    ensures { result ≡ (if chosen then word else None) }
{
    if chosen { word } else { None }
}

/// The held words of the cells.
pub fn words_of(cells: &[Cell; 3], held: &Facts) -> [Option<u64>; 3]
    ensures { AreWordsOf held.now cells.now result }
{
    let [c, d, e] = *cells;
    [held.word_at(c), held.word_at(d), held.word_at(e)]
}

/// Adds the words at the cells, but for what is held.
fn add_words(
    cells: &[Cell; 3],
    words: &[Option<u64>; 3],
    held: &Facts,
    found: &mut Facts,
) -> Result<(), AllocError>
    ensures { IfOk result (λ _. Adds (IsWordBelow 3 cells.now words.now) held.now found.old found.new) }
{
    for port in 0..3 {
        add_word(cells[port], words[port], held, found)?;
    }
    Ok(())
}

fn add_word(
    cell: Cell,
    word: Option<u64>,
    held: &Facts,
    found: &mut Facts,
) -> Result<(), AllocError>
    ensures { IfOk result (λ _. Adds (IsWordAt cell word) held.now found.old found.new) }
{
    let Some(value) = word else {
        return Ok(());
    };
    let fact = Fact { cell, value };
    if held.has(fact) {
        return Ok(());
    }
    found.put(fact)?;
    Ok(())
}
