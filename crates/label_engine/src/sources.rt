// Where an environment has its source, and what is passed over for it.

ghost use Rattle.std.specs.Prelude.{◌≡◌, ◌<◌, ◌∷◌, [], IfSome, IsTrue};
ghost use Rattle.environment_sets.specs.declared.environment.TheConstants.{SLOTS};
ghost use Rattle.propagation.specs.Propagating.{IsLone};
ghost use Rattle.assumption_slots.specs.Slots.{stock};
ghost use Rattle.label_engine.specs.Sources.{HaveOwnCells, AreWide, IsLonePart};
ghost use Rattle.label_engine.specs.Update.{is_made_at, is_passed, IsPassed};

use assumption_slots::Slots;
use circuit_model::{Assumption, Cell, Part};
use inference_search::Inferred;
use word_domain::Width;

// Whether so many of the three cells differ.
fn are_apart(first: Cell, second: Cell, third: Cell, ports: u8) -> bool
    ensures { IsTrue result → HaveOwnCells (first ∷ second ∷ third ∷ []) ports }
{
    match ports {
        1 => true,
        2 => first != second,
        3 => first != second && second != third && first != third,
        _ => false,
    }
}

// Whether each of so many ports has a cell of its own.
fn have_own_cells(cells: [Cell; 3], ports: u8) -> bool
    ensures { IsTrue result → HaveOwnCells cells ports }
{
    are_apart(cells[0], cells[1], cells[2], ports)
}

// For proofs alone: each of the three widths has a bit, and so more than one word.
fn are_wide(first: Width, second: Width, third: Width)
    ensures { AreWide (first ∷ second ∷ third ∷ []) }
{
    let _first = first.bits();
    let _second = second.bits();
    let _third = third.bits();
}

// For proofs alone: the same of an array.
fn widths_fit(widths: [Width; 3])
    ensures { AreWide widths }
{
    are_wide(widths[0], widths[1], widths[2]);
}

// Whether the component is one instance, with a cell of its own at each port.
fn is_lone(part: &Part) -> bool
    ensures { IsTrue result → IsLonePart part.now }
{
    if part.len() != 1 {
        return false;
    }
    let instance = part.at(0);
    widths_fit(instance.widths);
    have_own_cells(instance.cells, instance.ports)
}

// Whether there is such a component at the slot.
fn is_lone_at(slots: &Slots, slot: u16) -> bool
    requires { slot < SLOTS }
    ensures { IsTrue result → IsLone (stock slots.now) slot }
{
    match slots.at(slot) {
        Some(Assumption::Part(part)) => is_lone(part),
        _ => false,
    }
}

/// The source, where its component is one instance: what that infers from the environment leads back to what the environment
/// came from, and is passed over.
pub fn passed_for(slots: &Slots, source: Option<u16>) -> Option<u16>
    requires { IfSome source (λ slot. slot < SLOTS) }
    ensures { IfSome result (IsPassed slots.now source) }
{
    match source {
        Some(slot) => {
            if is_lone_at(slots, slot) {
                return Some(slot);
            }
            None
        }
        None => None,
    }
}

// Whether the component at the slot makes it.
fn is_made_at(maker: Option<u16>, slot: u16) -> bool
    ensures { result ≡ is_made_at slot maker }
{
    match maker {
        None => false,
        Some(made_at) => made_at == slot,
    }
}

/// Whether the inference is passed over: whether it is made at the slot, if there is one.
pub fn is_passed(inferred: &Inferred, passed: Option<u16>) -> bool
    ensures { result ≡ is_passed passed inferred.now }
{
    match passed {
        None => false,
        Some(slot) => is_made_at(inferred.maker, slot),
    }
}
