// What known words at an instance's ports say.

ghost use Rattle.std.specs.Prelude.{◌≡◌, ℕ, ◌<◌, ◌≤◌, ◌↔◌, ◌∷◌, [], IsTrue, false, Some, None, slice_get};
ghost use Rattle.circuit_model.specs.Inference.{IsInference, WordsFit};
ghost use Rattle.circuit_model.specs.Lawful.{IsLawfulInstance};

use circuit_model::{Cell, Fact, Instance};
use component_models::{Inference, has_open_port, infer};

/// What the known words say, where words may be known past the ports, or at all of them: these say nothing.
pub fn conclusions(instance: &Instance, known: [Option<u64>; 3]) -> Inference
    requires lawful { IsLawfulInstance instance.now }
    requires fit { WordsFit instance.now.widths known }
    ensures { IsInference instance.now.prim instance.now.widths known result.refuted result.forced }
{
    if !are_at_ports(instance.ports, known) {
        return nothing();
    }
    if !has_open_port(instance.ports, known) {
        return nothing();
    }
    infer(instance.prim, instance.widths, known)
}

fn nothing() -> Inference
    ensures refuted { result.refuted ≡ false }
    ensures forced { result.forced ≡ None ∷ None ∷ None ∷ [] }
{
    Inference {
        refuted: false,
        forced: [None; 3],
    }
}

/// Whether words are known at ports alone.
fn are_at_ports(ports: u8, known: [Option<u64>; 3]) -> bool
    requires { ports ≤ 3 }
    ensures { IsTrue result ↔ ((p v : ℕ) → slice_get known p ≡ Some (Some v) → p < ports) }
{
    for port in ports..3 {
        if known[port as usize].is_some() {
            return false;
        }
    }
    true
}

/// Whether one of the words is the fact's, at its cell.
pub fn are_giving(cells: &[Cell; 3], words: &[Option<u64>; 3], fact: Fact) -> bool
    ensures { IsTrue result ↔ ((port : ℕ) × (slice_get cells.now port ≡ Some fact.cell) × (slice_get words.now port ≡ Some (Some fact.value))) }
{
    for port in 0..3 {
        if is_word(cells[port], words[port], fact) {
            return true;
        }
    }
    false
}

fn is_word(cell: Cell, word: Option<u64>, fact: Fact) -> bool
    ensures { IsTrue result ↔ ((cell ≡ fact.cell) × (word ≡ Some fact.value)) }
{
    cell == fact.cell && word == Some(fact.value)
}
