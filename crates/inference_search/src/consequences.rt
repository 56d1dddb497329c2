// What known words at the ports of an instance say.

ghost use Rattle.std.specs.Prelude.{◌≡◌, ℕ, ◌<◌, ◌≤◌, ◌↔◌, IsTrue, MatchBool, Some, slice_get};
ghost use Rattle.circuit_model.specs.Inference.{IsUsed, IsInference, WordsFit};
ghost use Rattle.circuit_model.specs.Lawful.{IsLawfulInstance};
ghost use Rattle.component_models.specs.Asking.{HasOpenPort};

use circuit_model::{Instance, Prim};
use component_models::{Inference, infer};
use word_domain::Width;

/// Whether words are known at ports alone.
fn are_at_ports(ports: u8, known: [Option<u64>; 3]) -> bool
    requires { ports ≤ 3 }
    ensures { IsTrue result ↔ ((p v : ℕ) → slice_get known p ≡ Some (Some v) → p < ports) }
{
    for port in ports..3 {
        if known[port as usize].is_some() {
            return false;
        }
    }
    true
}

/// Whether each known word fits the width at its port.
fn are_fitting(widths: [Width; 3], known: [Option<u64>; 3]) -> bool
    ensures { MatchBool result (WordsFit widths known) (WordsFit widths known → ⊥) }
{
    for port in 0..3 {
        if let Some(word) = known[port] {
            if !widths[port].fits(word) {
                return false;
            }
        }
    }
    true
}

/// Whether the known words are not the product of a multiplier alone.
fn are_used(prim: Prim, known: [Option<u64>; 3]) -> bool
    ensures { IsTrue result ↔ IsUsed prim known }
{
    match (prim, known) {
        (Prim::Mul, [None, None, Some(_)]) => false,
        _ => true,
    }
}

/// What the known words say, where words may be known past the ports, or not fit: these say nothing, and that no tuple
/// of the relation has them.
pub fn consequences(instance: &Instance, known: [Option<u64>; 3]) -> Inference
    requires lawful { IsLawfulInstance instance.now }
    requires open_port { HasOpenPort instance.now.prim known }
    ensures { IsInference instance.now.prim instance.now.widths known result.refuted result.forced }
{
    if !are_at_ports(instance.ports, known) {
        return Inference {
            refuted: false,
            forced: [None; 3],
        };
    }
    if !are_fitting(instance.widths, known) {
        return Inference {
            refuted: are_used(instance.prim, known),
            forced: [None; 3],
        };
    }
    infer(instance.prim, instance.widths, known)
}
