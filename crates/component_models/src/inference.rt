// One inference, for every primitive.

ghost use Rattle.std.specs.Prelude.{◌≡◌, ◌↔◌, ◌≤◌, ◌<◌, ℕ, IsTrue, length};
ghost use Rattle.circuit_model.specs.Inference.{IsInference, IsOfPorts, IsUnknownAt, WordsFit};
ghost use Rattle.circuit_model.specs.Lawful.{AreLawfulWidths};
ghost use Rattle.component_models.specs.Asking.{HasOpenPort};

use crate::copies::{infer_buf, infer_const, infer_not};
use crate::gates::{infer_and, infer_nand, infer_nor, infer_or, infer_xnor, infer_xor};
use crate::products::infer_product;
use crate::sums::infer_sum;
use circuit_model::Prim;
use word_domain::Width;

/// What known words say of a relation: that no tuple of it has them, or the words that all tuples with them have at
/// other ports. A place has `None` where no word is forced, which is so at each port with a known word and past the
/// ports. A forced word is below two to the width of its port.
#[derive(Clone, Copy, PartialEq, Eq, Debug)]
pub struct Inference {
    pub refuted: bool,
    pub forced: [Option<u64>; 3],
    pub ghost places: { length forced ≡ 3 },
}

/// What the words known at some ports say (the local propagation of de Kleer and Williams 1987): that no tuple of the
/// relation has them, or else, at each other port, the one word that all tuples with them have there.
///
/// The product of a multiplier alone says nothing. It takes no memory.
pub fn infer(prim: Prim, widths: [Width; 3], known: [Option<u64>; 3]) -> Inference
    requires widths { AreLawfulWidths prim widths }
    requires words { WordsFit widths known }
    requires ports { IsOfPorts prim known }
    requires open_port { HasOpenPort prim known }
    ensures exact { IsInference prim widths known result.refuted result.forced }
    ensures fit { WordsFit widths result.forced }
{
    let [width, second, _] = widths;
    let [a, b, z] = known;
    match prim {
        Prim::Buf => infer_buf(width, a, b),
        Prim::Not => infer_not(width, a, b),
        Prim::And => infer_and(width, a, b, z),
        Prim::Or => infer_or(width, a, b, z),
        Prim::Xor => infer_xor(width, a, b, z),
        Prim::Nand => infer_nand(width, a, b, z),
        Prim::Nor => infer_nor(width, a, b, z),
        Prim::Xnor => infer_xnor(width, a, b, z),
        Prim::Add => infer_sum(width, a, b, z),
        Prim::Mul => infer_product(width, second, a, b, z),
        Prim::Const { value } => infer_const(value),
    }
}

/// Whether no word is known at some port, as [`infer`] requires. There are at most three ports.
pub fn has_open_port(ports: u8, known: [Option<u64>; 3]) -> bool
    requires { ports ≤ 3 }
    ensures { IsTrue result ↔ ((port : ℕ) × (port < ports) × IsUnknownAt known port) }
{
    for port in 0..ports {
        if known[port as usize].is_none() {
            return true;
        }
    }
    false
}
