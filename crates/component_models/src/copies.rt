// Kinds with one input, and constants.

ghost use Rattle.std.specs.Prelude.{◌≡◌, ◌<◌, ◌^◌, ◌⊎◌, ◌∷◌, [], IfSome, IsNone, Some, None, false};
ghost use Rattle.circuit_model.specs.declared.model.Primitive.TheVariants.{Buf, Not};
ghost use Rattle.circuit_model.specs.Inference.{IsInference};

use crate::gates::complement;
use crate::inference::Inference;
use word_domain::Width;

/// `z = a`.
pub fn infer_buf(width: Width, a: Option<u64>, z: Option<u64>) -> Inference
    requires a_fits { IfSome a (λ a. a < 2 ^ width) }
    requires z_fits { IfSome z (λ z. z < 2 ^ width) }
    requires open_port { IsNone a ⊎ IsNone z }
    ensures { IsInference Buf (width ∷ width ∷ width ∷ []) (a ∷ z ∷ None ∷ []) result.refuted result.forced }
{
    // For the proof alone: a width has at least one bit, so that there are two words.
    let _bits = width.bits();
    Inference {
        refuted: false,
        forced: [z, a, None],
    }
}

/// `z = !a`.
pub fn infer_not(width: Width, a: Option<u64>, z: Option<u64>) -> Inference
    requires a_fits { IfSome a (λ a. a < 2 ^ width) }
    requires z_fits { IfSome z (λ z. z < 2 ^ width) }
    requires open_port { IsNone a ⊎ IsNone z }
    ensures { IsInference Not (width ∷ width ∷ width ∷ []) (a ∷ z ∷ None ∷ []) result.refuted result.forced }
{
    // For the proof alone: a width has at least one bit, so that there are two words.
    let _bits = width.bits();
    Inference {
        refuted: false,
        forced: [complement(width, z), complement(width, a), None],
    }
}

/// `z = value`.
pub fn infer_const(value: u64) -> Inference
    ensures refuted { result.refuted ≡ false }
    ensures forced { result.forced ≡ Some value ∷ None ∷ None ∷ [] }
{
    Inference {
        refuted: false,
        forced: [Some(value), None, None],
    }
}
