// Multipliers.

ghost use Rattle.std.specs.Prelude.{◌≡◌, ◌≤◌, ◌<◌, ◌+◌, ◌^◌, ◌⊎◌, ◌∷◌, [], IfSome, IsNone};
ghost use Rattle.circuit_model.specs.declared.model.Primitive.TheVariants.{Mul};
ghost use Rattle.circuit_model.specs.Inference.{IsInference};
ghost use Rattle.component_models.specs.Tables.{product_of, IsOtherFactor};

use crate::inference::Inference;
use word_domain::Width;

/// `z = a * b`, as wide as both factors together. The product alone says nothing.
pub fn infer_product(
    a_width: Width,
    b_width: Width,
    a: Option<u64>,
    b: Option<u64>,
    z: Option<u64>,
) -> Inference
    requires a_fits { IfSome a (λ a. a < 2 ^ a_width) }
    requires b_fits { IfSome b (λ b. b < 2 ^ b_width) }
    requires z_fits { IfSome z (λ z. z < 2 ^ (a_width + b_width)) }
    requires open_port { IsNone a ⊎ (IsNone b ⊎ IsNone z) }
    ensures { IsInference Mul (a_width ∷ b_width ∷ (a_width + b_width) ∷ []) (a ∷ b ∷ z ∷ []) result.refuted result.forced }
{
    let Some(z) = z else {
        return Inference {
            refuted: false,
            forced: [None, None, product(a_width, b_width, a, b)],
        };
    };
    match (a, b) {
        (Some(a), None) => {
            let (refuted, b) = other_factor(b_width, a, z);
            Inference {
                refuted,
                forced: [None, b, None],
            }
        }
        (None, Some(b)) => {
            let (refuted, a) = other_factor(a_width, b, z);
            Inference {
                refuted,
                forced: [a, None, None],
            }
        }
        (None, None) => Inference {
            refuted: false,
            forced: [None, None, None],
        },
        (Some(_), Some(_)) => unreachable!(),
    }
}

/// The product, where the known factors determine it.
fn product(a_width: Width, b_width: Width, a: Option<u64>, b: Option<u64>) -> Option<u64>
    requires a_fits { IfSome a (λ a. a < 2 ^ a_width) }
    requires b_fits { IfSome b (λ b. b < 2 ^ b_width) }
    ensures a_words { 2 ≤ 2 ^ a_width }
    ensures b_words { 2 ≤ 2 ^ b_width }
    ensures value { result ≡ product_of a b }
{
    // For the proof alone: words are of the widest width at most, so that the product of two fits 64 bits.
    let _masks = (a_width.mask(), b_width.mask());
    match (a, b) {
        (Some(a), Some(b)) => Some(a * b),
        (Some(0), None) | (None, Some(0)) => Some(0),
        _ => None,
    }
}

/// Whether no word of the width makes the product with a factor, and the word, where it is the only one.
fn other_factor(width: Width, factor: u64, product: u64) -> (bool, Option<u64>)
    ensures { IsOtherFactor width factor product result.0 result.1 }
{
    // For the proof alone: a width has at least one bit, so that there are two words.
    let _bits = width.bits();
    if factor == 0 {
        return (product != 0, None);
    }
    let quotient = width.quotient(product, factor);
    (quotient.is_none(), quotient)
}
