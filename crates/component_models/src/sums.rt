// Adders.

ghost use Rattle.std.specs.Prelude.{◌≡◌, ◌<◌, ◌^◌, ◌⊎◌, ◌∷◌, [], IfSome, IsNone};
ghost use Rattle.circuit_model.specs.declared.model.Primitive.TheVariants.{Add};
ghost use Rattle.circuit_model.specs.Inference.{IsInference};
ghost use Rattle.component_models.specs.Tables.{forced_by_two, sum_of, difference_of};

use crate::inference::Inference;
use word_domain::Width;

/// `z = a + b`, without the carry.
pub fn infer_sum(width: Width, a: Option<u64>, b: Option<u64>, z: Option<u64>) -> Inference
    requires a_fits { IfSome a (λ a. a < 2 ^ width) }
    requires b_fits { IfSome b (λ b. b < 2 ^ width) }
    requires z_fits { IfSome z (λ z. z < 2 ^ width) }
    requires open_port { IsNone a ⊎ (IsNone b ⊎ IsNone z) }
    ensures { IsInference Add (width ∷ width ∷ width ∷ []) (a ∷ b ∷ z ∷ []) result.refuted result.forced }
{
    // For the proof alone: a width has at least one bit, so that there are two words.
    let _bits = width.bits();
    Inference {
        refuted: false,
        forced: forced_by_two(width, a, b, z),
    }
}

fn forced_by_two(width: Width, a: Option<u64>, b: Option<u64>, z: Option<u64>) -> [Option<u64>; 3]
    requires a_fits { IfSome a (λ a. a < 2 ^ width) }
    requires b_fits { IfSome b (λ b. b < 2 ^ width) }
    requires z_fits { IfSome z (λ z. z < 2 ^ width) }
    ensures { result ≡ forced_by_two (sum_of width) (difference_of width) a b z }
{
    match (a, b, z) {
        (Some(a), Some(b), None) => [None, None, Some(width.sum_mod(a, b))],
        (Some(a), None, Some(z)) => [None, Some(width.difference_mod(z, a)), None],
        (None, Some(b), Some(z)) => [Some(width.difference_mod(z, b)), None, None],
        _ => [None, None, None],
    }
}
