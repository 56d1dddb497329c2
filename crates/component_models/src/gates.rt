// Kinds whose relation holds bit by bit.

ghost use Rattle.std.specs.Prelude.{◌≡◌, ◌<◌, ◌≤◌, ◌-◌, ◌^◌, ◌⊎◌, ◌∷◌, [], IfSome, IsNone, bit_xor};
ghost use Rattle.std.specs.Option.{option_map};
ghost use Rattle.circuit_model.specs.declared.model.Primitive.TheVariants.{And, Or, Xor, Nand, Nor, Xnor};
ghost use Rattle.circuit_model.specs.Inference.{IsInference, WordsFit};
ghost use Rattle.component_models.specs.Tables as tables;

use crate::inference::Inference;
use word_domain::Width;

/// `z = a & b`.
pub fn infer_and(width: Width, a: Option<u64>, b: Option<u64>, z: Option<u64>) -> Inference
    requires a_fits { IfSome a (λ a. a < 2 ^ width) }
    requires b_fits { IfSome b (λ b. b < 2 ^ width) }
    requires z_fits { IfSome z (λ z. z < 2 ^ width) }
    requires open_port { IsNone a ⊎ (IsNone b ⊎ IsNone z) }
    ensures exact { IsInference And (width ∷ width ∷ width ∷ []) (a ∷ b ∷ z ∷ []) result.refuted result.forced }
    ensures fit { WordsFit (width ∷ width ∷ width ∷ []) result.forced }
{
    Inference {
        refuted: refuted_by_and(a, b, z),
        forced: forced_by_and(width, a, b, z),
    }
}

/// `z = a | b`, which is `and` of complements.
pub fn infer_or(width: Width, a: Option<u64>, b: Option<u64>, z: Option<u64>) -> Inference
    requires a_fits { IfSome a (λ a. a < 2 ^ width) }
    requires b_fits { IfSome b (λ b. b < 2 ^ width) }
    requires z_fits { IfSome z (λ z. z < 2 ^ width) }
    requires open_port { IsNone a ⊎ (IsNone b ⊎ IsNone z) }
    ensures { IsInference Or (width ∷ width ∷ width ∷ []) (a ∷ b ∷ z ∷ []) result.refuted result.forced }
{
    let of_complements = infer_and(
        width,
        complement(width, a),
        complement(width, b),
        complement(width, z),
    );
    let [a, b, z] = of_complements.forced;
    Inference {
        refuted: of_complements.refuted,
        forced: [
            complement(width, a),
            complement(width, b),
            complement(width, z),
        ],
    }
}

/// `z = !(a & b)`.
pub fn infer_nand(width: Width, a: Option<u64>, b: Option<u64>, z: Option<u64>) -> Inference
    requires a_fits { IfSome a (λ a. a < 2 ^ width) }
    requires b_fits { IfSome b (λ b. b < 2 ^ width) }
    requires z_fits { IfSome z (λ z. z < 2 ^ width) }
    requires open_port { IsNone a ⊎ (IsNone b ⊎ IsNone z) }
    ensures { IsInference Nand (width ∷ width ∷ width ∷ []) (a ∷ b ∷ z ∷ []) result.refuted result.forced }
{
    let of_complement = infer_and(width, a, b, complement(width, z));
    let [a, b, z] = of_complement.forced;
    Inference {
        refuted: of_complement.refuted,
        forced: [a, b, complement(width, z)],
    }
}

/// `z = !(a | b)`, which is `and` of the inputs' complements.
pub fn infer_nor(width: Width, a: Option<u64>, b: Option<u64>, z: Option<u64>) -> Inference
    requires a_fits { IfSome a (λ a. a < 2 ^ width) }
    requires b_fits { IfSome b (λ b. b < 2 ^ width) }
    requires z_fits { IfSome z (λ z. z < 2 ^ width) }
    requires open_port { IsNone a ⊎ (IsNone b ⊎ IsNone z) }
    ensures { IsInference Nor (width ∷ width ∷ width ∷ []) (a ∷ b ∷ z ∷ []) result.refuted result.forced }
{
    let of_complements = infer_and(width, complement(width, a), complement(width, b), z);
    let [a, b, z] = of_complements.forced;
    Inference {
        refuted: of_complements.refuted,
        forced: [complement(width, a), complement(width, b), z],
    }
}

/// `z = a ^ b`.
pub fn infer_xor(width: Width, a: Option<u64>, b: Option<u64>, z: Option<u64>) -> Inference
    requires a_fits { IfSome a (λ a. a < 2 ^ width) }
    requires b_fits { IfSome b (λ b. b < 2 ^ width) }
    requires z_fits { IfSome z (λ z. z < 2 ^ width) }
    requires open_port { IsNone a ⊎ (IsNone b ⊎ IsNone z) }
    ensures exact { IsInference Xor (width ∷ width ∷ width ∷ []) (a ∷ b ∷ z ∷ []) result.refuted result.forced }
    ensures fit { WordsFit (width ∷ width ∷ width ∷ []) result.forced }
{
    // For the proof alone: a width has at least one bit, so that there are two words.
    let _bits = width.bits();
    Inference {
        refuted: false,
        forced: forced_by_xor(a, b, z),
    }
}

/// `z = !(a ^ b)`.
pub fn infer_xnor(width: Width, a: Option<u64>, b: Option<u64>, z: Option<u64>) -> Inference
    requires a_fits { IfSome a (λ a. a < 2 ^ width) }
    requires b_fits { IfSome b (λ b. b < 2 ^ width) }
    requires z_fits { IfSome z (λ z. z < 2 ^ width) }
    requires open_port { IsNone a ⊎ (IsNone b ⊎ IsNone z) }
    ensures { IsInference Xnor (width ∷ width ∷ width ∷ []) (a ∷ b ∷ z ∷ []) result.refuted result.forced }
{
    let of_complement = infer_xor(width, a, b, complement(width, z));
    let [a, b, z] = of_complement.forced;
    Inference {
        refuted: of_complement.refuted,
        forced: [a, b, complement(width, z)],
    }
}

/// The complement of a word, where there is one.
pub fn complement(width: Width, word: Option<u64>) -> Option<u64>
    requires { IfSome word (λ v. v < 2 ^ width) }
    ensures { result ≡ option_map (λ v. 2 ^ width - 1 - v) word }
{
    match word {
        Some(word) => Some(width.complement(word)),
        None => None,
    }
}

fn refuted_by_and(a: Option<u64>, b: Option<u64>, z: Option<u64>) -> bool
    ensures { result ≡ tables.refuted_by_and a b z }
{
    match (a, b, z) {
        (Some(a), None, Some(z)) => a & z != z,
        (None, Some(b), Some(z)) => b & z != z,
        _ => false,
    }
}

fn forced_by_and(width: Width, a: Option<u64>, b: Option<u64>, z: Option<u64>) -> [Option<u64>; 3]
    ensures low { 2 ≤ 2 ^ width }
    ensures forced { result ≡ tables.forced_by_and (2 ^ width - 1) a b z }
{
    let ones = width.mask();
    match (a, b, z) {
        (Some(a), Some(b), None) => [None, None, Some(a & b)],
        (Some(a), None, Some(z)) => [None, if a == ones { Some(z) } else { None }, None],
        (None, Some(b), Some(z)) => [if b == ones { Some(z) } else { None }, None, None],
        (Some(a), None, None) => [None, None, if a == 0 { Some(0) } else { None }],
        (None, Some(b), None) => [None, None, if b == 0 { Some(0) } else { None }],
        (None, None, Some(z)) if z == ones => [Some(ones), Some(ones), None],
        _ => [None, None, None],
    }
}

fn forced_by_xor(a: Option<u64>, b: Option<u64>, z: Option<u64>) -> [Option<u64>; 3]
    ensures { result ≡ tables.forced_by_two (λ a b. bit_xor a b) (λ z a. bit_xor z a) a b z }
{
    match (a, b, z) {
        (Some(a), Some(b), None) => [None, None, Some(a ^ b)],
        (Some(a), None, Some(z)) => [None, Some(z ^ a), None],
        (None, Some(b), Some(z)) => [Some(z ^ b), None, None],
        _ => [None, None, None],
    }
}
