// The facts that known words at ports are.

ghost use Rattle.std.specs.Prelude.{◌≡◌, ◌⊎◌, ℕ, ◌↔◌, IsTrue, None, Some};
ghost use Rattle.std.specs.Option.{option_map};
ghost use Rattle.circuit_model.specs.declared.model.Fact.{Fact};
ghost use Rattle.circuit_model.specs.Closure.{fact};
ghost use Rattle.circuit_model.specs.Inference.{IsUnknownAt};
ghost use Rattle.propagation.specs.Propagating.{IsKnownAt};
ghost use Rattle.environment_sets.specs.Lists.{IsIn};
ghost use Rattle.inference_search.specs.Inferences.{facts};
ghost use Rattle.inference_search.specs.Choices.{IsOneOf, Differ, Agree};

use circuit_model::{Cell, Fact};

/// At most two facts, each once.
#[derive(Clone, Copy)]
pub struct Antecedents {
    pub first: Option<Fact>,
    pub second: Option<Fact>,
}

/// The facts that are known at the three places.
#[derive(Clone, Copy)]
pub struct PortFacts {
    pub a: Option<Fact>,
    pub b: Option<Fact>,
    pub z: Option<Fact>,
}

/// The facts that are known at the ports.
pub fn facts_at(cells: [Cell; 3], known: [Option<u64>; 3]) -> PortFacts
    ensures facts { (f : Fact) → IsOneOf result.a result.b result.z f ↔ IsKnownAt cells known f }
    ensures nothing { (p : ℕ) → IsUnknownAt known p → (result.a ≡ None) ⊎ (result.b ≡ None) ⊎ (result.z ≡ None) }
{
    PortFacts {
        a: fact_at(cells[0], known[0]),
        b: fact_at(cells[1], known[1]),
        z: fact_at(cells[2], known[2]),
    }
}

/// The word, if one is known, at the cell.
fn fact_at(cell: Cell, word: Option<u64>) -> Option<Fact>
    ensures { result ≡ option_map (λ v. fact cell v) word }
{
    word.map(|value| Fact { cell, value })
}

/// The facts that are there, in their order, each once.
fn pair(a: Option<Fact>, b: Option<Fact>) -> Antecedents
    ensures facts { (f : Fact) → IsIn (facts result.first result.second) f ↔ ((a ≡ Some f) ⊎ (b ≡ Some f)) }
    ensures once { Differ result.first result.second }
{
    if a.is_none() {
        Antecedents {
            first: b,
            second: None,
        }
    } else if a == b {
        Antecedents {
            first: a,
            second: None,
        }
    } else {
        Antecedents {
            first: a,
            second: b,
        }
    }
}

/// The facts that are there, in their order, each once.
pub fn antecedents_of(a: Option<Fact>, b: Option<Fact>, z: Option<Fact>) -> Antecedents
    requires { (a ≡ None) ⊎ (b ≡ None) ⊎ (z ≡ None) }
    ensures facts { (f : Fact) → IsIn (facts result.first result.second) f ↔ IsOneOf a b z f }
    ensures once { Differ result.first result.second }
{
    if a.is_none() {
        pair(b, z)
    } else if b.is_none() {
        pair(a, z)
    } else {
        pair(a, b)
    }
}

/// Whether these are not two words at one cell.
fn agree(a: Option<Fact>, b: Option<Fact>) -> bool
    ensures { IsTrue result ↔ Agree a b }
{
    match (a, b) {
        (Some(f), Some(g)) => f.agrees_with(g),
        _ => true,
    }
}

/// Whether no two of these are words at one cell.
pub fn all_agree(a: Option<Fact>, b: Option<Fact>, z: Option<Fact>) -> bool
    ensures { IsTrue result ↔ (Agree a b × Agree a z × Agree b z) }
{
    if !agree(a, b) || !agree(a, z) {
        return false;
    }
    agree(b, z)
}

/// Whether the fact is one of these, where there is one that has to be used.
pub fn are_using(must: Option<Fact>, a: Option<Fact>, b: Option<Fact>, z: Option<Fact>) -> bool
    ensures { IsTrue result ↔ ((f : Fact) → must ≡ Some f → IsOneOf a b z f) }
{
    must.is_none() || a == must || b == must || z == must
}
