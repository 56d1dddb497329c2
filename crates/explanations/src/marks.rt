// Marks on the facts of an environment.

ghost use Rattle.std.specs.Prelude.{◌≡◌, ◌↔◌, IsTrue, [], ◌∷◌, length};
ghost use Rattle.environment_sets.specs.Lists.{IsIn};
ghost use Rattle.proof_check.specs.Written.{given};
ghost use Rattle.explanations.specs.Marks.{Marks};

use circuit_model::Fact;
use proof_check::Closed;

/// Marks the places of the wanted facts.
pub fn mark(wanted: &[Option<Fact>; 2], closed: &Closed, marks: &mut [bool])
    requires { length marks.old ≡ length closed.now.facts }
    ensures { Marks (given wanted.now) closed.now.facts marks.old marks.new }
{
    for i in 0..closed.len() {
        let (fact, _) = closed.at(i);
        if is_among(wanted, fact) {
            marks[i] = true;
        }
    }
}

/// Whether it is one of the wanted facts.
fn is_among(wanted: &[Option<Fact>; 2], fact: Fact) -> bool
    ensures { IsTrue result ↔ IsIn (given wanted.now) fact }
{
    let [first, second] = *wanted;
    is_fact(first, fact) || is_fact(second, fact)
}

fn is_fact(one: Option<Fact>, fact: Fact) -> bool
    ensures { IsTrue result ↔ IsIn (given (one ∷ [])) fact }
{
    match one {
        None => false,
        Some(one) => is_same(one, fact),
    }
}

fn is_same(one: Fact, other: Fact) -> bool
    ensures { IsTrue result ↔ (one ≡ other) }
{
    one == other
}
