// What supports a fact of an environment.

ghost use Rattle.std.specs.Prelude.{◌≡◌, MatchOption};
ghost use Rattle.environment_sets.specs.Lists.{IsIn};
ghost use Rattle.circuit_model.specs.Chosen.{chosen_places};
ghost use Rattle.circuit_model.specs.Derivation.{Justification, HoldsAt, Justifies, fact_of, IsSupport};
ghost use Rattle.circuit_model.specs.Present.{IsLawful, circuit_of};
ghost use Rattle.proof_check.specs.Closing.{Closes};
ghost use Rattle.proof_check.specs.Written.{step_of};
ghost use Rattle.explanations.specs.Words.{AreByRound, TellsRound};
ghost use Rattle.explanations.specs.Forcing.{IsFirstStep};

use crate::forcing::{Forcing, forcing_at};
use circuit_model::{Chosen, Fact, Present};
use proof_check::{Closed, Step};

/// The support of a fact of the environment, which first holds at the round.
pub fn support_of(
    present: &Present,
    chosen: &Chosen,
    closed: &Closed,
    fact: Fact,
    round: u32,
) -> Step
    requires lawful { IsLawful present.now }
    requires closes { Closes present.now (chosen_places chosen.now) closed.now }
    requires listed { IsIn closed.now.facts (record { fact = fact; round = round }) }
    ensures shows { fact_of (step_of result) ≡ fact }
    ensures support { IsSupport (circuit_of present.now) (chosen_places chosen.now) (step_of result) }
{
    if round == 0 {
        return Step::Measured { fact };
    }
    match first_step(present, chosen, closed, fact, round - 1) {
        Some(step) => step,
        None => unreachable!(),
    }
}

/// The step that infers the fact by the first justification from words that held at the round.
fn first_step(
    present: &Present,
    chosen: &Chosen,
    closed: &Closed,
    fact: Fact,
    round: u32,
) -> Option<Step>
    requires lawful { IsLawful present.now }
    requires order { AreByRound closed.now.facts }
    requires told { TellsRound present.now (chosen_places chosen.now) closed.now.facts round }
    ensures { MatchOption result ((j : Justification) → Justifies (circuit_of present.now) (chosen_places chosen.now) (HoldsAt (circuit_of present.now) (chosen_places chosen.now) round) fact j → ⊥) (λ s. IsFirstStep (circuit_of present.now) (chosen_places chosen.now) round fact (step_of s)) }
{
    for i in 0..chosen.parts.len() {
        let part = chosen.parts.at(i);
        if let Some(found) = forcing_at(present, part, closed, round, fact) {
            return Some(inferred(fact, part, found));
        }
    }
    None
}

fn inferred(fact: Fact, part: u16, by: Forcing) -> Step
    ensures { result ≡ Step.Inferred fact part by.instance by.ports by.from }
{
    let Forcing {
        instance,
        ports,
        from,
    } = by;
    Step::Inferred {
        fact,
        part,
        instance,
        ports,
        from,
    }
}
