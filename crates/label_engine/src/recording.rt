// Which inferences are recorded. Where one leads to the same as another, by the same maker and from no further fact, the
// other is not needed: whatever the other gives, it gives too.

ghost use Rattle.std.specs.Prelude.{◌≡◌, [], IfOk, IsTrue, Some};
ghost use Rattle.std.specs.List.{list_any};
ghost use Rattle.environment_sets.specs.Lists.{IsIn};
ghost use Rattle.inference_search.specs.declared.inferred.Inferred.{Inferred};
ghost use Rattle.label_engine.specs.Update.{is_same_target, is_same_maker, goes_from, goes_from_any, says_as_much, CanBeRecorded, AreAlso, HasSomeOf, AreNeeded, IsSaid, IsNeededOrSaid};

use circuit_model::Fact;
use inference_search::Inferred;
use labelled_nodes::is_same_fact;
use recorded_inferences::Records;
use std::alloc::{AllocError, Global};

/// Whether the two are the same target.
pub fn is_target(a: &Option<Fact>, b: &Option<Fact>) -> bool
    ensures { result ≡ is_same_target a.now b.now }
{
    match (a, b) {
        (None, None) => true,
        (Some(x), Some(y)) => is_same_fact(x, y),
        _ => false,
    }
}

/// Whether the fact is one that the inference goes from.
pub fn uses(inferred: &Inferred, fact: &Fact) -> bool
    ensures { result ≡ goes_from fact.now inferred.now }
{
    is_target(&inferred.first, &Some(*fact)) || is_target(&inferred.second, &Some(*fact))
}

// Whether the same component makes both, or none makes either.
fn is_maker(a: &Option<u16>, b: &Option<u16>) -> bool
    ensures { result ≡ is_same_maker a.now b.now }
{
    match (a, b) {
        (None, None) => true,
        (Some(made_at), Some(slot)) => *made_at == *slot,
        _ => false,
    }
}

// Whether there is no fact, or the inference goes from it.
fn uses_any(inferred: &Inferred, fact: &Option<Fact>) -> bool
    ensures { result ≡ goes_from_any fact.now inferred.now }
{
    match fact {
        None => true,
        Some(fact) => uses(inferred, fact),
    }
}

// Whether the one leads to the same as the other, by the same maker, and from no further fact.
#[tactic(auto, unfolding(crate::specs::Update::says_as_much))]
fn says_as_much(one: &Inferred, other: &Inferred) -> bool
    ensures { result ≡ says_as_much one.now other.now }
{
    is_target(&one.to, &other.to)
        && is_maker(&one.maker, &other.maker)
        && uses_any(other, &one.first)
        && uses_any(other, &one.second)
}

// Whether one of them says as much.
fn is_said(by: &[Inferred], inferred: &Inferred) -> bool
    ensures { result ≡ list_any (λ j. says_as_much j inferred.now) by.now }
{
    by.iter().any(|other| says_as_much(other, inferred))
}

// Whether one that is recorded and goes from the fact, if there is one, says as much. The list becomes those from the fact.
fn is_said_from(
    uses: &mut Vec<Inferred>,
    recorded: &Records,
    fact: &Option<Fact>,
    inferred: &Inferred,
) -> Result<bool, AllocError>
    ensures { IfOk result (λ is. IsTrue is → IsSaid recorded.now [] inferred.now) }
{
    let Some(fact) = fact else {
        return Ok(false);
    };
    recorded.uses(uses, fact)?;
    Ok(is_said(uses, inferred))
}

// Whether one that is recorded, from some of its facts, says as much.
fn is_recorded(
    uses: &mut Vec<Inferred>,
    recorded: &Records,
    inferred: &Inferred,
) -> Result<bool, AllocError>
    ensures { IfOk result (λ is. IsTrue is → IsSaid recorded.now [] inferred.now) }
{
    let said = is_said_from(uses, recorded, &inferred.first, inferred)?;
    if said {
        return Ok(true);
    }
    is_said_from(uses, recorded, &inferred.second, inferred)
}

// The inference is needed too, where none says as much.
fn add_needed(
    needed: &mut Vec<Inferred>,
    uses: &mut Vec<Inferred>,
    recorded: &Records,
    inferred: &Inferred,
) -> Result<(), AllocError>
    ensures { IfOk result (λ _. IsNeededOrSaid recorded.now inferred.now needed.old.items needed.new.items) }
{
    let said = is_recorded(uses, recorded, inferred)?;
    if said {
        return Ok(());
    }
    if is_said(needed, inferred) {
        return Ok(());
    }
    needed.push(*inferred)?;
    Ok(())
}

/// Of what was found, what is to be recorded.
pub fn needed_of(
    alloc: Global,
    recorded: &Records,
    found: &[Inferred],
) -> Result<Vec<Inferred>, AllocError>
    ensures { IfOk result (λ needed. AreNeeded recorded.now found.now needed.items) }
{
    let mut needed = Vec::new(alloc);
    let mut uses = Vec::new(alloc);
    for inferred in found {
        add_needed(&mut needed, &mut uses, recorded, inferred)?;
    }
    Ok(needed)
}

/// Records what was found. After an error some of what was found is recorded.
pub fn record_all(recorded: &mut Records, found: &[Inferred]) -> Result<(), AllocError>
    requires { (i : Inferred) → IsIn found.now i → CanBeRecorded i }
    ensures ok { IfOk result (λ _. AreAlso found.now recorded.old recorded.new) }
    ensures some { HasSomeOf found.now recorded.old recorded.new }
{
    for inferred in found {
        recorded.push(*inferred)?;
    }
    Ok(())
}
