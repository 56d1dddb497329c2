// Environments that pass a test, and the least ones.

ghost use Rattle.std.specs.Prelude.{length, ◌≡◌, ◌↔◌, IsTrue, IfOk, MatchBool, Some};
ghost use Rattle.environment_sets.specs.Sets.{◌⊆◌};
ghost use Rattle.circuit_model.specs.Diagnoses.{AreRefuted};
ghost use Rattle.circuit_model.specs.Present.{circuit_of};
ghost use Rattle.circuit_model.specs.Stock.{IsRefutedBy};
ghost use Rattle.circuit_model.specs.Whole.{stock};
ghost use Rattle.plain_answers.specs.Members.{members};
ghost use Rattle.plain_answers.specs.Subsets.{sets, Keeps};
ghost use Rattle.plain_answers.specs.Tests.{Passes, HasFact, IsLeastIn, IsDecided, IsRepaired, AreParts, AreOthers, positions};

use crate::closing::{Closed, close_environment};
use crate::environment::Environment;
use circuit_model::{Fact, Present};
use std::alloc::{AllocError, Global};

/// What is asked of an environment.
#[derive(Clone, Copy, Debug)]
pub enum Test {
    /// It is consistent and has the fact.
    Has(Fact),
    /// It contradicts itself.
    Clashes,
    /// Its components contradict the measurements.
    Refuted,
    /// Without its components nothing contradicts the measurements.
    Repaired,
}

/// Those that pass the test.
pub fn keep(
    alloc: Global,
    present: &Present,
    test: Test,
    all: &[Environment],
) -> Result<Vec<Environment>, AllocError>
    ensures { IfOk result (λ es. Keeps (Passes present.now test) (sets all.now) (sets es.items)) }
{
    let mut kept = Vec::new(alloc);
    for one in all {
        if passes(alloc, present, test, one)? {
            kept.push(*one)?;
        }
    }
    Ok(kept)
}

fn passes(
    alloc: Global,
    present: &Present,
    test: Test,
    one: &Environment,
) -> Result<bool, AllocError>
    ensures { IfOk result (λ b. IsDecided b (Passes present.now test (members one.now))) }
{
    match test {
        Test::Has(fact) => has(alloc, present, fact, one),
        Test::Clashes => clashes(alloc, present, one),
        Test::Refuted => refuted(alloc, present, one),
        Test::Repaired => repaired(alloc, present, one),
    }
}

fn has(alloc: Global, present: &Present, fact: Fact, one: &Environment) -> Result<bool, AllocError>
    ensures { IfOk result (λ b. IsDecided b (HasFact present.now fact (members one.now))) }
{
    match close_environment(alloc, present, one)? {
        Closed::Clash => Ok(false),
        Closed::Facts(closure) => Ok(is_word(closure.value_at(fact.cell), fact.value)),
    }
}

fn is_word(found: Option<u64>, value: u64) -> bool
    ensures { IsTrue result ↔ (found ≡ Some value) }
{
    match found {
        Some(word) => word == value,
        None => false,
    }
}

fn clashes(alloc: Global, present: &Present, one: &Environment) -> Result<bool, AllocError>
    ensures { IfOk result (λ b. IsDecided b (IsRefutedBy (stock present.now) (members one.now))) }
{
    match close_environment(alloc, present, one)? {
        Closed::Clash => Ok(true),
        Closed::Facts(_) => Ok(false),
    }
}

fn refuted(alloc: Global, present: &Present, one: &Environment) -> Result<bool, AllocError>
    ensures { IfOk result (λ b. IsDecided b (AreRefuted (circuit_of present.now) (positions (members one.now)))) }
{
    let alone = one.parts_alone();
    are_refuted(alloc, present, &alone)
}

fn repaired(alloc: Global, present: &Present, one: &Environment) -> Result<bool, AllocError>
    ensures { IfOk result (λ b. IsDecided b (IsRepaired present.now (positions (members one.now)))) }
{
    let others = other_parts(present, one);
    let clash = are_refuted(alloc, present, &others)?;
    Ok(!clash)
}

/// Whether the components contradict the measurements.
fn are_refuted(alloc: Global, present: &Present, parts: &Environment) -> Result<bool, AllocError>
    requires { AreParts (members parts.now) }
    ensures { IfOk result (λ b. IsDecided b (AreRefuted (circuit_of present.now) (positions (members parts.now)))) }
{
    let all = parts.with_readings_of(present);
    clashes(alloc, present, &all)
}

/// The components that the environment does not have.
fn other_parts(present: &Present, one: &Environment) -> Environment
    ensures { AreOthers (length present.now.parts) (members one.now) (members result) }
{
    let mut others = Environment::empty();
    for place in 0..present.parts() {
        if !one.has_part(place) {
            others = others.with_part(place);
        }
    }
    others
}

/// Those that have no smaller one among them.
pub fn least(alloc: Global, all: &[Environment]) -> Result<Vec<Environment>, AllocError>
    ensures { IfOk result (λ es. Keeps (IsLeastIn (sets all.now)) (sets all.now) (sets es.items)) }
{
    let mut kept = Vec::new(alloc);
    for one in all {
        if is_least(all, one) {
            kept.push(*one)?;
        }
    }
    Ok(kept)
}

fn is_least(all: &[Environment], one: &Environment) -> bool
    ensures { IsDecided result (IsLeastIn (sets all.now) (members one.now)) }
{
    for other in all {
        if is_smaller(other, one) {
            return false;
        }
    }
    true
}

fn is_smaller(other: &Environment, one: &Environment) -> bool
    ensures { MatchBool result ((members other.now ⊆ members one.now) × (members one.now ⊆ members other.now → ⊥)) (members other.now ⊆ members one.now → members one.now ⊆ members other.now) }
{
    if !other.is_subset(one) {
        return false;
    }
    !one.is_subset(other)
}
