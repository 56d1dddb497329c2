// The questions that ask why.
ghost use Rattle.std.specs.Prelude.{◌≡◌, ◌<◌, ◌≤◌, ◌-◌, IfOk, MatchBool, MatchResult, None, Some, length};
ghost use Rattle.assumption_slots.specs.Slots.{stock};
ghost use Rattle.circuit_model.specs.Chosen.{chosen_places};
ghost use Rattle.circuit_model.specs.Derivation.{IsCanonical, Value, Clash};
ghost use Rattle.circuit_model.specs.Present.{circuit_of};
ghost use Rattle.circuit_model.specs.Stock.{IsInLabel, IsNogood};
ghost use Rattle.circuit_model.specs.Whole as whole;
ghost use Rattle.environment_sets.specs.Members.{members};
ghost use Rattle.environment_sets.specs.Sets.{◌⊆◌};
ghost use Rattle.netlist_text.specs.Lookups.{cell_of};
ghost use Rattle.netlist_text.specs.declared.requests.Query.TheVariants as query;
ghost use Rattle.proof_check.specs.Written.{derivation_of};
ghost use Rattle.standing_view.specs.Standing.{mask_of};
ghost use Rattle.standing_view.specs.View.{places};
ghost use Rattle.answer_text.specs.Derivations.{CanBeWritten};
ghost use Rattle.session_undo.specs.Answers.{IsWritable};
ghost use Rattle.session_undo.specs.Checks.{first_refusal, checks_of_value};
ghost use Rattle.session_undo.specs.Explaining.{Explains};
ghost use Rattle.session_undo.specs.Serving.{Asked};

use crate::answers::Answer;
use crate::refusals::{Refusal, Stop};
use crate::session::Session;
use circuit_model::{Cell, Chosen, Fact, Name, Present};
use environment_sets::Env;
use explanations::{explain_clash, explain_value};
use netlist_text::{Misfit, check_cell};
use proof_check::Derivation;
use standing_view::{Standing, chosen, conflict_nogood, conflicts, label_after};
use std::alloc::{AllocError, Global};

// How the fact follows from an environment of its label.
fn explain_under(
    alloc: Global,
    present: &Present,
    standing: &Standing,
    fact: Fact,
    env: &Env,
) -> Result<(Chosen, Derivation), AllocError>
    requires inside { members env.now ⊆ mask_of standing.now }
    requires member { IsInLabel (whole.stock present.now) fact (places standing.now (members env.now)) }
    ensures { IfOk result (λ r. Explains present.now (places standing.now (members env.now)) (Value fact) (chosen_places r.0) (derivation_of r.1)) }
{
    // For the proof alone: the present is lawful.
    let _nets = present.nets();
    let under = chosen(alloc, standing, env)?;
    let derivation = explain_value(alloc, present, &under, fact)?;
    Ok((under, derivation))
}

// How a nogood clashes.
fn clash_under(
    alloc: Global,
    present: &Present,
    standing: &Standing,
    env: &Env,
) -> Result<(Chosen, Derivation), AllocError>
    requires inside { members env.now ⊆ mask_of standing.now }
    requires nogood { IsNogood (whole.stock present.now) (places standing.now (members env.now)) }
    ensures { IfOk result (λ r. Explains present.now (places standing.now (members env.now)) Clash (chosen_places r.0) (derivation_of r.1)) }
{
    // For the proof alone: the present is lawful.
    let _nets = present.nets();
    let under = chosen(alloc, standing, env)?;
    let derivation = explain_clash(alloc, present, &under)?;
    Ok((under, derivation))
}

// Whether one of these has the number, counted from 1.
fn is_number(number: u64, conflicts: &[Env]) -> bool
    ensures { MatchBool result ((1 ≤ number) × (number - 1 < length conflicts.now)) ((1 ≤ number) × (number - 1 < length conflicts.now) → ⊥) }
{
    1 <= number && number <= conflicts.len() as u64
}

impl Session {
    // The cell of a net at a cycle, where the word fits it.
    fn cell_for(&self, net: &Name, cycle: u64, value: u64) -> Result<Cell, Refusal>
        ensures cell { MatchResult result (λ cell. (first_refusal (checks_of_value self.now net.now cycle value) ≡ None) × (cell ≡ cell_of self.now.present net.now cycle))
            (λ refusal. first_refusal (checks_of_value self.now net.now cycle value) ≡ Some refusal) }
        ensures net { IfOk result (λ cell. cell.net < length self.now.present.nets) }
    {
        let cell = match check_cell(&self.present, net, cycle) {
            Ok(cell) => cell,
            Err(misfit) => return Err(Refusal::Misfit(misfit)),
        };
        let (_, width) = self.present.net_at(cell.net);
        if !width.fits(value) {
            return Err(Refusal::Misfit(Misfit::ValueDoesNotFit));
        }
        Ok(cell)
    }

    /// How a fact follows from the first environment of its label.
    pub(crate) fn explain(&self, net: &Name, cycle: u64, value: u64) -> Result<Answer, Stop>
        ensures answers { Asked self.now (query.Explain net.now cycle value) result }
        ensures writable { IfOk result (IsWritable self.now) }
    {
        let cell = match self.cell_for(net, cycle, value) {
            Ok(cell) => cell,
            Err(refusal) => return Err(Stop::Refused(refusal)),
        };
        let fact = Fact { cell, value };
        let standing = &self.remembered.standing;
        let Some(env) = label_after(&self.remembered.engine, standing, fact, None) else {
            return Err(Stop::Refused(Refusal::NoSuchValue));
        };
        match explain_under(self.alloc, &self.present, standing, fact, &env) {
            Ok((under, derivation)) => Ok(Answer::Explained { under, derivation }),
            Err(_) => Err(Stop::OutOfMemory),
        }
    }

    /// How the first nogood clashes that has exactly the components of a conflict.
    pub(crate) fn why(&self, number: u64) -> Result<Answer, Stop>
        ensures answers { Asked self.now (query.Why number) result }
        ensures writable { IfOk result (IsWritable self.now) }
    {
        let engine = &self.remembered.engine;
        let standing = &self.remembered.standing;
        let Ok(found) = conflicts(self.alloc, engine, standing) else {
            return Err(Stop::OutOfMemory);
        };
        if !is_number(number, &found) {
            return Err(Stop::Refused(Refusal::NoSuchConflict));
        }
        let env = conflict_nogood(engine, standing, &found[number as usize - 1]);
        match clash_under(self.alloc, &self.present, standing, &env) {
            Ok((under, derivation)) => Ok(Answer::Explained { under, derivation }),
            Err(_) => Err(Stop::OutOfMemory),
        }
    }
}
