// What an engine tells of what stands. None of it takes memory.

ghost use Rattle.std.specs.Prelude.{◌<◌, IfSome, Some};
ghost use Rattle.std.specs.Option.{ForSome, option_map, option_copied};
ghost use Rattle.circuit_model.specs.Stock.{IsEnvironment, IsInLabel, within};
ghost use Rattle.environment_sets.specs.Walks.{GivesNext};
ghost use Rattle.environment_sets.specs.Members.{members};
ghost use Rattle.environment_sets.specs.Sets.{◌⊆◌};
ghost use Rattle.assumption_slots.specs.Slots.{stock};
ghost use Rattle.label_engine.specs.Questions.{GivesNextNumber, HasLabel, values_left};
ghost use Rattle.standing_view.specs.Standing.{mask_of, order_of};
ghost use Rattle.standing_view.specs.Asking.{GivesNextOfLabel, GivesNextWord, label_left};

use crate::standing::Standing;
use circuit_model::{Cell, Fact};
use environment_sets::Env;
use label_engine::Engine;

/// The first environment, after the last one, of the fact's label in the present that the slots stand for; `slots` says
/// the same of the slots. Calls that are each given the answer before go through the whole label, and the count of those
/// that are left falls.
pub fn label_after(
    engine: &Engine,
    standing: &Standing,
    fact: Fact,
    last: Option<&Env>,
) -> Option<Env>
    requires remembered { IsEnvironment (stock engine.now.slots) (mask_of standing.now) }
    requires inside { ForSome last (λ l. members l.now ⊆ mask_of standing.now) }
    ensures next { GivesNextOfLabel engine.now standing.now fact (option_map members (option_copied last.entry)) (option_map members result) }
    ensures slots { GivesNext (order_of standing.now) (IsInLabel (within (mask_of standing.now) (stock engine.now.slots)) fact) (mask_of standing.now) (option_map members (option_copied last.entry)) (option_map members result) }
    ensures inside { IfSome result (λ e. members e ⊆ mask_of standing.now) }
    ensures falls { IfSome result (λ e. label_left engine.now standing.now fact (Some e) < label_left engine.now standing.now fact (option_copied last.entry)) }
{
    let mask = standing.mask();
    engine.label_after(fact, &mask, standing.order(), last)
}

/// The least word above the last one, or above none, that has a label in the present that the slots stand for; `slots`
/// says the same of the slots. Calls that are each given the answer before go through all of them, and the count of those
/// that are left falls.
pub fn value_after(
    engine: &Engine,
    standing: &Standing,
    cell: Cell,
    last: Option<u64>,
) -> Option<u64>
    requires { IsEnvironment (stock engine.now.slots) (mask_of standing.now) }
    ensures next { GivesNextWord engine.now standing.now cell last result }
    ensures slots { GivesNextNumber (HasLabel (within (mask_of standing.now) (stock engine.now.slots)) cell) last result }
    ensures falls { IfSome result (λ v. values_left engine.now.kept cell (mask_of standing.now) (Some v) < values_left engine.now.kept cell (mask_of standing.now) last) }
{
    let mask = standing.mask();
    engine.values_after(cell, &mask, last)
}
