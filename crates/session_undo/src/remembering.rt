// What is remembered, after a change and once it is taken back.
ghost use Rattle.std.specs.Prelude.{◌≡◌, ◌∷◌, take, IsSome, MatchBool};
ghost use Rattle.circuit_model.specs.Present.{reading_in, without_standing};
ghost use Rattle.circuit_model.specs.declared.limits.TheConstants.{MOST_EARLIER};
ghost use Rattle.present_history.specs.Earlier.{measures};
ghost use Rattle.present_history.specs.Undoing.{MayUndo, undone};
ghost use Rattle.standing_changes.specs.Remembered.{StandsWith};
ghost use Rattle.session_undo.specs.Remembering.{parked, IsOut};

use circuit_model::{Cell, Fact, Present};
use present_history::{History, Undoing};
use standing_changes::Remembered;

// Whether the present measures it.
fn stands(present: &Present, fact: Fact) -> bool
    ensures { result ≡ measures present.now fact }
{
    match present.reading_at(fact.cell) {
        Some(word) => word == fact.value,
        None => false,
    }
}

// Whether the measurement stands in the present, or was retracted by one of the changes.
fn is_kept(present: &Present, history: &History, fact: Fact) -> bool
    ensures { MatchBool result (IsOut history.now present.now fact) (IsOut history.now present.now fact → ⊥) }
{
    history.has_retracted(fact) || stands(present, fact)
}

/// The change that was made goes into the history. What only the oldest change kept is forgotten, where that one goes.
pub fn note(history: &mut History, remembered: &mut Remembered, present: &Present, undoing: Undoing)
    requires stands { StandsWith remembered.old present.now (parked present.now (undoing ∷ history.old)) }
    ensures history { history.new ≡ take MOST_EARLIER (undoing ∷ history.old) }
    ensures stands { StandsWith remembered.new present.now (parked present.now history.new) }
{
    let Some(oldest) = history.push(undoing) else {
        return;
    };
    let Some(fact) = oldest.retracted() else {
        return;
    };
    if !is_kept(present, history, fact) {
        remembered.forget_reading(fact);
    }
}

// The measurement of the cell stands no more. It is forgotten, unless it stood before.
fn take_out(remembered: &mut Remembered, present: &Present, history: &History, cell: Cell)
    requires measured { IsSome (reading_in present.now.readings cell) }
    requires stands { StandsWith remembered.old present.now (parked present.now history.now) }
    ensures { StandsWith remembered.new (without_standing cell present.now) (parked (without_standing cell present.now) history.now) }
{
    // For the proof alone: the present is lawful.
    let _readings = present.readings();
    let Some(value) = present.reading_at(cell) else {
        return;
    };
    remembered.park(cell);
    let fact = Fact { cell, value };
    if !history.has_retracted(fact) {
        remembered.forget_reading(fact);
    }
}

/// What stands, and is remembered, once a change is taken back; `history` has the changes before it. It takes no memory.
pub fn step_back(
    remembered: &mut Remembered,
    present: &Present,
    history: &History,
    undoing: Undoing,
)
    requires may { MayUndo undoing present.now }
    requires stands { StandsWith remembered.old present.now (parked present.now (undoing ∷ history.now)) }
    ensures { StandsWith remembered.new (undone undoing present.now) (parked (undone undoing present.now) history.now) }
{
    match undoing {
        Undoing::Cycles { .. }
        | Undoing::Net
        | Undoing::Cost { .. }
        | Undoing::Mode
        | Undoing::Block
        | Undoing::Pin { .. }
        | Undoing::Inner { .. } => {}
        Undoing::Part => remembered.drop_part(),
        Undoing::Measured { cell } => take_out(remembered, present, history, cell),
        Undoing::Retracted { fact } => remembered.restand(fact),
    }
}
