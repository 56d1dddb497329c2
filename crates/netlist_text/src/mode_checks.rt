// The checks of modes of components, in their order.
ghost use Rattle.std.specs.Prelude.{◌≡◌, ◌≤◌, ◌<◌, IfOk, MatchOption, MatchResult, None, Some, ◌∷◌, [], not, nat_le, true, false, length, slice_get, slice_index};
ghost use Rattle.circuit_model.specs.Kinds.{MayAct};
ghost use Rattle.circuit_model.specs.Present.{IsLawfulMode};
ghost use Rattle.circuit_model.specs.declared.present.Component.{Component};
ghost use Rattle.circuit_model.specs.declared.limits.TheConstants.{MOST_MODES, LEAST_COST, MOST_COST};
ghost use Rattle.netlist_text.specs.Checks as spec;
ghost use Rattle.netlist_text.specs.Lookups.{acting_kind, acting_kind_named, is_block, last_width, may_act_as};
ghost use Rattle.netlist_text.specs.Placing.{stuck_mode, acting_mode};
ghost use Rattle.netlist_text.specs.declared.misfits.Misfit.TheVariants.{BadCost, ModesFull};

use crate::checks::is_cost;
use crate::finding::{part_of, width_at};
use crate::misfits::Misfit;
use crate::parts::{PartWord, part_named};
use circuit_model::{Component, Kind, Name, Present, limits, may_act};
use word_domain::Width;

// The last of three nets.
fn last_of(nets: [u16; 3]) -> u16
    ensures { result ≡ slice_index nets 2 }
{
    nets[2]
}

// The width of the component's last port.
fn last_width(present: &Present, place: u16) -> Width
    requires { place < length present.now.parts }
    ensures { (c : Component) → slice_get present.now.parts place ≡ Some c → result ≡ last_width present.now c }
{
    // For the proof alone: the present is lawful.
    let _parts = present.parts();
    width_at(present, last_of(present.part_at(place).nets))
}

fn is_block(component: &Component) -> bool
    ensures { result ≡ is_block component.now }
{
    component.kind.block().is_some()
}

impl PartWord {
    // The kind that a component may act as by this word, if it may act as that at all.
    fn acting_kind(self) -> Option<Kind>
        ensures { result ≡ acting_kind self }
    {
        match self {
            PartWord::Buf => Some(Kind::Buf),
            PartWord::Not => Some(Kind::Not),
            PartWord::And => Some(Kind::And),
            PartWord::Or => Some(Kind::Or),
            PartWord::Xor => Some(Kind::Xor),
            PartWord::Nand => Some(Kind::Nand),
            PartWord::Nor => Some(Kind::Nor),
            PartWord::Xnor => Some(Kind::Xnor),
            PartWord::Add => Some(Kind::Add),
            PartWord::Mul | PartWord::Const | PartWord::Reg => None,
        }
    }
}

fn acting_kind_named(name: &Name) -> Option<Kind>
    ensures { result ≡ acting_kind_named name.now }
{
    match part_named(name.bytes()) {
        Some(word) => word.acting_kind(),
        None => None,
    }
}

/// The kind with the name, where a component of the one kind may act as that: it is another one of its class.
pub fn kind_to_act(own: Kind, name: &Name) -> Option<Kind>
    ensures { MatchOption result (may_act_as own name.now ≡ false) (λ kind. (may_act_as own name.now ≡ true) × (acting_kind_named name.now ≡ Some kind) × MayAct own kind) }
{
    let Some(kind) = acting_kind_named(name) else {
        return None;
    };
    if may_act(own, kind) {
        return Some(kind);
    }
    None
}

/// The cost of the mode that the component is stuck at the value, unless a check refuses it.
pub fn check_stuck(present: &Present, name: &Name, value: u64, cost: u64) -> Result<u8, Misfit>
    ensures checked { MatchResult result (λ c. (spec.first_misfit (spec.checks_of_stuck present.now name.now value cost) ≡ None) × (c ≡ cost))
        (λ m. spec.first_misfit (spec.checks_of_stuck present.now name.now value cost) ≡ Some m) }
    ensures lawful { IfOk result (λ c. IsLawfulMode present.now (stuck_mode name.now value c)) }
{
    let Some(place) = part_of(present, name) else {
        return Err(Misfit::UnknownComponent);
    };
    if is_block(present.part_at(place)) {
        return Err(Misfit::BadMode);
    }
    if !last_width(present, place).fits(value) {
        return Err(Misfit::ValueDoesNotFit);
    }
    match check_mode(present, cost) {
        Ok(cost) => Ok(cost),
        Err(misfit) => Err(misfit),
    }
}

// The checks of a mode's cost and of the room for it.
fn check_mode(present: &Present, cost: u64) -> Result<u8, Misfit>
    ensures { MatchResult result
        (λ c. (spec.is_cost cost ≡ true) × (nat_le MOST_MODES (length present.now.modes) ≡ false) × (c ≡ cost) × (LEAST_COST ≤ c) × (c ≤ MOST_COST))
        (λ m. spec.first_misfit (
        spec.check BadCost (not (spec.is_cost cost))
        ∷ spec.check ModesFull (nat_le MOST_MODES (length present.now.modes))
        ∷ []) ≡ Some m) }
{
    if !is_cost(cost) {
        return Err(Misfit::BadCost);
    }
    if present.modes() >= limits::MOST_MODES {
        return Err(Misfit::ModesFull);
    }
    Ok(cost as u8)
}

/// The kind that the component may act as, and the cost of the mode, unless a check refuses it.
pub fn check_acts(
    present: &Present,
    name: &Name,
    kind: &Name,
    cost: u64,
) -> Result<(Kind, u8), Misfit>
    ensures checked { MatchResult result
        (λ c. (spec.first_misfit (spec.checks_of_acts present.now name.now kind.now cost) ≡ None) × (acting_kind_named kind.now ≡ Some c.0) × (c.1 ≡ cost))
        (λ m. spec.first_misfit (spec.checks_of_acts present.now name.now kind.now cost) ≡ Some m) }
    ensures lawful { IfOk result (λ c. IsLawfulMode present.now (acting_mode name.now kind.now c.1)) }
    ensures room { IfOk result (λ c. length present.now.modes < MOST_MODES) }
{
    let Some(place) = part_of(present, name) else {
        return Err(Misfit::UnknownComponent);
    };
    let Some(kind) = kind_to_act(present.part_at(place).kind, kind) else {
        return Err(Misfit::BadMode);
    };
    match check_mode(present, cost) {
        Ok(cost) => Ok((kind, cost)),
        Err(misfit) => Err(misfit),
    }
}
