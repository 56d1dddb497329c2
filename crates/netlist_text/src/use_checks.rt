// The checks of a block that is used, in their order.
ghost use Rattle.std.specs.Prelude.{◌≡◌, ◌<◌, ◌≤◌, ◌==◌, IfOk, MatchOption, MatchResult, nat_lt, ◌&&◌, is_some, false, length, map, None, Some};
ghost use Rattle.std.specs.List.{list_all, All};
ghost use Rattle.std.specs.Str.{bytes_eq};
ghost use Rattle.circuit_model.specs.Present.{block_at, net_named};
ghost use Rattle.block_tree.specs.Using.{MayUse};
ghost use Rattle.netlist_text.specs.Checks as spec;
ghost use Rattle.netlist_text.specs.Found.{AreNets};
ghost use Rattle.netlist_text.specs.Lookups.{block_place, net_places, widths_at};

use crate::block_checks::pin_width_at;
use crate::finding::{has_name, net_of, width_at};
use crate::misfits::Misfit;
use crate::name_list::NameList;
use circuit_model::{Name, Pins, Present, limits};

// The places of the nets with the names, in a row, where each of them is a net.
fn row_of_nets(present: &Present, names: &NameList) -> Option<Pins>
    ensures { MatchOption result (list_all (λ net. is_some (net_named present.now net)) names.now ≡ false) (AreNets present.now names.now) }
{
    let mut row = Pins::new();
    for place in 0..names.len() {
        let Some(net) = net_of(present, &names.at(place)) else {
            return None;
        };
        row.push(net);
    }
    Some(row)
}

// Whether the definition has an inner component, and so many pins.
fn has_pins(present: &Present, block: u16, count: usize) -> bool
    requires { block < length present.now.blocks }
    ensures { result ≡ spec.has_pins (block_at present.now block) count }
{
    present.inners_of(block) > 0 && count == usize::from(present.pins_of(block))
}

// Whether each net of the row has its pin's width.
fn have_widths(present: &Present, block: u16, row: &Pins) -> bool
    requires block { block < length present.now.blocks }
    requires nets { All (λ net. net < length present.now.nets) row.now }
    requires count { length row.now ≡ length (block_at present.now block).pins }
    ensures { result ≡ bytes_eq (widths_at present.now row.now) (map (λ p. p.width) (block_at present.now block).pins) }
{
    for place in 0..row.len() {
        let width = width_at(present, row.at(place)).bits();
        if width != pin_width_at(present, block, place as u16).bits() {
            return false;
        }
    }
    true
}

/// The definition's place and the places of the nets, unless a check refuses it.
pub fn check_use(
    present: &Present,
    block: &Name,
    name: &Name,
    nets: &NameList,
) -> Result<(u16, Pins), Misfit>
    ensures checked { MatchResult result
        (λ c. (spec.first_misfit (spec.checks_of_use present.now block.now name.now nets.now) ≡ None) × (c.0 ≡ block_place present.now block.now) × (c.1 ≡ net_places present.now nets.now))
        (λ m. spec.first_misfit (spec.checks_of_use present.now block.now name.now nets.now) ≡ Some m) }
    ensures usable { IfOk result (λ c. MayUse present.now c.0 c.1) }
{
    let Some(place) = present.find_block(block) else {
        return Err(Misfit::UnknownBlock);
    };
    if has_name(present, name) {
        return Err(Misfit::NameTaken);
    }
    if !has_pins(present, place, nets.len()) {
        return Err(Misfit::WrongPinCount);
    }
    let Some(row) = row_of_nets(present, nets) else {
        return Err(Misfit::UnknownNet);
    };
    if !have_widths(present, place, &row) {
        return Err(Misfit::WidthsDisagree);
    }
    if present.parts() >= limits::MOST_PARTS {
        return Err(Misfit::ComponentsFull);
    }
    Ok((place, row))
}
