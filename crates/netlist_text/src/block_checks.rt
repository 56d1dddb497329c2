// The checks of definitions and of blocks, in their order.
ghost use Rattle.std.specs.Prelude.{◌≡◌, ◌≤◌, ◌<◌, IfOk, IfSome, MatchOption, MatchResult, nat_le, not, true, false, is_some, length, map, None, Some, ◌∷◌, []};
ghost use Rattle.std.specs.List.{list_all, All};
ghost use Rattle.std.specs.Str.{bytes_eq};
ghost use Rattle.circuit_model.specs.Blocks.{pin_named, inner_named, width_in, IsLawfulInner};
ghost use Rattle.circuit_model.specs.Kinds.{are_widths, fits_value, block_in, RepeatsLast};
ghost use Rattle.circuit_model.specs.Present.{block_named, block_at, is_block_in_use, net_named};
ghost use Rattle.circuit_model.specs.declared.limits.TheConstants.{MOST_INNERS};
ghost use Rattle.netlist_text.specs.declared.misfits.Misfit.TheVariants.{WidthsDisagree, ValueDoesNotFit, BlockInUse, BlockFull};
ghost use Rattle.netlist_text.specs.Checks as spec;
ghost use Rattle.netlist_text.specs.Found.{ArePins, AreNets};
ghost use Rattle.netlist_text.specs.Placing.{inner_at};
ghost use Rattle.netlist_text.specs.Lookups.{block_place, block_of, has_name_inside, pins_of, pin_widths_at, widths_at, net_places};

use crate::checks::width_of_bits;
use crate::finding::{has_name, net_of, width_at};
use crate::misfits::Misfit;
use crate::name_list::NameList;
use circuit_model::{Kind, Name, Pins, Present, are_widths, fits_value, limits};
use word_domain::Width;

/// The checks of a new definition.
pub fn check_define(present: &Present, name: &Name) -> Result<(), Misfit>
    ensures { MatchResult result (λ _. spec.first_misfit (spec.checks_of_define present.now name.now) ≡ None)
        (λ m. spec.first_misfit (spec.checks_of_define present.now name.now) ≡ Some m) }
{
    if present.find_block(name).is_some() {
        return Err(Misfit::NameTaken);
    }
    if present.blocks() >= limits::MOST_BLOCKS {
        return Err(Misfit::BlocksFull);
    }
    Ok(())
}

// Whether a pin or an inner component of the definition has the name.
fn has_name_inside(present: &Present, block: u16, name: &Name) -> bool
    requires { block < length present.now.blocks }
    ensures { result ≡ has_name_inside (block_at present.now block) name.now }
{
    present.find_pin(block, name).is_some() || present.has_inner(block, name)
}

/// The definition's place and the pin's width, unless a check refuses it.
pub fn check_pin(
    present: &Present,
    block: &Name,
    name: &Name,
    width: u64,
) -> Result<(u16, Width), Misfit>
    ensures { MatchResult result
        (λ c. (spec.first_misfit (spec.checks_of_pin present.now block.now name.now width) ≡ None) × (c.0 ≡ block_place present.now block.now) × (c.1 ≡ width))
        (λ m. spec.first_misfit (spec.checks_of_pin present.now block.now name.now width) ≡ Some m) }
{
    let Some(place) = present.find_block(block) else {
        return Err(Misfit::UnknownBlock);
    };
    if has_name_inside(present, place, name) {
        return Err(Misfit::NameTaken);
    }
    let Some(width) = width_of_bits(width) else {
        return Err(Misfit::BadWidth);
    };
    if present.is_in_use(place) {
        return Err(Misfit::BlockInUse);
    }
    if present.pins_of(place) >= limits::MOST_PINS {
        return Err(Misfit::BlockFull);
    }
    Ok((place, width))
}

/// The places of the pins with the names, where each of them is a pin of the definition.
fn pins_of(present: &Present, block: u16, names: &[Name; 3]) -> Option<[u16; 3]>
    requires { block < length present.now.blocks }
    ensures { MatchOption result (list_all (λ name. is_some (pin_named (block_at present.now block) name)) names.now ≡ false) (ArePins (block_at present.now block) names.now) }
{
    let [a, b, z] = names;
    let Some(first) = pin_of(present, block, a) else {
        return None;
    };
    let Some(second) = pin_of(present, block, b) else {
        return None;
    };
    let Some(third) = pin_of(present, block, z) else {
        return None;
    };
    Some([first, second, third])
}

// The place of the pin with the name.
fn pin_of(present: &Present, block: u16, name: &Name) -> Option<u16>
    requires { block < length present.now.blocks }
    ensures place { result ≡ pin_named (block_at present.now block) name.now }
    ensures within { IfSome result (λ place. place < length (block_at present.now block).pins) }
{
    present.find_pin(block, name)
}

pub fn pin_width_at(present: &Present, block: u16, place: u16) -> Width
    requires block { block < length present.now.blocks }
    requires place { place < length (block_at present.now block).pins }
    ensures { result ≡ width_in (block_at present.now block).pins place }
{
    present.pin_at(block, place).1
}

// The widths of three pins.
fn pin_widths_of(present: &Present, block: u16, places: &[u16; 3]) -> [Width; 3]
    requires block { block < length present.now.blocks }
    requires places { All (λ place. place < length (block_at present.now block).pins) places.now }
    ensures { result ≡ pin_widths_at (block_at present.now block) places.now }
{
    [
        pin_width_at(present, block, places[0]),
        pin_width_at(present, block, places[1]),
        pin_width_at(present, block, places[2]),
    ]
}

// The checks of an inner component of the kind whose pins have these widths, after those of its names.
fn check_inner(present: &Present, block: u16, kind: Kind, widths: &[Width; 3]) -> Result<(), Misfit>
    requires { block < length present.now.blocks }
    ensures { MatchResult result
        (λ _. (are_widths kind widths.now ≡ true) × (fits_value kind widths.now ≡ true) × (is_block_in_use present.now block ≡ false) × (nat_le MOST_INNERS (length (block_at present.now block).inners) ≡ false))
        (λ m. spec.first_misfit (
        spec.check WidthsDisagree (not (are_widths kind widths.now))
        ∷ spec.check ValueDoesNotFit (not (fits_value kind widths.now))
        ∷ spec.check BlockInUse (is_block_in_use present.now block)
        ∷ spec.check BlockFull (nat_le MOST_INNERS (length (block_at present.now block).inners))
        ∷ []) ≡ Some m) }
{
    if !are_widths(kind, widths) {
        return Err(Misfit::WidthsDisagree);
    }
    if !fits_value(kind, widths) {
        return Err(Misfit::ValueDoesNotFit);
    }
    if present.is_in_use(block) {
        return Err(Misfit::BlockInUse);
    }
    if present.inners_of(block) >= limits::MOST_INNERS {
        return Err(Misfit::BlockFull);
    }
    Ok(())
}

/// The definition's place and the places of an inner component's pins, unless a check refuses it.
pub fn check_inside(
    present: &Present,
    block: &Name,
    name: &Name,
    kind: Kind,
    pins: &[Name; 3],
) -> Result<(u16, [u16; 3]), Misfit>
    requires plain { block_in kind ≡ None }
    requires unused { RepeatsLast kind pins.now }
    ensures checked { MatchResult result
        (λ c. (spec.first_misfit (spec.checks_of_inside present.now block.now name.now kind pins.now) ≡ None) × (c.0 ≡ block_place present.now block.now) × (c.1 ≡ pins_of (block_of present.now block.now) pins.now))
        (λ m. spec.first_misfit (spec.checks_of_inside present.now block.now name.now kind pins.now) ≡ Some m) }
    ensures lawful { IfOk result (λ c. IsLawfulInner (block_at present.now c.0).pins (inner_at name.now kind c.1)) }
    ensures room { IfOk result (λ c. length (block_at present.now c.0).inners < MOST_INNERS) }
{
    let Some(place) = present.find_block(block) else {
        return Err(Misfit::UnknownBlock);
    };
    if has_name_inside(present, place, name) {
        return Err(Misfit::NameTaken);
    }
    let Some(places) = pins_of(present, place, pins) else {
        return Err(Misfit::UnknownNet);
    };
    let widths = pin_widths_of(present, place, &places);
    match check_inner(present, place, kind, &widths) {
        Ok(()) => Ok((place, places)),
        Err(misfit) => Err(misfit),
    }
}
