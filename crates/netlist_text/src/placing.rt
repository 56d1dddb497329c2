// The changes of a present, each after its checks.
ghost use Rattle.std.specs.Prelude.{◌≡◌, ◌<◌, ◌-◌, IfOk, OnOk, None, length, true};
ghost use Rattle.std.specs.List.{All};
ghost use Rattle.block_tree.specs.Using.{MayUse};
ghost use Rattle.circuit_model.specs.Opening.{block_component};
ghost use Rattle.circuit_model.specs.Kinds.{RepeatsLast, are_widths, fits_value, block_in};
ghost use Rattle.circuit_model.specs.Present.{IsUnusedPart, IsLawfulComponent};
ghost use Rattle.netlist_text.specs.Found.{Places};
ghost use Rattle.netlist_text.specs.Grammar.{IsPadded};
ghost use Rattle.netlist_text.specs.Lookups.{widths_at};
ghost use Rattle.netlist_text.specs.Placing.{IsOfPresent, adds_part, component_at};
ghost use Rattle.netlist_text.specs.declared.requests.Change.TheVariants as change;

use crate::block_checks::{check_define, check_inside, check_pin};
use crate::checks::{
    check_cost, check_cycles, check_net, check_part, check_reading, check_retract,
};
use crate::finding::{has_name, nets_of, widths_of};
use crate::misfits::Misfit;
use crate::mode_checks::{check_acts, check_stuck};
use crate::name_list::NameList;
use crate::requests::Change;
use crate::use_checks::check_use;
use block_tree::use_block;
use circuit_model::{Component, Kind, Mode, Name, Pins, Present, instances_of, limits};
use std::alloc::{AllocError, Global};
use word_domain::Width;

fn cycles(present: &mut Present, count: u64) -> Result<(), Misfit>
    ensures { Places present.old (change.Cycles count) result present.new }
{
    match check_cycles(present, count) {
        Ok(count) => {
            present.set_cycles(count);
            Ok(())
        }
        Err(misfit) => Err(misfit),
    }
}

fn net(present: &mut Present, name: Name, width: u64) -> Result<(), Misfit>
    ensures { Places present.old (change.Net name width) result present.new }
{
    let width = match check_net(present, &name, width) {
        Ok(width) => width,
        Err(misfit) => return Err(misfit),
    };
    match present.add_net(name, width) {
        Ok(()) => Ok(()),
        Err(_) => Err(Misfit::OutOfMemory),
    }
}

// The component of the kind at nets that are there, with widths by the kind's rule.
fn new_component(
    present: &Present,
    alloc: Global,
    name: Name,
    kind: Kind,
    places: [u16; 3],
    widths: [Width; 3],
) -> Result<Component, AllocError>
    requires plain { block_in kind ≡ None }
    requires within { All (λ place. place < length present.now.nets) places }
    requires unused { RepeatsLast kind places }
    requires widths { widths ≡ widths_at present.now places }
    requires rule { are_widths kind widths ≡ true }
    requires value { fits_value kind widths ≡ true }
    ensures part { IfOk result (λ c. c ≡ component_at present.now name kind places) }
    ensures lawful { IfOk result (IsLawfulComponent present.now) }
{
    let part = instances_of(alloc, kind, places, widths, present.cycles())?;
    Ok(Component {
        name,
        kind,
        nets: places,
        cost: limits::USUAL_COST,
        pins: Pins::new(),
        part,
    })
}

fn part(
    present: &mut Present,
    alloc: Global,
    name: &Name,
    kind: Kind,
    nets: &[Name; 3],
) -> Result<(), Misfit>
    requires plain { block_in kind ≡ None }
    requires unused { RepeatsLast kind nets.now }
    ensures placed { Places present.old (change.Add name.now kind nets.now) result present.new }
    ensures unused { OnOk result (IsUnusedPart present.new (length present.new.parts - 1)) }
{
    if has_name(present, name) {
        return Err(Misfit::NameTaken);
    }
    let Some(places) = nets_of(present, nets) else {
        return Err(Misfit::UnknownNet);
    };
    let widths = widths_of(present, &places);
    if let Err(misfit) = check_part(present, kind, &widths) {
        return Err(misfit);
    }
    let Ok(component) = new_component(present, alloc, *name, kind, places, widths) else {
        return Err(Misfit::OutOfMemory);
    };
    match present.add_part(component) {
        Ok(()) => Ok(()),
        Err(_) => Err(Misfit::OutOfMemory),
    }
}

fn cost(present: &mut Present, name: &Name, cost: u64) -> Result<(), Misfit>
    ensures { Places present.old (change.Cost name.now cost) result present.new }
{
    match check_cost(present, name, cost) {
        Ok((place, cost)) => {
            present.set_cost(place, cost);
            Ok(())
        }
        Err(misfit) => Err(misfit),
    }
}

fn measure(present: &mut Present, net: &Name, cycle: u64, value: u64) -> Result<(), Misfit>
    ensures { Places present.old (change.Measure net.now cycle value) result present.new }
{
    match check_reading(present, net, cycle, value) {
        Ok(fact) => {
            present.set_reading(fact);
            Ok(())
        }
        Err(misfit) => Err(misfit),
    }
}

fn retract(present: &mut Present, net: &Name, cycle: u64) -> Result<(), Misfit>
    ensures { Places present.old (change.Retract net.now cycle) result present.new }
{
    match check_retract(present, net, cycle) {
        Ok(cell) => {
            present.clear_reading(cell);
            Ok(())
        }
        Err(misfit) => Err(misfit),
    }
}

fn stuck(present: &mut Present, name: Name, value: u64, cost: u64) -> Result<(), Misfit>
    ensures { Places present.old (change.Stuck name value cost) result present.new }
{
    let cost = match check_stuck(present, &name, value, cost) {
        Ok(cost) => cost,
        Err(misfit) => return Err(misfit),
    };
    match present.add_mode(name, Mode::Stuck { value }, cost) {
        Ok(()) => Ok(()),
        Err(_) => Err(Misfit::OutOfMemory),
    }
}

fn acts(present: &mut Present, name: Name, kind: &Name, cost: u64) -> Result<(), Misfit>
    ensures { Places present.old (change.Acts name kind.now cost) result present.new }
{
    let (kind, cost) = match check_acts(present, &name, kind, cost) {
        Ok(checked) => checked,
        Err(misfit) => return Err(misfit),
    };
    match present.add_mode(name, Mode::Acts { kind }, cost) {
        Ok(()) => Ok(()),
        Err(_) => Err(Misfit::OutOfMemory),
    }
}

fn define(present: &mut Present, block: Name) -> Result<(), Misfit>
    ensures { Places present.old (change.Define block) result present.new }
{
    if let Err(misfit) = check_define(present, &block) {
        return Err(misfit);
    }
    match present.define(block) {
        Ok(()) => Ok(()),
        Err(_) => Err(Misfit::OutOfMemory),
    }
}

fn pin(present: &mut Present, block: &Name, name: Name, width: u64) -> Result<(), Misfit>
    ensures { Places present.old (change.Pin block.now name width) result present.new }
{
    let (block, width) = match check_pin(present, block, &name, width) {
        Ok(checked) => checked,
        Err(misfit) => return Err(misfit),
    };
    match present.pin(block, name, width) {
        Ok(()) => Ok(()),
        Err(_) => Err(Misfit::OutOfMemory),
    }
}

fn inside(
    present: &mut Present,
    block: &Name,
    name: Name,
    kind: Kind,
    pins: &[Name; 3],
) -> Result<(), Misfit>
    requires plain { block_in kind ≡ None }
    requires unused { RepeatsLast kind pins.now }
    ensures { Places present.old (change.Inside block.now name kind pins.now) result present.new }
{
    let (block, pins) = match check_inside(present, block, &name, kind, pins) {
        Ok(checked) => checked,
        Err(misfit) => return Err(misfit),
    };
    match present.inside(block, name, kind, pins) {
        Ok(()) => Ok(()),
        Err(_) => Err(Misfit::OutOfMemory),
    }
}

// The nets of a row.
fn nets_in(alloc: Global, row: &Pins) -> Result<Vec<u16>, AllocError>
    ensures { IfOk result (λ nets. nets.items ≡ row.now) }
{
    let mut nets = Vec::with_capacity(alloc, row.len())?;
    for place in 0..row.len() {
        nets.push(row.at(place))?;
    }
    Ok(nets)
}

fn new_block(
    alloc: Global,
    present: &Present,
    block: u16,
    name: Name,
    row: &Pins,
) -> Result<Component, AllocError>
    requires { MayUse present.now block row.now }
    ensures part { IfOk result (λ c. c ≡ block_component present.now block name row.now) }
    ensures lawful { IfOk result (IsLawfulComponent present.now) }
{
    let nets = nets_in(alloc, row)?;
    use_block(alloc, present, block, name, &nets)
}

fn block(
    present: &mut Present,
    alloc: Global,
    block: &Name,
    name: Name,
    nets: &NameList,
) -> Result<(), Misfit>
    ensures placed { Places present.old (change.UseBlock block.now name nets.now) result present.new }
    ensures unused { OnOk result (IsUnusedPart present.new (length present.new.parts - 1)) }
{
    let (block, row) = match check_use(present, block, &name, nets) {
        Ok(checked) => checked,
        Err(misfit) => return Err(misfit),
    };
    let Ok(component) = new_block(alloc, present, block, name, &row) else {
        return Err(Misfit::OutOfMemory);
    };
    match present.add_part(component) {
        Ok(()) => Ok(()),
        Err(_) => Err(Misfit::OutOfMemory),
    }
}

/// Makes the change, after the checks of its line, in their order. Where a check refuses it, or memory is wanting, the
/// present is as before. `undo` is no change of a present alone; the load is not looked at.
pub fn place(alloc: Global, change: &Change, present: &mut Present) -> Result<(), Misfit>
    requires padded { IsPadded change.now }
    requires of_present { IsOfPresent change.now }
    ensures placed { Places present.old change.now result present.new }
    ensures unused { OnOk result (adds_part change.now ≡ true → IsUnusedPart present.new (length present.new.parts - 1)) }
{
    match change {
        Change::Cycles { count } => cycles(present, *count),
        Change::Net { name, width } => net(present, *name, *width),
        Change::Add { name, kind, nets } => part(present, alloc, name, *kind, nets),
        Change::Cost { name, cost: value } => cost(present, name, *value),
        Change::Stuck { name, value, cost } => stuck(present, *name, *value, *cost),
        Change::Acts { name, kind, cost } => acts(present, *name, kind, *cost),
        Change::Define { block } => define(present, *block),
        Change::Pin { block, name, width } => pin(present, block, *name, *width),
        Change::Inside {
            block,
            name,
            kind,
            nets,
        } => inside(present, block, *name, *kind, nets),
        Change::UseBlock {
            block: used,
            name,
            nets,
        } => block(present, alloc, used, *name, nets),
        Change::Measure { net, cycle, value } => measure(present, net, *cycle, *value),
        Change::Retract { net, cycle } => retract(present, net, *cycle),
        Change::Undo => unreachable!(),
    }
}
