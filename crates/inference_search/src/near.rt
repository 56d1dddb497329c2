// The cells whose words may go into one inference.

ghost use Rattle.std.specs.Prelude.{◌≡◌, ◌<◌, ◌↔◌, IfOk, IsTrue};
ghost use Rattle.environment_sets.specs.declared.environment.TheConstants.{SLOTS};
ghost use Rattle.environment_sets.specs.Lists.{IsIn, IsRoster};
ghost use Rattle.inference_search.specs.Near.{AreAdded, HasBoth, IsCellOf, IsJoinedAt, IsJoinedIn, IsNear, IsOfPart};

use assumption_slots::Slots;
use circuit_model::{Assumption, Cell, Part};
use std::alloc::{AllocError, Global};

// Whether the cell is one of these.
fn is_one_of(cells: &[Cell], cell: Cell) -> bool
    ensures { IsTrue result ↔ IsIn cells.now cell }
{
    for other in cells {
        if *other == cell {
            return true;
        }
    }
    false
}

// Adds the cell, where it is not there.
fn add_cell(cells: &mut Vec<Cell>, cell: Cell) -> Result<(), AllocError>
    ensures { IfOk result (λ _. AreAdded (λ d. d ≡ cell) cells.old.items cells.new.items) }
{
    if is_one_of(cells, cell) {
        return Ok(());
    }
    cells.push(cell)?;
    Ok(())
}

// Adds the cells, each where it is not there.
fn add_cells(cells: &mut Vec<Cell>, more: &[Cell]) -> Result<(), AllocError>
    ensures { IfOk result (λ _. AreAdded (IsIn more.now) cells.old.items cells.new.items) }
{
    for cell in more {
        add_cell(cells, *cell)?;
    }
    Ok(())
}

// Adds the cells of the component's instances.
fn add_part_cells(cells: &mut Vec<Cell>, part: &Part) -> Result<(), AllocError>
    ensures { IfOk result (λ _. AreAdded (IsOfPart part.now) cells.old.items cells.new.items) }
{
    for index in 0..part.len() {
        add_cells(cells, &part.at(index).cells)?;
    }
    Ok(())
}

// Adds those of the cells that stand beside the cell, where it is one of them.
fn add_beside(cells: &mut Vec<Cell>, of: &[Cell], cell: Cell) -> Result<(), AllocError>
    ensures { IfOk result (λ _. AreAdded (HasBoth of.now cell) cells.old.items cells.new.items) }
{
    if is_one_of(of, cell) {
        return add_cells(cells, of);
    }
    Ok(())
}

// Adds the cells of the component's instances that have the cell.
fn add_joined(cells: &mut Vec<Cell>, part: &Part, cell: Cell) -> Result<(), AllocError>
    ensures { IfOk result (λ _. AreAdded (IsJoinedIn part.now cell) cells.old.items cells.new.items) }
{
    for index in 0..part.len() {
        add_beside(cells, &part.at(index).cells, cell)?;
    }
    Ok(())
}

// The same of the component at the slot.
fn add_joined_at(
    cells: &mut Vec<Cell>,
    slots: &Slots,
    slot: u16,
    cell: Cell,
) -> Result<(), AllocError>
    requires { slot < SLOTS }
    ensures { IfOk result (λ _. AreAdded (IsJoinedAt slots.now cell slot) cells.old.items cells.new.items) }
{
    match slots.at(slot) {
        Some(Assumption::Part(part)) => add_joined(cells, part, cell),
        _ => Ok(()),
    }
}

/// The cells at which words may go into one inference with a word at the cell: the cell itself, and those of the instances of
/// remembered components that have it, each once. Of the components, those near the cell alone are looked at.
pub fn cells_near(alloc: Global, slots: &Slots, cell: Cell) -> Result<Vec<Cell>, AllocError>
    ensures { IfOk result (λ cells. IsRoster (IsNear slots.now cell) cells.items) }
{
    let mut cells = Vec::new(alloc);
    add_cell(&mut cells, cell)?;
    let near = slots.near(cell);
    let mut next = 0;
    while let Some(slot) = near.next_from(next) {
        add_joined_at(&mut cells, slots, slot, cell)?;
        next = slot + 1;
    }
    Ok(cells)
}

// Adds the cells of the component at the slot.
fn add_cells_of(cells: &mut Vec<Cell>, slots: &Slots, slot: u16) -> Result<(), AllocError>
    requires { slot < SLOTS }
    ensures { IfOk result (λ _. AreAdded (IsCellOf slots.now slot) cells.old.items cells.new.items) }
{
    match slots.at(slot) {
        Some(Assumption::Part(part)) => add_part_cells(cells, part),
        _ => Ok(()),
    }
}

/// The cells of the component at the slot, each once. There are none where the slot is free or stands for a reading.
pub fn cells_of(alloc: Global, slots: &Slots, slot: u16) -> Result<Vec<Cell>, AllocError>
    requires { slot < SLOTS }
    ensures { IfOk result (λ cells. IsRoster (IsCellOf slots.now slot) cells.items) }
{
    let mut cells = Vec::new(alloc);
    add_cells_of(&mut cells, slots, slot)?;
    Ok(cells)
}
