// By place of a cell, the slots of the components that have a port there.

ghost use Rattle.std.specs.Prelude.{◌≡◌, ◌≢◌, ◌<◌, ℕ, false, None, Some, IfOk, slice_set, length};
ghost use Rattle.environment_sets.specs.declared.environment.TheConstants.{SLOTS};
ghost use Rattle.environment_sets.specs.Members.{members};
ghost use Rattle.assumption_slots.specs.Slots.{stock};
ghost use Rattle.assumption_slots.specs.Table.{place_of_cell, slots_at, HasCellAt, HasPortAt, HasPortOf, IsMarked, IsTable};

use circuit_model::limits::{MOST_CYCLES, MOST_NETS};
use circuit_model::{Assumption, Cell, Part};
use environment_sets::Env;
use std::alloc::{AllocError, Global};

/// Each cell has a place below this number, and no two cells of a present have the same.
pub const PLACES: usize = MOST_NETS as usize * MOST_CYCLES as usize;

/// The place of the cell.
#[tactic(auto, unfolding(crate::specs::Table::place_of_cell))]
pub fn place_of(cell: Cell) -> usize
    ensures place { result ≡ place_of_cell cell }
    ensures below { result < PLACES }
{
    (cell.net as usize * MOST_CYCLES as usize + cell.cycle as usize) % PLACES
}

/// A row for each place, with no slot.
pub fn no_rows(alloc: Global) -> Result<Vec<Env>, AllocError>
    ensures wide { IfOk result (λ rows. length rows.items ≡ PLACES) }
    ensures none { IfOk result (λ rows. (place k : ℕ) → slots_at rows.items place k ≡ false) }
{
    let mut rows = Vec::new(alloc);
    rows.resize(PLACES, Env::empty())?;
    Ok(rows)
}

// The slot is in the row, or out of it.
fn marked(row: Env, slot: u16, is_in: bool) -> Env
    requires { slot < SLOTS }
    ensures here { members result slot ≡ is_in }
    ensures others { (k : ℕ) → k ≢ slot → members result k ≡ members row k }
{
    if is_in {
        return row.with(slot);
    }
    row.without(slot)
}

// The slot is in the row of the cell, or out of it.
fn mark_cell(rows: &mut [Env], slot: u16, cell: Cell, is_in: bool)
    requires slot { slot < SLOTS }
    requires wide { length rows.old ≡ PLACES }
    ensures { IsMarked slot is_in (λ place. place_of_cell cell ≡ place) rows.old rows.new }
{
    let place = place_of(cell);
    rows[place] = marked(rows[place], slot, is_in);
}

// The slot is in the row of each cell, or out of it.
fn mark_cells(rows: &mut [Env], slot: u16, cells: [Cell; 3], is_in: bool)
    requires slot { slot < SLOTS }
    requires wide { length rows.old ≡ PLACES }
    ensures { IsMarked slot is_in (HasCellAt cells) rows.old rows.new }
{
    for port in 0..3 {
        mark_cell(rows, slot, cells[port], is_in);
    }
}

// The slot is in the row of each cell at which the component has a port, or out of it.
fn mark_part(rows: &mut [Env], slot: u16, part: &Part, is_in: bool)
    requires slot { slot < SLOTS }
    requires wide { length rows.old ≡ PLACES }
    ensures { IsMarked slot is_in (HasPortAt part.now) rows.old rows.new }
{
    for place in 0..part.len() {
        let instance = part.at(place);
        mark_cells(rows, slot, instance.cells, is_in);
    }
}

// The same for an assumption, which may be no component.
fn mark(rows: &mut [Env], slot: u16, what: &Assumption, is_in: bool)
    requires slot { slot < SLOTS }
    requires wide { length rows.old ≡ PLACES }
    ensures { IsMarked slot is_in (HasPortOf (Some what.now)) rows.old rows.new }
{
    match what {
        Assumption::Part(part) => mark_part(rows, slot, part, is_in),
        Assumption::Reading(_) => {}
    }
}

// The slot is out of each row in which what is remembered there has it.
fn unmark(list: &[Option<Assumption>], rows: &mut [Env], slot: u16)
    requires slot { slot < SLOTS }
    requires there { slot < length list.now }
    requires wide { length rows.old ≡ PLACES }
    ensures { IsMarked slot false (HasPortOf (stock list.now slot)) rows.old rows.new }
{
    match &list[slot as usize] {
        Some(what) => mark(rows, slot, what, false),
        None => {}
    }
}

/// The slot is free; what was there goes.
pub fn take_out(list: &mut [Option<Assumption>], rows: &mut [Env], slot: u16)
    requires slot { slot < SLOTS }
    requires there { slot < length list.old }
    requires table { IsTable list.old rows.old }
    ensures list { list.new ≡ slice_set list.old slot None }
    ensures table { IsTable list.new rows.new }
{
    unmark(list, rows, slot);
    list[slot as usize] = None;
}

/// The assumption is remembered at the slot; what was there goes.
pub fn put_in(list: &mut [Option<Assumption>], rows: &mut [Env], slot: u16, what: Assumption)
    requires slot { slot < SLOTS }
    requires there { slot < length list.old }
    requires table { IsTable list.old rows.old }
    ensures list { list.new ≡ slice_set list.old slot (Some what) }
    ensures table { IsTable list.new rows.new }
{
    take_out(list, rows, slot);
    mark(rows, slot, &what, true);
    list[slot as usize] = Some(what);
}
