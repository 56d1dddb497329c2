// Truth values in rows, and rows of them.

ghost use Rattle.std.specs.Prelude.{◌≡◌, ◌≢◌, ◌↔◌, IsTrue, ℕ, ◌<◌, length, true, false, slice_index_or};
ghost use Rattle.circuit_model.specs.declared.model.Cell.{Cell};
ghost use Rattle.circuit_model.specs.declared.limits.TheConstants.{MOST_CYCLES};
ghost use Rattle.plain_answers.specs.Members.{flag_at};

use crate::sizes::CYCLES;
use circuit_model::Cell;

/// The value at a place, false past the end.
pub fn is_set(flags: &[bool], place: u16) -> bool
    ensures { result ≡ slice_index_or flags.now place false }
{
    is_set_at(flags, place as usize)
}

/// Whether what is set is set in the other row.
pub fn is_within(flags: &[bool], others: &[bool]) -> bool
    ensures { IsTrue result ↔ ((k : ℕ) → IsTrue (slice_index_or flags.now k false) → IsTrue (slice_index_or others.now k false)) }
{
    for (place, flag) in flags.iter().enumerate() {
        if *flag && !is_set_at(others, place) {
            return false;
        }
    }
    true
}

/// The value at a place, false past the end.
fn is_set_at(flags: &[bool], place: usize) -> bool
    ensures { result ≡ slice_index_or flags.now place false }
{
    match flags.get(place) {
        Some(flag) => *flag,
        None => false,
    }
}

/// The value at a cell, where each net has a row, false past the ends.
pub fn is_set_in(rows: &[[bool; CYCLES]], cell: Cell) -> bool
    ensures { result ≡ flag_at rows.now cell }
{
    match rows.get(cell.net as usize) {
        Some(row) => is_set_at(row, cell.cycle as usize),
        None => false,
    }
}

/// Sets the value at a cell.
pub fn set_in(rows: &mut [[bool; CYCLES]], cell: Cell)
    requires net { cell.net < length rows.old }
    requires cycle { cell.cycle < MOST_CYCLES }
    ensures here { flag_at rows.new cell ≡ true }
    ensures elsewhere { (c : Cell) → c ≢ cell → flag_at rows.new c ≡ flag_at rows.old c }
{
    rows[cell.net as usize][cell.cycle as usize] = true;
}

/// Whether what is set is set in the other rows.
pub fn are_within(rows: &[[bool; CYCLES]], others: &[[bool; CYCLES]]) -> bool
    requires { length rows.now ≡ length others.now }
    ensures { IsTrue result ↔ ((c : Cell) → IsTrue (flag_at rows.now c) → IsTrue (flag_at others.now c)) }
{
    for (net, row) in rows.iter().enumerate() {
        if !is_within(row, &others[net]) {
            return false;
        }
    }
    true
}
