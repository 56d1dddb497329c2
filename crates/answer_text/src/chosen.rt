// Environments given by the positions of their components and by their cells, written without memory.
ghost use Rattle.std.specs.Prelude.{◌≡◌, ◌==◌, ◌++◌, codes};
ghost use Rattle.std.specs.List.{join_with_byte, list_any};
ghost use Rattle.bench_io.specs.Puts.{Puts};
ghost use Rattle.circuit_model.specs.Chosen.{chosen_places};
ghost use Rattle.circuit_model.specs.Diagnoses.{AtPart, AtCell};
ghost use Rattle.circuit_model.specs.Present.{is_cell};
ghost use Rattle.answer_text.specs.Texts.{component_names, parts_in, cells_in, environment_text};

use crate::texts::put_next_cell;
use bench_io::{Sink, put, put_piece};
use circuit_model::{Cell, Cells, Chosen, Places, Present};

// Whether the position is one of these.
fn has_position(places: &Places, position: u16) -> bool
    ensures { result ≡ list_any (λ j. j == position) places.now }
{
    for i in 0..places.len() {
        if is_equal(places.at(i), position) {
            return true;
        }
    }
    false
}

fn is_equal(one: u16, other: u16) -> bool
    ensures { result ≡ (one == other) }
{
    one == other
}

// Whether the cell is one of these.
fn has_cell(cells: &Cells, cell: Cell) -> bool
    ensures { result ≡ list_any (λ d. is_cell d cell) cells.now }
{
    for i in 0..cells.len() {
        if is_same(cells.at(i), cell) {
            return true;
        }
    }
    false
}

fn is_same(one: Cell, other: Cell) -> bool
    ensures { result ≡ is_cell one other }
{
    one.net == other.net && one.cycle == other.cycle
}

// The names of its components, in order.
fn put_chosen_parts<K: Sink>(sink: &mut K, failed: bool, present: &Present, chosen: &Chosen) -> bool
    ensures { Puts failed result (K.told sink.old) (K.told sink.new) (join_with_byte 44 (component_names (parts_in (chosen_places chosen.now)) 0 present.now.parts)) }
{
    let mut failed = failed;
    let mut is_first = true;
    for place in 0..present.parts() {
        let part = present.part_at(place);
        if has_position(&chosen.parts, place) {
            failed = put_piece(sink, failed, is_first, part.name.bytes());
            is_first = false;
        }
    }
    failed
}

// Its measured cells, in order.
fn put_chosen_cells<K: Sink>(sink: &mut K, failed: bool, present: &Present, chosen: &Chosen) -> bool
    ensures { Puts failed result (K.told sink.old) (K.told sink.new) (join_with_byte 44 (cells_in present.now (chosen_places chosen.now) present.now.readings)) }
{
    let mut failed = failed;
    let mut is_first = true;
    for place in 0..present.readings() {
        let cell = present.reading(place).cell;
        if has_cell(&chosen.readings, cell) {
            failed = put_next_cell(sink, failed, is_first, present, cell);
            is_first = false;
        }
    }
    failed
}

/// The environment.
pub fn put_chosen<K: Sink>(sink: &mut K, failed: bool, present: &Present, chosen: &Chosen) -> bool
    ensures { Puts failed result (K.told sink.old) (K.told sink.new) (environment_text present.now (chosen_places chosen.now)) }
{
    let failed = put(sink, failed, b"{");
    let failed = put_chosen_parts(sink, failed, present, chosen);
    let failed = put(sink, failed, b";");
    let failed = put_chosen_cells(sink, failed, present, chosen);
    put(sink, failed, b"}")
}
