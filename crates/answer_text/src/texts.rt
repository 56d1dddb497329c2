// How cells, facts and environments are written, without memory.
ghost use Rattle.std.specs.Prelude.{◌<◌, ◌++◌, codes, length, if◌then◌else◌};
ghost use Rattle.std.specs.List.{join_with_byte};
ghost use Rattle.answer_text.specs.Labels.{StandsForPresent};
ghost use Rattle.bench_io.specs.Puts.{Puts};
ghost use Rattle.environment_sets.specs.Members.{members};
ghost use Rattle.standing_view.specs.View.{places};
ghost use Rattle.netlist_text.specs.Show.{cell_text};
ghost use Rattle.answer_text.specs.Texts.{fact_text, component_names, parts_in, cells_in, environment_text, label_line};

use bench_io::{Sink, put, put_number, put_piece};
use circuit_model::{Cell, Fact, Present};
use environment_sets::Env;
use netlist_text::put_cell;
use standing_view::Standing;

pub fn put_fact<K: Sink>(sink: &mut K, failed: bool, present: &Present, fact: Fact) -> bool
    requires { fact.cell.net < length present.now.nets }
    ensures { Puts failed result (K.told sink.old) (K.told sink.new) (fact_text present.now fact) }
{
    let failed = put_cell(sink, failed, present, fact.cell);
    let failed = put(sink, failed, b"=");
    put_number(sink, failed, fact.value)
}

// The names of the components in the set, in order.
fn put_parts<K: Sink>(
    sink: &mut K,
    failed: bool,
    present: &Present,
    standing: &Standing,
    env: &Env,
) -> bool
    requires { StandsForPresent standing.now present.now }
    ensures { Puts failed result (K.told sink.old) (K.told sink.new) (join_with_byte 44 (component_names (parts_in (places standing.now (members env.now))) 0 present.now.parts)) }
{
    let mut failed = failed;
    let mut is_first = true;
    for place in 0..present.parts() {
        let part = present.part_at(place);
        if standing.has_part(env, place) {
            failed = put_piece(sink, failed, is_first, part.name.bytes());
            is_first = false;
        }
    }
    failed
}

/// A cell of a list, after a comma unless it is the first.
pub fn put_next_cell<K: Sink>(
    sink: &mut K,
    failed: bool,
    is_first: bool,
    present: &Present,
    cell: Cell,
) -> bool
    requires { cell.net < length present.now.nets }
    ensures { Puts failed result (K.told sink.old) (K.told sink.new) (if is_first then cell_text present.now cell else codes "," ++ cell_text present.now cell) }
{
    if is_first {
        return put_cell(sink, failed, present, cell);
    }
    let failed = put(sink, failed, b",");
    put_cell(sink, failed, present, cell)
}

// The measured cells in the set, in order.
fn put_cells<K: Sink>(
    sink: &mut K,
    failed: bool,
    present: &Present,
    standing: &Standing,
    env: &Env,
) -> bool
    requires { StandsForPresent standing.now present.now }
    ensures { Puts failed result (K.told sink.old) (K.told sink.new) (join_with_byte 44 (cells_in present.now (places standing.now (members env.now)) present.now.readings)) }
{
    let mut failed = failed;
    let mut is_first = true;
    for place in 0..present.readings() {
        let cell = present.reading(place).cell;
        if standing.has_reading(env, place) {
            failed = put_next_cell(sink, failed, is_first, present, cell);
            is_first = false;
        }
    }
    failed
}

pub fn put_environment<K: Sink>(
    sink: &mut K,
    failed: bool,
    present: &Present,
    standing: &Standing,
    env: &Env,
) -> bool
    requires { StandsForPresent standing.now present.now }
    ensures { Puts failed result (K.told sink.old) (K.told sink.new) (environment_text present.now (places standing.now (members env.now))) }
{
    let failed = put(sink, failed, b"{");
    let failed = put_parts(sink, failed, present, standing, env);
    let failed = put(sink, failed, b";");
    let failed = put_cells(sink, failed, present, standing, env);
    put(sink, failed, b"}")
}

/// A line of a label: a fact and an environment of its label.
pub fn put_label_line<K: Sink>(
    sink: &mut K,
    failed: bool,
    present: &Present,
    fact: Fact,
    standing: &Standing,
    env: &Env,
) -> bool
    requires net { fact.cell.net < length present.now.nets }
    requires stands { StandsForPresent standing.now present.now }
    ensures { Puts failed result (K.told sink.old) (K.told sink.new) (label_line present.now fact (places standing.now (members env.now))) }
{
    let failed = put_fact(sink, failed, present, fact);
    let failed = put(sink, failed, b" ");
    let failed = put_environment(sink, failed, present, standing, env);
    put(sink, failed, b"\n")
}
