// The printed label of a cell, written without memory.
ghost use Rattle.std.specs.Prelude.{◌<◌, ◌++◌, List, codes, length};
ghost use Rattle.bench_io.specs.Writing.{Writes};
ghost use Rattle.circuit_model.specs.Printed.{Labelled, IsPrintedLabel};
ghost use Rattle.assumption_slots.specs.Slots.{stock};
ghost use Rattle.answer_text.specs.Labels.{PutsLabel, StandsIn};
ghost use Rattle.answer_text.specs.Texts.{label_lines};

use crate::texts::put_label_line;
use bench_io::{Failed, Sink, put};
use circuit_model::{Cell, Fact, Present};
use label_engine::Engine;
use standing_view::{Standing, label_after, value_after};

// A line for each environment of the fact's label, in order.
fn put_label<K: Sink>(
    sink: &mut K,
    failed: bool,
    present: &Present,
    engine: &Engine,
    standing: &Standing,
    fact: Fact,
) -> bool
    requires stands { StandsIn (stock engine.now.slots) standing.now present.now }
    requires net { fact.cell.net < length present.now.nets }
    ensures { PutsLabel present.now fact failed result (K.told sink.old) (K.told sink.new) }
{
    let mut failed = failed;
    let mut last = None;
    'environments: while let Some(env) = label_after(engine, standing, fact, last.as_ref()) {
        failed = put_label_line(sink, failed, present, fact, standing, &env);
        last = Some(env);
    }
    failed
}

/// The lines of the printed label of a cell, and `ok`.
pub fn write_label<K: Sink>(
    present: &Present,
    engine: &Engine,
    standing: &Standing,
    cell: Cell,
    sink: &mut K,
) -> Result<(), Failed>
    requires stands { StandsIn (stock engine.now.slots) standing.now present.now }
    requires net { cell.net < length present.now.nets }
    ensures { (label : List Labelled) × IsPrintedLabel present.now cell label
        × Writes (K.told sink.old) (K.told sink.new) result (label_lines present.now cell label ++ codes "ok\n") }
{
    let mut failed = false;
    let mut last = None;
    'words: while let Some(value) = value_after(engine, standing, cell, last) {
        failed = put_label(
            sink,
            failed,
            present,
            engine,
            standing,
            Fact { cell, value },
        );
        last = Some(value);
    }
    if put(sink, failed, b"ok\n") {
        return Err(Failed);
    }
    Ok(())
}
