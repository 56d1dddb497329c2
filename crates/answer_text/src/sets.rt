// Sets of components, written without memory.
ghost use Rattle.std.specs.Prelude.{◌++◌, codes};
ghost use Rattle.std.specs.List.{join_with_byte};
ghost use Rattle.bench_io.specs.Writing.{Writes};
ghost use Rattle.environment_sets.specs.Members.{members, sets};
ghost use Rattle.bench_io.specs.Puts.{Puts};
ghost use Rattle.answer_text.specs.Texts.{component_names, components_text, components_lines};

use bench_io::{Failed, Sink, put, put_piece};
use circuit_model::Present;
use environment_sets::{Env, EnvList};

// The names of the components at these positions, in order.
fn put_components<K: Sink>(sink: &mut K, failed: bool, present: &Present, positions: &Env) -> bool
    ensures { Puts failed result (K.told sink.old) (K.told sink.new) (join_with_byte 44 (component_names (members positions.now) 0 present.now.parts)) }
{
    let mut failed = failed;
    let mut is_first = true;
    for place in 0..present.parts() {
        let part = present.part_at(place);
        if positions.has(place) {
            failed = put_piece(sink, failed, is_first, part.name.bytes());
            is_first = false;
        }
    }
    failed
}

// The line of a set of components.
fn put_set<K: Sink>(sink: &mut K, failed: bool, present: &Present, positions: &Env) -> bool
    ensures { Puts failed result (K.told sink.old) (K.told sink.new) (components_text present.now (members positions.now) ++ codes "\n") }
{
    let failed = put(sink, failed, b"{");
    let failed = put_components(sink, failed, present, positions);
    let failed = put(sink, failed, b"}");
    put(sink, failed, b"\n")
}

/// A line for each set of components, and `ok`.
pub fn write_sets<K: Sink>(present: &Present, found: &EnvList, sink: &mut K) -> Result<(), Failed>
    ensures { Writes (K.told sink.old) (K.told sink.new) result (components_lines present.now (sets found.now) ++ codes "ok\n") }
{
    let mut failed = false;
    for i in 0..found.len() {
        failed = put_set(sink, failed, present, &found.at(i));
    }
    if put(sink, failed, b"ok\n") {
        return Err(Failed);
    }
    Ok(())
}
