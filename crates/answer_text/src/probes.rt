// The line of the best next measurement, written without memory.
ghost use Rattle.std.specs.Prelude.{◌<◌, ◌++◌, codes, decimal, length};
ghost use Rattle.std.specs.Option.{ForSome};
ghost use Rattle.bench_io.specs.Puts.{Puts};
ghost use Rattle.bench_io.specs.Writing.{Writes};
ghost use Rattle.answer_text.specs.Texts.{probe_line, best_line};

use bench_io::{Failed, Sink, put};
use circuit_model::Present;
use itoa::Buffer;
use netlist_text::put_cell;
use probe_planner::Probe;

// The number in decimal digits.
fn put_large_number<K: Sink>(sink: &mut K, failed: bool, number: u128) -> bool
    ensures { Puts failed result (K.told sink.old) (K.told sink.new) (decimal number) }
{
    let mut buffer = Buffer::new();
    put(sink, failed, buffer.format(number).as_bytes())
}

// The line of a measurement.
fn put_probe<K: Sink>(sink: &mut K, failed: bool, present: &Present, probe: &Probe) -> bool
    requires { probe.now.cell.net < length present.now.nets }
    ensures { Puts failed result (K.told sink.old) (K.told sink.new) (probe_line present.now probe.now.cell probe.now.score probe.now.total) }
{
    let failed = put(sink, failed, b"probe ");
    let failed = put_cell(sink, failed, present, probe.cell);
    let failed = put(sink, failed, b" ");
    let failed = put_large_number(sink, failed, probe.score);
    let failed = put(sink, failed, b" ");
    let failed = put_large_number(sink, failed, probe.total);
    put(sink, failed, b"\n")
}

/// Puts the line of the best next measurement, or that there is none, where nothing failed before. It answers whether
/// something failed.
pub fn put_best<K: Sink>(
    sink: &mut K,
    failed: bool,
    present: &Present,
    best: &Option<Probe>,
) -> bool
    requires { ForSome best.now (λ p. p.cell.net < length present.now.nets) }
    ensures { Puts failed result (K.told sink.old) (K.told sink.new) (best_line present.now best.now) }
{
    match best {
        Some(probe) => put_probe(sink, failed, present, probe),
        None => put(sink, failed, b"probe none\n"),
    }
}

/// The line of the best next measurement, and `ok`.
pub fn write_probe<K: Sink>(
    present: &Present,
    best: &Option<Probe>,
    sink: &mut K,
) -> Result<(), Failed>
    requires { ForSome best.now (λ p. p.cell.net < length present.now.nets) }
    ensures { Writes (K.told sink.old) (K.told sink.new) result (best_line present.now best.now ++ codes "ok\n") }
{
    let failed = put_best(sink, false, present, best);
    if put(sink, failed, b"ok\n") {
        return Err(Failed);
    }
    Ok(())
}
