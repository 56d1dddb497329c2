// What a session answers to `diagnose`, `first` and `probe`, against the plain answers.

use crate::circuits::Circuit;
use crate::plain_probe::{Best, best_probe, cost_of};
use crate::presents::present_of;
use crate::running::{NEVER, lines_ended, ran};
use bench_cli::Status;
use circuit_model::Present;
use plain_answers::{Environment, diagnoses};
use std::alloc::{AllocError, Global};
use std::test::Fail;

// Circuits with gates, registers and costs, in most of which something was seen that does not fit.
const CIRCUITS: [Circuit; 9] = [
    Circuit::FullAdder,
    Circuit::Counter,
    Circuit::SixGates,
    Circuit::Polybox,
    Circuit::PolyboxCosts,
    Circuit::TwoRegisters,
    Circuit::RunningSum,
    Circuit::Sound,
    Circuit::Chain,
];

// Its components, by their places.
fn places_of(alloc: Global, present: &Present, set: &Environment) -> Result<Vec<u16>, AllocError> {
    let mut places = Vec::new(alloc);
    for place in 0..present.parts() {
        if set.has_part(place) {
            places.push(place)?;
        }
    }
    Ok(places)
}

// A diagnosis, by what orders it: the cost, the number of components, and their places.
type Row = (u32, usize, Vec<u16>);

// The diagnoses in order.
fn listed(alloc: Global, present: &Present, found: &[Environment]) -> Result<Vec<Row>, AllocError> {
    let mut rows = Vec::new(alloc);
    for set in found {
        let places = places_of(alloc, present, set)?;
        rows.push((cost_of(present, set), places.len(), places))?;
    }
    rows.sort()?;
    Ok(rows)
}

// Writes the reply that lists them.
fn write_rows(text: &mut Vec<u8>, present: &Present, rows: &[Row]) -> Result<(), AllocError> {
    for (_, _, places) in rows {
        write_set(text, present, places)?;
    }
    text.extend_from_slice(b"ok\n")
}

fn write_set(text: &mut Vec<u8>, present: &Present, places: &[u16]) -> Result<(), AllocError> {
    text.push(b'{')?;
    for (i, place) in places.iter().enumerate() {
        if i != 0 {
            text.push(b',')?;
        }
        if *place < present.parts() {
            text.extend_from_slice(present.part_at(*place).name.bytes())?;
        }
    }
    text.extend_from_slice(b"}\n")
}

// Writes the reply of the best next measurement.
fn write_best(
    alloc: Global,
    text: &mut Vec<u8>,
    present: &Present,
    best: Best,
) -> Result<(), AllocError> {
    text.extend_from_slice(b"probe ")?;
    if best.cell.net < present.nets() {
        text.extend_from_slice(present.net_at(best.cell.net).0.bytes())?;
    }
    if best.cell.cycle != 0 {
        text.extend_from_slice(format!(in alloc; "@{}", best.cell.cycle)?.as_bytes())?;
    }
    let numbers = format!(in alloc; " {} {}\nok\n", best.score, best.total)?;
    text.extend_from_slice(numbers.as_bytes())
}

// How many of the diagnoses come first.
const FRONT: usize = 2;

// The replies to the lines of a circuit, to `diagnose`, to `first 2` and to `probe`.
fn expected(alloc: Global, lines: &[u8]) -> Result<Vec<u8>, Fail> {
    let present = present_of(alloc, lines)?;
    replies_for(alloc, lines, &present)
}

// The same, where the lines lead to the present.
fn replies_for(alloc: Global, lines: &[u8], present: &Present) -> Result<Vec<u8>, Fail> {
    let found = diagnoses(alloc, present)?;
    let rows = listed(alloc, present, &found)?;
    let mut replies = Vec::new(alloc);
    for _line in 0..lines_ended(lines) {
        replies.extend_from_slice(b"ok\n")?;
    }
    write_rows(&mut replies, present, &rows)?;
    write_rows(&mut replies, present, &rows[..rows.len().min(FRONT)])?;
    match best_probe(alloc, present, &found)? {
        Some(best) => write_best(alloc, &mut replies, present, best)?,
        None => replies.extend_from_slice(b"probe none\nok\n")?,
    }
    Ok(replies)
}

// Whether the session ends well, and writes these replies.
fn is_answered(alloc: Global, lines: &[u8], replies: &[u8]) -> Result<bool, Fail> {
    let mut text = Vec::from_slice(alloc, lines)?;
    text.extend_from_slice(b"diagnose\nfirst 2\nprobe\n")?;
    let (status, sink) = ran(alloc, "run", &text, 1024, (NEVER, NEVER))?;
    Ok(status == Status::Done && sink.held() == replies)
}

#[test]
fn sessions_give_the_plain_answers(rt: HostRuntime) -> Result<(), Fail> {
    for (i, circuit) in CIRCUITS.iter().enumerate() {
        let lines = circuit.lines();
        let replies = expected(rt.alloc(), lines)?;
        assert!(rt; is_answered(rt.alloc(), lines, &replies)?, "circuit {i}");
    }
    Ok(())
}
