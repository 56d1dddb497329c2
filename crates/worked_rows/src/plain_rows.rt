// The plain answers of known circuits, worked out by hand.

use crate::circuits::Circuit;
use crate::presents::present_of;
use circuit_model::{Cell, Fact, Present};
use plain_answers::{Environment, conflicts, diagnoses, label, nogoods};
use std::alloc::{AllocError, Global};
use std::test::Fail;

// What is asked of a present. A label is that of a word at a net, by its place, at a cycle.
#[derive(Clone, Copy)]
enum Question {
    Label(u16, u8, u64),
    Nogoods,
    Conflicts,
    Diagnoses,
}

// A circuit, a question, how many environments the answer has, and one of them: its components, and its nets measured at the
// first cycle, each a bit by its place.
type Row = (Circuit, Question, usize, u16, u16);

const ROWS: [Row; 20] = [
    (
        Circuit::Polybox,
        Question::Label(5, 0, 4),
        2,
        0b1010,
        0b100001010,
    ),
    (
        Circuit::Polybox,
        Question::Label(5, 0, 4),
        2,
        0b11100,
        0b1100010100,
    ),
    (Circuit::Polybox, Question::Label(5, 0, 6), 2, 0b1, 0b101),
    (
        Circuit::Polybox,
        Question::Label(5, 0, 6),
        2,
        0b10111,
        0b1000011011,
    ),
    (Circuit::Polybox, Question::Conflicts, 2, 0b1011, 0b0),
    (Circuit::Polybox, Question::Conflicts, 2, 0b11101, 0b0),
    (Circuit::Polybox, Question::Diagnoses, 4, 0b1, 0b0),
    (Circuit::Polybox, Question::Diagnoses, 4, 0b1000, 0b0),
    (Circuit::Polybox, Question::Diagnoses, 4, 0b110, 0b0),
    (Circuit::Polybox, Question::Diagnoses, 4, 0b10010, 0b0),
    (Circuit::ZeroAndFive, Question::Conflicts, 1, 0b1, 0b0),
    (Circuit::Zero, Question::Label(2, 0, 0), 1, 0b1, 0b1),
    (Circuit::Zero, Question::Label(1, 0, 0), 0, 0b0, 0b0),
    (Circuit::OneNetTwice, Question::Label(1, 0, 0), 1, 0b1, 0b1),
    (
        Circuit::TwoConstants,
        Question::Label(0, 0, 2),
        1,
        0b10,
        0b0,
    ),
    (Circuit::TwoConstants, Question::Nogoods, 1, 0b11, 0b0),
    (Circuit::TwoConstants, Question::Conflicts, 1, 0b11, 0b0),
    (Circuit::Register, Question::Label(1, 0, 0), 1, 0b1, 0b0),
    (Circuit::Register, Question::Label(1, 1, 5), 1, 0b1, 0b1),
    (Circuit::Register, Question::Diagnoses, 1, 0b1, 0b0),
];

fn answer(
    alloc: Global,
    present: &Present,
    question: Question,
) -> Result<Vec<Environment>, AllocError> {
    match question {
        Question::Label(net, cycle, value) => {
            let cell = Cell { net, cycle };
            label(alloc, present, Fact { cell, value })
        }
        Question::Nogoods => nogoods(alloc, present),
        Question::Conflicts => conflicts(alloc, present),
        Question::Diagnoses => diagnoses(alloc, present),
    }
}

// The environment of these components, and of these nets at the first cycle.
fn environment(parts: u16, nets: u16) -> Environment {
    let mut wanted = Environment::empty();
    for place in 0..16 {
        if parts >> place & 1 == 1 {
            wanted = wanted.with_part(place);
        }
        if nets >> place & 1 == 1 {
            wanted = wanted.with_cell(Cell {
                net: place,
                cycle: 0,
            });
        }
    }
    wanted
}

fn is_listed(all: &[Environment], wanted: &Environment) -> bool {
    all.iter()
        .any(|one| one.is_subset(wanted) && wanted.is_subset(one))
}

#[test]
fn rows(rt: HostRuntime) -> Result<(), Fail> {
    for (i, (circuit, question, count, parts, nets)) in ROWS.iter().enumerate() {
        let present = present_of(rt.alloc(), circuit.lines())?;
        let found = answer(rt.alloc(), &present, *question)?;
        assert!(rt; found.len() == *count, "row {i}");
        let wanted = environment(*parts, *nets);
        assert!(rt; *count == 0 || is_listed(&found, &wanted), "row {i}");
    }
    Ok(())
}
