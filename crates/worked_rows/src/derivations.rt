// What the checker says of derivations of the polybox, and of the same with one thing changed.

ghost use Rattle.std.specs.Prelude.{◌<◌, ◌+◌, IfOk};
ghost use Rattle.environment_sets.specs.Lists.{IsIn};
ghost use Rattle.circuit_model.specs.declared.model.Cell.{Cell};

use crate::circuits::Circuit;
use crate::presents::present_of;
use circuit_model::{Cell, Cells, Chosen, Fact, Places, Present};
use proof_check::{Derivation, Ending, Goal, Step, Steps, check};
use std::alloc::{AllocError, Global};
use std::process::Abort;
use std::test::Fail;

fn fact(net: u16, value: u64) -> Fact {
    Fact {
        cell: Cell { net, cycle: 0 },
        value,
    }
}

fn measured(net: u16, value: u64) -> Step {
    Step::Measured {
        fact: fact(net, value),
    }
}

fn inferred(net: u16, value: u64, part: u16, ports: u8, first: Fact, second: Fact) -> Step {
    Step::Inferred {
        fact: fact(net, value),
        part,
        instance: 0,
        ports,
        from: [Some(first), Some(second)],
    }
}

// A=3, B=2, D=3 and F=10 are measured, Y=6 by M2, and X=4 by A1.
fn steps_to_a_refutation(alloc: Global) -> Result<Vec<Step>, AllocError> {
    Ok(vec![in alloc;
        measured(0, 3),
        measured(1, 2),
        measured(3, 3),
        measured(8, 10),
        inferred(6, 6, 1, 3, fact(1, 2), fact(3, 3)),
        inferred(5, 4, 3, 6, fact(6, 6), fact(8, 10)),
    ]?)
}

// M1 is refuted by A=3 and X=4.
fn refutation() -> Ending {
    Ending::Refuted {
        part: 0,
        instance: 0,
        ports: 5,
        from: [Some(fact(0, 3)), Some(fact(5, 4))],
    }
}

// A=3, C=2, E=3, F=10 and G=12 are measured, X=6 by M1, Z=6 by M3, Y=4 by A1, and Y=6 by A2.
fn steps_to_two_words(alloc: Global) -> Result<Vec<Step>, AllocError> {
    Ok(vec![in alloc;
        measured(0, 3),
        measured(2, 2),
        measured(4, 3),
        measured(8, 10),
        measured(9, 12),
        inferred(5, 6, 0, 3, fact(0, 3), fact(2, 2)),
        inferred(7, 6, 2, 3, fact(2, 2), fact(4, 3)),
        inferred(6, 4, 3, 5, fact(5, 6), fact(8, 10)),
        inferred(6, 6, 4, 6, fact(7, 6), fact(9, 12)),
    ]?)
}

fn two_words() -> Ending {
    Ending::TwoValues {
        cell: Cell { net: 6, cycle: 0 },
        low: 4,
        high: 6,
    }
}

// All components, and the measured cells of the first cycle.
fn everything(alloc: Global, present: &Present) -> Result<Chosen, AllocError> {
    let parts = positions_below(alloc, present.parts())?;
    let readings = measured_cells(alloc, present)?;
    Ok(Chosen { parts, readings })
}

fn positions_below(alloc: Global, count: u16) -> Result<Places, AllocError> {
    let mut places = Places::new(alloc);
    for part in 0..count {
        places.push(part)?;
    }
    Ok(places)
}

fn measured_cells(alloc: Global, present: &Present) -> Result<Cells, AllocError> {
    let mut cells = Cells::new(alloc);
    for net in 0..present.nets() {
        push_measured(&mut cells, net, present)?;
    }
    Ok(cells)
}

fn push_measured(cells: &mut Cells, net: u16, present: &Present) -> Result<(), AllocError>
    requires { (c : Cell) → IsIn cells.old c → c.net < net }
    ensures { IfOk result (λ _. (c : Cell) → IsIn cells.new c → c.net < net + 1) }
{
    let cell = Cell { net, cycle: 0 };
    if present.reading_at(cell).is_some() {
        cells.push(cell)?;
        return Ok(());
    }
    Ok(())
}

// What is changed of the steps.
#[derive(Clone, Copy)]
enum Changed {
    Nothing,
    LeftOut(usize),
    Exchanged(usize, usize),
    OtherPorts(usize, u8),
}

// What stands at the place then, if anything does.
fn step_at(steps: &[Step], changed: Changed, place: usize) -> Option<Step> {
    match changed {
        Changed::LeftOut(left_out) if place == left_out => None,
        Changed::Exchanged(one, other) if place == one => steps.get(other).copied(),
        Changed::Exchanged(one, other) if place == other => steps.get(one).copied(),
        Changed::OtherPorts(at, ports) if place == at => with_ports(steps.get(place)?, ports),
        _ => steps.get(place).copied(),
    }
}

fn with_ports(step: &Step, ports: u8) -> Option<Step> {
    match *step {
        Step::Inferred {
            fact,
            part,
            instance,
            from,
            ..
        } => Some(Step::Inferred {
            fact,
            part,
            instance,
            ports,
            from,
        }),
        Step::Measured { .. } => None,
    }
}

// The steps with this changed.
fn with_change(alloc: Global, steps: &[Step], changed: Changed) -> Result<Steps, AllocError> {
    let mut other = Steps::new(alloc);
    for place in 0..steps.len() {
        if let Some(step) = step_at(steps, changed, place) {
            other.push(step)?;
        }
    }
    Ok(other)
}

// Of the steps to two words, which rest on which: the second of each pair uses what the first shows.
const RESTS: [(usize, usize); 8] = [
    (0, 5),
    (1, 5),
    (1, 6),
    (2, 6),
    (3, 7),
    (5, 7),
    (4, 8),
    (6, 8),
];

// By which ports those of them infer that do.
const PORTS: [(usize, u8); 4] = [(5, 3), (6, 3), (7, 5), (8, 6)];

// Where a step stands with the two exchanged.
fn moved(step: usize, one: usize, other: usize) -> usize {
    if step == one {
        other
    } else if step == other {
        one
    } else {
        step
    }
}

// Whether each step still comes after those that it rests on, with the two exchanged.
fn is_in_order(one: usize, other: usize) -> bool {
    RESTS.iter().all(|(earlier, later)| moved(*earlier, one, other) < moved(*later, one, other))
}

// What the checker is given besides the steps: a present, all of it, an ending and a goal.
#[derive(Clone, Copy)]
struct Asked<'a> {
    present: &'a Present,
    all: &'a Chosen,
    ending: Ending,
    goal: Goal,
}

// It is asked for a clash.
fn to_a_clash<'a>(present: &'a Present, all: &'a Chosen, ending: Ending) -> Asked<'a> {
    Asked {
        present,
        all,
        ending,
        goal: Goal::Clash,
    }
}

// What it says of the steps with this changed.
fn says(
    alloc: Global,
    steps: &[Step],
    changed: Changed,
    asked: &Asked<'_>,
) -> Result<bool, AllocError> {
    let derivation = Derivation {
        steps: with_change(alloc, steps, changed)?,
        ending: asked.ending,
    };
    Ok(check(&derivation, asked.present, asked.all, asked.goal))
}

// No step may be left out.
fn each_is_left_out(
    rt: &impl Abort,
    alloc: Global,
    steps: &[Step],
    asked: &Asked<'_>,
) -> Result<(), Fail> {
    for place in 0..steps.len() {
        let shown = says(alloc, steps, Changed::LeftOut(place), asked)?;
        assert!(rt; !shown, "{place}");
    }
    Ok(())
}

// A step may be exchanged with one before it exactly where all still come after those that they rest on.
fn one_is_exchanged(
    rt: &impl Abort,
    alloc: Global,
    steps: &[Step],
    asked: &Asked<'_>,
    one: usize,
) -> Result<(), Fail> {
    for other in 0..one {
        let shown = says(alloc, steps, Changed::Exchanged(other, one), asked)?;
        assert!(rt; shown == is_in_order(other, one), "{other} and {one}");
    }
    Ok(())
}

fn each_two_are_exchanged(
    rt: &impl Abort,
    alloc: Global,
    steps: &[Step],
    asked: &Asked<'_>,
) -> Result<(), Fail> {
    for one in 0..steps.len() {
        one_is_exchanged(rt, alloc, steps, asked, one)?;
    }
    Ok(())
}

// A step that is told with other ports than those that it infers by shows nothing.
fn other_ports_are_told(
    rt: &impl Abort,
    alloc: Global,
    steps: &[Step],
    asked: &Asked<'_>,
    (place, ports): (usize, u8),
) -> Result<(), Fail> {
    for told in 0..9 {
        let shown = says(alloc, steps, Changed::OtherPorts(place, told), asked)?;
        assert!(rt; shown == (told == ports), "{place} by {told}");
    }
    Ok(())
}

fn each_is_told_with_other_ports(
    rt: &impl Abort,
    alloc: Global,
    steps: &[Step],
    asked: &Asked<'_>,
) -> Result<(), Fail> {
    for step in PORTS {
        other_ports_are_told(rt, alloc, steps, asked, step)?;
    }
    Ok(())
}

// The steps to two words, and each with one thing changed; and no word is shown where the steps end so.
fn two_words_with_one_thing_changed(
    rt: &impl Abort,
    alloc: Global,
    present: &Present,
    all: &Chosen,
) -> Result<(), Fail> {
    let steps = steps_to_two_words(alloc)?;
    let asked = to_a_clash(present, all, two_words());
    assert!(rt; says(alloc, &steps, Changed::Nothing, &asked)?);
    each_is_left_out(rt, alloc, &steps, &asked)?;
    each_two_are_exchanged(rt, alloc, &steps, &asked)?;
    each_is_told_with_other_ports(rt, alloc, &steps, &asked)?;
    let value = Asked {
        goal: Goal::Value(fact(6, 4)),
        ..asked
    };
    assert!(rt; !says(alloc, &steps, Changed::Nothing, &value)?);
    Ok(())
}

// Of these steps X=4 comes last, and right after Y=6, which it is inferred from.
fn a_refutation_with_steps_exchanged(
    rt: &impl Abort,
    alloc: Global,
    present: &Present,
    all: &Chosen,
) -> Result<(), Fail> {
    let steps = steps_to_a_refutation(alloc)?;
    let asked = to_a_clash(present, all, refutation());
    for place in 1..6 {
        let changed = Changed::Exchanged(place - 1, place);
        assert!(rt;
            says(alloc, &steps, changed, &asked)? == (place != 5),
            "{place}"
        );
    }
    Ok(())
}

// The last of the steps to a refutation shows X=4, and no other word.
fn a_value_is_shown(
    rt: &impl Abort,
    alloc: Global,
    present: &Present,
    all: &Chosen,
) -> Result<(), Fail> {
    let steps = steps_to_a_refutation(alloc)?;
    for value in [4, 5] {
        let asked = Asked {
            present,
            all,
            ending: Ending::Holds,
            goal: Goal::Value(fact(5, value)),
        };
        assert!(rt;
            says(alloc, &steps, Changed::Nothing, &asked)? == (value == 4),
            "{value}"
        );
    }
    Ok(())
}

#[test]
fn derivations_with_one_thing_changed(rt: HostRuntime) -> Result<(), Fail> {
    let alloc = rt.alloc();
    let present = present_of(alloc, Circuit::Polybox.lines())?;
    let all = everything(alloc, &present)?;
    two_words_with_one_thing_changed(&rt, alloc, &present, &all)?;
    a_refutation_with_steps_exchanged(&rt, alloc, &present, &all)?;
    a_value_is_shown(&rt, alloc, &present, &all)
}
