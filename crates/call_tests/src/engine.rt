// What an engine remembers, up to its last slot.

use circuit_model::{Assumption, Cell, Fact, limits};
use environment_sets::SLOTS;
use label_engine::{Engine, Stop};
use propagation_agenda::Oldest;
use std::test::Fail;

// The zero of a cell. Cells are counted net after net, each over the most cycles.
fn zero_of(place: u16) -> Fact {
    let cycles = u16::from(limits::MOST_CYCLES);
    Fact {
        cell: Cell {
            net: place / cycles,
            cycle: (place % cycles) as u8,
        },
        value: 0,
    }
}

fn remember(engine: &mut Engine, fact: Fact) -> Result<u16, Stop> {
    engine.assume(Assumption::Reading(fact), &mut Oldest)
}

// Whether each slot is taken in turn, one assumption more is refused, and the last slot stands for its reading.
fn takes_each_slot(engine: &mut Engine) -> bool {
    for slot in 0..SLOTS as u16 {
        if remember(engine, zero_of(slot)) != Ok(slot) {
            return false;
        }
    }
    let one_more = zero_of(SLOTS as u16);
    let last = SLOTS as u16 - 1;
    remember(engine, one_more) == Err(Stop::NoSlot)
        && engine.slot_of(one_more).is_none()
        && engine.slot_of(zero_of(last)) == Some(last)
}

#[test]
fn each_slot_is_taken_and_no_other(rt: HostRuntime) -> Result<(), Fail> {
    let mut engine = Engine::open(rt.alloc())?;
    engine.exactness();
    assert!(rt; takes_each_slot(&mut engine));
    Ok(())
}
