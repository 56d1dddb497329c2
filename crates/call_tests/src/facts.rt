// A list of facts: each is found by itself, and those of a cell one after another.

use circuit_model::{Cell, Fact};
use fact_index::FactIndex;
use std::alloc::AllocError;
use std::test::Fail;

// The net's cell at cycle 0.
fn cell(net: u16) -> Cell {
    Cell { net, cycle: 0 }
}

// The word at cycle 0 of the net.
fn word(net: u16, value: u64) -> Fact {
    Fact {
        cell: cell(net),
        value,
    }
}

// Two words at net 1 around one at net 2, and a third at net 1 whose last thirteen bits are those of the first.
fn list_words(index: &mut FactIndex) -> Result<(), AllocError> {
    index.push(word(1, 5))?;
    index.push(word(2, 5))?;
    index.push(word(1, 6))?;
    index.push(word(1, 8197))
}

// The place of the fact before the last one at the cell.
fn second_at(index: &FactIndex, cell: Cell) -> Option<usize> {
    let last = index.last_at(cell)?;
    index.before(last)
}

#[test]
fn facts_are_found_by_a_look(rt: HostRuntime) -> Result<(), Fail> {
    let mut index = FactIndex::open(rt.alloc())?;
    assert!(rt; index.find(&word(1, 5)).is_none());
    list_words(&mut index)?;
    assert_eq!(rt; index.find(&word(1, 5)), Some(0));
    assert_eq!(rt; index.find(&word(1, 8197)), Some(3));
    assert!(rt; index.find(&word(1, 7)).is_none() && index.find(&word(3, 5)).is_none());
    index.clear();
    assert!(rt; index.find(&word(1, 5)).is_none() && index.last_at(cell(1)).is_none());
    Ok(())
}

#[test]
fn facts_of_a_cell_are_walked(rt: HostRuntime) -> Result<(), Fail> {
    let mut index = FactIndex::open(rt.alloc())?;
    list_words(&mut index)?;
    assert_eq!(rt; index.last_at(cell(1)), Some(3));
    assert_eq!(rt; second_at(&index, cell(1)), Some(2));
    assert!(rt; second_at(&index, cell(2)).is_none() && index.last_at(cell(3)).is_none());
    let mut found = Vec::new(rt.alloc());
    index.add_facts_at(&mut found, cell(2))?;
    index.add_facts_at(&mut found, cell(1))?;
    assert_eq!(rt; found.len(), 4);
    Ok(())
}
