// What waits, taken from any place.

use propagation_agenda::{Agenda, Newest, Oldest, Picker, Seeded};
use std::test::Fail;

// Whether the picker takes these through its bound, one after another, and then nothing waits.
fn takes_all<P: Picker>(agenda: &mut Agenda<u8>, picker: &mut P, wanted: &[u8]) -> bool {
    for item in wanted {
        if agenda.is_empty() {
            return false;
        }
        let place = picker.pick(agenda.len());
        if agenda.take_at(place) != *item {
            return false;
        }
    }
    agenda.is_empty()
}

#[test]
fn items_are_taken_from_any_place(rt: HostRuntime) -> Result<(), Fail> {
    let mut agenda = Agenda::new(rt.alloc());
    for item in [1, 2, 3, 4, 5, 6] {
        agenda.push(item)?;
    }
    assert!(rt; agenda.len() == 6);
    assert!(rt; agenda.take_at(1) == 2);
    assert!(rt; takes_all(&mut agenda, &mut Oldest, &[1, 3, 4, 5, 6]));
    for item in [1, 2, 3] {
        agenda.push(item)?;
    }
    assert!(rt; takes_all(&mut agenda, &mut Newest, &[3, 2, 1]));
    agenda.push(7)?;
    agenda.clear();
    assert!(rt; takes_all(&mut agenda, &mut Seeded::new(1_234_567), &[]));
    Ok(())
}

// The first words of SplitMix64 from the seed 1234567, as its reference code gives them, modulo 1,000.
#[test]
fn a_seed_chooses_by_its_words(rt: HostRuntime) {
    let mut seeded = Seeded::new(1_234_567);
    for wanted in [317, 973, 423, 431, 821] {
        assert!(rt; seeded.pick(1_000) == wanted);
    }
}
