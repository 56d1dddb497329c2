// Sets at the ends of their words, labels and nogoods.

use environment_sets::{Env, SLOTS};
use label_algebra::{Inserted, Label};
use nogood_store::Nogoods;
use std::alloc::AllocError;
use std::mem::size_of;
use std::test::Fail;

const ORDER: [u16; 3] = [1, 2, 3];

const LAST: u16 = SLOTS as u16 - 1;

#[test]
fn all_slots_are_a_set(rt: HostRuntime) {
    assert!(rt; SLOTS == 1024 && size_of::<Env>() == 128);
    let mut all = Env::empty();
    for slot in 0..SLOTS as u16 {
        let one = Env::empty().with(slot);
        assert!(rt; one.has(slot) && one.size() == 1 && one.without(slot) == Env::empty());
        all = all.with(slot);
    }
    assert!(rt; usize::from(all.size()) == SLOTS && all.without(LAST).size() == LAST);
}

#[test]
fn slots_are_gone_through(rt: HostRuntime) {
    let set = Env::empty().with(0).with(63).with(64).with(LAST);
    assert_eq!(rt; set.next_from(0), Some(0));
    assert_eq!(rt; set.next_from(1), Some(63));
    assert_eq!(rt; set.next_from(64), Some(64));
    assert_eq!(rt; set.next_from(65), Some(LAST));
    assert!(rt; set.without(LAST).next_from(65).is_none());
}

// Sets one after another, and what the insertion of each does.
fn insertions() -> [(Env, Inserted); 4] {
    let one = Env::empty().with(1);
    let three = Env::empty().with(3);
    [
        (three.with(2), Inserted::Added),
        (one, Inserted::Added),
        (one.with(2), Inserted::Covered),
        (three, Inserted::Added),
    ]
}

fn label_takes(label: &mut Label) -> Result<bool, AllocError> {
    for (set, wanted) in insertions() {
        if label.insert(set)? != wanted {
            return Ok(false);
        }
    }
    Ok(true)
}

fn nogoods_take(nogoods: &mut Nogoods) -> Result<bool, AllocError> {
    for (set, wanted) in insertions() {
        if nogoods.insert(set)? != wanted {
            return Ok(false);
        }
    }
    Ok(true)
}

#[test]
fn labels_and_nogoods_keep_minimal_members(rt: HostRuntime) -> Result<(), Fail> {
    let one = Env::empty().with(1);
    let all = one.with(2).with(3);
    let three = Some(Env::empty().with(3));
    let mut label = Label::new(rt.alloc());
    assert!(rt; label_takes(&mut label)?);
    assert!(rt; label.next_after(&ORDER, &all, Some(&one)) == three);
    let mut nogoods = Nogoods::new(rt.alloc());
    assert!(rt; nogoods_take(&mut nogoods)?);
    assert!(rt; nogoods.next_after(&ORDER, &all, Some(&one)) == three);
    Ok(())
}

// The set of slot 1 and each other slot below 60.
fn put_pairs(nogoods: &mut Nogoods) -> Result<(), AllocError> {
    for slot in 2..60 {
        nogoods.insert(Env::empty().with(1).with(slot))?;
    }
    Ok(())
}

#[test]
fn slots_complete_nogoods(rt: HostRuntime) -> Result<(), Fail> {
    let one = Env::empty().with(1);
    let mut nogoods = Nogoods::new(rt.alloc());
    put_pairs(&mut nogoods)?;
    let slots = nogoods.completing(&one, 5);
    assert!(rt; slots.size() == 57 && slots.has(59) && !slots.has(5) && !slots.has(1));
    assert!(rt; nogoods.completing(&Env::empty(), 5) == Env::empty());
    assert!(rt; nogoods.covers_at(&one.with(2), 0) && !nogoods.covers_at(&one.with(2), 1));
    assert!(rt; nogoods.insert(Env::empty())? == Inserted::Added);
    assert!(rt; nogoods.count_inside(&one) == 1 && nogoods.covers(&Env::empty()));
    assert!(rt; nogoods.completing(&one, 5) == Env::empty());
    Ok(())
}
