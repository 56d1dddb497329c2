// Minimal hitting sets after changes of the list of conflicts, and the diagnoses that they are, all and the first ones.
ghost use Rattle.std.specs.Prelude.{◌≡◌, ◌<◌, IfOk, length};
ghost use Rattle.environment_sets.specs.declared.environment.TheConstants.{SLOTS};
ghost use Rattle.environment_sets.specs.Lists.{IsListing};

use diagnosis_order::{DiagnosisStop, diagnoses};
use environment_sets::{Env, SLOTS};
use first_diagnoses::first;
use hitting_sets::Hitter;
use std::alloc::{AllocError, Global};
use std::test::Fail;

// Sets of slots.
type Sets = &'static [&'static [u16]];

// The environment with these slots.
fn of(slots: &[u16]) -> Env {
    let mut env = Env::empty();
    for slot in slots {
        if usize::from(*slot) < SLOTS {
            env = env.with(*slot);
        }
    }
    env
}

fn environments(alloc: Global, sets: &[&[u16]]) -> Result<Vec<Env>, AllocError> {
    let mut all = Vec::new(alloc);
    for set in sets {
        all.push(of(set))?;
    }
    Ok(all)
}

// Whether the lists have the same environments in the same order.
fn are_same(found: &[Env], wanted: &[Env]) -> bool {
    found.len() == wanted.len() && found.iter().zip(wanted).all(|(a, b)| *a == *b)
}

// Whether the list has exactly these environments, where none of them is repeated.
fn are_these(found: &[Env], wanted: &[Env]) -> bool {
    found.len() == wanted.len() && wanted.iter().all(|env| found.contains(env))
}

// Conflicts, and the sets that hit all of them.
const UPDATES: [(Sets, Sets); 6] = [
    (&[], &[&[]]),
    (&[&[1, 2], &[2, 3]], &[&[2], &[1, 3]]),
    (&[&[1, 2], &[3, 4]], &[&[1, 3], &[1, 4], &[2, 3], &[2, 4]]),
    (&[&[1, 2]], &[&[1], &[2]]),
    (&[], &[&[]]),
    (&[&[1, 2], &[]], &[]),
];

#[test]
fn an_update_keeps_what_is_common(rt: HostRuntime) -> Result<(), Fail> {
    let alloc = rt.alloc();
    let mut hitter = Hitter::open(alloc);
    for (i, (conflicts, wanted)) in UPDATES.iter().enumerate() {
        hitter.update(&environments(alloc, conflicts)?)?;
        let sets = environments(alloc, wanted)?;
        assert!(rt;
            are_these(hitter.sets(), &sets) && hitter.ready(),
            "row {i}"
        );
    }
    hitter.update(&[of(&[1, 2]), of(&[3])])?;
    assert!(rt; are_these(hitter.sets_of(1), &[of(&[1]), of(&[2])]));
    assert!(rt; are_these(hitter.sets_of(0), &[of(&[])]));
    Ok(())
}

// All slots, rising.
fn all_slots(alloc: Global) -> Result<Vec<u16>, AllocError>
    ensures { IfOk result (λ order. IsListing (λ i j. i < j) (λ k. k < SLOTS) order.items) }
{
    let mut order = Vec::new(alloc);
    for slot in 0..SLOTS {
        order.push(slot as u16)?;
    }
    Ok(order)
}

// What slots cost: 4 each, but the cheap ones 1; or from 1 to 40.
#[derive(Clone, Copy)]
enum Costs {
    Cheap(&'static [u16]),
    Varied,
}

fn cost_of(costs: Costs, slot: u16) -> u8 {
    match costs {
        Costs::Cheap(cheap) if cheap.contains(&slot) => 1,
        Costs::Cheap(_) => 4,
        Costs::Varied => (slot.wrapping_mul(40503) % 40) as u8 + 1,
    }
}

// The cost of each slot of the order.
fn costs_of(alloc: Global, order: &[u16], costs: Costs) -> Result<Vec<u8>, AllocError>
    ensures { IfOk result (λ costs. length costs.items ≡ length order.now) }
{
    let mut listed = Vec::new(alloc);
    for slot in order {
        listed.push(cost_of(costs, *slot))?;
    }
    Ok(listed)
}

// The diagnoses in the order of slots.
fn diagnosed(alloc: Global, conflicts: &[Env], costs: Costs) -> Result<Vec<Env>, DiagnosisStop> {
    let Ok(order) = all_slots(alloc) else {
        return Err(DiagnosisStop::OutOfMemory);
    };
    let Ok(costs) = costs_of(alloc, &order, costs) else {
        return Err(DiagnosisStop::OutOfMemory);
    };
    let mut hitter = Hitter::open(alloc);
    diagnoses(alloc, &mut hitter, conflicts, &order, &costs)
}

// The first of them.
fn firsts(
    alloc: Global,
    conflicts: &[Env],
    costs: Costs,
    k: usize,
) -> Result<Vec<Env>, AllocError> {
    let order = all_slots(alloc)?;
    let costs = costs_of(alloc, &order, costs)?;
    first(alloc, conflicts, &costs, &order, k)
}

// The conflicts of a polybox, of its five slots M1 M2 M3 A1 A2.
const POLYBOX: Sets = &[&[0, 1, 3], &[0, 2, 3, 4]];

// Conflicts, which slots are cheap, how many diagnoses are asked for, and the first ones.
const FIRSTS: [(Sets, Costs, usize, Sets); 7] = [
    (POLYBOX, Costs::Cheap(&[]), 2, &[&[0], &[3]]),
    (
        POLYBOX,
        Costs::Cheap(&[]),
        9,
        &[&[0], &[3], &[1, 2], &[1, 4]],
    ),
    (POLYBOX, Costs::Cheap(&[1, 2]), 2, &[&[1, 2], &[0]]),
    (
        POLYBOX,
        Costs::Cheap(&[1, 2]),
        9,
        &[&[1, 2], &[0], &[3], &[1, 4]],
    ),
    (&[], Costs::Cheap(&[]), 1, &[&[]]),
    (&[], Costs::Cheap(&[]), 0, &[]),
    (&[&[1], &[]], Costs::Cheap(&[]), 1, &[]),
];

#[test]
fn the_first_diagnoses(rt: HostRuntime) -> Result<(), Fail> {
    let alloc = rt.alloc();
    for (i, (conflicts, costs, k, wanted)) in FIRSTS.iter().enumerate() {
        let found = firsts(alloc, &environments(alloc, conflicts)?, *costs, *k)?;
        assert!(rt; are_same(&found, &environments(alloc, wanted)?), "row {i}");
    }
    Ok(())
}

// Whether each front of the diagnoses is what comes first.
fn are_fronts(alloc: Global, conflicts: &[Env], costs: Costs) -> Result<bool, AllocError> {
    let Ok(all) = diagnosed(alloc, conflicts, costs) else {
        return Ok(false);
    };
    for k in 0..all.len() {
        if !are_same(&firsts(alloc, conflicts, costs, k)?, &all[..k]) {
            return Ok(false);
        }
    }
    Ok(are_same(&firsts(alloc, conflicts, costs, 1000)?, &all))
}

// Conflicts, and what slots cost: of a polybox, of two, of a chain, and with some repeated.
const FRONTS: [(Sets, Costs); 7] = [
    (POLYBOX, Costs::Cheap(&[])),
    (POLYBOX, Costs::Cheap(&[1, 2])),
    (TWO_BOXES, Costs::Cheap(&[])),
    (TWO_BOXES, Costs::Cheap(&[1, 2, 6, 9])),
    (CHAIN, Costs::Cheap(&[])),
    (CHAIN, Costs::Cheap(&[7, 6, 2])),
    (&[&[8, 9], &[8, 9], &[8], &[9, 10, 8]], Costs::Cheap(&[9])),
];

const TWO_BOXES: Sets = &[&[0, 1, 3], &[0, 2, 3, 4], &[5, 6, 8], &[5, 7, 8, 9]];

const CHAIN: Sets = &[&[1, 2, 3], &[3, 4], &[5, 1], &[2, 5, 6], &[6, 4, 7]];

#[test]
fn fronts_come_first(rt: HostRuntime) -> Result<(), Fail> {
    let alloc = rt.alloc();
    for (i, (conflicts, costs)) in FRONTS.iter().enumerate() {
        let conflicts = environments(alloc, conflicts)?;
        assert!(rt; are_fronts(alloc, &conflicts, *costs)?, "row {i}");
    }
    let conflicts = overlapping(alloc, 8, 16)?;
    assert!(rt; are_fronts(alloc, &conflicts, Costs::Varied)?);
    Ok(())
}

// So many conflicts of three slots that share slots with others, of so many slots.
fn overlapping(alloc: Global, conflicts: u16, slots: u16) -> Result<Vec<Env>, AllocError>
    requires few { conflicts < 100 }
    requires some { 0 < slots }
{
    let mut listed = Vec::new(alloc);
    for i in 0..conflicts {
        listed.push(of(&[i % slots, (i + 7) % slots, (i + 13) % slots]))?;
    }
    Ok(listed)
}

// Thirty conflicts of three slots that no other one has.
fn triples(alloc: Global) -> Result<Vec<Env>, AllocError> {
    let mut conflicts = Vec::new(alloc);
    for i in 0..30 {
        conflicts.push(of(&[3 * i, 3 * i + 1, 3 * i + 2]))?;
    }
    Ok(conflicts)
}

#[test]
fn the_first_of_thirty_triples(rt: HostRuntime) -> Result<(), Fail> {
    let alloc = rt.alloc();
    let conflicts = triples(alloc)?;
    let found = firsts(alloc, &conflicts, Costs::Cheap(&[]), 10)?;
    assert_eq!(rt; found.len(), 10);
    assert!(rt; found[0].size() == 30);
    assert!(rt; found[8].has(81) && !found[9].has(81) && found[9].has(82));
    assert!(rt; firsts(alloc, &conflicts, Costs::Cheap(&[2, 44]), 1000)?.len() == 1000);
    let conflicts = overlapping(alloc, 30, 60)?;
    assert!(rt; firsts(alloc, &conflicts, Costs::Varied, 10)?.len() == 10);
    Ok(())
}

// The conflicts of so many polyboxes.
fn polyboxes(alloc: Global, boxes: u16) -> Result<Vec<Env>, AllocError>
    requires { boxes < 10 }
{
    let mut conflicts = Vec::new(alloc);
    for i in 0..boxes {
        let m1 = 5 * i;
        conflicts.push(of(&[m1, m1 + 1, m1 + 3]))?;
        conflicts.push(of(&[m1, m1 + 2, m1 + 3, m1 + 4]))?;
    }
    Ok(conflicts)
}

// M1 of six boxes, and another slot of the seventh or the sixth.
const FIRSTS_OF_SEVEN: Sets = &[
    &[0, 5, 10, 15, 20, 25, 30],
    &[0, 5, 10, 15, 20, 25, 33],
    &[0, 5, 10, 15, 20, 28, 30],
];

#[test]
fn six_polyboxes_are_listed_and_seven_are_too_many(rt: HostRuntime) -> Result<(), Fail> {
    let alloc = rt.alloc();
    let six = diagnosed(alloc, &polyboxes(alloc, 6)?, Costs::Cheap(&[]))?;
    assert!(rt; six.len() == 4096);
    let seven = polyboxes(alloc, 7)?;
    match diagnosed(alloc, &seven, Costs::Cheap(&[])) {
        Err(DiagnosisStop::TooMany { count }) => assert!(rt; count == 16384),
        _ => return Err("seven polyboxes are listed".into()),
    }
    let found = firsts(alloc, &seven, Costs::Cheap(&[]), 3)?;
    assert!(rt; are_same(&found, &environments(alloc, FIRSTS_OF_SEVEN)?));
    Ok(())
}
