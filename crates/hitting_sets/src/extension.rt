// From the minimal hitting sets of some conflicts to those of one conflict more.
ghost use Rattle.std.specs.Prelude.{◌≡◌, ◌<◌, IsTrue, IfOk, OnOk, if◌then◌else◌, ◌++◌, ◌∷◌, []};
ghost use Rattle.environment_sets.specs.declared.environment.TheConstants.{SLOTS};
ghost use Rattle.environment_sets.specs.Sets.{only, ◌∪◌, HitsEach};
ghost use Rattle.environment_sets.specs.Members.{members, HasMember};
ghost use Rattle.environment_sets.specs.Lists.{IsRoster};
ghost use Rattle.hitting_sets.specs.Hitting.{IsMinimalFor, AreMinimalFor, ComesFrom, Adds};

use crate::own::is_minimal;
use environment_sets::{Env, SLOTS};
use std::alloc::{AllocError, Global};

// The minimal hitting sets of the conflicts before and one more, from those of the conflicts before: each set that hits
// the one more stays, and each that misses it is widened by the slots of it.
pub fn extend(
    alloc: Global,
    before: &[Env],
    conflict: &Env,
    sets: &[Env],
) -> Result<Vec<Env>, AllocError>
    requires { AreMinimalFor before.now sets.now }
    ensures { IfOk result (λ found. AreMinimalFor (before.now ++ conflict.now ∷ []) found.items) }
{
    let slots = slots_of(alloc, conflict)?;
    let mut found = Vec::new(alloc);
    for set in sets {
        add_from(&mut found, before, conflict, &slots, set)?;
    }
    Ok(found)
}

// Adds what becomes of one minimal hitting set of the conflicts before.
fn add_from(
    found: &mut Vec<Env>,
    before: &[Env],
    conflict: &Env,
    slots: &[u16],
    set: &Env,
) -> Result<(), AllocError>
    requires minimal { IsMinimalFor before.now (members set.now) }
    requires slots { IsRoster (λ k. IsTrue (members conflict.now k)) slots.now }
    ensures { OnOk result (Adds (λ D. IsMinimalFor (before.now ++ conflict.now ∷ []) D × ComesFrom (members conflict.now) (members set.now) D) found.old.items found.new.items) }
{
    if set.meets(conflict) {
        found.push(*set)?;
        return Ok(());
    }
    for slot in slots {
        add_wider(found, before, conflict, set, *slot)?;
    }
    Ok(())
}

// Adds the set with one slot of the conflict, where that is minimal.
fn add_wider(
    found: &mut Vec<Env>,
    before: &[Env],
    conflict: &Env,
    set: &Env,
    slot: u16,
) -> Result<(), AllocError>
    requires hits { HitsEach (HasMember before.now) (members set.now) }
    requires slot { IsTrue (members conflict.now slot) }
    ensures { OnOk result (Adds (λ D. IsMinimalFor (before.now ++ conflict.now ∷ []) D × (D ≡ members set.now ∪ only slot)) found.old.items found.new.items) }
{
    let wider = set.with(slot);
    if is_minimal(before, conflict, &wider) {
        found.push(wider)?;
        return Ok(());
    }
    Ok(())
}

// The slots of the environment, each once.
fn slots_of(alloc: Global, env: &Env) -> Result<Vec<u16>, AllocError>
    ensures { IfOk result (λ slots. IsRoster (λ k. IsTrue (members env.now k)) slots.items) }
{
    let mut slots = Vec::new(alloc);
    for slot in 0..SLOTS {
        add_slot(&mut slots, env, slot as u16)?;
    }
    Ok(slots)
}

// Adds the slot where the environment has it.
fn add_slot(slots: &mut Vec<u16>, env: &Env, slot: u16) -> Result<(), AllocError>
    requires { slot < SLOTS }
    ensures { OnOk result (slots.new.items ≡ (if members env.now slot then slots.old.items ++ slot ∷ [] else slots.old.items)) }
{
    if env.has(slot) {
        slots.push(slot)?;
        return Ok(());
    }
    Ok(())
}
