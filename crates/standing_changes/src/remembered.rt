// What is remembered, and which of it stands.

ghost use Rattle.std.specs.Prelude.{◌≡◌, ◌↔◌, ◌-◌, ◌<◌, [], ◌∷◌, ℕ, None, Some, Err, IfErr, IfOk, IsTrue, List, MatchBool, length, slice_get};
ghost use Rattle.circuit_model.specs.declared.limits.TheConstants.{MOST_READINGS};
ghost use Rattle.circuit_model.specs.declared.model.Assumption.TheVariants.{Reading};
ghost use Rattle.circuit_model.specs.declared.model.Fact.{Fact};
ghost use Rattle.circuit_model.specs.Closure.{fact};
ghost use Rattle.circuit_model.specs.Present.{PresentView, IsUnusedPart, empty_present, reading_in, with_standing, without_last_part, without_standing};
ghost use Rattle.environment_sets.specs.Lists.{IsIn};
ghost use Rattle.assumption_slots.specs.Slots.{stock};
ghost use Rattle.label_engine.specs.Engine.{AreAllTaken, Remembers};
ghost use Rattle.standing_view.specs.View.{without_fact};
ghost use Rattle.standing_changes.specs.Load.{IsOverloaded, IsWithinLoad};

use circuit_model::limits::MOST_LOAD;
use circuit_model::{Assumption, Cell, Fact, Present};
use label_engine::Engine;
use propagation_agenda::Picker;
use standing_view::Standing;
use std::alloc::{AllocError, Global};
use thiserror::Error;

/// Why nothing more is remembered. All is as before.
#[derive(Clone, Copy, Debug, PartialEq, Eq, Error)]
pub enum Stop {
    /// The load would be larger than the largest that is kept.
    #[error("the load is too large")]
    LoadTooLarge,
    /// Memory ran out.
    #[error("memory ran out")]
    OutOfMemory,
}

/// What is remembered over all assumptions, and which of its slots stand.
#[derive(Drop)]
pub struct Remembered {
    /// What is remembered, with its labels and nogoods.
    pub engine: Engine,
    /// The slots that stand.
    pub standing: Standing,
}

// Whether the measurement at the place is of the cell.
fn is_cell_at(standing: &Standing, place: u16, cell: Cell) -> bool
    requires { place < length standing.now.cells }
    ensures { IsTrue result ↔ (slice_get standing.now.cells place ≡ Some cell) }
{
    standing.cell_at(place) == cell
}

// The slot of the measurement of a cell.
fn slot_of_cell(standing: &Standing, cell: Cell) -> u16
    requires { IsIn standing.now.cells cell }
    ensures { (place : ℕ) × (slice_get standing.now.cells place ≡ Some cell) × (slice_get standing.now.slots place ≡ Some result) }
{
    for place in 0..standing.count_readings() {
        if is_cell_at(standing, place, cell) {
            return standing.reading_slot(place);
        }
    }
    unreachable!()
}

impl Remembered {
    ghost use Rattle.standing_changes.specs.Remembered.{IsRemembered, Leads, StandsForSome, StandsRoomy, StandsWith};

    /// Nothing is remembered. The room for what is remembered and stands is taken here.
    pub fn open(alloc: Global) -> Result<Remembered, AllocError>
        ensures { IfOk result (λ r. StandsWith r empty_present []) }
    {
        Ok(Remembered {
            engine: Engine::open(alloc)?,
            standing: Standing::open(alloc)?,
        })
    }

    /// Whether the load of what stands is above the largest that is kept.
    pub fn is_overloaded(&self) -> bool
        requires { StandsForSome self.now }
        ensures { (s : PresentView) (parked : List Fact) → StandsWith self.now s parked → MatchBool result (IsOverloaded s) (IsWithinLoad s) }
    {
        self.engine.load_under(&self.standing.mask()) > MOST_LOAD
    }

    /// Whether the reading is remembered, standing or parked.
    pub fn is_remembered(&self, fact: Fact) -> bool
        ensures { MatchBool result (IsRemembered self.now fact) ((k : ℕ) → stock self.now.engine.slots k ≡ Some (Reading fact) → ⊥) }
    {
        self.engine.slot_of(fact).is_some()
    }

    // One assumption more is remembered. It does not stand.
    fn assume<P: Picker>(&mut self, what: Assumption, picker: &mut P) -> Result<u16, AllocError>
        requires { AreAllTaken (stock self.old.engine.slots) → ⊥ }
        ensures ok { IfOk result (λ slot. Remembers (stock self.old.engine.slots) slot what (stock self.new.engine.slots)) }
        ensures err { IfErr result (λ _. self.new.engine.slots ≡ self.old.engine.slots) }
        ensures standing { self.new.standing ≡ self.old.standing }
    {
        match self.engine.assume(what, picker) {
            Ok(slot) => Ok(slot),
            Err(label_engine::Stop::OutOfMemory) => Err(AllocError),
            Err(label_engine::Stop::NoSlot) => unreachable!(),
        }
    }

    // The last component of the present is remembered and stands.
    fn assume_part<P: Picker>(
        &mut self,
        alloc: Global,
        present: &Present,
        picker: &mut P,
    ) -> Result<(), AllocError>
        requires some { 0 < length present.now.parts }
        requires unused { IsUnusedPart present.now (length present.now.parts - 1) }
        requires stands { StandsRoomy self.old (without_last_part present.now) }
        ensures ok { IfOk result (λ _. Leads self.old self.new (without_last_part present.now) present.now (λ parked. parked)) }
        ensures err { IfErr result (λ _. Leads self.old self.new (without_last_part present.now) (without_last_part present.now) (λ parked. parked)) }
    {
        let part = present.part_at(present.parts() - 1).part.copy(alloc)?;
        let slot = self.assume(Assumption::Part(part), picker)?;
        self.standing.add_part(slot);
        Ok(())
    }

    // A measurement of the present that is not remembered is remembered and stands.
    fn assume_reading<P: Picker>(
        &mut self,
        present: &Present,
        fact: Fact,
        picker: &mut P,
    ) -> Result<(), AllocError>
        requires new { (k : ℕ) → stock self.old.engine.slots k ≡ Some (Reading fact) → ⊥ }
        requires free { reading_in (without_standing fact.cell present.now).readings fact.cell ≡ None }
        requires listed { with_standing fact (without_standing fact.cell present.now) ≡ present.now }
        requires stands { StandsRoomy self.old (without_standing fact.cell present.now) }
        ensures ok { IfOk result (λ _. Leads self.old self.new (without_standing fact.cell present.now) present.now (λ parked. parked)) }
        ensures err { IfErr result (λ _. Leads self.old self.new (without_standing fact.cell present.now) (without_standing fact.cell present.now) (λ parked. parked)) }
    {
        // For the proof alone: the present is lawful.
        let _readings = present.readings();
        let slot = self.assume(Assumption::Reading(fact), picker)?;
        self.standing.restore(slot, fact.cell);
        Ok(())
    }

    /// The last component of the present, which does not stand yet, is remembered and stands.
    pub fn add_part<P: Picker>(
        &mut self,
        alloc: Global,
        present: &Present,
        picker: &mut P,
    ) -> Result<(), Stop>
        requires some { 0 < length present.now.parts }
        requires unused { IsUnusedPart present.now (length present.now.parts - 1) }
        requires stands { StandsRoomy self.old (without_last_part present.now) }
        ensures ok { IfOk result (λ _. Leads self.old self.new (without_last_part present.now) present.now (λ parked. parked)) }
        ensures within { IfOk result (λ _. IsWithinLoad present.now) }
        ensures too_large { result ≡ Err Stop.LoadTooLarge → IsOverloaded present.now }
        ensures err { IfErr result (λ _. Leads self.old self.new (without_last_part present.now) (without_last_part present.now) (λ parked. parked)) }
    {
        let Ok(()) = self.assume_part(alloc, present, picker) else {
            return Err(Stop::OutOfMemory);
        };
        if self.is_overloaded() {
            self.drop_part();
            return Err(Stop::LoadTooLarge);
        }
        Ok(())
    }

    // A measurement of the present that is remembered stands again.
    fn measure_again(&mut self, present: &Present, fact: Fact) -> Result<(), Stop>
        requires remembered { IsRemembered self.old fact }
        requires free { reading_in (without_standing fact.cell present.now).readings fact.cell ≡ None }
        requires listed { with_standing fact (without_standing fact.cell present.now) ≡ present.now }
        requires stands { StandsRoomy self.old (without_standing fact.cell present.now) }
        ensures ok { IfOk result (λ _. Leads self.old self.new (without_standing fact.cell present.now) present.now (without_fact fact)) }
        ensures within { IfOk result (λ _. IsWithinLoad present.now) }
        ensures too_large { IfErr result (λ _. IsOverloaded present.now) }
        ensures no_memory { result ≡ Err Stop.OutOfMemory → ⊥ }
        ensures err { IfErr result (λ _. Leads self.old self.new (without_standing fact.cell present.now) (without_standing fact.cell present.now) (λ parked. parked)) }
    {
        // For the proof alone: the present is lawful.
        let _readings = present.readings();
        self.restand(fact);
        if self.is_overloaded() {
            self.park(fact.cell);
            return Err(Stop::LoadTooLarge);
        }
        Ok(())
    }

    // A measurement of the present that is not remembered is remembered and stands.
    fn measure_new<P: Picker>(
        &mut self,
        present: &Present,
        fact: Fact,
        picker: &mut P,
    ) -> Result<(), Stop>
        requires new { (k : ℕ) → stock self.old.engine.slots k ≡ Some (Reading fact) → ⊥ }
        requires free { reading_in (without_standing fact.cell present.now).readings fact.cell ≡ None }
        requires listed { with_standing fact (without_standing fact.cell present.now) ≡ present.now }
        requires stands { StandsRoomy self.old (without_standing fact.cell present.now) }
        ensures ok { IfOk result (λ _. Leads self.old self.new (without_standing fact.cell present.now) present.now (without_fact fact)) }
        ensures within { IfOk result (λ _. IsWithinLoad present.now) }
        ensures too_large { result ≡ Err Stop.LoadTooLarge → IsOverloaded present.now }
        ensures err { IfErr result (λ _. Leads self.old self.new (without_standing fact.cell present.now) (without_standing fact.cell present.now) (λ parked. parked)) }
    {
        let Ok(()) = self.assume_reading(present, fact, picker) else {
            return Err(Stop::OutOfMemory);
        };
        if self.is_overloaded() {
            self.park(fact.cell);
            self.forget_reading(fact);
            return Err(Stop::LoadTooLarge);
        }
        Ok(())
    }

    /// A measurement of the present, which does not stand yet, stands. Where it is remembered it takes no memory.
    pub fn measure<P: Picker>(
        &mut self,
        present: &Present,
        fact: Fact,
        picker: &mut P,
    ) -> Result<(), Stop>
        requires free { reading_in (without_standing fact.cell present.now).readings fact.cell ≡ None }
        requires listed { with_standing fact (without_standing fact.cell present.now) ≡ present.now }
        requires stands { StandsRoomy self.old (without_standing fact.cell present.now) }
        ensures ok { IfOk result (λ _. Leads self.old self.new (without_standing fact.cell present.now) present.now (without_fact fact)) }
        ensures within { IfOk result (λ _. IsWithinLoad present.now) }
        ensures too_large { result ≡ Err Stop.LoadTooLarge → IsOverloaded present.now }
        ensures no_memory { result ≡ Err Stop.OutOfMemory → (k : ℕ) → stock self.old.engine.slots k ≡ Some (Reading fact) → ⊥ }
        ensures err { IfErr result (λ _. Leads self.old self.new (without_standing fact.cell present.now) (without_standing fact.cell present.now) (λ parked. parked)) }
    {
        if self.is_remembered(fact) {
            return self.measure_again(present, fact);
        }
        self.measure_new(present, fact, picker)
    }

    /// A parked reading stands again. It takes no memory.
    pub fn restand(&mut self, fact: Fact)
        requires remembered { IsRemembered self.old fact }
        requires unmeasured { IsIn self.old.standing.cells fact.cell → ⊥ }
        requires room { length self.old.standing.cells < MOST_READINGS }
        requires stands { StandsForSome self.old }
        ensures { (s : PresentView) → reading_in s.readings fact.cell ≡ None → Leads self.old self.new s (with_standing fact s) (without_fact fact) }
    {
        match self.engine.slot_of(fact) {
            Some(slot) => self.standing.restore(slot, fact.cell),
            None => unreachable!(),
        }
    }

    /// The measurement of a cell stands no more and is parked. It takes no memory.
    pub fn park(&mut self, cell: Cell)
        requires { IsIn self.old.standing.cells cell }
        ensures { (s : PresentView) (v : ℕ) → reading_in s.readings cell ≡ Some v → Leads self.old self.new s (without_standing cell s) (λ parked. fact cell v ∷ parked) }
    {
        let slot = slot_of_cell(&self.standing, cell);
        self.standing.park(slot);
    }

    /// A parked reading is forgotten, and nothing else is. It takes no memory.
    pub fn forget_reading(&mut self, fact: Fact)
        requires { IsRemembered self.old fact }
        ensures { (s : PresentView) (parked : List Fact) → StandsWith self.old s parked → IsIn parked fact → StandsWith self.new s (without_fact fact parked) }
    {
        match self.engine.slot_of(fact) {
            Some(slot) => self.engine.forget(slot),
            None => unreachable!(),
        }
    }

    /// The last component stands no more and is forgotten, and nothing else is. It takes no memory.
    pub fn drop_part(&mut self)
        requires some { 0 < length self.old.standing.parts }
        requires stands { StandsForSome self.old }
        ensures { (s : PresentView) → Leads self.old self.new s (without_last_part s) (λ parked. parked) }
    {
        let slot = self.standing.part_slot(self.standing.count_parts() - 1);
        self.standing.drop_part();
        self.engine.forget(slot);
    }
}
