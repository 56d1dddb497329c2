// What is remembered, by slot.

ghost use Rattle.std.specs.Prelude.{◌≡◌, ◌<◌, ◌≤◌, ℕ, IsTrue, List, None, Some, IfOk, IfSome, IsSome, MatchOption, slice_get, slice_set, length};
ghost use Rattle.circuit_model.specs.declared.model.Instance.{Instance};
ghost use Rattle.circuit_model.specs.declared.model.Assumption.TheVariants.{Part};
ghost use Rattle.environment_sets.specs.declared.environment.TheConstants.{SLOTS};
ghost use Rattle.environment_sets.specs.Lists.{IsIn};
ghost use Rattle.environment_sets.specs.Members.{members};
ghost use Rattle.assumption_slots.specs.Slots.{stock, AreFreeFrom};
ghost use Rattle.assumption_slots.specs.Table.{place_of_cell, HasPortOf};

use crate::table::{no_rows, place_of, put_in, take_out};
use circuit_model::{Assumption, Cell};
use environment_sets::{Env, SLOTS};
use std::alloc::{AllocError, Global};
use std::marker::Model;

/// The remembered assumptions by slot, [`SLOTS`] of them; a slot may be free. Contracts see the list.
#[derive(Drop)]
pub struct Slots {
    list: Vec<Option<Assumption>>,
    // no slot from here on is taken
    end: usize,
    // by place of a cell, the slots of the components that have a port there: sets, so that no change takes memory
    near: Vec<Env>,
}

impl Model for Slots {
    ghost use Rattle.std.specs.Prelude.{List, Option};
    ghost use Rattle.circuit_model.specs.declared.model.Assumption.{Assumption};
    ghost use Rattle.assumption_slots.specs.Slots.{AreSlots};
    ghost use Rattle.assumption_slots.specs.Table.{IsTable};

    ghost Value = { List (Option Assumption) };

    ghost view = { λ s. s.list.items };

    ghost invariant = { λ s. AreSlots s.list.items s.end × IsTable s.list.items s.near.items };
}

// The first place with nothing.
fn first_none(list: &[Option<Assumption>]) -> Option<usize>
    ensures { MatchOption result ((k : ℕ) → k < length list.now → IsSome (stock list.now k)) (λ k. (k < length list.now) × (stock list.now k ≡ None)) }
{
    for (place, what) in list.iter().enumerate() {
        if what.is_none() {
            return Some(place);
        }
    }
    None
}

// Past the last place before the end that has something.
fn end_before(list: &[Option<Assumption>], end: usize) -> usize
    requires within { end ≤ length list.now }
    requires free { AreFreeFrom list.now end }
    ensures within { result ≤ length list.now }
    ensures free { AreFreeFrom list.now result }
{
    for place in (0..end).rev() {
        if list[place].is_some() {
            return place + 1;
        }
    }
    0
}

impl Slots {
    /// All slots free. Their room is taken here; an error says that there is none.
    pub fn open(alloc: Global) -> Result<Slots, AllocError>
        ensures { IfOk result (λ slots. (k : ℕ) → stock slots k ≡ None) }
    {
        let mut list = Vec::with_capacity(alloc, SLOTS)?;
        for _slot in 0..SLOTS {
            list.push(None)?;
        }
        let near = no_rows(alloc)?;
        Ok(Slots { list, end: 0, near })
    }

    /// The number of slots, free or not.
    pub fn count(&self) -> usize
        ensures all { result ≡ length self.now }
        ensures wide { result ≡ SLOTS }
    {
        self.list.len()
    }

    /// No slot from here on is taken: it is past the highest slot that is taken.
    pub fn end(&self) -> usize
        ensures free { AreFreeFrom self.now result }
        ensures within { result ≤ SLOTS }
    {
        self.end
    }

    /// What is remembered at the slot.
    pub fn at(&self, slot: u16) -> Option<&Assumption>
        requires { slot < SLOTS }
        ensures { MatchOption result (stock self.now slot ≡ None) (λ a. stock self.now slot ≡ Some a.now) }
    {
        self.list[slot as usize].as_ref()
    }

    /// The slots of the components that have a port at the cell, or at another cell of its place. No two cells of a present
    /// have the same place.
    pub fn near(&self, cell: Cell) -> &Env
        ensures complete { (k : ℕ) (part : List Instance) (instance : Instance) (p : ℕ) → stock self.now k ≡ Some (Part part) → IsIn part instance → slice_get instance.cells p ≡ Some cell → IsTrue (members result.now k) }
        ensures only { (k : ℕ) → IsTrue (members result.now k) → HasPortOf (stock self.now k) (place_of_cell cell) }
    {
        &self.near[place_of(cell)]
    }

    /// The first free slot.
    pub fn first_free(&self) -> Option<u16>
        ensures first { MatchOption result ((k : ℕ) → k < SLOTS → IsSome (stock self.now k)) (λ slot. stock self.now slot ≡ None) }
        ensures below { IfSome result (λ slot. slot < SLOTS) }
        ensures wide { length self.now ≡ SLOTS }
    {
        first_none(&self.list).map(|slot| slot as u16)
    }

    /// The assumption is remembered at the slot; what was there goes.
    pub fn set(&mut self, slot: u16, what: Assumption)
        requires { slot < SLOTS }
        ensures { self.new ≡ slice_set self.old slot (Some what) }
    {
        put_in(&mut self.list, &mut self.near, slot, what);
        self.end = self.end.max(slot as usize + 1);
    }

    /// The slot is free; what was there goes.
    pub fn clear(&mut self, slot: u16)
        requires { slot < SLOTS }
        ensures { self.new ≡ slice_set self.old slot None }
    {
        take_out(&mut self.list, &mut self.near, slot);
        self.end = end_before(&self.list, self.end);
    }
}
