// The slots of what stands.

ghost use Rattle.std.specs.Prelude.{◌≡◌, ◌<◌, ◌≤◌, ℕ, Some, IfOk, length, slice_get};
ghost use Rattle.circuit_model.specs.declared.limits.TheConstants.{MOST_PARTS, MOST_READINGS};
ghost use Rattle.environment_sets.specs.declared.environment.TheConstants.{SLOTS};
ghost use Rattle.environment_sets.specs.Members.{members};
ghost use Rattle.environment_sets.specs.Lists.{IsIn};
ghost use Rattle.environment_sets.specs.Orders.{IsOrder};
ghost use Rattle.standing_view.specs.Standing.{nothing_stands, order_of, mask_of, parts_of, readings_of, IsStanding, place_among, with_part_at, with_reading_at, without_last_part_at, without_reading_at};

use circuit_model::Cell;
use circuit_model::limits::{MOST_PARTS, MOST_READINGS};
use environment_sets::Env;
use std::alloc::{AllocError, Global};
use std::marker::Model;

/// What stands: the slots of the components in order of declaration, then the slots of the standing measurements in
/// order of their cells. The slots are distinct and below [`SLOTS`](environment_sets::SLOTS), the cells rise, and the
/// limits of a present are kept. [`open`](Standing::open) takes all room.
#[derive(Drop)]
pub struct Standing {
    // of the components, then of the measurements
    order: Vec<u16>,
    // how many of the slots are components'
    parts: usize,
    // the measured cells, in order
    cells: Vec<Cell>,
    // the slots of the components
    components: Env,
    // the slots of the measurements
    measurements: Env,
}

impl Model for Standing {
    ghost use Rattle.standing_view.specs.Standing.{Stands};

    ghost Value = { Stands };

    ghost use Rattle.standing_view.specs.Kept.{stands_of, IsKept};

    ghost view = { stands_of };

    ghost invariant = { IsKept };
}

impl Standing {
    /// Nothing stands.
    pub fn open(alloc: Global) -> Result<Standing, AllocError>
        ensures { IfOk result (λ s. s ≡ nothing_stands) }
    {
        Ok(Standing {
            order: Vec::with_capacity(alloc, MOST_PARTS as usize + MOST_READINGS as usize)?,
            parts: 0,
            cells: Vec::with_capacity(alloc, MOST_READINGS as usize)?,
            components: Env::empty(),
            measurements: Env::empty(),
        })
    }

    /// The slots that stand, as an environment.
    pub fn mask(&self) -> Env
        ensures { members result ≡ mask_of self.now }
    {
        self.components.union(self.measurements)
    }

    /// The slots of the components, as an environment.
    pub fn parts(&self) -> Env
        ensures { members result ≡ parts_of self.now }
    {
        self.components
    }

    /// The slots of the measurements, as an environment.
    pub fn readings(&self) -> Env
        ensures { members result ≡ readings_of self.now }
    {
        self.measurements
    }

    /// The slots of the components, then those of the measurements.
    pub fn order(&self) -> &[u16]
        ensures value { result.now ≡ order_of self.now }
        ensures slots { IsOrder SLOTS result.now }
        ensures standing { IsStanding self.now }
    {
        &self.order
    }

    /// The slot of a component, by its place in order of declaration.
    pub fn part_slot(&self, place: u16) -> u16
        requires { place < length self.now.parts }
        ensures { slice_get self.now.parts place ≡ Some result }
    {
        self.order[place as usize]
    }

    /// The slot of a standing measurement, by its place in the order of cells.
    pub fn reading_slot(&self, place: u16) -> u16
        requires { place < length self.now.slots }
        ensures { slice_get self.now.slots place ≡ Some result }
    {
        self.order[self.parts + place as usize]
    }

    /// How many components stand, at most [`MOST_PARTS`].
    pub fn count_parts(&self) -> u16
        ensures { result ≡ length self.now.parts }
    {
        self.parts as u16
    }

    /// How many measurements stand, at most [`MOST_READINGS`].
    pub fn count_readings(&self) -> u16
        ensures value { result ≡ length self.now.cells }
        ensures standing { IsStanding self.now }
    {
        self.cells.len() as u16
    }

    /// The cell of a standing measurement, by its place in the order of cells.
    pub fn cell_at(&self, place: u16) -> Cell
        requires { place < length self.now.cells }
        ensures { slice_get self.now.cells place ≡ Some result }
    {
        self.cells[place as usize]
    }

    /// The slot of one component more stands, after those of the others.
    pub fn add_part(&mut self, slot: u16)
        requires below { slot < SLOTS }
        requires free { IsIn (order_of self.old) slot → ⊥ }
        requires room { length self.old.parts < MOST_PARTS }
        ensures { self.new ≡ with_part_at slot self.old }
    {
        match self.order.insert(self.parts, slot) {
            Ok(()) => (),
            Err(_) => unreachable!(),
        }
        self.parts += 1;
        self.components = self.components.with(slot);
    }

    /// The slot of one measurement more stands, at its cell's place in the order of cells.
    pub fn restore(&mut self, slot: u16, cell: Cell)
        requires below { slot < SLOTS }
        requires free { IsIn (order_of self.old) slot → ⊥ }
        requires unmeasured { IsIn self.old.cells cell → ⊥ }
        requires room { length self.old.cells < MOST_READINGS }
        ensures { self.new ≡ with_reading_at slot cell self.old }
    {
        let place = place_for(&self.cells, cell);
        match self.cells.insert(place, cell) {
            Ok(()) => (),
            Err(_) => unreachable!(),
        }
        match self.order.insert(self.parts + place, slot) {
            Ok(()) => (),
            Err(_) => unreachable!(),
        }
        self.measurements = self.measurements.with(slot);
    }

    /// The last component stands no more.
    pub fn drop_part(&mut self)
        requires { 0 < length self.old.parts }
        ensures { self.new ≡ without_last_part_at self.old }
    {
        let slot = self.order.remove(self.parts - 1);
        self.parts -= 1;
        self.components = self.components.without(slot);
    }

    /// The slot of a standing measurement stands no more.
    pub fn park(&mut self, slot: u16)
        requires { IsIn self.old.slots slot }
        ensures { (place : ℕ) → slice_get self.old.slots place ≡ Some slot → self.new ≡ without_reading_at place self.old }
    {
        let place = place_of_slot(&self.order[self.parts..], slot);
        self.order.remove(self.parts + place);
        self.cells.remove(place);
        self.measurements = self.measurements.without(slot);
    }
}

// The place of a slot that is among these.
fn place_of_slot(slots: &[u16], slot: u16) -> usize
    requires { IsIn slots.now slot }
    ensures { slice_get slots.now result ≡ Some slot }
{
    for (place, other) in slots.iter().enumerate() {
        if *other == slot {
            return place;
        }
    }
    unreachable!()
}

// The place of a further cell in the order of cells.
fn place_for(cells: &[Cell], cell: Cell) -> usize
    ensures within { result ≤ length cells.now }
    ensures place { result ≡ place_among cell cells.now }
{
    for (place, other) in cells.iter().enumerate() {
        if cell.comes_before(*other) {
            return place;
        }
    }
    cells.len()
}
