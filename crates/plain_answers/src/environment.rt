// Sets of components and measured cells.

use crate::flags::{are_within, is_set, is_set_in, is_within, set_in};
use crate::sizes::{CYCLES, NETS, PARTS};
use circuit_model::{Cell, Present};

/// Some of the components and the measured cells of a present: components by their places, cells by their nets and
/// cycles.
#[derive(Clone, Copy, Debug)]
pub struct Environment {
    parts: [bool; PARTS],
    cells: [[bool; CYCLES]; NETS],
}

impl Environment {
    ghost use Rattle.std.specs.Prelude.{◌≡◌, ◌<◌, ◌↔◌, IsTrue};
    ghost use Rattle.environment_sets.specs.Sets.{◌⊆◌};
    ghost use Rattle.circuit_model.specs.Diagnoses.{AtPart, AtCell};
    ghost use Rattle.circuit_model.specs.declared.limits.TheConstants.{MOST_CYCLES, MOST_NETS, MOST_PARTS};
    ghost use Rattle.plain_answers.specs.Members.{members, IsPartsOf, IsWithReadings};
    ghost use Rattle.plain_answers.specs.Sets.{IsEmpty, IsWith};

    /// Nothing.
    pub fn empty() -> Environment
        ensures { IsEmpty (members result) }
    {
        Environment {
            parts: [false; PARTS],
            cells: [[false; CYCLES]; NETS],
        }
    }

    /// The same with all measured cells of the present.
    pub fn with_readings_of(self, present: &Present) -> Environment
        ensures { IsWithReadings present.now (members self) (members result) }
    {
        let mut more = self;
        for place in 0..present.readings() {
            more = more.with_cell(present.reading(place).cell);
        }
        more
    }

    /// Its components alone.
    pub fn parts_alone(&self) -> Environment
        ensures { IsPartsOf (members self.now) (members result) }
    {
        Environment {
            parts: self.parts,
            cells: [[false; CYCLES]; NETS],
        }
    }

    /// The same with a component, by its place in order of declaration.
    pub fn with_part(mut self, place: u16) -> Environment
        requires { place < MOST_PARTS }
        ensures { IsWith (members self) (AtPart place) (members result) }
    {
        self.parts[place as usize] = true;
        self
    }

    /// The same with a measured cell. A cell that is not measured says nothing.
    pub fn with_cell(mut self, cell: Cell) -> Environment
        requires net { cell.net < MOST_NETS }
        requires cycle { cell.cycle < MOST_CYCLES }
        ensures { IsWith (members self) (AtCell cell) (members result) }
    {
        set_in(&mut self.cells, cell);
        self
    }

    /// Whether the other has what it has.
    pub fn is_subset(&self, other: &Environment) -> bool
        ensures { IsTrue result ↔ (members self.now ⊆ members other.now) }
    {
        is_within(&self.parts, &other.parts) && are_within(&self.cells, &other.cells)
    }

    /// Whether it has the component at the place.
    pub fn has_part(&self, place: u16) -> bool
        ensures { result ≡ members self.now (AtPart place) }
    {
        is_set(&self.parts, place)
    }

    /// Whether it has the measured cell.
    pub fn has_cell(&self, cell: Cell) -> bool
        ensures { result ≡ members self.now (AtCell cell) }
    {
        is_set_in(&self.cells, cell)
    }
}
