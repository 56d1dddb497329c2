// An environment of a present: which components it has, and which measured cells.

ghost use Rattle.std.specs.Prelude.{◌≡◌, ◌<◌, ℕ, [], ◌∷◌, ◌++◌, length, slice_get, Some, IsTrue, OnOk, OnErr};
ghost use Rattle.environment_sets.specs.Lists.{IsIn};
ghost use Rattle.circuit_model.specs.declared.model.Cell.{Cell};
ghost use Rattle.circuit_model.specs.Present.{is_cell_before};
ghost use Rattle.circuit_model.specs.Places.{ArePositions, AreCells};

use crate::model::Cell;
use std::alloc::{AllocError, Global};
use std::marker::Model;

/// Positions of components in order of declaration, counted from 0. Each is above the one before.
#[derive(Drop)]
pub struct Places {
    list: Vec<u16>,
}

impl Model for Places {
    ghost use Rattle.std.specs.Prelude.{ℕ, List};
    ghost use Rattle.circuit_model.specs.Places.{ArePositions};

    ghost Value = { List ℕ };

    ghost view = { λ p. p.list.items };

    ghost invariant = { λ p. ArePositions p.list.items };
}

impl Places {
    /// No position. It takes no memory.
    pub fn new(alloc: Global) -> Places
        ensures { result ≡ [] }
    {
        Places {
            list: Vec::new(alloc),
        }
    }

    /// One position more, which is above the last one. After an error all is as before.
    pub fn push(&mut self, part: u16) -> Result<(), AllocError>
        requires { (i : ℕ) → IsIn self.old i → i < part }
        ensures ok { OnOk result (self.new ≡ self.old ++ part ∷ []) }
        ensures err { OnErr result (self.new ≡ self.old) }
    {
        self.list.push(part)?;
        Ok(())
    }

    /// How many positions there are.
    pub fn len(&self) -> usize
        ensures value { result ≡ length self.now }
        ensures rising { ArePositions self.now }
    {
        self.list.len()
    }

    /// The position at a place of the list, counted from 0 and below the length.
    pub fn at(&self, i: usize) -> u16
        requires { i < length self.now }
        ensures { slice_get self.now i ≡ Some result }
    {
        self.list[i]
    }
}

/// Measured cells in order: by net, then by cycle. Each comes after the one before.
#[derive(Drop)]
pub struct Cells {
    list: Vec<Cell>,
}

impl Model for Cells {
    ghost use Rattle.std.specs.Prelude.{List};
    ghost use Rattle.circuit_model.specs.declared.model.Cell.{Cell};
    ghost use Rattle.circuit_model.specs.Places.{AreCells};

    ghost Value = { List Cell };

    ghost view = { λ c. c.list.items };

    ghost invariant = { λ c. AreCells c.list.items };
}

impl Cells {
    /// No cell. It takes no memory.
    pub fn new(alloc: Global) -> Cells
        ensures { result ≡ [] }
    {
        Cells {
            list: Vec::new(alloc),
        }
    }

    /// One cell more, which comes after the last one. After an error all is as before.
    pub fn push(&mut self, cell: Cell) -> Result<(), AllocError>
        requires { (c : Cell) → IsIn self.old c → IsTrue (is_cell_before c cell) }
        ensures ok { OnOk result (self.new ≡ self.old ++ cell ∷ []) }
        ensures err { OnErr result (self.new ≡ self.old) }
    {
        self.list.push(cell)?;
        Ok(())
    }

    /// How many cells there are.
    pub fn len(&self) -> usize
        ensures value { result ≡ length self.now }
        ensures rising { AreCells self.now }
    {
        self.list.len()
    }

    /// The cell at a place of the list, counted from 0 and below the length.
    pub fn at(&self, i: usize) -> Cell
        requires { i < length self.now }
        ensures { slice_get self.now i ≡ Some result }
    {
        self.list[i]
    }
}

/// An environment of a present: its components by position, and its measurements by cell.
#[derive(Drop)]
pub struct Chosen {
    pub parts: Places,
    pub readings: Cells,
}
