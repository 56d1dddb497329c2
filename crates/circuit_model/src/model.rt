// Words, cells, facts and assumptions.

ghost use Rattle.std.specs.Prelude.{◌≡◌, ◌<◌, ◌++◌, [], length, slice_get, Some, IfOk, OnOk, OnErr};
ghost use Rattle.circuit_model.specs.Lawful.{IsLawfulInstance, AreLawful};

use std::alloc::{AllocError, Global};
use std::marker::Model;
use word_domain::Width;

/// A net, by its place in order of declaration, at a cycle, both counted from 0. Cells go by net, then by cycle. Those of
/// a present have a net below [`MOST_NETS`](crate::limits::MOST_NETS) and a cycle below
/// [`MOST_CYCLES`](crate::limits::MOST_CYCLES).
#[derive(Clone, Copy, PartialEq, Eq, PartialOrd, Ord, Debug)]
pub struct Cell {
    pub net: u16,
    pub cycle: u8,
}

impl Cell {
    ghost use Rattle.circuit_model.specs.Present.{is_cell_before};

    /// Whether it comes before the other one: by net, then by cycle.
    pub fn comes_before(self, other: Cell) -> bool
        ensures { result ≡ is_cell_before self other }
    {
        self < other
    }
}

/// A word at a cell. Facts go by cell, then by word. Those of a present have a word below two to the width of the cell's net, which is at most
/// [`WIDEST`](word_domain::WIDEST).
#[derive(Clone, Copy, PartialEq, Eq, PartialOrd, Ord, Debug)]
pub struct Fact {
    pub cell: Cell,
    pub value: u64,
}

impl Fact {
    ghost use Rattle.std.specs.Prelude.{◌↔◌, IsTrue};
    ghost use Rattle.circuit_model.specs.Derivation.{is_fact_before};

    /// Whether it comes before the other one: by cell, then by word.
    pub fn comes_before(self, other: Fact) -> bool
        ensures { result ≡ is_fact_before self other }
    {
        self < other
    }

    /// Whether the two are not two words at one cell.
    pub fn agrees_with(self, other: Fact) -> bool
        ensures { IsTrue result ↔ (self.cell ≡ other.cell → self ≡ other) }
    {
        self.cell != other.cell || self == other
    }
}

/// A kind of relation between the words at ports: the last port's word is given by the others, and `Const` gives its
/// value to its one port.
#[derive(Clone, Copy, PartialEq, Eq, Debug)]
pub enum Primitive {
    Buf,
    Not,
    And,
    Or,
    Xor,
    Nand,
    Nor,
    Xnor,
    Add,
    Mul,
    Const { value: u64 },
}

/// A kind of component. `Const` has the value that it gives, and `Reg` the one that it holds at cycle 0; either is below
/// two to the width of the component's last port. `Block` names a definition by its place in order of declaration.
#[derive(Clone, Copy, PartialEq, Eq, Debug)]
pub enum Kind {
    Buf,
    Not,
    And,
    Or,
    Xor,
    Nand,
    Nor,
    Xnor,
    Add,
    Mul,
    Const { value: u64 },
    Reg { reset: u64 },
    Block { block: u16 },
}

/// How a component may fail: its last port has this word at each cycle, or it has the relation of another kind of its
/// class. The word is below two to the width of that port.
#[derive(Clone, Copy, PartialEq, Eq, Debug)]
pub enum Mode {
    Stuck { value: u64 },
    Acts { kind: Kind },
}

/// A relation between the words at some cells, in the order of the relation's ports. There are 1 to 3 ports; unused
/// places of `cells` and `widths` repeat the last port's.
#[derive(Clone, Copy, PartialEq, Eq, Debug)]
pub struct Instance {
    pub prim: Primitive,
    pub ports: u8,
    pub cells: [Cell; 3],
    pub widths: [Width; 3],
}

/// The relations that a component stands for: one for each cycle, in order of cycles, and so for each inner component of
/// a block, in order. Contracts see it as their list.
/// Each one is lawful: `ports` is the number of ports of its relation, its widths go together, and the value of a
/// constant fits.
#[derive(Drop)]
pub struct Part {
    instances: Vec<Instance>,
}

impl Model for Part {
    ghost use Rattle.std.specs.Prelude.{List};
    ghost use Rattle.circuit_model.specs.declared.model.Instance.{Instance};

    ghost Value = { List Instance };

    ghost use Rattle.circuit_model.specs.Lawful.{AreLawful};

    ghost view = { λ p. p.instances.items };

    ghost invariant = { λ p. AreLawful p.instances.items };
}

impl Part {
    // The part of these instances.
    pub(crate) fn of(instances: Vec<Instance>) -> Part
        requires { AreLawful instances.items }
        ensures { result ≡ instances.items }
    {
        Part { instances }
    }

    /// A part without instances. It takes no memory.
    pub fn new(alloc: Global) -> Part
        ensures { result ≡ [] }
    {
        Part {
            instances: Vec::new(alloc),
        }
    }

    /// Puts the other part's instances at the end. A refusal changes nothing.
    pub fn append(&mut self, other: &Part) -> Result<(), AllocError>
        ensures ok { OnOk result (self.new ≡ self.old ++ other.now) }
        ensures err { OnErr result (self.new ≡ self.old) }
    {
        self.instances.extend_from_slice(&other.instances)?;
        Ok(())
    }

    /// The number of instances.
    pub fn len(&self) -> usize
        ensures { result ≡ length self.now }
    {
        self.instances.len()
    }

    /// A part with the same instances. A refusal leaves nothing behind.
    pub fn copy(&self, alloc: Global) -> Result<Part, AllocError>
        ensures { IfOk result (λ p. p ≡ self.now) }
    {
        let instances = Vec::from_slice(alloc, &self.instances)?;
        Ok(Part { instances })
    }

    /// An instance by its place, which is its cycle where the component is no block, with what each instance of a part keeps.
    pub fn at(&self, place: usize) -> &Instance
        requires { place < length self.now }
        ensures instance { slice_get self.now place ≡ Some result.now }
        ensures lawful { IsLawfulInstance result.now }
    {
        &self.instances[place]
    }
}

impl Clone for Part {
    ghost is_clone = { λ p q. q ≡ p };

    fn clone(&self) -> Result<Part, AllocError> {
        self.copy(*self.instances.allocator())
    }
}

/// What may be assumed (de Kleer 1986): that a component works in all cycles, or that a cell was seen to have a word.
#[derive(Drop)]
pub enum Assumption {
    Part(Part),
    Reading(Fact),
}
