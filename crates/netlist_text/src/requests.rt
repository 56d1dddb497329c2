// What the lines of a session ask.

use crate::name_list::NameList;
use circuit_model::{Kind, Name};

/// A change of the present, as a line asks for it. Its numbers are those of the line, of at most ten digits each;
/// whether they fit the present is for the checks.
#[derive(Clone, Copy, PartialEq, Eq, Debug)]
pub enum Change {
    /// So many cycles: 1 to [`MOST_CYCLES`](circuit_model::limits::MOST_CYCLES), or a check refuses it.
    Cycles {
        count: u64,
    },
    /// A net of this name, with words of so many bits: 1 to 32, or a check refuses it.
    Net {
        name: Name,
        width: u64,
    },
    /// A component of this name and kind at nets of these names, in order of ports. Unused places repeat the last one.
    Add {
        name: Name,
        kind: Kind,
        nets: [Name; 3],
    },
    /// A word seen at the cell of a net at a cycle. The cycle is below the number of cycles, and the word fits the net,
    /// or a check refuses it.
    Measure {
        net: Name,
        cycle: u64,
        value: u64,
    },
    /// The measurement at the cell no longer stands.
    Retract {
        net: Name,
        cycle: u64,
    },
    /// The last accepted change is taken back.
    Undo,
    /// What it costs to suspect the component: 1 to 40, or a check refuses it.
    Cost {
        name: Name,
        cost: u64,
    },
    /// A fault mode of the component, of this cost: its last port has the word always.
    Stuck {
        name: Name,
        value: u64,
        cost: u64,
    },
    /// A fault mode of the component, of this cost: it acts as one of the kind of this name.
    Acts {
        name: Name,
        kind: Name,
        cost: u64,
    },
    /// A definition of a block, with no pin and no inner component.
    Define {
        block: Name,
    },
    /// One pin more of a definition, with words of so many bits.
    Pin {
        block: Name,
        name: Name,
        width: u64,
    },
    /// One inner component more of a definition, at pins of these names. Unused places repeat the last one.
    Inside {
        block: Name,
        name: Name,
        kind: Kind,
        nets: [Name; 3],
    },
    /// A component that is a block of the definition, at nets of these names, in order of pins.
    UseBlock {
        block: Name,
        name: Name,
        nets: NameList,
    },
}

/// A question on the present.
#[derive(Clone, Copy, PartialEq, Eq, Debug)]
pub enum Query {
    /// What follows at the cell of a net at a cycle, which is below the number of cycles, or a check refuses it.
    Label { net: Name, cycle: u64 },
    /// The minimal sets of components that cannot all be right.
    Conflicts,
    /// The minimal sets of components whose faults explain what was measured.
    Diagnose,
    /// The best cell to measure next.
    Probe,
    /// How the word follows at the cell.
    Explain { net: Name, cycle: u64, value: u64 },
    /// Why the conflict of this number, counted from 1, is one.
    Why { number: u64 },
    /// The text of the present.
    Show,
    /// The first diagnoses, so many of them: 1 to [`MOST_ASKED`](circuit_model::limits::MOST_ASKED), or a check refuses it.
    First { number: u64 },
    /// The first assignments of modes, so many of them: 1 to [`MOST_ASKED`](circuit_model::limits::MOST_ASKED), or a check
    /// refuses it.
    Modes { number: u64 },
    /// The present with the block of this name opened into its inner components.
    OpenBlock { name: Name },
}

/// What a line asks.
#[derive(Clone, Copy, PartialEq, Eq, Debug)]
pub enum Request {
    /// Nothing: the line is blank or a comment.
    Nothing,
    Change(Change),
    Query(Query),
}
