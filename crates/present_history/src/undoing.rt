// What takes a change of a present back.
ghost use Rattle.std.specs.Prelude.{◌≡◌, ◌<◌, IfSome, length};
ghost use Rattle.circuit_model.specs.Present.{IsLawful, part_named};
ghost use Rattle.netlist_text.specs.Lookups.{net_place, part_of, block_place};
ghost use Rattle.present_history.specs.Earlier.{retracted_by};
ghost use Rattle.present_history.specs.Undoing.{undone, MayUndo, cost_of, cycle_in, cell_in, reading_there};
ghost use Rattle.present_history.specs.Undoing as spec;

use circuit_model::{Cell, Fact, Name, Named, Present, limits};
use netlist_text::Change;

/// What takes a change of a present back: what is to go, or what was there before.
#[derive(Clone, Copy, Debug, PartialEq, Eq)]
pub enum Undoing {
    /// There are so many cycles again.
    Cycles { before: u8 },
    /// The last net goes.
    Net,
    /// The last component goes.
    Part,
    /// The component at this place, in order of declaration, costs so much again.
    Cost { part: u16, before: u8 },
    /// The last mode goes.
    Mode,
    /// The last definition goes.
    Block,
    /// The last pin of the definition at this place goes.
    Pin { block: u16 },
    /// The last inner component of the definition at this place goes.
    Inner { block: u16 },
    /// The measurement of the cell goes.
    Measured { cell: Cell },
    /// The measurement stands again.
    Retracted { fact: Fact },
}

impl Undoing {
    /// The measurement that was retracted, if the change did that.
    pub fn retracted(self) -> Option<Fact>
        ensures { result ≡ retracted_by self }
    {
        match self {
            Undoing::Retracted { fact } => Some(fact),
            Undoing::Cycles { .. }
            | Undoing::Net
            | Undoing::Part
            | Undoing::Cost { .. }
            | Undoing::Mode
            | Undoing::Block
            | Undoing::Pin { .. }
            | Undoing::Inner { .. }
            | Undoing::Measured { .. } => None,
        }
    }
}

// The place of the net with the name, 0 where there is none.
fn net_place(present: &Present, name: &Name) -> u16
    ensures { result ≡ net_place present.now name.now }
{
    match present.find(name) {
        Some(Named::Net(place)) => place,
        Some(Named::Part(_)) => 0,
        None => 0,
    }
}

// The place of the component with the name. (Nets and components share one set of names.)
fn part_place(present: &Present, name: &Name) -> Option<u16>
    ensures place { result ≡ part_named present.now name.now }
    ensures within { IfSome result (λ place. place < length present.now.parts) }
{
    // For the proof alone: the present is lawful, so that no net has a component's name.
    let _nets = present.nets();
    match present.find(name) {
        Some(Named::Part(place)) => Some(place),
        Some(Named::Net(_net)) => None,
        None => None,
    }
}

// What gives the component with the name its cost back.
fn undoing_of_cost(present: &Present, name: &Name) -> Undoing
    ensures { result ≡ Undoing.Cost (part_of present.now name.now) (cost_of present.now name.now) }
{
    match part_place(present, name) {
        Some(part) => Undoing::Cost {
            part,
            before: present.part_at(part).cost,
        },
        None => Undoing::Cost {
            part: 0,
            before: limits::USUAL_COST,
        },
    }
}

// The cycle, 0 where the present does not have it.
fn cycle_of(present: &Present, cycle: u64) -> u8
    ensures { result ≡ cycle_in present.now cycle }
{
    if cycle < u64::from(present.cycles()) {
        cycle as u8
    } else {
        0
    }
}

// The cell of the net with the name at the cycle, where both are there.
fn cell_of(present: &Present, net: &Name, cycle: u64) -> Cell
    ensures { result ≡ cell_in present.now net.now cycle }
{
    Cell {
        net: net_place(present, net),
        cycle: cycle_of(present, cycle),
    }
}

// The measurement of the cell, of the word 0 where it is not measured.
fn reading_of(present: &Present, cell: Cell) -> Fact
    ensures { result ≡ reading_there present.now cell }
{
    Fact {
        cell,
        value: present.reading_at(cell).unwrap_or(0),
    }
}

// The place of the definition with the name, 0 where there is none.
fn place_of_block(present: &Present, name: &Name) -> u16
    ensures { result ≡ block_place present.now name.now }
{
    present.find_block(name).unwrap_or(0)
}

/// What takes the change back, from the present before it. It means nothing for a change that a check refuses. It takes no
/// memory.
pub fn undoing_of(present: &Present, change: &Change) -> Undoing
    ensures value { result ≡ spec.undoing_of present.now change.now }
    ensures lawful { IsLawful present.now }
{
    let cycles = present.cycles();
    match change {
        Change::Cycles { .. } | Change::Undo => Undoing::Cycles { before: cycles },
        Change::Net { .. } => Undoing::Net,
        Change::Add { .. } | Change::UseBlock { .. } => Undoing::Part,
        Change::Cost { name, .. } => undoing_of_cost(present, name),
        Change::Stuck { .. } | Change::Acts { .. } => Undoing::Mode,
        Change::Define { .. } => Undoing::Block,
        Change::Pin { block, .. } => Undoing::Pin {
            block: place_of_block(present, block),
        },
        Change::Inside { block, .. } => Undoing::Inner {
            block: place_of_block(present, block),
        },
        Change::Measure { net, cycle, .. } => Undoing::Measured {
            cell: cell_of(present, net, *cycle),
        },
        Change::Retract { net, cycle } => Undoing::Retracted {
            fact: reading_of(present, cell_of(present, net, *cycle)),
        },
    }
}

/// Takes the change back. It takes no memory.
pub fn take_back(present: &mut Present, undoing: Undoing)
    requires { MayUndo undoing present.old }
    ensures { present.new ≡ undone undoing present.old }
{
    match undoing {
        Undoing::Cycles { before } => present.set_cycles(before),
        Undoing::Net => present.drop_net(),
        Undoing::Part => present.drop_part(),
        Undoing::Cost { part, before } => present.set_cost(part, before),
        Undoing::Mode => present.drop_mode(),
        Undoing::Block => present.drop_define(),
        Undoing::Pin { block } => present.drop_pin(block),
        Undoing::Inner { block } => present.drop_inside(block),
        Undoing::Measured { cell } => present.clear_reading(cell),
        Undoing::Retracted { fact } => present.set_reading(fact),
    }
}
