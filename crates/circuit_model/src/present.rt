// The circuit and its standing measurements.

ghost use Rattle.std.specs.Prelude.{◌≡◌, ◌≤◌, ◌<◌, ◌+◌, ◌-◌, ◌*◌, length, slice_get, remove, Some, None, IfOk, OnOk, OnErr, IsSome, IsTrue, is_some, false};
ghost use Rattle.std.specs.List.{insert, list_any, position};
ghost use Rattle.std.specs.Str.{bytes_eq};
ghost use Rattle.indexmap.specs.IndexMap.{values, index_map_len};
ghost use Rattle.circuit_model.specs.Names.{is_name};
ghost use Rattle.circuit_model.specs.Present.{empty_present, named_in, reading_in, with_reading, with_cycles, with_net, without_last_net, with_part, without_last_part, without_part, with_cost, with_standing, without_reading, without_standing, with_mode, without_last_mode, block_named, block_at, with_block, without_last_block, with_pin, without_last_pin, with_inner, without_last_inner, IsLawful, IsLawfulComponent, IsLawfulMode, IsFactOf, IsUnusedNet, IsUnusedPart, IsUnusedBlock, IsUnusedPin, is_block_of, is_block_in_use};
ghost use Rattle.circuit_model.specs.Tables.{StandByName};
ghost use Rattle.circuit_model.specs.Blocks.{pin_named, inner_named, IsLawfulInner};
ghost use Rattle.circuit_model.specs.declared.limits.TheConstants.{MOST_CYCLES, MOST_NETS, MOST_CELLS, MOST_PARTS, MOST_READINGS, MOST_MODES, MOST_BLOCKS, MOST_PINS, MOST_INNERS, LEAST_COST, MOST_COST};
ghost use Rattle.word_domain.specs.declared.width.TheConstants.{WIDEST};

use crate::blocks::{Block, Inner};
use crate::limits;
use crate::look_up::{net_at, net_named, place_of_name};
use crate::model::{Cell, Fact, Kind, Mode, Part};
use crate::name::Name;
use crate::pins::Pins;
use indexmap::IndexMap;
use std::alloc::{AllocError, Global};
use std::marker::Model;
use word_domain::Width;

/// A net: its name, and the width of its words.
#[derive(Clone, Copy, PartialEq, Eq, Debug)]
pub struct Net {
    pub name: Name,
    pub width: Width,
}

/// A component: a part of the circuit with its name.
#[derive(Drop)]
pub struct Component {
    pub name: Name,
    pub kind: Kind,
    /// The nets of its ports, in order of ports. Unused places repeat the last one.
    pub nets: [u16; 3],
    /// Its cost, from [`limits::LEAST_COST`] to [`limits::MOST_COST`].
    pub cost: u8,
    /// Of a block, the net of each pin of its definition, in order; the three places of `nets` then have the first of them.
    /// Of any other component, none.
    pub pins: Pins,
    /// The instances that it stands for.
    pub part: Part,
}

/// A mode as it is declared: the name of its component, and its cost, from [`limits::LEAST_COST`] to
/// [`limits::MOST_COST`].
#[derive(Clone, Copy, PartialEq, Eq, Debug)]
pub struct DeclaredMode {
    pub name: Name,
    pub mode: Mode,
    pub cost: u8,
}

/// What a name stands for, by its place among the nets or among the components.
#[derive(Clone, Copy, PartialEq, Eq, Debug)]
pub enum Named {
    Net(u16),
    Part(u16),
}

/// The circuit and its standing measurements: the number of cycles, the nets, the definitions of blocks, the components
/// and the modes in order of declaration, and at most one word at each cell. It is lawful at every moment: names are
/// distinct, limits are kept, each component stands for the instances by its kind's rule or its definition, each mode is
/// one that its component may have, and each measured word fits its net.
#[derive(Drop)]
pub struct Present {
    cycles: u8,
    nets: IndexMap<Name, Width>,
    // each under its own name
    parts: IndexMap<Name, Component>,
    // in order of cells, with room for all
    readings: Vec<Fact>,
    modes: Vec<DeclaredMode>,
    // each under its own name
    blocks: IndexMap<Name, Block>,
}

impl Model for Present {
    ghost use Rattle.circuit_model.specs.Present.{PresentView};

    ghost Value = { PresentView };

    ghost use Rattle.circuit_model.specs.Kept.{view_of, IsKept};

    ghost view = { view_of };

    ghost invariant = { IsKept };
}

impl Present {
    /// One cycle, and nothing else. The room for all measurements is taken here; where memory is
    /// wanting, nothing is left behind.
    pub fn open(alloc: Global) -> Result<Present, AllocError>
        ensures { IfOk result (λ p. p ≡ empty_present) }
    {
        Ok(Present {
            cycles: 1,
            nets: IndexMap::new(alloc),
            parts: IndexMap::new(alloc),
            readings: Vec::with_capacity(alloc, limits::MOST_READINGS as usize)?,
            modes: Vec::new(alloc),
            blocks: IndexMap::new(alloc),
        })
    }

    /// A present that is the same, with its own room for all measurements. Where memory is wanting it leaves nothing behind.
    pub fn copy(&self, alloc: Global) -> Result<Present, AllocError>
        ensures { IfOk result (λ p. p ≡ self.now) }
    {
        let mut readings = Vec::with_capacity(alloc, limits::MOST_READINGS as usize)?;
        readings.extend_from_slice(&self.readings)?;
        let nets = self.nets.clone()?;
        let parts = self.parts.clone()?;
        let modes = Vec::from_slice(alloc, &self.modes)?;
        let blocks = self.blocks.clone()?;
        Ok(Present {
            cycles: self.cycles,
            nets,
            parts,
            readings,
            modes,
            blocks,
        })
    }

    /// The number of cycles, 1 to [`limits::MOST_CYCLES`].
    pub fn cycles(&self) -> u8
        ensures value { result ≡ self.now.cycles }
        ensures lawful { IsLawful self.now }
    {
        self.cycles
    }

    /// The number of nets, at most [`limits::MOST_NETS`].
    pub fn nets(&self) -> u16
        ensures value { result ≡ length self.now.nets }
        ensures lawful { IsLawful self.now }
    {
        self.nets.len() as u16
    }

    /// The name and the width of a net, by its place in order of declaration, counted from 0.
    pub fn net_at(&self, place: u16) -> (Name, Width)
        requires { place < length self.now.nets }
        ensures { slice_get self.now.nets place ≡ Some (record { name = result.0; width = result.1 }) }
    {
        net_at(&self.nets, place)
    }

    /// What has the name, if anything: nets and components share one set of names.
    pub fn find(&self, name: &Name) -> Option<Named>
        ensures { result ≡ named_in self.now name.now }
    {
        match net_named(&self.nets, name) {
            Some(net) => Some(Named::Net(net)),
            None => part_named(&self.parts, name).map(Named::Part),
        }
    }

    /// The number of components, at most [`limits::MOST_PARTS`].
    pub fn parts(&self) -> u16
        ensures value { result ≡ length self.now.parts }
        ensures lawful { IsLawful self.now }
    {
        self.parts.len() as u16
    }

    /// A component by its place in order of declaration, counted from 0.
    pub fn part_at(&self, place: u16) -> &Component
        requires { place < length self.now.parts }
        ensures { slice_get self.now.parts place ≡ Some result.now }
    {
        &self.parts[place as usize]
    }

    /// The measured word of a cell, if it is measured.
    pub fn reading_at(&self, cell: Cell) -> Option<u64>
        ensures { result ≡ reading_in self.now.readings cell }
    {
        reading_of(&self.readings, cell)
    }

    /// The number of standing measurements, at most [`limits::MOST_READINGS`].
    pub fn readings(&self) -> u16
        ensures value { result ≡ length self.now.readings }
        ensures lawful { IsLawful self.now }
    {
        self.readings.len() as u16
    }

    /// A standing measurement by its place in the order of cells, counted from 0.
    pub fn reading(&self, place: u16) -> Fact
        requires { place < length self.now.readings }
        ensures { slice_get self.now.readings place ≡ Some result }
    {
        self.readings[place as usize]
    }

    /// The number of modes, at most [`limits::MOST_MODES`].
    pub fn modes(&self) -> u16
        ensures value { result ≡ length self.now.modes }
        ensures lawful { IsLawful self.now }
    {
        self.modes.len() as u16
    }

    /// The name of a mode's component, the mode and its cost, by its place in order of declaration, counted from 0.
    pub fn mode_at(&self, place: u16) -> (Name, Mode, u8)
        requires { place < length self.now.modes }
        ensures { slice_get self.now.modes place ≡ Some (record { name = result.0; mode = result.1; cost = result.2 }) }
    {
        let declared = self.modes[place as usize];
        (declared.name, declared.mode, declared.cost)
    }

    /// The place of the definition with the name, if there is one. Definitions have a set of names of their own.
    pub fn find_block(&self, name: &Name) -> Option<u16>
        ensures { result ≡ block_named self.now name.now }
    {
        block_named(&self.blocks, name)
    }

    /// The number of definitions, at most [`limits::MOST_BLOCKS`].
    pub fn blocks(&self) -> u16
        ensures value { result ≡ length self.now.blocks }
        ensures lawful { IsLawful self.now }
    {
        self.blocks.len() as u16
    }

    /// The name of a definition, by its place in order of declaration, counted from 0.
    pub fn block_name(&self, block: u16) -> Name
        requires { block < length self.now.blocks }
        ensures { result ≡ (block_at self.now block).name }
    {
        *self.blocks[block as usize].name()
    }

    /// The number of pins of a definition, at most [`limits::MOST_PINS`].
    pub fn pins_of(&self, block: u16) -> u16
        requires { block < length self.now.blocks }
        ensures value { result ≡ length (block_at self.now block).pins }
        ensures most { result ≤ MOST_PINS }
    {
        self.blocks[block as usize].pins() as u16
    }

    /// The name and the width of a pin of a definition, by its place in order of declaration, counted from 0.
    pub fn pin_at(&self, block: u16, place: u16) -> (Name, Width)
        requires block { block < length self.now.blocks }
        requires place { place < length (block_at self.now block).pins }
        ensures { slice_get (block_at self.now block).pins place ≡ Some (record { name = result.0; width = result.1 }) }
    {
        self.blocks[block as usize].pin_at(place)
    }

    /// The place of the pin of a definition with the name, if there is one.
    pub fn find_pin(&self, block: u16, name: &Name) -> Option<u16>
        requires { block < length self.now.blocks }
        ensures { result ≡ pin_named (block_at self.now block) name.now }
    {
        self.blocks[block as usize].find_pin(name)
    }

    /// Whether an inner component of a definition has the name.
    pub fn has_inner(&self, block: u16, name: &Name) -> bool
        requires { block < length self.now.blocks }
        ensures { result ≡ is_some (inner_named (block_at self.now block) name.now) }
    {
        self.blocks[block as usize].has_inner(name)
    }

    /// Whether a component is a block of a definition.
    pub fn is_in_use(&self, block: u16) -> bool
        ensures used { result ≡ is_block_in_use self.now block }
        ensures unused { result ≡ false → IsUnusedBlock self.now block }
    {
        has_block(&self.parts, block)
    }

    /// The number of inner components of a definition, at most [`limits::MOST_INNERS`].
    pub fn inners_of(&self, block: u16) -> u16
        requires { block < length self.now.blocks }
        ensures value { result ≡ length (block_at self.now block).inners }
        ensures most { result ≤ MOST_INNERS }
    {
        self.blocks[block as usize].inners() as u16
    }

    /// The name, the kind and the pins by their places of an inner component of a definition, by its place in order of
    /// declaration, counted from 0. Unused places of the pins repeat the last one.
    pub fn inner_at(&self, block: u16, place: u16) -> (Name, Kind, [u16; 3])
        requires block { block < length self.now.blocks }
        requires place { place < length (block_at self.now block).inners }
        ensures inner { slice_get (block_at self.now block).inners place ≡ Some (record { name = result.0; kind = result.1; pins = result.2 }) }
    {
        let inner = self.blocks[block as usize].inner_at(place);
        let pins = inner.pins;
        (inner.name, inner.kind, pins)
    }

    /// Sets the number of cycles, before the first net is declared. It takes no memory.
    pub fn set_cycles(&mut self, cycles: u8)
        requires empty { length self.old.nets ≡ 0 }
        requires some_cycle { 1 ≤ cycles }
        requires most { cycles ≤ MOST_CYCLES }
        ensures { self.new ≡ with_cycles cycles self.old }
    {
        self.cycles = cycles;
    }

    /// Declares a net, after the others. A refusal changes nothing.
    pub fn add_net(&mut self, name: Name, width: Width) -> Result<(), AllocError>
        requires free { named_in self.old name ≡ None }
        requires room { length self.old.nets < MOST_NETS }
        requires cells { (length self.old.nets + 1) * self.old.cycles ≤ MOST_CELLS }
        ensures ok { OnOk result (self.new ≡ with_net (record { name = name; width = width }) self.old) }
        ensures err { OnErr result (self.new ≡ self.old) }
    {
        // For the proof alone: the bytes of a name are one, and a width is in its range.
        let _net = Net::new(name, width);
        self.nets.insert(name, width)?;
        Ok(())
    }

    /// Declares a component, after the others. A refusal changes nothing; the component is dropped.
    pub fn add_part(&mut self, component: Component) -> Result<(), AllocError>
        requires free { named_in self.old component.name ≡ None }
        requires room { length self.old.parts < MOST_PARTS }
        requires lawful { IsLawfulComponent self.old component }
        ensures ok { OnOk result (self.new ≡ with_part component self.old) }
        ensures unused { OnOk result (IsUnusedPart self.new (length self.new.parts - 1)) }
        ensures err { OnErr result (self.new ≡ self.old) }
    {
        // For the proof alone: the bytes of a name are one.
        let _name = component.name.bytes();
        self.parts.insert(component.name, component)?;
        Ok(())
    }

    /// Takes the last net away. It takes no memory.
    pub fn drop_net(&mut self)
        requires some { 0 < length self.old.nets }
        requires unused { IsUnusedNet self.old (length self.old.nets - 1) }
        ensures { self.new ≡ without_last_net self.old }
    {
        self.nets.truncate(self.nets.len() - 1);
    }

    /// Takes the last component away. It takes no memory.
    pub fn drop_part(&mut self)
        requires some { 0 < length self.old.parts }
        requires unused { IsUnusedPart self.old (length self.old.parts - 1) }
        ensures { self.new ≡ without_last_part self.old }
    {
        self.parts.truncate(self.parts.len() - 1);
    }

    /// Takes a component away, by its place. It takes no memory.
    pub fn remove_part(&mut self, part: u16)
        requires there { part < length self.old.parts }
        requires unused { IsUnusedPart self.old part }
        ensures { self.new ≡ without_part part self.old }
    {
        self.parts.shift_remove_index(part as usize);
    }

    /// Puts a measurement among the standing ones, in order of cells. It takes no memory: the room was taken when the
    /// present was opened.
    pub fn set_reading(&mut self, fact: Fact)
        requires fact { IsFactOf self.old fact }
        requires free { reading_in self.old.readings fact.cell ≡ None }
        requires room { length self.old.readings < MOST_READINGS }
        ensures { self.new ≡ with_standing fact self.old }
    {
        let place = place_for(&self.readings, fact);
        match self.readings.insert(place, fact) {
            Ok(()) => (),
            Err(_) => unreachable!(),
        }
    }

    /// Takes the measurement of a cell away. It takes no memory.
    pub fn clear_reading(&mut self, cell: Cell)
        requires { IsSome (reading_in self.old.readings cell) }
        ensures { self.new ≡ without_standing cell self.old }
    {
        let place = place_at(&self.readings, cell);
        self.readings.remove(place);
    }

    /// Sets the cost of a component, by its place. It takes no memory.
    pub fn set_cost(&mut self, part: u16, cost: u8)
        requires part { part < length self.old.parts }
        requires low { LEAST_COST ≤ cost }
        requires high { cost ≤ MOST_COST }
        ensures { self.new ≡ with_cost part cost self.old }
    {
        self.parts[part as usize].cost = cost;
    }

    /// Declares a mode of the component with the name, after the others. A refusal changes nothing.
    pub fn add_mode(&mut self, name: Name, mode: Mode, cost: u8) -> Result<(), AllocError>
        requires lawful { IsLawfulMode self.old (record { name = name; mode = mode; cost = cost }) }
        requires room { length self.old.modes < MOST_MODES }
        ensures ok { OnOk result (self.new ≡ with_mode (record { name = name; mode = mode; cost = cost }) self.old) }
        ensures err { OnErr result (self.new ≡ self.old) }
    {
        self.modes.push(DeclaredMode { name, mode, cost })?;
        Ok(())
    }

    /// Takes the last mode away. It takes no memory.
    pub fn drop_mode(&mut self)
        requires { 0 < length self.old.modes }
        ensures { self.new ≡ without_last_mode self.old }
    {
        self.modes.truncate(self.modes.len() - 1);
    }

    /// Declares a definition without pins and inner components, after the others. A refusal changes nothing.
    pub fn define(&mut self, name: Name) -> Result<(), AllocError>
        requires free { block_named self.old name ≡ None }
        requires room { length self.old.blocks < MOST_BLOCKS }
        ensures ok { OnOk result (self.new ≡ with_block name self.old) }
        ensures err { OnErr result (self.new ≡ self.old) }
    {
        // For the proof alone: the bytes of a name are one.
        let _name = name.bytes();
        let block = Block::new(*self.blocks.allocator(), name);
        self.blocks.insert(name, block)?;
        Ok(())
    }

    /// Takes the last definition away. It takes no memory.
    pub fn drop_define(&mut self)
        requires some { 0 < length self.old.blocks }
        requires unused { IsUnusedBlock self.old (length self.old.blocks - 1) }
        ensures { self.new ≡ without_last_block self.old }
    {
        self.blocks.truncate(self.blocks.len() - 1);
    }

    /// Declares a pin of a definition, after the others. A refusal changes nothing.
    pub fn pin(&mut self, block: u16, name: Name, width: Width) -> Result<(), AllocError>
        requires there { block < length self.old.blocks }
        requires unused { IsUnusedBlock self.old block }
        requires no_pin { pin_named (block_at self.old block) name ≡ None }
        requires no_inner { inner_named (block_at self.old block) name ≡ None }
        requires room { length (block_at self.old block).pins < MOST_PINS }
        ensures ok { OnOk result (self.new ≡ with_pin block (record { name = name; width = width }) self.old) }
        ensures err { OnErr result (self.new ≡ self.old) }
    {
        let pin = Net::new(name, width);
        self.blocks[block as usize].add_pin(pin)?;
        Ok(())
    }

    /// Takes the last pin of a definition away. It takes no memory.
    pub fn drop_pin(&mut self, block: u16)
        requires there { block < length self.old.blocks }
        requires some { 0 < length (block_at self.old block).pins }
        requires unused { IsUnusedBlock self.old block }
        requires unused_pin { IsUnusedPin self.old block (length (block_at self.old block).pins - 1) }
        ensures { self.new ≡ without_last_pin block self.old }
    {
        self.blocks[block as usize].drop_pin();
    }

    /// Declares an inner component of a definition, after the others. `pins` are places of pins; unused ones repeat the last
    /// one. A refusal changes nothing.
    pub fn inside(
        &mut self,
        block: u16,
        name: Name,
        kind: Kind,
        pins: [u16; 3],
    ) -> Result<(), AllocError>
        requires there { block < length self.old.blocks }
        requires unused { IsUnusedBlock self.old block }
        requires no_pin { pin_named (block_at self.old block) name ≡ None }
        requires no_inner { inner_named (block_at self.old block) name ≡ None }
        requires lawful { IsLawfulInner (block_at self.old block).pins (record { name = name; kind = kind; pins = pins }) }
        requires room { length (block_at self.old block).inners < MOST_INNERS }
        ensures ok { OnOk result (self.new ≡ with_inner block (record { name = name; kind = kind; pins = pins }) self.old) }
        ensures err { OnErr result (self.new ≡ self.old) }
    {
        // For the proof alone: the bytes of a name are one.
        let _name = name.bytes();
        self.blocks[block as usize].add_inner(Inner { name, kind, pins })?;
        Ok(())
    }

    /// Takes the last inner component of a definition away. It takes no memory.
    pub fn drop_inside(&mut self, block: u16)
        requires there { block < length self.old.blocks }
        requires some { 0 < length (block_at self.old block).inners }
        requires unused { IsUnusedBlock self.old block }
        ensures { self.new ≡ without_last_inner block self.old }
    {
        self.blocks[block as usize].drop_inner();
    }
}

impl Clone for Component {
    ghost is_clone = { λ c d. d ≡ c };

    fn clone(&self) -> Result<Component, AllocError> {
        let part = self.part.clone()?;
        let nets = self.nets;
        Ok(Component {
            name: self.name,
            kind: self.kind,
            nets,
            cost: self.cost,
            pins: self.pins,
            part,
        })
    }
}

impl Net {
    pub(crate) fn new(name: Name, width: Width) -> Net
        ensures net { result ≡ record { name = name; width = width } }
        ensures name { IsTrue (is_name name) }
        ensures low { 1 ≤ width }
        ensures high { width ≤ WIDEST }
    {
        // For the proof alone: the bytes of a name are one, and a width is in its range.
        let _bytes = name.bytes();
        let _bits = width.bits();
        Net { name, width }
    }
}

// The place of the component with the name.
fn part_named(parts: &IndexMap<Name, Component>, name: &Name) -> Option<u16>
    requires most { index_map_len parts.now ≤ MOST_PARTS }
    requires names { StandByName (λ p. p.name) parts.now.entries }
    ensures { result ≡ position (λ p. bytes_eq p.name name.now) (values parts.now) }
{
    place_of_name(parts, name)
}

// The place of the definition with the name.
fn block_named(blocks: &IndexMap<Name, Block>, name: &Name) -> Option<u16>
    requires most { index_map_len blocks.now ≤ MOST_BLOCKS }
    requires names { StandByName (λ b. b.name) blocks.now.entries }
    ensures { result ≡ position (λ b. bytes_eq b.name name.now) (values blocks.now) }
{
    place_of_name(blocks, name)
}

// Whether a component is a block of the definition.
fn has_block(parts: &IndexMap<Name, Component>, block: u16) -> bool
    ensures { result ≡ list_any (is_block_of block) (values parts.now) }
{
    parts.values().any(|part| is_block_of(part, block))
}

fn is_block_of(part: &Component, block: u16) -> bool
    ensures { result ≡ is_block_of block part.now }
{
    match part.kind.block() {
        Some(place) => place == block,
        None => false,
    }
}

// The word at the cell.
fn reading_of(readings: &[Fact], cell: Cell) -> Option<u64>
    ensures { result ≡ reading_in readings.now cell }
{
    for reading in readings {
        if reading.cell == cell {
            return Some(reading.value);
        }
    }
    None
}

// The place of a further fact in the order of cells.
fn place_for(readings: &[Fact], fact: Fact) -> usize
    ensures within { result ≤ length readings.now }
    ensures place { insert readings.now result fact ≡ with_reading fact readings.now }
{
    for (place, reading) in readings.iter().enumerate() {
        if fact.cell.comes_before(reading.cell) {
            return place;
        }
    }
    readings.len()
}

// The place of the measurement of a cell.
fn place_at(readings: &[Fact], cell: Cell) -> usize
    requires { IsSome (reading_in readings.now cell) }
    ensures within { result < length readings.now }
    ensures place { remove readings.now result ≡ without_reading cell readings.now }
{
    for (place, reading) in readings.iter().enumerate() {
        if reading.cell == cell {
            return place;
        }
    }
    unreachable!()
}
