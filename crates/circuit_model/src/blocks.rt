// Definitions of blocks.

ghost use Rattle.std.specs.Prelude.{◌≡◌, ◌≤◌, ◌<◌, ◌++◌, ◌∷◌, [], length, slice_get, is_some, Some, None, OnOk, OnErr};
ghost use Rattle.circuit_model.specs.Blocks.{empty_block, pin_named, inner_named};
ghost use Rattle.circuit_model.specs.Present.{without_last};
ghost use Rattle.circuit_model.specs.declared.limits.TheConstants.{MOST_PINS};

use crate::look_up::{name_position, net_at, net_named};
use crate::model::Kind;
use crate::name::Name;
use crate::present::Net;
use indexmap::IndexMap;
use std::alloc::{AllocError, Global};
use std::marker::Model;
use word_domain::Width;

/// An inner component of a definition.
#[derive(Clone, Copy, PartialEq, Eq, Debug)]
pub struct Inner {
    pub name: Name,
    pub kind: Kind,
    /// The pins of its ports, by their places, in order of ports. Unused places repeat the last one.
    pub pins: [u16; 3],
}

/// A definition of blocks: its name, its pins, which are nets of its own, and its inner components, both in order.
#[derive(Drop)]
pub(crate) struct Block {
    name: Name,
    pins: IndexMap<Name, Width>,
    // each under its own name
    inners: IndexMap<Name, Inner>,
}

impl Model for Block {
    ghost use Rattle.indexmap.specs.IndexMap.{values};
    ghost use Rattle.circuit_model.specs.Blocks.{BlockView};
    ghost use Rattle.circuit_model.specs.Tables.{nets_of, StandByName};

    ghost Value = { BlockView };

    ghost view = { λ b. record { name = b.name; pins = nets_of b.pins.entries; inners = values b.inners } };

    ghost invariant = { λ b. StandByName (λ i. i.name) b.inners.entries };
}

impl Clone for Block {
    ghost is_clone = { λ b c. c ≡ b };

    fn clone(&self) -> Result<Block, AllocError> {
        let pins = self.pins.clone()?;
        let inners = self.inners.clone()?;
        Ok(Block {
            name: self.name,
            pins,
            inners,
        })
    }
}

impl Block {
    // The definition of the name, without pins and inner components.
    pub(crate) fn new(alloc: Global, name: Name) -> Block
        ensures { result ≡ empty_block name }
    {
        Block {
            name,
            pins: IndexMap::new(alloc),
            inners: IndexMap::new(alloc),
        }
    }

    pub(crate) fn name(&self) -> &Name
        ensures { result.now ≡ self.now.name }
    {
        &self.name
    }

    pub(crate) fn pins(&self) -> usize
        ensures { result ≡ length self.now.pins }
    {
        self.pins.len()
    }

    pub(crate) fn pin_at(&self, place: u16) -> (Name, Width)
        requires { place < length self.now.pins }
        ensures { slice_get self.now.pins place ≡ Some (record { name = result.0; width = result.1 }) }
    {
        net_at(&self.pins, place)
    }

    // The place of the pin with the name.
    pub(crate) fn find_pin(&self, name: &Name) -> Option<u16>
        requires { length self.now.pins ≤ MOST_PINS }
        ensures { result ≡ pin_named self.now name.now }
    {
        net_named(&self.pins, name)
    }

    pub(crate) fn inners(&self) -> usize
        ensures { result ≡ length self.now.inners }
    {
        self.inners.len()
    }

    pub(crate) fn inner_at(&self, place: u16) -> &Inner
        requires { place < length self.now.inners }
        ensures { slice_get self.now.inners place ≡ Some result.now }
    {
        &self.inners[place as usize]
    }

    // Whether an inner component has the name.
    pub(crate) fn has_inner(&self, name: &Name) -> bool
        ensures { result ≡ is_some (inner_named self.now name.now) }
    {
        name_position(&self.inners, name).is_some()
    }

    // One pin more. A refusal changes nothing.
    pub(crate) fn add_pin(&mut self, pin: Net) -> Result<(), AllocError>
        requires { pin_named self.old pin.name ≡ None }
        ensures ok { OnOk result (self.new ≡ record self.old { pins = self.old.pins ++ pin ∷ [] }) }
        ensures err { OnErr result (self.new ≡ self.old) }
    {
        self.pins.insert(pin.name, pin.width)?;
        Ok(())
    }

    pub(crate) fn drop_pin(&mut self)
        requires { 0 < length self.old.pins }
        ensures { self.new ≡ record self.old { pins = without_last self.old.pins } }
    {
        self.pins.truncate(self.pins.len() - 1);
    }

    // One inner component more. A refusal changes nothing.
    pub(crate) fn add_inner(&mut self, inner: Inner) -> Result<(), AllocError>
        requires { inner_named self.old inner.name ≡ None }
        ensures ok { OnOk result (self.new ≡ record self.old { inners = self.old.inners ++ inner ∷ [] }) }
        ensures err { OnErr result (self.new ≡ self.old) }
    {
        self.inners.insert(inner.name, inner)?;
        Ok(())
    }

    pub(crate) fn drop_inner(&mut self)
        requires { 0 < length self.old.inners }
        ensures { self.new ≡ record self.old { inners = without_last self.old.inners } }
    {
        self.inners.truncate(self.inners.len() - 1);
    }
}
