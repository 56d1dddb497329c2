// A list from which any place is taken.
ghost use Rattle.std.specs.Prelude.{◌≡◌, ◌<◌, ◌↔◌, length, Some, ◌++◌, ◌∷◌, [], IsTrue, OnOk, OnErr, slice_get, remove};

use std::alloc::{AllocError, Global};
use std::collections::VecDeque;
use std::marker::Model;

/// What waits, in the order in which it came. Any place may be taken next; to take place 0 moves nothing.
#[derive(Drop)]
pub struct Agenda<T: Copy> {
    items: VecDeque<T>,
}

impl<T: Copy> Model for Agenda<T> {
    ghost use Rattle.std.specs.Prelude.{List};

    ghost Value = { List T };

    ghost view = { λ a. a.items.items };
}

impl<T: Copy> Agenda<T> {
    /// Nothing waits. It takes no memory.
    pub fn new(alloc: Global) -> Agenda<T>
        ensures { result ≡ [] }
    {
        Agenda {
            items: VecDeque::new(alloc),
        }
    }

    /// Puts the item behind all that wait. After an error the same items wait.
    pub fn push(&mut self, item: T) -> Result<(), AllocError>
        ensures ok { OnOk result (self.new ≡ self.old ++ item ∷ []) }
        ensures err { OnErr result (self.new ≡ self.old) }
    {
        self.items.push_back(item)?;
        Ok(())
    }

    /// Takes the item at a place, counted from 0. The others stay in their order.
    pub fn take_at(&mut self, place: usize) -> T
        requires { place < length self.old }
        ensures item { slice_get self.old place ≡ Some result }
        ensures others { self.new ≡ remove self.old place }
    {
        self.items.remove(place).unwrap()
    }

    /// How many items wait.
    pub fn len(&self) -> usize
        ensures { result ≡ length self.now }
    {
        self.items.len()
    }

    /// Whether nothing waits.
    pub fn is_empty(&self) -> bool
        ensures { IsTrue result ↔ (self.now ≡ []) }
    {
        self.items.is_empty()
    }

    /// Nothing waits any more.
    pub fn clear(&mut self)
        ensures { self.new ≡ [] }
    {
        self.items.clear();
    }
}
