// Rows of names.
ghost use Rattle.std.specs.Prelude.{◌≡◌, ◌≤◌, ◌<◌, ◌++◌, ◌∷◌, [], length, slice_get, Some};
ghost use Rattle.circuit_model.specs.declared.limits.TheConstants.{MOST_PINS};

use circuit_model::{Name, limits};
use std::marker::Model;

/// Names in a row, at most [`limits::MOST_PINS`] of them, in a fixed place. Contracts see it as the list of the names.
#[derive(Clone, Copy, PartialEq, Eq, Debug)]
pub struct NameList {
    // the names, and nothing in the places after them
    names: [Option<Name>; limits::MOST_PINS as usize],
    len: u8,
}

impl Model for NameList {
    ghost use Rattle.std.specs.Prelude.{ℕ, List, length};
    ghost use Rattle.netlist_text.specs.Rows.{shown, filled, IsRow};

    ghost Value = { List (List ℕ) };

    ghost view = { λ row. shown row.names };

    ghost invariant = { λ row. IsRow row.names row.len };

    ghost inverse = { λ names. record { names = filled names; len = length names } };

    ghost use Rattle.std.proofs.Common.{ap₂};

    ghost inverse_ok = { λ row h. ap₂ (λ names len. record { names = names; len = len }) h.same h.count };
}

impl NameList {
    /// The row without names.
    pub fn new() -> NameList
        ensures { result ≡ [] }
    {
        NameList {
            names: [None; limits::MOST_PINS as usize],
            len: 0,
        }
    }

    /// Puts one name more at the end.
    pub fn push(&mut self, name: Name)
        requires { length self.old < MOST_PINS }
        ensures { self.new ≡ self.old ++ name ∷ [] }
    {
        self.names[self.len as usize] = Some(name);
        self.len += 1;
    }

    /// How many names there are, at most [`limits::MOST_PINS`].
    pub fn len(&self) -> usize
        ensures count { result ≡ length self.now }
        ensures most { result ≤ MOST_PINS }
    {
        self.len as usize
    }

    /// The name at the place, counted from 0.
    pub fn at(&self, place: usize) -> Name
        requires { place < length self.now }
        ensures { slice_get self.now place ≡ Some result }
    {
        let names = &self.names;
        let name = names[place];
        match name {
            Some(name) => name,
            None => unreachable!(),
        }
    }
}
