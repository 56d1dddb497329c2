// The nets of a block's pins.
ghost use Rattle.std.specs.Prelude.{◌≡◌, ◌≤◌, ◌<◌, ◌++◌, ◌∷◌, [], length, slice_get, Some};
ghost use Rattle.circuit_model.specs.declared.limits.TheConstants.{MOST_PINS};

use crate::limits;
use std::marker::Model;

/// Positions of nets in a row, at most [`limits::MOST_PINS`] of them, in a fixed place. Contracts see it as their list.
#[derive(Clone, Copy, PartialEq, Eq, Debug)]
pub struct Pins {
    // the nets, and nothing in the places after them
    nets: [Option<u16>; limits::MOST_PINS as usize],
    len: u8,
}

impl Model for Pins {
    ghost use Rattle.std.specs.Prelude.{ℕ, List, length};
    ghost use Rattle.circuit_model.specs.Rows.{nets_in, filled, IsRow};

    ghost Value = { List ℕ };

    ghost view = { λ row. nets_in row.nets };

    ghost invariant = { λ row. IsRow row.nets row.len };

    ghost inverse = { λ nets. record { nets = filled nets; len = length nets } };

    ghost use Rattle.std.proofs.Common.{ap₂};

    ghost inverse_ok = { λ row h. ap₂ (λ nets len. record { nets = nets; len = len }) h.same h.count };
}

impl Pins {
    /// The row without nets.
    pub fn new() -> Pins
        ensures { result ≡ [] }
    {
        Pins {
            nets: [None; limits::MOST_PINS as usize],
            len: 0,
        }
    }

    /// Puts one net more at the end.
    pub fn push(&mut self, net: u16)
        requires { length self.old < MOST_PINS }
        ensures { self.new ≡ self.old ++ net ∷ [] }
    {
        self.nets[self.len as usize] = Some(net);
        self.len += 1;
    }

    /// How many nets there are, at most [`limits::MOST_PINS`].
    pub fn len(&self) -> usize
        ensures count { result ≡ length self.now }
        ensures most { result ≤ MOST_PINS }
    {
        self.len as usize
    }

    /// The net at the place, counted from 0.
    pub fn at(&self, place: usize) -> u16
        requires { place < length self.now }
        ensures { slice_get self.now place ≡ Some result }
    {
        let nets = &self.nets;
        let net = nets[place];
        match net {
            Some(net) => net,
            None => unreachable!(),
        }
    }
}
