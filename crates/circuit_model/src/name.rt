// Names of nets and components.

ghost use Rattle.std.specs.Prelude.{◌≡◌, Some, None, if◌then◌else◌, IsTrue};
ghost use Rattle.std.specs.List.{list_all};
ghost use Rattle.circuit_model.specs.Names.{begins_name, continues_name, is_name};

use crate::limits;
use std::marker::Model;

/// The name of a net or of a component: 1 to [`limits::LONGEST_NAME`] bytes, the first a letter or `_`, each other one a
/// letter, a digit or `_`. Contracts see it as its bytes.
#[derive(Clone, Copy, PartialEq, Eq, Hash, Debug)]
pub struct Name {
    // the bytes, and zeros after them
    bytes: [u8; limits::LONGEST_NAME],
    len: u8,
}

impl Model for Name {
    ghost use Rattle.std.specs.Prelude.{ℕ, List, length};
    ghost use Rattle.circuit_model.specs.Padding.{padded, shown, IsPadded};

    ghost Value = { List ℕ };

    ghost view = { λ n. shown n.bytes n.len };

    ghost invariant = { λ n. IsPadded n.bytes n.len };

    ghost inverse = { λ bytes. record { bytes = padded bytes; len = length bytes } };

    ghost use Rattle.circuit_model.specs.Padding.{padded-shown, length-shown};
    ghost use Rattle.std.proofs.Common.{ap₂};

    ghost inverse_ok = { λ n h. ap₂ (λ bytes len. record { bytes = bytes; len = len }) (padded-shown n.bytes n.len h) (length-shown n.bytes n.len h) };
}

impl Name {
    /// The name with these bytes, if they are one. It takes no memory.
    pub fn new(bytes: &[u8]) -> Option<Name>
        ensures { result ≡ (if is_name bytes.now then Some bytes.now else None) }
    {
        if is_name(bytes) {
            Some(Name::of_bytes(bytes))
        } else {
            None
        }
    }

    /// Its bytes, 1 to [`limits::LONGEST_NAME`] of them.
    pub fn bytes(&self) -> &[u8]
        ensures bytes { result.now ≡ self.now }
        ensures name { IsTrue (is_name self.now) }
    {
        &self.bytes[..self.len as usize]
    }

    fn of_bytes(bytes: &[u8]) -> Name
        requires { IsTrue (is_name bytes.now) }
        ensures { result ≡ bytes.now }
    {
        let mut padded = [0; limits::LONGEST_NAME];
        padded[..bytes.len()].copy_from_slice(bytes);
        Name {
            bytes: padded,
            len: bytes.len() as u8,
        }
    }
}

fn is_name(bytes: &[u8]) -> bool
    ensures { result ≡ is_name bytes.now }
{
    match bytes {
        [] => false,
        [first, rest @ ..] => {
            begins_name(*first) && continue_name(rest) && bytes.len() <= limits::LONGEST_NAME
        }
    }
}

fn continue_name(bytes: &[u8]) -> bool
    ensures { result ≡ list_all continues_name bytes.now }
{
    bytes.iter().all(|b| continues_name(*b))
}

fn begins_name(b: u8) -> bool
    ensures { result ≡ begins_name b }
{
    b.is_ascii_alphabetic() || b == b'_'
}

fn continues_name(b: u8) -> bool
    ensures { result ≡ continues_name b }
{
    begins_name(b) || b.is_ascii_digit()
}
