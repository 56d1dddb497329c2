// The list of what takes changes back.
ghost use Rattle.std.specs.Prelude.{◌≡◌, ◌≤◌, ◌↔◌, [], ◌∷◌, length, take, drop, slice_get, IfOk, IsTrue};
ghost use Rattle.std.specs.List.{list_any};
ghost use Rattle.environment_sets.specs.Lists.{IsIn};
ghost use Rattle.circuit_model.specs.declared.limits.TheConstants.{MOST_EARLIER};
ghost use Rattle.circuit_model.specs.Present.{is_fact};
ghost use Rattle.present_history.specs.Earlier.{retracted};
ghost use Rattle.present_history.specs.Earlier as spec;

use crate::undoing::Undoing;
use circuit_model::{Fact, limits};
use circular_buffer::HeapCircularBuffer;
use std::alloc::{AllocError, Global};
use std::marker::Model;

/// What takes the last changes back, the newest first: at most [`limits::MOST_EARLIER`] of them. Contracts see their list.
#[derive(Drop)]
pub struct History {
    undoings: HeapCircularBuffer<Undoing>,
}

impl Model for History {
    ghost use Rattle.std.specs.Prelude.{List};
    ghost use Rattle.present_history.specs.declared.undoing.Undoing.{Undoing};

    ghost Value = { List Undoing };

    ghost use Rattle.present_history.specs.Kept.{IsKept};

    ghost view = { λ h. h.undoings.items };

    ghost invariant = { λ h. IsKept h.undoings };
}

impl History {
    /// No change. The room for all is taken here.
    pub fn open(alloc: Global) -> Result<History, AllocError>
        ensures { IfOk result (λ h. h ≡ []) }
    {
        let undoings = HeapCircularBuffer::with_capacity(alloc, limits::MOST_EARLIER as usize)?;
        Ok(History { undoings })
    }

    /// How many changes can be taken back.
    pub fn len(&self) -> usize
        ensures value { result ≡ length self.now }
        ensures most { result ≤ MOST_EARLIER }
    {
        self.undoings.len()
    }

    /// Whether no change can be taken back.
    pub fn is_empty(&self) -> bool
        ensures empty { IsTrue result ↔ (self.now ≡ []) }
        ensures most { length self.now ≤ MOST_EARLIER }
    {
        self.undoings.is_empty()
    }

    /// Puts what takes the newest change back before the others. Where there is no room, what takes the oldest one back goes,
    /// and is handed out. It takes no memory.
    pub fn push(&mut self, undoing: Undoing) -> Option<Undoing>
        ensures kept { self.new ≡ take MOST_EARLIER (undoing ∷ self.old) }
        ensures dropped { result ≡ slice_get (undoing ∷ self.old) MOST_EARLIER }
        ensures fitted { length self.old ≤ MOST_EARLIER }
        ensures most { length self.new ≤ MOST_EARLIER }
    {
        self.undoings.push_front(undoing)
    }

    /// Hands out what takes the newest change back, if there is one.
    pub fn pop(&mut self) -> Option<Undoing>
        ensures newest { result ≡ slice_get self.old 0 }
        ensures others { self.new ≡ drop 1 self.old }
        ensures most { length self.new ≤ MOST_EARLIER }
    {
        self.undoings.pop_front()
    }

    /// Whether some change retracted the measurement.
    pub fn has_retracted(&self, fact: Fact) -> bool
        ensures { IsTrue result ↔ IsIn (retracted self.now) fact }
    {
        some_retracts(&self.undoings, fact)
    }
}

// Whether some change retracted the measurement.
fn some_retracts(undoings: &HeapCircularBuffer<Undoing>, fact: Fact) -> bool
    ensures { IsTrue result ↔ IsIn (retracted undoings.now.items) fact }
{
    any_retracts(undoings, fact)
}

// The same, as a test of each change.
fn any_retracts(undoings: &HeapCircularBuffer<Undoing>, fact: Fact) -> bool
    ensures { result ≡ list_any (spec.retracts fact) undoings.now.items }
{
    undoings.iter().any(|undoing| retracts(*undoing, fact))
}

// Whether the change retracted the measurement.
fn retracts(undoing: Undoing, fact: Fact) -> bool
    ensures { result ≡ spec.retracts fact undoing }
{
    match undoing.retracted() {
        Some(other) => is_same(fact, other),
        None => false,
    }
}

fn is_same(one: Fact, other: Fact) -> bool
    ensures { result ≡ is_fact one other }
{
    one.cell == other.cell && one.value == other.value
}
