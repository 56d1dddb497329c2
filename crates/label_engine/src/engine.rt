// The engine: what is remembered, and its labels and nogoods.

ghost use Rattle.std.specs.Prelude.{◌≡◌, ◌<◌, ◌↔◌, ℕ, None, Some, Err, IfOk, IfSome, IsSome, IsTrue, OnErr, MatchOption};
ghost use Rattle.environment_sets.specs.declared.environment.TheConstants.{SLOTS};
ghost use Rattle.environment_sets.specs.Members.{HasMember};
ghost use Rattle.circuit_model.specs.declared.model.Assumption.TheVariants.{Reading};
ghost use Rattle.environment_sets.specs.Families.{Drops};
ghost use Rattle.circuit_model.specs.declared.model.Assumption.{Assumption};
ghost use Rattle.circuit_model.specs.declared.model.Fact.{Fact};
ghost use Rattle.circuit_model.specs.Settled.{AreExact};
ghost use Rattle.assumption_slots.specs.Slots.{stock};
ghost use Rattle.label_engine.specs.Engine.{label_at, Remembers, Forgets, AreAllTaken, IsAsBefore};

use crate::update::Update;
use assumption_slots::Slots;
use circuit_model::{Assumption, Fact};
use labelled_nodes::{Nodes, is_same_fact};
use propagation_agenda::{Agenda, Picker};
use recorded_inferences::Records;
use std::alloc::{AllocError, Global};
use std::marker::Model;
use thiserror::Error;

/// Why an assumption was not remembered. All is as before.
#[derive(Clone, Copy, Debug, PartialEq, Eq, Error)]
pub enum Stop {
    /// Each slot stands for an assumption.
    #[error("each slot stands for an assumption")]
    NoSlot,
    /// Memory ran out.
    #[error("memory ran out")]
    OutOfMemory,
}

/// Remembered assumptions by slot, the label of each fact over all of them at once, and their nogoods (de Kleer 1986).
/// Nodes and nogoods are exact whenever no call is running, as `exactness` says.
#[derive(Drop)]
pub struct Engine {
    pub(crate) alloc: Global,
    pub(crate) slots: Slots,
    pub(crate) update: Update,
}

impl Model for Engine {
    ghost use Rattle.label_engine.specs.Engine.{Seen, kept_of};
    ghost use Rattle.label_engine.specs.Update.{IsAtRest};
    ghost use Rattle.assumption_slots.specs.Slots.{stock};

    ghost Value = { Seen };

    ghost view = { λ e. record { slots = e.slots; kept = kept_of e.update.nodes.list; nogoods = e.update.nodes.nogoods } };

    ghost invariant = { λ e. IsAtRest (stock e.slots) e.update };
}

// Whether the slot stands for a reading of the fact.
fn stands_for(slots: &Slots, slot: u16, fact: &Fact) -> bool
    requires { slot < SLOTS }
    ensures { IsTrue result ↔ (stock slots.now slot ≡ Some (Reading fact.now)) }
{
    match slots.at(slot) {
        Some(Assumption::Reading(read)) => is_same_fact(read, fact),
        _ => false,
    }
}

impl Engine {
    /// An engine that remembers nothing. The room for what is remembered is taken here; an error says that there is none.
    pub fn open(alloc: Global) -> Result<Engine, AllocError>
        ensures nothing { IfOk result (λ e. (k : ℕ) → stock e.slots k ≡ None) }
        ensures exact { IfOk result (λ e. AreExact (stock e.slots) (label_at e) (HasMember e.nogoods)) }
    {
        let slots = Slots::open(alloc)?;
        let nodes = Nodes::open(alloc)?;
        let update = Update {
            slot: 0,
            nodes,
            recorded: Records::new(alloc),
            due: Vec::new(alloc),
            work: Vec::new(alloc),
            agenda: Agenda::new(alloc),
        };
        Ok(Engine {
            alloc,
            slots,
            update,
        })
    }

    /// For proofs alone: its labels are those of the remembered assumptions, and its nogoods theirs.
    pub fn exactness(&self)
        ensures { AreExact (stock self.now.slots) (label_at self.now) (HasMember self.now.nogoods) }
    {
        let _slots = &self.slots;
    }

    /// Remembers one assumption more, and answers its slot. Nodes and nogoods are brought up to date by unions of
    /// environments along the recorded inferences, in an order that the picker chooses and that alters no answer.
    pub fn assume<P: Picker>(&mut self, what: Assumption, picker: &mut P) -> Result<u16, Stop>
        ensures ok { IfOk result (λ slot. Remembers (stock self.old.slots) slot what (stock self.new.slots)) }
        ensures no_slot { (result ≡ Err Stop.NoSlot) ↔ AreAllTaken (stock self.old.slots) }
        ensures err { OnErr result (IsAsBefore self.old self.new) }
        ensures exact { AreExact (stock self.new.slots) (label_at self.new) (HasMember self.new.nogoods) }
    {
        let Some(slot) = self.slots.first_free() else {
            return Err(Stop::NoSlot);
        };
        self.slots.set(slot, what);
        self.update.slot = slot;
        match self.update.assume(self.alloc, &self.slots, picker) {
            Ok(()) => Ok(slot),
            Err(_) => {
                self.slots.clear(slot);
                Err(Stop::OutOfMemory)
            }
        }
    }

    /// Forgets what is remembered at the slot. It takes no memory. Facts that no environment supports any more and the
    /// inferences from them are dropped too; they are found again where the facts are met again.
    pub fn forget(&mut self, slot: u16)
        requires below { slot < SLOTS }
        requires remembered { IsSome (stock self.old.slots slot) }
        ensures forgets { (what : Assumption) → stock self.old.slots slot ≡ Some what → Forgets (stock self.old.slots) slot what (stock self.new.slots) }
        ensures labels { (f : Fact) → Drops (label_at self.old f) (label_at self.new f) (λ E. IsTrue (E slot)) }
        ensures nogoods { Drops (HasMember self.old.nogoods) (HasMember self.new.nogoods) (λ E. IsTrue (E slot)) }
        ensures exact { AreExact (stock self.new.slots) (label_at self.new) (HasMember self.new.nogoods) }
    {
        self.slots.clear(slot);
        self.update.forget(slot);
    }

    /// A slot that stands for a reading of the fact, if one does.
    pub fn slot_of(&self, fact: Fact) -> Option<u16>
        ensures slot { MatchOption result ((k : ℕ) → stock self.now.slots k ≡ Some (Reading fact) → ⊥) (λ k. stock self.now.slots k ≡ Some (Reading fact)) }
        ensures below { IfSome result (λ k. k < SLOTS) }
    {
        for slot in 0..self.slots.end() as u16 {
            if stands_for(&self.slots, slot, &fact) {
                return Some(slot);
            }
        }
        None
    }
}
