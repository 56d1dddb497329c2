// What a session keeps between lines.
ghost use Rattle.std.specs.Prelude.{◌≡◌, IfOk};
ghost use Rattle.session_undo.specs.Presents.{empty};
ghost use Rattle.session_undo.specs.Remembering.{Remembers};

use circuit_model::Present;
use hitting_sets::Hitter;
use present_history::History;
use standing_changes::Remembered;
use std::alloc::{AllocError, Global};
use std::marker::Model;

/// A session: the present, and the earlier presents to which `undo` goes back, as far as they are kept. Contracts see
/// these. Beside them the engine remembers exactly the components of the present and the measurements that stand in it or
/// in an earlier present; its labels are exact over all of these, at every moment.
#[derive(Drop)]
pub struct Session {
    pub(crate) alloc: Global,
    pub(crate) present: Present,
    // what takes each change back, the newest first
    pub(crate) history: History,
    pub(crate) remembered: Remembered,
    // what is kept from question to question; it alters no answer
    pub(crate) hitter: Hitter,
}

impl Model for Session {
    ghost use Rattle.session_undo.specs.Presents.{State};
    ghost use Rattle.session_undo.specs.Remembering.{IsKept};
    ghost use Rattle.present_history.specs.Earlier.{earlier_of};

    ghost Value = { State };

    ghost view = { λ s. record { present = s.present; earlier = earlier_of s.present s.history } };

    ghost invariant = { λ s. IsKept s.present s.history s.remembered };
}

impl Session {
    /// The state of a fresh bench. All room for the history is taken here.
    pub fn open(alloc: Global) -> Result<Session, AllocError>
        ensures { IfOk result (λ s. s ≡ empty) }
    {
        Ok(Session {
            alloc,
            present: Present::open(alloc)?,
            history: History::open(alloc)?,
            remembered: Remembered::open(alloc)?,
            hitter: Hitter::open(alloc),
        })
    }

    /// The present.
    pub fn present(&self) -> &Present
        ensures { result.now ≡ self.now.present }
    {
        &self.present
    }

    /// What is remembered, and the slots of what stands.
    pub fn remembered(&self) -> &Remembered
        ensures { Remembers result.now self.now }
    {
        // For the proof alone: the present is lawful.
        let _parts = self.present.parts();
        &self.remembered
    }
}
