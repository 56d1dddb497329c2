// The inferences that are recorded.
ghost use Rattle.std.specs.Prelude.{◌≡◌, ◌<◌, [], IfErr, IfOk, IfSome, Some};
ghost use Rattle.environment_sets.specs.declared.environment.TheConstants.{SLOTS};
ghost use Rattle.inference_search.specs.Inferences.{IsOnce};
ghost use Rattle.recorded_inferences.specs.Recorded.{AreSame, AreUses, AreWith, AreWithout, GoesFrom};

use crate::adding::note;
use crate::dropping::{drop_idle, drop_made_by, drop_uses};
use crate::telling::uses_in;
use circuit_model::Fact;
use inference_search::Inferred;
use justifications::Weave;
use std::alloc::{AllocError, Global};
use std::marker::Model;

/// Recorded inferences (de Kleer 1986), found by the facts that they go from and by their makers; contracts see a list of
/// them, in no order that is told. A fact has a node exactly while an inference names it.
#[derive(Drop)]
pub struct Records {
    weave: Weave,
}

impl Model for Records {
    ghost use Rattle.std.specs.Prelude.{List};
    ghost use Rattle.inference_search.specs.declared.inferred.Inferred.{Inferred};
    ghost use Rattle.recorded_inferences.specs.Recorded.{recorded_in};

    ghost Value = { List Inferred };

    ghost view = { λ r. recorded_in r.weave };
}

impl Records {
    /// Nothing is recorded. It takes no memory.
    pub fn new(alloc: Global) -> Records
        ensures { result ≡ [] }
    {
        Records {
            weave: Weave::new(alloc),
        }
    }

    /// The list becomes the recorded inferences that go from the fact, in no order that is told.
    pub fn uses(&self, found: &mut Vec<Inferred>, fact: &Fact) -> Result<(), AllocError>
        ensures { IfOk result (λ _. AreUses self.now fact.now found.new.items) }
    {
        uses_in(&self.weave, found, fact)
    }

    /// One more is recorded. After an error all is as before.
    pub fn push(&mut self, inferred: Inferred) -> Result<(), AllocError>
        requires once { IsOnce inferred }
        requires maker { IfSome inferred.maker (λ slot. slot < SLOTS) }
        ensures ok { IfOk result (λ _. AreWith inferred self.old self.new) }
        ensures err { IfErr result (λ _. AreSame self.old self.new) }
    {
        if let Err(failed) = note(&mut self.weave, inferred) {
            drop_idle(&mut self.weave, inferred.first);
            drop_idle(&mut self.weave, inferred.second);
            drop_idle(&mut self.weave, inferred.to);
            return Err(failed);
        }
        Ok(())
    }

    /// Exactly the inferences that the slot's component makes are recorded no more, in a walk over these alone. It takes no
    /// memory.
    pub fn drop_made_by(&mut self, slot: u16)
        ensures { AreWithout (λ i. i.maker ≡ Some slot) self.old self.new }
    {
        drop_made_by(&mut self.weave, slot);
    }

    /// Exactly the inferences that go from the fact are recorded no more, in a walk over these alone. It takes no memory.
    pub fn drop_uses(&mut self, fact: &Fact)
        ensures { AreWithout (GoesFrom fact.now) self.old self.new }
    {
        drop_uses(&mut self.weave, fact);
    }
}
