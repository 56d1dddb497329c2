// The minimal hitting sets of a list of conflicts, kept for each of its prefixes.
ghost use Rattle.std.specs.Prelude.{◌≡◌, ◌↔◌, ◌≤◌, IsTrue, IsOk, OnOk, OnErr, [], take, length};
ghost use Rattle.hitting_sets.specs.Hitting.{AreMinimalFor};

use crate::levels::Levels;
use environment_sets::Env;
use std::alloc::{AllocError, Global};
use std::marker::Model;

/// Keeps the minimal hitting sets (Reiter 1987) of a list of conflicts and of each prefix of it, so that an update makes
/// anew only what comes after the longest common prefix of the old list and the new one.
#[derive(Drop)]
pub struct Hitter {
    levels: Levels,
    ready: bool,
}

impl Model for Hitter {
    ghost use Rattle.hitting_sets.specs.State.{HitterState};

    ghost Value = { HitterState };

    ghost view = { λ h. record { ready = h.ready; conflicts = h.levels } };
}

impl Hitter {
    /// Ready for the empty list, whose one minimal hitting set is empty. It takes no memory.
    pub fn open(alloc: Global) -> Hitter
        ensures ready { IsTrue result.ready }
        ensures conflicts { result.conflicts ≡ [] }
    {
        Hitter {
            levels: Levels::none(alloc),
            ready: true,
        }
    }

    /// Stands for these conflicts from now on. What is kept of the longest common prefix of the old list and the new
    /// one stays; after an error nothing is kept, until the next update. Where a conflict is empty there is no hitting
    /// set.
    pub fn update(&mut self, conflicts: &[Env]) -> Result<(), AllocError>
        ensures ready { IsTrue self.new.ready ↔ IsOk result }
        ensures conflicts { OnOk result (self.new.conflicts ≡ conflicts.now) }
        ensures err { OnErr result (self.new.conflicts ≡ []) }
    {
        self.levels.truncate(self.levels.common(conflicts));
        match add_all(&mut self.levels, conflicts) {
            Ok(()) => {
                self.ready = true;
                Ok(())
            }
            Err(error) => {
                self.levels.truncate(0);
                self.ready = false;
                Err(error)
            }
        }
    }

    /// Whether the hitting sets may be asked for: after an update with an error, not until the next one.
    pub fn ready(&self) -> bool
        ensures { result ≡ self.now.ready }
    {
        self.ready
    }

    /// The minimal hitting sets of the conflicts, in no order that is told.
    pub fn sets(&self) -> &[Env]
        requires { IsTrue self.now.ready }
        ensures { AreMinimalFor self.now.conflicts result.now }
    {
        self.sets_of(self.levels.len())
    }

    /// The minimal hitting sets of the first conflicts, so many as `prefix` says, in no order that is told.
    pub fn sets_of(&self, prefix: usize) -> &[Env]
        requires ready { IsTrue self.now.ready }
        requires within { prefix ≤ length self.now.conflicts }
        ensures { AreMinimalFor (take prefix self.now.conflicts) result.now }
    {
        self.levels.sets_of(prefix)
    }
}

// Adds the conflicts that come after those that are there.
fn add_all(levels: &mut Levels, conflicts: &[Env]) -> Result<(), AllocError>
    requires within { length levels.old ≤ length conflicts.now }
    requires prefix { levels.old ≡ take (length levels.old) conflicts.now }
    ensures { OnOk result (levels.new ≡ conflicts.now) }
{
    for i in levels.len()..conflicts.len() {
        levels.push(&conflicts[..i], conflicts[i])?;
    }
    Ok(())
}
