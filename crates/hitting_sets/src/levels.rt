// The minimal hitting sets of each prefix of a list of conflicts.
ghost use Rattle.std.specs.Prelude.{◌≡◌, ◌↔◌, ℕ, IsTrue, ◌≤◌, OnOk, ◌++◌, ◌∷◌, [], take, length};
ghost use Rattle.hitting_sets.specs.Hitting.{AreMinimalFor};

use crate::extension::extend;
use environment_sets::Env;
use std::alloc::{AllocError, Global};
use std::marker::Model;
use std::slice::from_ref;

// One conflict, and the minimal hitting sets of the conflicts up to it.
#[derive(Drop)]
struct Level {
    conflict: Env,
    sets: Vec<Env>,
}

// A list of conflicts with the minimal hitting sets of each of its prefixes.
#[derive(Drop)]
pub struct Levels {
    alloc: Global,
    // the minimal hitting set of no conflict
    nothing: Env,
    list: Vec<Level>,
}

impl Model for Levels {
    ghost use Rattle.std.specs.Prelude.{◌≡◌, List};
    ghost use Rattle.environment_sets.specs.declared.environment.Env.{Env};
    ghost use Rattle.environment_sets.specs.Sets.{no_elements};
    ghost use Rattle.environment_sets.specs.Members.{members};

    ghost Value = { List Env };

    ghost use Rattle.hitting_sets.specs.Levels.{conflicts_of, AreLevels};

    ghost view = { λ l. conflicts_of l.list.items };

    ghost invariant = { λ l. (members l.nothing ≡ no_elements) × AreLevels l.list.items };
}

impl Levels {
    // No conflict. It takes no memory.
    pub fn none(alloc: Global) -> Levels
        ensures { result ≡ [] }
    {
        Levels {
            alloc,
            nothing: Env::empty(),
            list: Vec::new(alloc),
        }
    }

    // How many conflicts there are.
    pub fn len(&self) -> usize
        ensures { result ≡ length self.now }
    {
        self.list.len()
    }

    // The length of the longest common prefix of the two lists.
    pub fn common(&self, conflicts: &[Env]) -> usize
        ensures within { result ≤ length conflicts.now }
        ensures same { take result self.now ≡ take result conflicts.now }
        ensures longest { (n : ℕ) → n ≤ length conflicts.now → take n self.now ≡ take n conflicts.now → n ≤ result }
    {
        let most = self.list.len().min(conflicts.len());
        for i in 0..most {
            if !is_same(&self.list[i].conflict, &conflicts[i]) {
                return i;
            }
        }
        most
    }

    // Only the first conflicts stay.
    pub fn truncate(&mut self, len: usize)
        ensures { self.new ≡ take len self.old }
    {
        self.list.truncate(len);
    }

    // Puts one conflict more at the end.
    pub fn push(&mut self, before: &[Env], conflict: Env) -> Result<(), AllocError>
        requires { before.now ≡ self.old }
        ensures { OnOk result (self.new ≡ self.old ++ conflict ∷ []) }
    {
        let sets = extend(self.alloc, before, &conflict, self.sets_of(before.len()))?;
        self.list.push(Level { conflict, sets })?;
        Ok(())
    }

    // The minimal hitting sets of the first conflicts.
    pub fn sets_of(&self, prefix: usize) -> &[Env]
        requires { prefix ≤ length self.now }
        ensures { AreMinimalFor (take prefix self.now) result.now }
    {
        if prefix == 0 {
            return from_ref(&self.nothing);
        }
        &self.list[prefix - 1].sets
    }
}

// Whether the two are one environment.
fn is_same(a: &Env, b: &Env) -> bool
    ensures { IsTrue result ↔ (a.now ≡ b.now) }
{
    a.is_subset(b) && b.is_subset(a)
}
