// Lists of environments.
ghost use Rattle.std.specs.Prelude.{◌≡◌, ◌<◌, length, slice_get, Some, ◌↔◌, IsTrue, []};

use crate::environment::Env;
use std::marker::Model;

/// A list of environments that does not change.
#[derive(Drop)]
pub struct EnvList {
    list: Vec<Env>,
}

impl Model for EnvList {
    ghost use Rattle.std.specs.Prelude.{List};
    ghost use Rattle.environment_sets.specs.declared.environment.Env.{Env};

    ghost Value = { List Env };

    ghost view = { λ l. l.list.items };
}

impl EnvList {
    /// The list. It takes no memory.
    pub fn of(list: Vec<Env>) -> EnvList
        ensures { result ≡ list.items }
    {
        EnvList { list }
    }

    /// How many environments stand in the list.
    pub fn len(&self) -> usize
        ensures { result ≡ length self.now }
    {
        self.list.len()
    }

    /// Whether no environment stands in the list.
    pub fn is_empty(&self) -> bool
        ensures { IsTrue result ↔ (self.now ≡ []) }
    {
        self.list.is_empty()
    }

    /// The environment at a place, counted from 0 and below the length.
    pub fn at(&self, i: usize) -> Env
        requires { i < length self.now }
        ensures { slice_get self.now i ≡ Some result }
    {
        self.list[i]
    }
}
