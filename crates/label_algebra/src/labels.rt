// Labels of facts.
ghost use Rattle.std.specs.Prelude.{◌≡◌, ◌<◌, ◌↔◌, IsTrue, OnOk, OnErr, IfSome, Some, Ok, []};
ghost use Rattle.std.specs.Option.{ForSome, option_copied};
ghost use Rattle.environment_sets.specs.Sets.{◌⊆◌};
ghost use Rattle.environment_sets.specs.Lists.{AreDistinct};
ghost use Rattle.environment_sets.specs.Members.{members, sets, HasMember};
ghost use Rattle.environment_sets.specs.Families.{IsCovered, IsAntichain, Adds, Drops, AreInside};
ghost use Rattle.environment_sets.specs.Orders.{ListsAll, IsOrder};
ghost use Rattle.environment_sets.specs.Walks.{GivesNextEnv, envs_left};
ghost use Rattle.antichains.specs.Signed.{HasSubsetAt};

use antichains::{Antichain, Inserted};
use environment_sets::{Env, SLOTS};
use std::alloc::{AllocError, Global};
use std::marker::Model;

/// The label of a fact (de Kleer 1986): the environments under which it is known to hold, the minimal ones alone.
#[derive(Drop)]
pub struct Label {
    antichain: Antichain,
}

impl Model for Label {
    ghost use Rattle.std.specs.Prelude.{List};
    ghost use Rattle.environment_sets.specs.declared.environment.Env.{Env};

    ghost Value = { List Env };

    ghost view = { λ l. l.antichain };
}

impl Label {
    /// The label with no environment. It takes no memory.
    pub fn new(alloc: Global) -> Label
        ensures { result ≡ [] }
    {
        Label {
            antichain: Antichain::new(alloc),
        }
    }

    /// Puts the environment in, unless a member is a subset of it, and drops the members that contain it.
    /// `Covered` takes no memory. After an error the members are as before.
    pub fn insert(&mut self, env: Env) -> Result<Inserted, AllocError>
        ensures covered { (result ≡ Ok Inserted.Covered) ↔ IsCovered (HasMember self.old) (members env) }
        ensures covered_same { (result ≡ Ok Inserted.Covered) → self.new ≡ self.old }
        ensures added { (result ≡ Ok Inserted.Added) → Adds (HasMember self.old) (HasMember self.new) (members env) }
        ensures err { OnErr result (self.new ≡ self.old) }
        ensures antichain { IsAntichain (HasMember self.new) }
    {
        self.antichain.insert(env)
    }

    /// Puts in an environment that no member is a subset of, and drops the members that contain it. After an error the
    /// members are as before.
    pub fn add(&mut self, env: Env) -> Result<(), AllocError>
        requires { IsCovered (HasMember self.old) (members env) → ⊥ }
        ensures added { OnOk result (Adds (HasMember self.old) (HasMember self.new) (members env)) }
        ensures err { OnErr result (self.new ≡ self.old) }
        ensures antichain { IsAntichain (HasMember self.new) }
    {
        self.antichain.add(env)
    }

    /// How many environments of the label are inside the mask.
    pub fn count_inside(&self, mask: &Env) -> usize
        ensures { AreInside (HasMember self.now) (members mask.now) result }
    {
        self.antichain.count_inside(mask)
    }

    /// The members, in no order that is told.
    pub fn members(&self) -> &[Env]
        ensures all { result.now ≡ self.now }
        ensures once { AreDistinct (sets self.now) }
    {
        self.antichain.members()
    }

    /// Whether a member is a subset of the environment.
    pub fn covers(&self, env: &Env) -> bool
        ensures { IsTrue result ↔ IsCovered (HasMember self.now) (members env.now) }
    {
        self.antichain.covers(env)
    }

    /// Whether there is a member at the place, and it is a subset of the environment. For where one place is likely, and the
    /// answer no says nothing of the others.
    pub fn covers_at(&self, env: &Env, place: usize) -> bool
        ensures here { IsTrue result ↔ HasSubsetAt self.now place (members env.now) }
        ensures covered { IsTrue result → IsCovered (HasMember self.now) (members env.now) }
    {
        self.antichain.covers_at(env, place)
    }

    /// Whether a member is a subset of the environment. The member at the place is tried first, and where another one is
    /// found, the place becomes its: of environments that are much alike, one member often covers the next one too.
    pub fn covers_from(&self, env: &Env, place: &mut usize) -> bool
        ensures covered { IsTrue result ↔ IsCovered (HasMember self.now) (members env.now) }
        ensures place { IsTrue result → HasSubsetAt self.now place.new (members env.now) }
        ensures kept { HasSubsetAt self.now place.old (members env.now) → place.new ≡ place.old }
    {
        self.antichain.covers_from(env, place)
    }

    /// Drops the members that have the slot, which is below [`SLOTS`]. It takes no memory.
    pub fn drop_slot(&mut self, slot: u16)
        requires { slot < SLOTS }
        ensures dropped { Drops (HasMember self.old) (HasMember self.new) (λ F. IsTrue (F slot)) }
        ensures antichain { IsAntichain (HasMember self.new) }
    {
        self.antichain.drop_slot(slot);
    }

    /// Drops the members that contain the nogood. It takes no memory.
    pub fn drop_over(&mut self, nogood: &Env)
        ensures dropped { Drops (HasMember self.old) (HasMember self.new) (λ F. members nogood.now ⊆ F) }
        ensures antichain { IsAntichain (HasMember self.new) }
    {
        self.antichain.drop_over(nogood);
    }

    /// The first member that is inside the mask and comes after `last`, or after nothing: the first of all. Calls
    /// that are each given the answer before go through all members inside the mask, and the count of those that
    /// are left falls from call to call. `order` has distinct slots, among them all of the mask and of `last`.
    pub fn next_after(&self, order: &[u16], mask: &Env, last: Option<&Env>) -> Option<Env>
        requires slots { IsOrder SLOTS order.now }
        requires mask_listed { ListsAll order.now (members mask.now) }
        requires last_listed { ForSome last (λ l. ListsAll order.now (members l.now)) }
        ensures next { GivesNextEnv order.now self.now mask.now (option_copied last.entry) result }
        ensures falls { IfSome result (λ e. envs_left order.now self.now mask.now (Some e) < envs_left order.now self.now mask.now (option_copied last.entry)) }
    {
        self.antichain.next_after(order, mask, last)
    }
}
