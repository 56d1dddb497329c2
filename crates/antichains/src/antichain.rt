// Sets of environments, none of which contains another.
ghost use Rattle.std.specs.Prelude.{◌≡◌, ◌<◌, ◌↔◌, IsTrue, OnOk, OnErr, IfOk, IfSome, Some, Ok, [], filter, not};
ghost use Rattle.std.specs.Option.{ForSome, option_copied};
ghost use Rattle.environment_sets.specs.Sets.{◌⊆◌, is_within};
ghost use Rattle.environment_sets.specs.Lists.{AreDistinct, IsRoster};
ghost use Rattle.environment_sets.specs.Members.{members, sets, HasMember};
ghost use Rattle.environment_sets.specs.Families.{IsCovered, IsAntichain, Adds, Drops, AreInside};
ghost use Rattle.environment_sets.specs.Orders.{ListsAll, IsOrder};
ghost use Rattle.environment_sets.specs.Walks.{GivesNextEnv, envs_left};
ghost use Rattle.antichains.specs.Completed.{Complete, Lacking};
ghost use Rattle.antichains.specs.Largest.{AreAtMost, AreWithin};
ghost use Rattle.antichains.specs.Signed.{HasSubsetAt, IsSigned, HasRoom};

use crate::completing::completing;
use crate::nearest::first_after;
use crate::signed_list::SignedList;
use environment_sets::{Env, SLOTS};
use std::alloc::{AllocError, Global};
use std::marker::Model;

/// What an insertion did.
#[derive(Clone, Copy, Debug, PartialEq, Eq)]
pub enum Inserted {
    /// A member is a subset of the environment already.
    Covered,
    /// The environment is a member now, and what contained it is not.
    Added,
}

/// A set of environments none of which contains another: the minimal ones of those that were inserted, which is how
/// labels and nogoods are kept (de Kleer 1986).
#[derive(Drop)]
pub struct Antichain {
    signed: SignedList,
    // No member has more slots. Nothing that has as many is contained in another member.
    largest: u16,
    // No member has a slot outside. Where all of it is inside a mask, each member is.
    reach: Env,
}

impl Model for Antichain {
    ghost use Rattle.std.specs.Prelude.{List};
    ghost use Rattle.environment_sets.specs.declared.environment.Env.{Env};
    ghost use Rattle.environment_sets.specs.Members.{members, HasMember};
    ghost use Rattle.antichains.specs.Largest.{AreWithin, ListsAntichain};
    ghost use Rattle.antichains.specs.Signed.{IsSigned};

    ghost Value = { List Env };

    ghost view = { λ a. a.signed.list.items };

    ghost invariant = { λ a. ListsAntichain a.largest a.signed.list.items × IsSigned a.signed × AreWithin (members a.reach) (HasMember a.signed.list.items) };
}

impl Antichain {
    /// No members. It takes no memory.
    pub fn new(alloc: Global) -> Antichain
        ensures { result ≡ [] }
    {
        Antichain {
            signed: SignedList::new(alloc),
            largest: 0,
            reach: Env::empty(),
        }
    }

    /// Puts the environment in, unless a member is a subset of it, and drops the members that contain it.
    /// `Covered` takes no memory. After an error the members are as before.
    pub fn insert(&mut self, env: Env) -> Result<Inserted, AllocError>
        ensures covered { (result ≡ Ok Inserted.Covered) ↔ IsCovered (HasMember self.old) (members env) }
        ensures covered_same { (result ≡ Ok Inserted.Covered) → self.new ≡ self.old }
        ensures added { (result ≡ Ok Inserted.Added) → Adds (HasMember self.old) (HasMember self.new) (members env) }
        ensures err { OnErr result (self.new ≡ self.old) }
        ensures antichain { IsAntichain (HasMember self.new) }
    {
        if self.is_covered(&env) {
            return Ok(Inserted::Covered);
        }
        self.add(env)?;
        Ok(Inserted::Added)
    }

    // Whether a member is a subset of the environment; and none contains another.
    fn is_covered(&self, env: &Env) -> bool
        ensures covered { IsTrue result ↔ IsCovered (HasMember self.now) (members env.now) }
        ensures antichain { IsAntichain (HasMember self.now) }
    {
        let _signed = &self.signed;
        self.covers(env)
    }

    /// Puts in an environment that no member is a subset of, and drops the members that contain it. After an error the
    /// members are as before.
    pub fn add(&mut self, env: Env) -> Result<(), AllocError>
        requires { IsCovered (HasMember self.old) (members env) → ⊥ }
        ensures added { OnOk result (Adds (HasMember self.old) (HasMember self.new) (members env)) }
        ensures err { OnErr result (self.new ≡ self.old) }
        ensures antichain { IsAntichain (HasMember self.new) }
    {
        self.signed.make_room()?;
        drop_supersets(&mut self.signed, &env, self.largest, &self.reach);
        self.largest = self.largest.max(env.size());
        self.reach = self.reach.union(env);
        self.signed.push(env);
        Ok(())
    }

    /// How many members are inside the mask. They are looked at only where one of them may have a slot outside.
    pub fn count_inside(&self, mask: &Env) -> usize
        ensures { AreInside (HasMember self.now) (members mask.now) result }
    {
        if self.reach.is_subset(mask) {
            return self.signed.list.len();
        }
        self.signed
            .list
            .iter()
            .filter(|member| member.is_subset(mask))
            .count()
    }

    /// The members that are inside the mask, each once, in no order that is told.
    pub fn inside(&self, alloc: Global, mask: &Env) -> Result<Vec<Env>, AllocError>
        ensures { IfOk result (λ found. IsRoster (λ E. HasMember self.now E × (E ⊆ members mask.now)) (sets found.items)) }
    {
        self.signed
            .list
            .iter()
            .copied()
            .filter(|member| member.is_subset(mask))
            .collect(alloc)
    }

    /// The members, in no order that is told.
    pub fn members(&self) -> &[Env]
        ensures all { result.now ≡ self.now }
        ensures once { AreDistinct (sets self.now) }
    {
        &self.signed.list
    }

    /// Whether a member is a subset of the environment.
    pub fn covers(&self, env: &Env) -> bool
        ensures { IsTrue result ↔ IsCovered (HasMember self.now) (members env.now) }
    {
        self.signed.place_of_subset(env).is_some()
    }

    /// Whether there is a member at the place, and it is a subset of the environment. For where one place is likely, and the
    /// answer no says nothing of the others.
    pub fn covers_at(&self, env: &Env, place: usize) -> bool
        ensures here { IsTrue result ↔ HasSubsetAt self.now place (members env.now) }
        ensures covered { IsTrue result → IsCovered (HasMember self.now) (members env.now) }
    {
        is_subset_at(&self.signed.list, place, env)
    }

    /// Whether a member is a subset of the environment. The member at the place is tried first, and where another one is
    /// found, the place becomes its: of environments that are much alike, one member often covers the next one too.
    pub fn covers_from(&self, env: &Env, place: &mut usize) -> bool
        ensures covered { IsTrue result ↔ IsCovered (HasMember self.now) (members env.now) }
        ensures place { IsTrue result → HasSubsetAt self.now place.new (members env.now) }
        ensures kept { HasSubsetAt self.now place.old (members env.now) → place.new ≡ place.old }
    {
        if self.covers_at(env, *place) {
            return true;
        }
        match self.signed.place_of_subset(env) {
            Some(found) => {
                *place = found;
                true
            }
            None => false,
        }
    }

    /// Slots with any of which the environment contains a member that lacks this one. So, of many environments that all
    /// contain this one, those that have such a slot are seen to be covered with no look at the members.
    /// That no further slot but the environment's own does so is said by no clause, as nothing rests on it.
    pub fn completing(&self, env: &Env, lacked: u16) -> Env
        requires { lacked < SLOTS }
        ensures { Complete (members result) (Lacking lacked (HasMember self.now)) (members env.now) }
    {
        completing(&self.signed, env, lacked)
    }

    /// Drops the members that have the slot, which is below [`SLOTS`]. It takes no memory.
    pub fn drop_slot(&mut self, slot: u16)
        requires { slot < SLOTS }
        ensures dropped { Drops (HasMember self.old) (HasMember self.new) (λ F. IsTrue (F slot)) }
        ensures antichain { IsAntichain (HasMember self.new) }
    {
        self.signed.drop_slot(slot);
        self.reach = self.reach.without(slot);
    }

    /// Drops the members that contain the environment. It takes no memory.
    pub fn drop_over(&mut self, env: &Env)
        ensures dropped { Drops (HasMember self.old) (HasMember self.new) (λ F. members env.now ⊆ F) }
        ensures antichain { IsAntichain (HasMember self.new) }
    {
        self.signed.drop_over(env);
    }

    /// The first member that is inside the mask and comes after `last`, or after nothing: the first of all. Calls
    /// that are each given the answer before go through all members inside the mask, and the count of those that
    /// are left falls from call to call. `order` has distinct slots, among them all of the mask and of `last`.
    pub fn next_after(&self, order: &[u16], mask: &Env, last: Option<&Env>) -> Option<Env>
        requires slots { IsOrder SLOTS order.now }
        requires mask_listed { ListsAll order.now (members mask.now) }
        requires last_listed { ForSome last (λ l. ListsAll order.now (members l.now)) }
        ensures next { GivesNextEnv order.now self.now mask.now (option_copied last.entry) result }
        ensures falls { IfSome result (λ e. envs_left order.now self.now mask.now (Some e) < envs_left order.now self.now mask.now (option_copied last.entry)) }
    {
        first_after(&self.signed, order, mask, last)
    }
}

// Drops the environments that contain this one. Where none has more slots, or this one has a slot that none has, there are
// none: so where it is the first one with a slot that is new.
fn drop_supersets(signed: &mut SignedList, env: &Env, largest: u16, reach: &Env)
    requires out { IsCovered (HasMember signed.old.list.items) (members env.now) → ⊥ }
    requires at_most { AreAtMost largest (HasMember signed.old.list.items) }
    requires within { AreWithin (members reach.now) (HasMember signed.old.list.items) }
    requires signed { IsSigned signed.old }
    ensures left { signed.new.list.items ≡ filter (λ e. not (is_within SLOTS (members env.now) (members e))) signed.old.list.items }
    ensures signed { IsSigned signed.new }
    ensures room { HasRoom signed.old → HasRoom signed.new }
{
    if env.size() >= largest {
        return;
    }
    if env.is_subset(reach) {
        signed.drop_over(env);
    }
}

// Whether there is a member at the place, and it is a subset of the environment.
fn is_subset_at(list: &[Env], place: usize, env: &Env) -> bool
    ensures here { IsTrue result ↔ HasSubsetAt list.now place (members env.now) }
    ensures covered { IsTrue result → IsCovered (HasMember list.now) (members env.now) }
{
    match list.get(place) {
        Some(member) => member.is_subset(env),
        None => false,
    }
}
