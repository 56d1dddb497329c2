// Lists of keys, linked in both directions.
ghost use Rattle.std.specs.Prelude.{◌≡◌, ℕ, ◌<◌, ◌≤◌, ◌∷◌, length, None, Some, OnOk, OnErr, IfSome, IsSome, slice_set};
ghost use Rattle.environment_sets.specs.Lists.{IsIn};
ghost use Rattle.index_lists.specs.Lists.{list_at, first_of, next_in, without, IsInNone, IsInSome, Changes, AreSame};
ghost use Rattle.index_lists.specs.Links.{with_after, with_before, changed_at, first_at, place_at, between, first_past};

use std::alloc::{AllocError, Global};
use std::marker::Model;

/// Where a key stands: in the list of which head, behind which key, and before which.
#[derive(Clone, Copy)]
pub struct Place {
    pub head: usize,
    pub before: Option<usize>,
    pub after: Option<usize>,
}

/// A list of keys for each head. A key stands in at most one of them, and leaves it in constant time. Contracts see the
/// lists.
#[derive(Drop)]
pub struct Lane {
    // the first key of each head
    firsts: Vec<Option<usize>>,
    // the place of each key
    places: Vec<Option<Place>>,
}

impl Model for Lane {
    ghost use Rattle.index_lists.specs.Lists.{Lists};
    ghost use Rattle.index_lists.specs.Links.{lists_of, AreLinked};

    ghost Value = { Lists };

    ghost view = { λ l. lists_of l.firsts.items l.places.items };

    ghost invariant = { λ l. AreLinked l.firsts.items l.places.items };
}

// The key, if there is one, has another key behind it.
fn set_after(places: &mut [Option<Place>], key: Option<usize>, after: Option<usize>)
    requires { IfSome key (λ k. k < length places.old) }
    ensures { places.new ≡ changed_at (with_after after) key places.old }
{
    let Some(k) = key else {
        return;
    };
    let changed = places[k].map(|place| Place { after, ..place });
    places[k] = changed;
}

// The key, if there is one, has another key before it.
fn set_before(places: &mut [Option<Place>], key: Option<usize>, before: Option<usize>)
    requires { IfSome key (λ k. k < length places.old) }
    ensures { places.new ≡ changed_at (with_before before) key places.old }
{
    let Some(k) = key else {
        return;
    };
    let changed = places[k].map(|place| Place { before, ..place });
    places[k] = changed;
}

// The key is the first of the head, before what was first.
fn put_in_front(firsts: &mut [Option<usize>], places: &mut [Option<Place>], key: usize, head: usize)
    requires room { key < length places.old }
    requires made { head < length firsts.old }
    requires first { IfSome (first_at firsts.old head) (λ k. k < length places.old) }
    ensures places { places.new ≡ slice_set (changed_at (with_before (Some key)) (first_at firsts.old head) places.old) key (Some (between head None (first_at firsts.old head))) }
    ensures firsts { firsts.new ≡ slice_set firsts.old head (Some key) }
{
    let first = firsts[head];
    set_before(places, first, Some(key));
    places[key] = Some(Place {
        head,
        before: None,
        after: first,
    });
    firsts[head] = Some(key);
}

// Where there is no key before, what comes after is the first of the head.
fn set_first(firsts: &mut [Option<usize>], before: Option<usize>, head: usize, after: Option<usize>)
    requires { head < length firsts.old }
    ensures { firsts.new ≡ first_past before head after firsts.old }
{
    if before.is_some() {
        return;
    }
    firsts[head] = after;
}

// The neighbours of the key stand beside each other, and it stands nowhere.
fn cut_out(firsts: &mut [Option<usize>], places: &mut [Option<Place>], key: usize, place: Place)
    requires room { key < length places.old }
    requires made { place.head < length firsts.old }
    requires before { IfSome place.before (λ k. k < length places.old) }
    requires after { IfSome place.after (λ k. k < length places.old) }
    ensures places { places.new ≡ slice_set (changed_at (with_before place.before) place.after (changed_at (with_after place.after) place.before places.old)) key None }
    ensures firsts { firsts.new ≡ first_past place.before place.head place.after firsts.old }
{
    set_after(places, place.before, place.after);
    set_before(places, place.after, place.before);
    places[key] = None;
    set_first(firsts, place.before, place.head, place.after);
}

// The first key of the head, if it has one.
fn first_in(firsts: &[Option<usize>], head: usize) -> Option<usize>
    ensures { result ≡ first_at firsts.now head }
{
    match firsts.get(head) {
        Some(first) => *first,
        None => None,
    }
}

// The place of a key that has one.
fn place_of(places: &[Option<Place>], key: usize) -> Place
    requires { IsSome (place_at places.now key) }
    ensures { place_at places.now key ≡ Some result }
{
    places[key].unwrap()
}

impl Lane {
    /// No head and no key. It takes no memory.
    pub fn new(alloc: Global) -> Lane
        ensures heads { length result.lists ≡ 0 }
        ensures room { result.room ≡ 0 }
    {
        Lane {
            firsts: Vec::new(alloc),
            places: Vec::new(alloc),
        }
    }

    /// Heads below the count are there; new ones have no key. After an error all is as before.
    pub fn make_heads(&mut self, count: usize) -> Result<(), AllocError>
        ensures made { OnOk result (count ≤ length self.new.lists) }
        ensures err { OnErr result (length self.new.lists ≡ length self.old.lists) }
        ensures stay { length self.old.lists ≤ length self.new.lists }
        ensures same { AreSame self.old self.new }
        ensures room { self.new.room ≡ self.old.room }
    {
        if count <= self.firsts.len() {
            return Ok(());
        }
        self.firsts.resize(count, None)
    }

    /// Keys below the count have room. After an error the lists are as before.
    pub fn make_room(&mut self, count: usize) -> Result<(), AllocError>
        ensures made { OnOk result (count ≤ self.new.room) }
        ensures stays { self.old.room ≤ self.new.room }
        ensures same { AreSame self.old self.new }
        ensures heads { length self.new.lists ≡ length self.old.lists }
    {
        if count <= self.places.len() {
            return Ok(());
        }
        self.places.resize(count, None)
    }

    /// The key is the first of the head.
    pub fn link(&mut self, key: usize, head: usize)
        requires room { key < self.old.room }
        requires made { head < length self.old.lists }
        requires free { IsInNone self.old key }
        ensures { Changes self.old self.new head (key ∷ list_at self.old head) }
    {
        put_in_front(&mut self.firsts, &mut self.places, key, head);
    }

    /// The key leaves its list.
    pub fn unlink(&mut self, key: usize)
        requires { IsInSome self.old key }
        ensures { (head : ℕ) → IsIn (list_at self.old head) key → Changes self.old self.new head (without key (list_at self.old head)) }
    {
        let place = place_of(&self.places, key);
        cut_out(&mut self.firsts, &mut self.places, key, place);
    }

    /// The first key of the head, if it has one.
    pub fn first(&self, head: usize) -> Option<usize>
        ensures { result ≡ first_of (list_at self.now head) }
    {
        first_in(&self.firsts, head)
    }

    /// The key behind this one in its list.
    pub fn next(&self, key: usize) -> Option<usize>
        requires { IsInSome self.now key }
        ensures { (head : ℕ) → IsIn (list_at self.now head) key → result ≡ next_in (list_at self.now head) key }
    {
        place_of(&self.places, key).after
    }
}
