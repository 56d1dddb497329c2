// Records under keys, in four lanes of lists.
ghost use Rattle.std.specs.Prelude.{◌≡◌, ◌≢◌, ◌<◌, ◌≤◌, ◌∷◌, ℕ, length, Some, None, IsSome, IfOk, IfErr, OnErr, OnOk, MatchOption, slice_index_or};
ghost use Rattle.environment_sets.specs.Lists.{IsIn};
ghost use Rattle.index_lists.specs.Lists.{list_at, first_of, next_in, without, IsInNone, IsInSome, Changes, AreSame};
ghost use Rattle.index_lists.specs.Chains.{record_at, lane_at, keys_in, HaveSameLists, Has, IsInNoLane};
ghost use Rattle.index_lists.specs.Kept.{lane_of, IsWider};

use crate::lane::Lane;
use slab::Slab;
use std::alloc::{AllocError, Global};
use std::marker::Model;

/// The name of a record. It stays while the record is there.
#[derive(Clone, Copy, Debug, PartialEq, Eq)]
pub struct Key {
    pub place: usize,
}

/// A record that found no memory.
#[derive(Drop)]
pub struct Returned<T> {
    pub item: T,
}

/// Records under keys. In each of four lanes, numbered from 0, each head has a list of keys, and a record stands in at most one
/// list of each lane. Contracts see the records by key, and the lists.
#[derive(Drop)]
pub struct Chains<T> {
    items: Slab<T>,
    lanes: [Lane; 4],
}

impl<T> Model for Chains<T> {
    ghost use Rattle.index_lists.specs.Chains.{Records, records_code};
    ghost use Rattle.index_lists.specs.Kept.{AreKept};

    ghost Value = { Records T };

    ghost coded = { records_code T.code };

    ghost view = { λ c. record { records = c.items.slots; lanes = c.lanes } };

    ghost invariant = { λ c. AreKept c.items.slots c.lanes };
}

// Heads below the count are there in one lane.
fn make_heads_in(lanes: &mut [Lane], lane: usize, count: usize) -> Result<(), AllocError>
    requires { lane < length lanes.old }
    ensures made { OnOk result (count ≤ length (lane_of lanes.new lane).lists) }
    ensures err { OnErr result (length (lane_of lanes.new lane).lists ≡ length (lane_of lanes.old lane).lists) }
    ensures stay { length (lane_of lanes.old lane).lists ≤ length (lane_of lanes.new lane).lists }
    ensures same { AreSame (lane_of lanes.old lane) (lane_of lanes.new lane) }
    ensures room { (lane_of lanes.new lane).room ≡ (lane_of lanes.old lane).room }
    ensures others { (l : ℕ) → l ≢ lane → lane_of lanes.new l ≡ lane_of lanes.old l }
{
    let lane = &mut lanes[lane];
    lane.make_heads(count)
}

// Keys below the count have room in each lane.
fn make_room(lanes: &mut [Lane], count: usize) -> Result<(), AllocError>
    ensures wider { (lane : ℕ) → IsWider (lane_of lanes.old lane) (lane_of lanes.new lane) }
    ensures made { OnOk result ((lane : ℕ) → lane < length lanes.old → count ≤ (lane_of lanes.new lane).room) }
{
    for place in 0..lanes.len() {
        let lane = &mut lanes[place];
        lane.make_room(count)?;
    }
    Ok(())
}

// The key is the first of the head in one lane.
fn link_in(lanes: &mut [Lane], lane: usize, key: usize, head: usize)
    requires there { lane < length lanes.old }
    requires room { key < (lane_of lanes.old lane).room }
    requires made { head < length (lane_of lanes.old lane).lists }
    requires free { IsInNone (lane_of lanes.old lane) key }
    ensures here { Changes (lane_of lanes.old lane) (lane_of lanes.new lane) head (key ∷ list_at (lane_of lanes.old lane) head) }
    ensures others { (l : ℕ) → l ≢ lane → lane_of lanes.new l ≡ lane_of lanes.old l }
{
    let lane = &mut lanes[lane];
    lane.link(key, head);
}

// The key leaves its list in one lane.
fn unlink_in(lanes: &mut [Lane], lane: usize, key: usize)
    requires there { lane < length lanes.old }
    requires listed { IsInSome (lane_of lanes.old lane) key }
    ensures here { (head : ℕ) → IsIn (list_at (lane_of lanes.old lane) head) key → Changes (lane_of lanes.old lane) (lane_of lanes.new lane) head (without key (list_at (lane_of lanes.old lane) head)) }
    ensures others { (l : ℕ) → l ≢ lane → lane_of lanes.new l ≡ lane_of lanes.old l }
{
    let lane = &mut lanes[lane];
    lane.unlink(key);
}

impl<T> Chains<T> {
    /// No record and no head. It takes no memory.
    pub fn new(alloc: Global) -> Chains<T>
        ensures records { (key : ℕ) → record_at result key ≡ None }
        ensures heads { (lane : ℕ) → length (lane_at result lane).lists ≡ 0 }
    {
        Chains {
            items: Slab::new(alloc),
            lanes: [
                Lane::new(alloc),
                Lane::new(alloc),
                Lane::new(alloc),
                Lane::new(alloc),
            ],
        }
    }

    /// The record of the key.
    pub fn get(&self, key: Key) -> &T
        requires { IsSome (record_at self.now key.place) }
        ensures { record_at self.now key.place ≡ Some result.now }
    {
        self.items.get(key.place).unwrap()
    }

    /// The first key of the head in the lane; a head that was not made has none.
    pub fn first(&self, lane: u8, head: usize) -> Option<Key>
        requires lane { lane < 4 }
        ensures { MatchOption result (first_of (keys_in self.now lane head) ≡ None) (λ key. first_of (keys_in self.now lane head) ≡ Some key.place) }
    {
        match self.lanes[lane as usize].first(head) {
            Some(place) => Some(Key { place }),
            None => None,
        }
    }

    /// The key behind this one in its list of the lane.
    pub fn next(&self, key: Key, lane: u8) -> Option<Key>
        requires lane { lane < 4 }
        requires listed { IsInSome (lane_at self.now lane) key.place }
        ensures { (head : ℕ) → IsIn (keys_in self.now lane head) key.place → MatchOption result (next_in (keys_in self.now lane head) key.place ≡ None) (λ next. next_in (keys_in self.now lane head) key.place ≡ Some next.place) }
    {
        match self.lanes[lane as usize].next(key.place) {
            Some(place) => Some(Key { place }),
            None => None,
        }
    }

    /// The key is put at the front of the list of the head in the lane. It takes no memory.
    pub fn link(&mut self, key: Key, lane: u8, head: usize)
        requires there { IsSome (record_at self.old key.place) }
        requires lane { lane < 4 }
        requires made { head < length (lane_at self.old lane).lists }
        requires free { IsInNone (lane_at self.old lane) key.place }
        ensures records { self.new.records ≡ self.old.records }
        ensures here { Changes (lane_at self.old lane) (lane_at self.new lane) head (key.place ∷ keys_in self.old lane head) }
        ensures others { (l : ℕ) → l ≢ lane → lane_at self.new l ≡ lane_at self.old l }
    {
        link_in(&mut self.lanes, lane as usize, key.place, head);
    }

    /// The key leaves its list of the lane, in constant time. It takes no memory.
    pub fn unlink(&mut self, key: Key, lane: u8)
        requires lane { lane < 4 }
        requires listed { IsInSome (lane_at self.old lane) key.place }
        ensures records { self.new.records ≡ self.old.records }
        ensures here { (head : ℕ) → IsIn (keys_in self.old lane head) key.place → Changes (lane_at self.old lane) (lane_at self.new lane) head (without key.place (keys_in self.old lane head)) }
        ensures others { (l : ℕ) → l ≢ lane → lane_at self.new l ≡ lane_at self.old l }
    {
        unlink_in(&mut self.lanes, lane as usize, key.place);
    }

    /// Heads below the count are there in the lane; new ones have no key, and none goes away. After an error all is as before.
    pub fn make_heads(&mut self, lane: u8, count: usize) -> Result<(), AllocError>
        requires { lane < 4 }
        ensures made { OnOk result (count ≤ length (lane_at self.new lane).lists) }
        ensures err { OnErr result (length (lane_at self.new lane).lists ≡ length (lane_at self.old lane).lists) }
        ensures stay { length (lane_at self.old lane).lists ≤ length (lane_at self.new lane).lists }
        ensures same { AreSame (lane_at self.old lane) (lane_at self.new lane) }
        ensures records { self.new.records ≡ self.old.records }
        ensures others { (l : ℕ) → l ≢ lane → lane_at self.new l ≡ lane_at self.old l }
    {
        make_heads_in(&mut self.lanes, lane as usize, count)
    }

    /// Takes away a record that stands in no list. It takes no memory.
    pub fn take(&mut self, key: Key) -> T
        requires there { IsSome (record_at self.old key.place) }
        requires free { IsInNoLane self.old key.place }
        ensures value { record_at self.old key.place ≡ Some result }
        ensures gone { Has self.old self.new key.place None }
        ensures lanes { self.new.lanes ≡ self.old.lanes }
    {
        self.items.remove(key.place)
    }

    /// Puts in a record, which stands in no list. An error gives it back, and all is as before.
    pub fn put(&mut self, item: T) -> Result<Key, Returned<T>>
        ensures free { IfOk result (λ key. record_at self.old key.place ≡ None) }
        ensures there { IfOk result (λ key. Has self.old self.new key.place (Some item)) }
        ensures in_no_list { IfOk result (λ key. IsInNoLane self.new key.place) }
        ensures returned { IfErr result (λ back. back.item ≡ item) }
        ensures err { IfErr result (λ _. self.new.records ≡ self.old.records) }
        ensures lists { HaveSameLists self.old self.new }
    {
        let Some(count) = self.items.vacant_key().checked_add(1) else {
            return Err(Returned { item });
        };
        if make_room(&mut self.lanes, count).is_err() {
            return Err(Returned { item });
        }
        match self.items.insert(item) {
            Ok(place) => Ok(Key { place }),
            Err(failed) => Err(Returned { item: failed.value }),
        }
    }
}
