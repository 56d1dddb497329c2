// The chains of recorded inferences.
ghost use Rattle.std.specs.Prelude.{◌≡◌, ◌≢◌, ◌<◌, ◌≤◌, ◌↔◌, ◌++◌, ℕ, length, Some, None, IsSome, IfSome, IfOk, IsTrue, OnOk, OnErr, slice_index_or};
ghost use Rattle.environment_sets.specs.Lists.{IsIn};
ghost use Rattle.index_lists.specs.Lists.{AreSame, IsInNone, IsInSome, first_of, next_in, without};
ghost use Rattle.index_lists.specs.Chains.{record_at, lane_at, keys_in, IsInNoLane};
ghost use Rattle.justifications.specs.Chained.{AreAlike, AreAllChained, IsAdded, IsRemoved, AreDropped, with_key};
ghost use Rattle.justifications.specs.Woven.{number_of, name_of, place_of_target, head_of_inferred, GoesFrom};
ghost use Rattle.justifications.specs.Kept.{IsLow};

use crate::model::{Inferred, JustId, MOST_NODES, NodeId, Target};
use index_lists::{Chains, Key};
use std::alloc::AllocError;

// The number of the antecedent at the place.
fn antecedent(from: [Option<NodeId>; 2], place: usize) -> Option<usize>
    requires { place < 2 }
    ensures { result ≡ number_of (slice_index_or from place None) }
{
    match from[place] {
        Some(node) => Some(node.place),
        None => None,
    }
}

// The head of what is led to.
pub(crate) fn place_of_target(to: Target) -> usize
    requires { place_of_target to ≤ MOST_NODES }
    ensures { result ≡ place_of_target to }
{
    match to {
        Target::Clash => 0,
        Target::Node(node) => node.place + 1,
    }
}

// The slot, as a head.
fn head_of_maker(maker: Option<u16>) -> Option<usize>
    ensures { result ≡ maker }
{
    match maker {
        Some(slot) => Some(slot as usize),
        None => None,
    }
}

// The head that the inference says in the lane.
fn head_in(inferred: Inferred, lane: u8) -> Option<usize>
    requires lane { lane < 4 }
    requires low { IsLow inferred }
    ensures { result ≡ head_of_inferred lane inferred }
{
    match lane {
        0 => antecedent(inferred.from, 0),
        1 => antecedent(inferred.from, 1),
        2 => Some(place_of_target(inferred.to)),
        _ => head_of_maker(inferred.maker),
    }
}

// Where there is a head, it is made in the lane. After an error all is as before.
fn make_head(chains: &mut Chains<Inferred>, lane: u8, head: Option<usize>) -> Result<(), AllocError>
    requires lane { lane < 4 }
    requires low { IfSome head (λ h. h ≤ MOST_NODES) }
    ensures made { OnOk result (IfSome head (λ h. h < length (lane_at chains.new lane).lists)) }
    ensures same { AreSame (lane_at chains.old lane) (lane_at chains.new lane) }
    ensures records { chains.new.records ≡ chains.old.records }
    ensures others { (l : ℕ) → l ≢ lane → lane_at chains.new l ≡ lane_at chains.old l }
{
    let Some(head) = head else {
        return Ok(());
    };
    chains.make_heads(lane, head + 1)
}

// The heads that the inference says are made. After an error all is as before.
fn make_all(chains: &mut Chains<Inferred>, inferred: Inferred) -> Result<(), AllocError>
    requires { IsLow inferred }
    ensures made { OnOk result ((lane : ℕ) → IfSome (head_of_inferred lane inferred) (λ h. h < length (lane_at chains.new lane).lists)) }
    ensures records { chains.new.records ≡ chains.old.records }
    ensures keys { (lane head : ℕ) → keys_in chains.new lane head ≡ keys_in chains.old lane head }
{
    for lane in 0..4 {
        make_head(chains, lane, head_in(inferred, lane))?;
    }
    Ok(())
}

// Where there is a head, the key is put in front of its list.
fn link_some(chains: &mut Chains<Inferred>, key: Key, lane: u8, head: Option<usize>)
    requires there { IsSome (record_at chains.old key.place) }
    requires lane { lane < 4 }
    requires made { IfSome head (λ h. h < length (lane_at chains.old lane).lists) }
    requires free { IsInNone (lane_at chains.old lane) key.place }
    ensures records { chains.new.records ≡ chains.old.records }
    ensures here { (h : ℕ) → keys_in chains.new lane h ≡ with_key key.place head h (keys_in chains.old lane h) }
    ensures others { (l : ℕ) → l ≢ lane → lane_at chains.new l ≡ lane_at chains.old l }
{
    let Some(head) = head else {
        return;
    };
    chains.link(key, lane, head);
}

// The key is put in front of the list of each head that the inference says.
fn link_all(chains: &mut Chains<Inferred>, key: Key, inferred: Inferred)
    requires there { IsSome (record_at chains.old key.place) }
    requires low { IsLow inferred }
    requires made { (lane : ℕ) → IfSome (head_of_inferred lane inferred) (λ h. h < length (lane_at chains.old lane).lists) }
    requires free { IsInNoLane chains.old key.place }
    ensures records { chains.new.records ≡ chains.old.records }
    ensures keys { (lane head : ℕ) → keys_in chains.new lane head ≡ with_key key.place (head_of_inferred lane inferred) head (keys_in chains.old lane head) }
{
    for lane in 0..4 {
        link_some(chains, key, lane, head_in(inferred, lane));
    }
}

// The key leaves its list of the lane, where it stands in one.
fn unlink_some(chains: &mut Chains<Inferred>, key: Key, lane: u8, head: Option<usize>)
    requires lane { lane < 4 }
    requires listed { (h : ℕ) → IsIn (keys_in chains.old lane h) key.place ↔ (head ≡ Some h) }
    ensures records { chains.new.records ≡ chains.old.records }
    ensures here { (h : ℕ) → keys_in chains.new lane h ≡ without key.place (keys_in chains.old lane h) }
    ensures others { (l : ℕ) → l ≢ lane → lane_at chains.new l ≡ lane_at chains.old l }
{
    let Some(_head) = head else {
        return;
    };
    chains.unlink(key, lane);
}

// The key leaves its lists.
fn unlink_all(chains: &mut Chains<Inferred>, key: Key, inferred: Inferred)
    requires low { IsLow inferred }
    requires listed { (lane h : ℕ) → IsIn (keys_in chains.old lane h) key.place ↔ (head_of_inferred lane inferred ≡ Some h) }
    ensures records { chains.new.records ≡ chains.old.records }
    ensures keys { (lane head : ℕ) → keys_in chains.new lane head ≡ without key.place (keys_in chains.old lane head) }
{
    for lane in 0..4 {
        unlink_some(chains, key, lane, head_in(inferred, lane));
    }
}

// One inference more. After an error all is as before.
pub(crate) fn record_in(
    chains: &mut Chains<Inferred>,
    inferred: Inferred,
) -> Result<JustId, AllocError>
    requires { IsLow inferred }
    ensures added { IfOk result (λ j. IsAdded head_of_inferred chains.old chains.new j.place inferred) }
    ensures err { OnErr result (AreAlike chains.old chains.new) }
{
    make_all(chains, inferred)?;
    let Ok(key) = chains.put(inferred) else {
        return Err(AllocError);
    };
    link_all(chains, key, inferred);
    Ok(JustId { place: key.place })
}

// One inference less.
pub(crate) fn remove_from(chains: &mut Chains<Inferred>, just: JustId) -> Inferred
    requires there { IsSome (record_at chains.old just.place) }
    requires chained { AreAllChained head_of_inferred chains.old }
    requires low { IfSome (record_at chains.old just.place) IsLow }
    ensures value { record_at chains.old just.place ≡ Some result }
    ensures removed { IsRemoved chains.old chains.new just.place }
{
    let key = Key { place: just.place };
    let inferred = *chains.get(key);
    unlink_all(chains, key, inferred);
    chains.take(key)
}

// The first inference of the head in the lane.
pub(crate) fn first_in(chains: &Chains<Inferred>, lane: u8, head: usize) -> Option<JustId>
    requires { lane < 4 }
    ensures { name_of result ≡ first_of (keys_in chains.now lane head) }
{
    match chains.first(lane, head) {
        Some(key) => Some(JustId { place: key.place }),
        None => None,
    }
}

// The inference behind this one in its list of the lane.
pub(crate) fn behind_in(chains: &Chains<Inferred>, lane: u8, just: JustId) -> Option<JustId>
    requires lane { lane < 4 }
    requires listed { IsInSome (lane_at chains.now lane) just.place }
    ensures { (head : ℕ) → IsIn (keys_in chains.now lane head) just.place → name_of result ≡ next_in (keys_in chains.now lane head) just.place }
{
    match chains.next(Key { place: just.place }, lane) {
        Some(key) => Some(JustId { place: key.place }),
        None => None,
    }
}

// Whether the first antecedent is the node.
fn is_first_antecedent(from: [Option<NodeId>; 2], node: usize) -> bool
    ensures { IsTrue result ↔ (number_of (slice_index_or from 0 None) ≡ Some node) }
{
    match from[0] {
        Some(first) => first.place == node,
        None => false,
    }
}

// The first inference that goes from the node.
pub(crate) fn first_use_in(chains: &Chains<Inferred>, node: usize) -> Option<JustId>
    ensures { name_of result ≡ first_of (keys_in chains.now 0 node ++ keys_in chains.now 1 node) }
{
    if let Some(just) = first_in(chains, 0, node) {
        return Some(just);
    }
    first_in(chains, 1, node)
}

// The inference behind this one among those that go from the node.
pub(crate) fn next_use_in(chains: &Chains<Inferred>, node: usize, just: JustId) -> Option<JustId>
    requires chained { AreAllChained head_of_inferred chains.now }
    requires listed { IsIn (keys_in chains.now 0 node ++ keys_in chains.now 1 node) just.place }
    ensures { name_of result ≡ next_in (keys_in chains.now 0 node ++ keys_in chains.now 1 node) just.place }
{
    let inferred = *chains.get(Key { place: just.place });
    if !is_first_antecedent(inferred.from, node) {
        return behind_in(chains, 1, just);
    }
    if let Some(next) = behind_in(chains, 0, just) {
        return Some(next);
    }
    first_in(chains, 1, node)
}

// Exactly those that say the head in the lane are removed, in a walk over their list alone.
pub(crate) fn drop_all_in(chains: &mut Chains<Inferred>, lane: u8, head: usize)
    requires lane { lane < 4 }
    requires chained { AreAllChained head_of_inferred chains.old }
    requires low { (key : ℕ) → IfSome (record_at chains.old key) IsLow }
    ensures dropped { AreDropped (λ x. head_of_inferred lane x ≡ Some head) chains.old chains.new }
    ensures chained { AreAllChained head_of_inferred chains.new }
    ensures stay { (key : ℕ) → IsSome (record_at chains.new key) → record_at chains.new key ≡ record_at chains.old key }
{
    while let Some(just) = first_in(chains, lane, head) {
        remove_from(chains, just);
    }
}

// Exactly those that go from the node are removed.
pub(crate) fn drop_uses_in(chains: &mut Chains<Inferred>, node: usize)
    requires chained { AreAllChained head_of_inferred chains.old }
    requires low { (key : ℕ) → IfSome (record_at chains.old key) IsLow }
    ensures dropped { AreDropped (GoesFrom node) chains.old chains.new }
    ensures chained { AreAllChained head_of_inferred chains.new }
    ensures stay { (key : ℕ) → IsSome (record_at chains.new key) → record_at chains.new key ≡ record_at chains.old key }
{
    drop_all_in(chains, 0, node);
    drop_all_in(chains, 1, node);
}
