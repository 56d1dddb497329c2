// Lists of environments, each with its signature and its size, by which most are passed over unread.
ghost use Rattle.std.specs.Prelude.{◌≡◌, ◌<◌, ◌≤◌, ◌/◌, ◌%◌, ◌==◌, if◌then◌else◌, ◌↔◌, ◌++◌, ◌∷◌, [], IsTrue, IfOk, MatchOption, Some, bit_and, filter, length, map, not, slice_get, slice_index, slice_set, vec_len, vec_capacity};
ghost use Rattle.environment_sets.specs.declared.environment.Env.{Env};
ghost use Rattle.environment_sets.specs.Sets.{◌⊆◌, is_within};
ghost use Rattle.environment_sets.specs.Members.{members, HasMember};
ghost use Rattle.environment_sets.specs.Families.{IsCovered};
ghost use Rattle.environment_sets.specs.Signatures.{signature as signature_of};
ghost use Rattle.antichains.specs.Signed.{size_of, blocks_of, AreShared, AreSharedBelow, AreWritten, IsBehindNone, IsSigned, IsSignedBefore, HasRoom, HasSubsetAt, IsLastThatMayCover, MayCover, NoneBefore, NoneInBlock, NoneMayCover};

use environment_sets::{Env, SLOTS};
use std::alloc::{AllocError, Global};

// So many signatures stand side by side in a block.
const BLOCK: usize = 16;

/// A list of environments, with the signature and the size of each at its place.
#[derive(Drop)]
pub struct SignedList {
    pub list: Vec<Env>,
    pub signatures: Vec<u64>,
    // For each block what all of its signatures have.
    pub shared: Vec<u64>,
    pub sizes: Vec<u16>,
}

impl SignedList {
    /// No environments. It takes no memory.
    pub fn new(alloc: Global) -> SignedList
        ensures empty { result.list.items ≡ [] }
        ensures signed { IsSigned result }
    {
        SignedList {
            list: Vec::new(alloc),
            signatures: Vec::new(alloc),
            shared: Vec::new(alloc),
            sizes: Vec::new(alloc),
        }
    }

    /// Takes the room for one environment more. After an error all is as before.
    pub fn make_room(&mut self) -> Result<(), AllocError>
        requires { IsSigned self.old }
        ensures same { self.new.list.items ≡ self.old.list.items }
        ensures signed { IsSigned self.new }
        ensures room { IfOk result (λ _. HasRoom self.new) }
    {
        self.list.reserve(1)?;
        self.signatures.reserve(1)?;
        self.shared.reserve(1)?;
        self.sizes.reserve(1)
    }

    /// Puts the environment behind the others, where there is room for it.
    pub fn push(&mut self, env: Env)
        requires signed { IsSigned self.old }
        requires room { HasRoom self.old }
        ensures pushed { self.new.list.items ≡ self.old.list.items ++ env ∷ [] }
        ensures signed { IsSigned self.new }
    {
        let signature = env.signature();
        push_shared(&self.signatures, &mut self.shared, signature);
        push_signature(&mut self.signatures, signature);
        push_size(&mut self.sizes, env.size());
        push_member(&mut self.list, env);
    }

    /// Drops the environments that contain this one. It takes no memory.
    pub fn drop_over(&mut self, env: &Env)
        requires { IsSigned self.old }
        ensures left { self.new.list.items ≡ filter (λ e. not (is_within SLOTS (members env.now) (members e))) self.old.list.items }
        ensures signed { IsSigned self.new }
        ensures room { HasRoom self.old → HasRoom self.new }
    {
        if let Some(first) = self.first_superset(env) {
            self.list.retain(|kept| !env.is_subset(kept));
            self.sign_from(first);
        }
    }

    /// Drops the environments that have the slot, which is below [`SLOTS`]. It takes no memory.
    pub fn drop_slot(&mut self, slot: u16)
        requires slot { slot < SLOTS }
        requires signed { IsSigned self.old }
        ensures left { self.new.list.items ≡ filter (λ e. not (members e slot)) self.old.list.items }
        ensures signed { IsSigned self.new }
    {
        if let Some(first) = first_with(&self.list, slot) {
            self.list.retain(|member| !member.has(slot));
            self.sign_from(first);
        }
    }

    /// The place of one that is a subset of the environment. They are tried from the last, as what was put in lately covers
    /// most.
    pub fn place_of_subset(&self, env: &Env) -> Option<usize>
        requires { IsSigned self.now }
        ensures { MatchOption result (IsCovered (HasMember self.now.list.items) (members env.now) → ⊥) (λ place. HasSubsetAt self.now.list.items place (members env.now)) }
    {
        let signature = env.signature();
        let mut end = self.shared.len();
        while let Some(block) = self.last_that_may_cover(end, signature) {
            if let Some(place) = self.place_in_block(block, env, signature) {
                return Some(place);
            }
            end = block;
        }
        None
    }

    // The last of the blocks before the end whose signatures all have a part in this one. Most blocks are passed over here.
    fn last_that_may_cover(&self, end: usize, signature: u64) -> Option<usize>
        requires { end ≤ length self.now.shared.items }
        ensures { MatchOption result (NoneMayCover self.now.shared.items signature 0 end) (λ block. IsLastThatMayCover self.now.shared.items signature end block) }
    {
        for block in (0..end).rev() {
            if self.may_cover(block, signature) {
                return Some(block);
            }
        }
        None
    }

    // Whether what all signatures of the block have is part of this one.
    fn may_cover(&self, block: usize, signature: u64) -> bool
        requires { block < length self.now.shared.items }
        ensures { IsTrue result ↔ MayCover self.now.shared.items signature block }
    {
        let shared = self.shared[block];
        shared & signature == shared
    }

    // The place of one in the block that is a subset of the environment with this signature.
    fn place_in_block(&self, block: usize, env: &Env, signature: u64) -> Option<usize>
        requires signed { IsSigned self.now }
        requires inside { block < length self.now.shared.items }
        requires signature { signature ≡ signature_of env.now }
        ensures { MatchOption result (NoneInBlock block self.now.list.items (members env.now)) (λ place. HasSubsetAt self.now.list.items place (members env.now)) }
    {
        let start = block * BLOCK;
        let end = start + BLOCK.min(self.list.len() - start);
        for place in (start..end).rev() {
            if self.is_subset_at(place, env, signature) {
                return Some(place);
            }
        }
        None
    }

    // The place of the first one that contains the environment.
    fn first_superset(&self, env: &Env) -> Option<usize>
        requires { IsSigned self.now }
        ensures { MatchOption result (NoneBefore (λ e. members env.now ⊆ members e) self.now.list.items (length self.now.list.items)) (IsBehindNone (λ e. members env.now ⊆ members e) self.now.list.items) }
    {
        let signature = env.signature();
        for place in 0..self.list.len() {
            if self.is_superset_at(place, env, signature) {
                return Some(place);
            }
        }
        None
    }

    // Whether the one at the place is a subset of the environment with this signature.
    fn is_subset_at(&self, place: usize, env: &Env, signature: u64) -> bool
        requires signed { IsSigned self.now }
        requires inside { place < length self.now.list.items }
        requires signature { signature ≡ signature_of env.now }
        ensures { (e : Env) → slice_get self.now.list.items place ≡ Some e → IsTrue result ↔ (members e ⊆ members env.now) }
    {
        let own = self.signatures[place];
        own & signature == own && self.list[place].is_subset(env)
    }

    // Whether the one at the place contains the environment with this signature.
    fn is_superset_at(&self, place: usize, env: &Env, signature: u64) -> bool
        requires signed { IsSigned self.now }
        requires inside { place < length self.now.list.items }
        requires signature { signature ≡ signature_of env.now }
        ensures { (e : Env) → slice_get self.now.list.items place ≡ Some e → IsTrue result ↔ (members env.now ⊆ members e) }
    {
        signature & self.signatures[place] == signature && env.is_subset(&self.list[place])
    }

    // Writes the signatures and the sizes anew from the place on, before which no environment was dropped.
    fn sign_from(&mut self, from: usize)
        requires front { IsSignedBefore self.old from }
        requires signatures { vec_len self.old.list ≤ vec_len self.old.signatures }
        requires shared { AreShared self.old.signatures.items self.old.shared.items }
        requires sizes { vec_len self.old.list ≤ vec_len self.old.sizes }
        ensures same { self.new.list ≡ self.old.list }
        ensures signed { IsSigned self.new }
        ensures signatures { vec_len self.old.signatures < vec_capacity self.old.signatures → vec_len self.new.signatures < vec_capacity self.new.signatures }
        ensures shared { vec_len self.old.shared < vec_capacity self.old.shared → vec_len self.new.shared < vec_capacity self.new.shared }
        ensures sizes { vec_len self.old.sizes < vec_capacity self.old.sizes → vec_len self.new.sizes < vec_capacity self.new.sizes }
    {
        self.signatures.truncate(self.list.len());
        write_signatures(&self.list, &mut self.signatures, from);
        self.shared.truncate(blocks_of(self.signatures.len()));
        write_shared(&self.signatures, &mut self.shared, from);
        self.sizes.truncate(self.list.len());
        write_sizes(&self.list, &mut self.sizes, from);
    }
}

// The place of the first environment that has the slot.
fn first_with(list: &[Env], slot: u16) -> Option<usize>
    requires { slot < SLOTS }
    ensures { MatchOption result (NoneBefore (λ e. IsTrue (members e slot)) list.now (length list.now)) (IsBehindNone (λ e. IsTrue (members e slot)) list.now) }
{
    for place in 0..list.len() {
        if list[place].has(slot) {
            return Some(place);
        }
    }
    None
}

// The signature of each environment is written at its place, from one place on.
fn write_signatures(list: &[Env], signatures: &mut [u64], from: usize)
    requires { AreWritten signature_of list.now signatures.old from }
    ensures { signatures.new ≡ map signature_of list.now }
{
    for place in from..list.len() {
        signatures[place] = list[place].signature();
    }
}

// How many blocks so many signatures take.
fn blocks_of(count: usize) -> usize
    ensures { result ≡ blocks_of count }
{
    if count % BLOCK == 0 {
        count / BLOCK
    } else {
        count / BLOCK + 1
    }
}

// Leaves of the block what the signature has too. The first one of a block is the block's.
fn share(shared: &mut [u64], place: usize, signature: u64)
    requires { place / BLOCK < length shared.old }
    ensures { shared.new ≡ slice_set shared.old (place / BLOCK) (if place % BLOCK == 0 then signature else bit_and (slice_index shared.old (place / BLOCK)) signature) }
{
    if place % BLOCK == 0 {
        shared[place / BLOCK] = signature;
    } else {
        shared[place / BLOCK] &= signature;
    }
}

// What all signatures of a block have is written for each block, from that of the place on.
fn write_shared(signatures: &[u64], shared: &mut [u64], from: usize)
    requires { AreSharedBelow signatures.now shared.old from }
    ensures { AreShared signatures.now shared.new }
{
    for place in from - from % BLOCK..signatures.len() {
        share(shared, place, signatures[place]);
    }
}

// The same with one signature more, which is to come behind the others.
fn push_shared(signatures: &[u64], shared: &mut Vec<u64>, signature: u64)
    requires shared { AreShared signatures.now shared.old.items }
    requires room { vec_len shared.old < vec_capacity shared.old }
    ensures { AreShared (signatures.now ++ signature ∷ []) shared.new.items }
{
    if signatures.len() % BLOCK == 0 {
        push_signature(shared, signature);
    } else {
        share(shared, signatures.len(), signature);
    }
}

// The size of each environment is written at its place, from one place on.
fn write_sizes(list: &[Env], sizes: &mut [u16], from: usize)
    requires { AreWritten size_of list.now sizes.old from }
    ensures { sizes.new ≡ map size_of list.now }
{
    for place in from..list.len() {
        sizes[place] = list[place].size();
    }
}

// Puts the environment behind the others.
fn push_member(list: &mut Vec<Env>, env: Env)
    requires { vec_len list.old < vec_capacity list.old }
    ensures { list.new.items ≡ list.old.items ++ env ∷ [] }
{
    if list.push(env).is_err() {
        unreachable!();
    }
}

// Puts the signature behind the others.
fn push_signature(signatures: &mut Vec<u64>, signature: u64)
    requires { vec_len signatures.old < vec_capacity signatures.old }
    ensures { signatures.new.items ≡ signatures.old.items ++ signature ∷ [] }
{
    if signatures.push(signature).is_err() {
        unreachable!();
    }
}

// Puts the size behind the others.
fn push_size(sizes: &mut Vec<u16>, size: u16)
    requires { vec_len sizes.old < vec_capacity sizes.old }
    ensures { sizes.new.items ≡ sizes.old.items ++ size ∷ [] }
{
    if sizes.push(size).is_err() {
        unreachable!();
    }
}
