// Sets of slots.
ghost use Rattle.std.specs.Prelude.{◌≡◌, ℕ, ◌^◌, ◌<◌, length, slice_index};
ghost use Rattle.environment_sets.specs.declared.environment.TheConstants.{SLOTS, WORD_BITS, WORDS};

use crate::word::next_bit;
use std::cmp::Ordering;

/// Each slot is below this number.
pub const SLOTS: usize = 1024;

// The bits of a word.
const WORD_BITS: usize = u64::BITS as usize;

// The words of an environment.
const WORDS: usize = SLOTS / WORD_BITS;

/// An environment (de Kleer 1986): a set of assumptions, each named by its slot, a number below [`SLOTS`]. It has one
/// bit for each slot, and each call goes a word at a time. Contracts see which slots it has, by `members`, and two
/// environments with the same slots are equal.
#[derive(Clone, Copy, PartialEq, Eq, Debug)]
pub struct Env {
    // Slot k is bit k % WORD_BITS of word k / WORD_BITS.
    words: [u64; WORDS],
    ghost full: { length words ≡ WORDS },
    ghost fit: { (i : ℕ) → slice_index words i < 2 ^ WORD_BITS },
}

impl Env {
    ghost use Rattle.std.specs.Prelude.{◌↔◌, IsTrue, MatchOption, IfSome};
    ghost use Rattle.environment_sets.specs.Sets.{no_elements, only, size_below, is_within, Hits, ◌∪◌, ◌∩◌, ◌∖◌, ◌⊆◌};
    ghost use Rattle.environment_sets.specs.Members.{members};
    ghost use Rattle.environment_sets.specs.Orders.{compare_in, by_first, ListsAll, IsOrder};
    ghost use Rattle.environment_sets.specs.Signatures.{signature, IsSignature};
    ghost use Rattle.environment_sets.specs.Steps.{HasNoneFrom, IsNextFrom};

    /// The environment with no slot.
    pub fn empty() -> Env
        ensures { members result ≡ no_elements }
    {
        Env { words: [0; WORDS] }
    }

    /// The environment with the slot too, which is below [`SLOTS`].
    pub fn with(self, slot: u16) -> Env
        requires { slot < SLOTS }
        ensures { members result ≡ members self ∪ only slot }
    {
        let mut words = self.words;
        words[slot as usize / WORD_BITS] |= 1 << (slot as usize % WORD_BITS);
        Env { words }
    }

    /// The environment without the slot, which is below [`SLOTS`].
    pub fn without(self, slot: u16) -> Env
        requires { slot < SLOTS }
        ensures { members result ≡ members self ∖ only slot }
    {
        let mut words = self.words;
        words[slot as usize / WORD_BITS] &= !(1 << (slot as usize % WORD_BITS));
        Env { words }
    }

    /// The slots of either environment.
    pub fn union(self, other: Env) -> Env
        ensures { members result ≡ members self ∪ members other }
    {
        let mut words = self.words;
        for i in 0..WORDS {
            words[i] = self.words[i] | other.words[i];
        }
        Env { words }
    }

    /// The slots of both environments.
    pub fn meet(self, other: Env) -> Env
        ensures { members result ≡ members self ∩ members other }
    {
        let mut words = self.words;
        for i in 0..WORDS {
            words[i] = self.words[i] & other.words[i];
        }
        Env { words }
    }

    /// Whether each slot is one of the other environment too. An environment is a subset of itself.
    pub fn is_subset(&self, other: &Env) -> bool
        ensures subset { IsTrue result ↔ (members self.now ⊆ members other.now) }

        // `subset` again, as a test that computes.
        ensures test { result ≡ is_within SLOTS (members self.now) (members other.now) }
    {
        for i in 0..WORDS {
            if self.words[i] & other.words[i] != self.words[i] {
                return false;
            }
        }
        true
    }

    /// Whether the two share a slot.
    pub fn meets(&self, other: &Env) -> bool
        ensures { IsTrue result ↔ Hits (members self.now) (members other.now) }
    {
        for i in 0..WORDS {
            if self.words[i] & other.words[i] != 0 {
                return true;
            }
        }
        false
    }

    /// Whether the slot, which is below [`SLOTS`], is one of the environment.
    pub fn has(&self, slot: u16) -> bool
        requires { slot < SLOTS }
        ensures { result ≡ members self.now slot }
    {
        (self.words[slot as usize / WORD_BITS] >> (slot as usize % WORD_BITS)) & 1 == 1
    }

    /// The least slot from this one on that is in the set. Words with none are passed over.
    pub fn next_from(&self, from: u16) -> Option<u16>
        ensures next { MatchOption result (HasNoneFrom (members self.now) from) (λ slot. IsNextFrom (members self.now) from slot) }
        ensures below { IfSome result (λ slot. slot < SLOTS) }
    {
        let mut bit = from % WORD_BITS as u16;
        for i in from as usize / WORD_BITS..WORDS {
            if let Some(found) = next_bit(self.words[i], bit) {
                return Some((i * WORD_BITS) as u16 + found);
            }
            bit = 0;
        }
        None
    }

    /// How many slots the environment has, at most [`SLOTS`].
    pub fn size(&self) -> u16
        ensures { result ≡ size_below SLOTS (members self.now) }
    {
        let mut size = 0;
        for i in 0..WORDS {
            size += self.words[i].count_ones() as u16;
        }
        size
    }

    /// The union of the environment's words. What a subset has, the environment has: so where the signature of one is no part
    /// of another's, it is no subset, and its words need not be read.
    pub fn signature(&self) -> u64
        ensures word { result ≡ signature self.now }
        ensures bits { IsSignature result (members self.now) }
    {
        let mut signature = 0;
        for i in 0..WORDS {
            signature |= self.words[i];
        }
        signature
    }

    /// The place of this environment before or after the other: the smaller one comes first. Of two of one size,
    /// the one comes first that has the first slot in `order` at which they differ, which is the lexicographic
    /// order of their lists of slots. `Equal` says that they are the same set. `order` has distinct slots, among them
    /// all of both environments.
    pub fn compare_in(&self, order: &[u16], other: &Env) -> Ordering
        requires slots { IsOrder SLOTS order.now }
        requires listed { ListsAll order.now (members self.now) }
        requires other_listed { ListsAll order.now (members other.now) }
        ensures { result ≡ compare_in order.now (members self.now) (members other.now) }
    {
        self.compare_sized(self.size(), order, other, other.size())
    }

    /// The same, where the sizes of both are known. Many environments are compared without counting their slots anew.
    pub fn compare_sized(&self, size: u16, order: &[u16], other: &Env, other_size: u16) -> Ordering
        requires size { size ≡ size_below SLOTS (members self.now) }
        requires other_size { other_size ≡ size_below SLOTS (members other.now) }
        requires slots { IsOrder SLOTS order.now }
        requires listed { ListsAll order.now (members self.now) }
        requires other_listed { ListsAll order.now (members other.now) }
        ensures { result ≡ compare_in order.now (members self.now) (members other.now) }
    {
        match size.cmp(&other_size) {
            Ordering::Equal => self.compare_first(order, other),
            unequal => unequal,
        }
    }

    // By the first slot at which the two differ.
    fn compare_first(&self, order: &[u16], other: &Env) -> Ordering
        requires { IsOrder SLOTS order.now }
        ensures { result ≡ by_first order.now (members self.now) (members other.now) }
    {
        for slot in order {
            match (self.has(*slot), other.has(*slot)) {
                (true, false) => return Ordering::Less,
                (false, true) => return Ordering::Greater,
                _ => {}
            }
        }
        Ordering::Equal
    }
}
