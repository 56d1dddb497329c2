// Who chooses among what waits.
ghost use Rattle.std.specs.Prelude.{◌≡◌, ◌<◌, ◌≤◌, ◌-◌, ◌%◌};
ghost use Rattle.rand_xoshiro.specs.SplitMix64.{mix_u64};

use rand_core::SeedableRng;
use rand_core::utils::NextWord;
use rand_xoshiro::SplitMix64;
use std::marker::Model;

/// Chooses what comes next. Whatever it chooses, what is computed is the same; the order alone differs.
pub trait Picker {
    /// The place of one of so many that wait, counted from 0.
    fn pick(&mut self, waiting: usize) -> usize
        requires { 1 ≤ waiting }
        ensures { result < waiting };
}

/// Chooses what has waited longest.
#[derive(Clone, Copy, Debug)]
pub struct Oldest;

impl Picker for Oldest {
    fn pick(&mut self, _waiting: usize) -> usize
        requires { 1 ≤ _waiting }
        ensures oldest { result ≡ 0 }
        ensures waits { result < _waiting }
    {
        0
    }
}

/// Chooses what came last.
#[derive(Clone, Copy, Debug)]
pub struct Newest;

impl Picker for Newest {
    fn pick(&mut self, waiting: usize) -> usize
        requires { 1 ≤ waiting }
        ensures newest { result ≡ waiting - 1 }
        ensures waits { result < waiting }
    {
        waiting - 1
    }
}

/// Chooses by the words of a generator, the same ones for one seed: each is the next word modulo how many wait. Contracts see
/// the generator's state.
#[derive(Drop)]
pub struct Seeded {
    generator: SplitMix64,
}

impl Model for Seeded {
    ghost use Rattle.std.specs.Prelude.{ℕ};

    ghost Value = { ℕ };

    ghost view = { λ s. s.generator };
}

impl Seeded {
    /// The words of SplitMix64 (Steele, Lea and Flood) from this seed.
    pub fn new(seed: u64) -> Seeded
        ensures { result ≡ seed }
    {
        Seeded {
            generator: SplitMix64::seed_from_u64(seed),
        }
    }
}

impl Picker for Seeded {
    fn pick(&mut self, waiting: usize) -> usize
        requires { 1 ≤ waiting }
        ensures seeded { result ≡ (mix_u64 self.old).0 % waiting }
        ensures moves { self.new ≡ (mix_u64 self.old).1 }
        ensures waits { result < waiting }
    {
        (self.generator.next_word() % waiting as u64) as usize
    }
}
