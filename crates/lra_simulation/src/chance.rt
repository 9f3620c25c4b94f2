//! Random numbers of a simulation, all from one seed.

use rand_core::{Rng, SeedableRng};
use rand_xoshiro::Xoshiro256PlusPlus;

/// Numbers that look random, the same ones from the same seed.
#[derive(Drop)]
pub struct Chance {
    words: Xoshiro256PlusPlus,
}

impl Chance {
    pub fn of_seed(seed: u64) -> Chance {
        Chance {
            words: Xoshiro256PlusPlus::seed_from_u64(seed),
        }
    }

    /// Draws a number below a bound, or 0 if the bound is 0.
    pub fn below(&mut self, bound: u64) -> u64 {
        self.words.next_u64() % bound.max(1)
    }

    /// Draws a number from `least` to `most`, both included.
    pub fn between(&mut self, least: u64, most: u64) -> u64 {
        let width = most.saturating_sub(least).saturating_add(1);
        least.saturating_add(self.below(width))
    }

    /// Draws whether an event happens, with this probability in thousandths.
    pub fn happens(&mut self, of_thousand: u64) -> bool {
        self.below(1_000) < of_thousand
    }
}
