//! Random words.

ghost use Rattle.std.specs.Prelude.{◌≡◌};
ghost use Rattle.rand_core.specs.Pcg32Seed.{pcg32_seed};
ghost use Rattle.rand_pcg.specs.Pcg.{pcg32, pcg32_of_seed};

use rand_core::SeedableRng;
use rand_core::utils::NextWord;
use rand_pcg::Lcg64Xsh32;
use std::marker::Model;

/// The random words of a storm, which follow from the number that it starts with (O'Neill, PCG32). Clauses see the
/// state of the generator.
#[derive(Drop)]
pub struct RandomWords {
    source: Lcg64Xsh32,
}

impl Model for RandomWords {
    ghost use Rattle.rand_pcg.specs.Lcg.{Lcg};

    ghost Value = { Lcg };

    ghost view = { λ w. w.source };
}

impl RandomWords {
    /// The words that follow from a number.
    pub fn new(start: u64) -> RandomWords
        ensures { result ≡ pcg32_of_seed (pcg32_seed 16 start) }
    {
        RandomWords {
            source: Lcg64Xsh32::seed_from_u64(start),
        }
    }

    /// The next word.
    pub fn draw(&mut self) -> u32
        ensures { (result, self.new) ≡ pcg32 self.old }
    {
        self.source.next_word()
    }
}
