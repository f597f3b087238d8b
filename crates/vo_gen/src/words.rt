//! The words of the generator.
ghost use Rattle.std.specs.Prelude.{◌≡◌, ◌+◌, ◌^◌, ◌<◌};
ghost use Rattle.vo_gen.specs.Words.{key_of_number, word_of};

use rand_chacha::ChaCha8Rng;
use rand_core::SeedableRng;
use rand_core::utils::NextWord;
use std::marker::Model;

/// A generator, which contracts see as its key and how many words it has given.
#[derive(Drop)]
pub struct Words {
    inner: ChaCha8Rng,
}

impl Model for Words {
    ghost use Rattle.std.specs.Prelude.{◌≡◌};
    ghost use Rattle.vo_gen.specs.Words.{Drawn};

    ghost Value = { Drawn };

    ghost view = { λ words. record { key = words.inner.key; place = words.inner.word_pos } };

    ghost invariant = { λ words. words.inner.stream ≡ 0 };
}

impl Words {
    /// The words of a number, from the first on.
    #[tactic(auto, unfolding(crate::specs::Words::key_of_number))]
    pub fn of_number(number: u64) -> Words
        ensures { result ≡ record { key = key_of_number number; place = 0 } }
    {
        let mut seed = [0; 32];
        seed[..8].copy_from_slice(&number.to_le_bytes());
        Words {
            inner: ChaCha8Rng::from_seed(seed),
        }
    }

    /// The next word.
    #[tactic(auto, unfolding(crate::specs::Words::word_of))]
    pub fn next(&mut self) -> u32
        requires { self.old.place + 1 < 2 ^ 68 }
        ensures word { result ≡ word_of self.old.key self.old.place }
        ensures rest { self.new ≡ record self.old { place = self.old.place + 1 } }
    {
        self.inner.next_word()
    }
}
