//! Nonces from a seed.
ghost use Rattle.std.specs.Prelude.{◌≡◌, None};
ghost use Rattle.up_ends.specs.Telling.{Gives};
ghost use Rattle.up_net.specs.Seeds.{SeededBy, after_nonce, nonce_of};

use crate::random_bytes::RandomBytes;
use sha2::{Digest, Sha256};
use std::io;
use std::marker::Model;
use up_ends::Nonces;

/// Nonces that are hashes of a seed and of how many were drawn from it. Who does not know the seed cannot foretell them, as far as
/// SHA-256 keeps its promise. They come again after 2^64 of them.
#[derive(Drop)]
pub struct SeedNonces {
    seed: [u8; 32],
    drawn: u64,
}

impl Model for SeedNonces {
    ghost use Rattle.up_net.specs.Seeds.{Seed};

    ghost Value = { Seed };

    ghost view = { λ nonces. record { bytes = nonces.seed; drawn = nonces.drawn } };
}

impl SeedNonces {
    /// The nonces of this seed, from the first.
    pub fn new(seed: [u8; 32]) -> Self
        ensures { result ≡ record { bytes = seed; drawn = 0 } }
    {
        SeedNonces { seed, drawn: 0 }
    }

    /// The nonces of a seed that is read now, by one call of the source. An `Err` is that of reading it.
    pub fn from_random<B: RandomBytes>(random: &mut B) -> io::Result<Self>
        ensures { SeededBy B.gives random.old result random.new }
    {
        let mut seed = [0; 32];
        random.fill(&mut seed)?;
        Ok(SeedNonces::new(seed))
    }
}

impl Nonces for SeedNonces {
    ghost use Rattle.std.specs.Prelude.{None};

    ghost coming = { λ _. None };

    fn next(&mut self) -> [u8; 32]
        ensures gives { Gives None result None }
        ensures nonce { result ≡ nonce_of self.old }
        ensures drawn { self.new ≡ after_nonce self.old }
    {
        let nonce = Sha256::new_with_prefix(self.seed)
            .chain_update(self.drawn.to_be_bytes())
            .finalize();
        self.drawn = self.drawn.wrapping_add(1);
        nonce
    }
}
