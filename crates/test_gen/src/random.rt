//! Random words, by a seed: those of the generator PCG XSL RR 128/64. A seed always gives the words again.
ghost use Rattle.std.specs.Prelude.{◌≡◌};
ghost use Rattle.test_gen.specs.Random.{seeded as seeded_of, drawn as drawn_of, next_state};

use rand_core::SeedableRng;
use rand_core::utils::NextWord;
use rand_pcg::Pcg64;

/// The generator of a seed.
#[tactic(auto, unfolding(crate::specs::Random::seeded))]
pub fn seeded(seed: u64) -> Pcg64
    ensures { result ≡ seeded_of seed }
{
    Pcg64::seed_from_u64(seed)
}

/// The next random word, of 64 bits.
#[tactic(auto, unfolding(crate::specs::Random::drawn, crate::specs::Random::next_state))]
pub fn drawn(rng: &mut Pcg64) -> u64
    ensures word { result ≡ drawn_of rng.old }
    ensures next { rng.new ≡ next_state rng.old }
{
    rng.next_word()
}
