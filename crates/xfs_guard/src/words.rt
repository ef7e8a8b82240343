//! The words that the seed of the nonces gives for the issues.

ghost use Rattle.std.specs.Prelude.{◌≡◌, ◌+◌, ◌*◌, ◌^◌, ◌<◌, ◌≤◌, ℕ, List};
ghost use Rattle.xfs_guard.specs.Word.{AreWords, issue_word, before_issue};

use rand_chacha::ChaCha20Rng;
use rand_core::SeedableRng;
use rand_core::utils::NextWord;
use std::marker::Model;

// So many issues have their words in the four blocks that the generator makes at a time.
const STRETCH: u64 = 32;

/// The seed of the nonces, with the words that it gives for a stretch of issues, which are computed together.
#[derive(Drop)]
pub struct Words {
    seed: [u8; 32],
    // The issue of the first word that is kept.
    first: u64,
    kept: [u64; 32],
}

impl Model for Words {
    ghost use Rattle.std.specs.Prelude.{ℕ, List};
    ghost use Rattle.xfs_guard.specs.Word.{AreWords};

    ghost Value = { List ℕ };

    ghost view = { λ w. w.seed };

    ghost invariant = { λ w. AreWords w.seed w.first w.kept };
}

impl Words {
    /// Of a seed, with the words of the first stretch.
    pub fn new(seed: [u8; 32]) -> Words
        ensures { result ≡ seed }
    {
        Words {
            seed,
            first: 0,
            kept: words_from(seed, 0),
        }
    }

    /// The word of issue `number`: the ChaCha20 (RFC 8439) words of the seed at the places 2n (its high
    /// half) and 2n + 1 (its low half) of stream 0.
    pub fn at(&self, number: u64) -> u64
        ensures { result ≡ issue_word self.now number }
    {
        if number < self.first || number - self.first >= STRETCH {
            return next_of(&mut generator_at(self.seed, number));
        }
        self.kept[(number - self.first) as usize]
    }

    /// The words are kept of the stretch that has this issue.
    pub fn turn_to(&mut self, number: u64)
        ensures { self.new ≡ self.old }
    {
        let first = number - number % STRETCH;
        if first != self.first {
            self.first = first;
            self.kept = words_from(self.seed, first);
        }
    }
}

// The words of a stretch of issues.
fn words_from(seed: [u8; 32], first: u64) -> [u64; 32]
    ensures { AreWords seed first result }
{
    let mut rng = generator_at(seed, first);
    let mut words = [0u64; 32];
    for i in 0..32 {
        words[i] = next_of(&mut rng);
    }
    words
}

// The generator before an issue's word.
fn generator_at(seed: [u8; 32], number: u64) -> ChaCha20Rng
    ensures { result ≡ before_issue seed number }
{
    let mut rng = ChaCha20Rng::from_seed(seed);
    rng.set_word_pos(2 * u128::from(number));
    rng
}

// The next issue's word.
#[tactic(auto, unfolding(crate::specs::Word::issue_word))]
fn next_of(rng: &mut ChaCha20Rng) -> u64
    ensures word { (seed : List ℕ) (n : ℕ) → rng.old ≡ before_issue seed n → n < 2 ^ 65 → result ≡ issue_word seed n }
    ensures behind { (seed : List ℕ) (n : ℕ) → rng.old ≡ before_issue seed n → n < 2 ^ 65 → rng.new ≡ before_issue seed (n + 1) }
{
    let high = rng.next_word();
    let low = rng.next_word();
    u64::from(high) * 0x1_0000_0000 + u64::from(low)
}
