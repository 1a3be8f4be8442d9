//! The dice: random words from a seed, for a join and for a month. See docs/FORMATS.md, "Dice".
ghost use Rattle.std.specs.Prelude.{◌≡◌, ◌+◌, IfOk};
ghost use Rattle.atl_requests.specs.Dice.{joining_streams, word_of, generator, first_words};

use rand_core::utils::NextWord;
use rand_pcg::Lcg64Xsh32;
use std::alloc::{AllocError, Global};

/// What is added to a faction's number for the random stream of its joining: 10,000, so that it is
/// no month's stream.
const JOINING_STREAMS: u64 = 10_000;

/// The dice of a campaign, by the seed that a club chose. The same seed gives the same words.
/// See docs/FORMATS.md, "Dice".
#[derive(Clone, Copy)]
pub struct Dice {
    pub seed: u64,
}

impl Dice {
    /// The word of the faction of this number, which picks the region where it begins.
    /// See docs/FORMATS.md, "Dice".
    #[tactic(auto, unfolding(crate::specs::Dice::generator, crate::specs::Dice::word_of, crate::specs::Dice::joining_streams))]
    pub fn join_word(self, faction: u32) -> u32
        ensures definition { result ≡ word_of (generator self.seed (joining_streams + faction)) }
    {
        Lcg64Xsh32::new(self.seed, JOINING_STREAMS + u64::from(faction)).next_word()
    }

    /// The first `count` words of the month of this number; its closing takes one for each region.
    /// AllocError without memory for them. See docs/FORMATS.md, "Dice".
    #[tactic(auto, unfolding(crate::specs::Dice::generator, crate::specs::Dice::first_words))]
    pub fn month_words(
        self,
        alloc: Global,
        month: u32,
        count: usize,
    ) -> Result<Vec<u32>, AllocError>
        ensures definition { IfOk result
            (λ words. words.items ≡ first_words count (generator self.seed month)) }
    {
        let mut generator = Lcg64Xsh32::new(self.seed, u64::from(month));
        let mut words = Vec::new(alloc);
        for _ in 0..count {
            words.push(generator.next_word())?;
        }
        Ok(words)
    }
}
