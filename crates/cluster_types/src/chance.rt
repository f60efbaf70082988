//! Random words, one after another.

ghost use Rattle.std.specs.Prelude.{◌≡◌};
ghost use Rattle.cluster_types.specs.Chance.{next_word};

/// The word after a word: a step of Knuth's MMIX generator, modulo 2 ^ 64.
#[tactic(auto, unfolding(crate::specs::Chance::next_word))]
pub fn next_word(word: u64) -> u64
    ensures { result ≡ next_word word }
{
    word.wrapping_mul(6_364_136_223_846_793_005)
        .wrapping_add(1_442_695_040_888_963_407)
}
