//! Numbers that are drawn from a seed.

ghost use Rattle.std.specs.Prelude.{◌≡◌};
ghost use Rattle.quick_commands.specs.Draws.{next_draw};

const MULTIPLIER: u64 = 1_103_515_245;

const INCREMENT: u64 = 12_345;

const MODULUS: u64 = 2_147_483_648;

/// The number that is drawn after another, below 2^31. The first one is drawn after the seed.
#[tactic(auto, unfolding(crate::specs::Draws::next_draw))]
pub fn next_draw(number: u32) -> u32
    ensures { result ≡ next_draw number }
{
    ((MULTIPLIER * u64::from(number) + INCREMENT) % MODULUS) as u32
}
