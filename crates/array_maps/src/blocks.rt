//! The blocks of a list.

ghost use Rattle.std.specs.Prelude.{◌≡◌, ◌<◌};
ghost use Rattle.array_maps.specs.Blocks.{block_start, block_length};

/// Where part `part` of `n` items in `parts` parts begins, and how many items it has.
#[tactic(auto, using(crate::proofs::Blocked::start_at))]
pub fn block(n: u64, parts: u64, part: u64) -> (u64, u64)
    requires { part < parts }
    ensures start { result.0 ≡ block_start n parts part }
    ensures length { result.1 ≡ block_length n parts part }
{
    let quotient = n / parts;
    let rest = n % parts;
    let start = part * quotient + part.min(rest);
    let length = if part < rest { quotient + 1 } else { quotient };
    (start, length)
}
