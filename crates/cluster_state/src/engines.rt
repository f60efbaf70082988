//! The order in which engines were used last.

ghost use Rattle.std.specs.Prelude.{◌≡◌, ◌==◌, not, OnOk, filter};
ghost use Rattle.cluster_defs.specs.Steps.{moved};

use std::alloc::AllocError;

fn drop_number(numbers: &mut Vec<u32>, number: u32)
    ensures { numbers.new.items ≡ filter (λ m. not (m == number)) numbers.old.items }
{
    numbers.retain(|m| *m != number);
}

/// Puts an engine at the end of the order of last use.
pub fn use_engine(by_use: &mut Vec<u32>, number: u32) -> Result<(), AllocError>
    ensures { OnOk result (by_use.new.items ≡ moved number by_use.old.items) }
{
    drop_number(by_use, number);
    by_use.push(number)?;
    Ok(())
}
