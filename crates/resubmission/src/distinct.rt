//! Lists of ids without repeats, as the definitions of the cluster's answers have them.

ghost use Rattle.std.specs.Prelude.{◌≡◌, IfOk};
ghost use Rattle.cluster_defs.specs.Words.{once};

use cluster_types::message::Ids;
use std::alloc::{AllocError, Global};

/// Each id once, at its first place.
pub fn once(alloc: Global, ids: &Ids) -> Result<Ids, AllocError>
    ensures { IfOk result (λ found. found ≡ once ids.now) }
{
    Ok(jupyter_header::distinct::once(alloc, ids)?)
}
