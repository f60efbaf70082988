//! Lists of ids without repeats.

ghost use Rattle.std.specs.Prelude.{◌≡◌, ◌++◌, ◌∷◌, [], if◌then◌else◌, IfOk, OnOk};
ghost use Rattle.cluster_defs.specs.Submit.{once};

use cluster_types::message::Ids;
use cluster_types::sequence::Sequence;
use cluster_types::text::Text;
use std::alloc::{AllocError, Global};
use std::collections::BTreeMap;

/// Puts a copy of an id at the end of a list, where it is wanted there.
pub fn push_if(found: &mut Ids, wanted: bool, id: &Text) -> Result<(), AllocError>
    ensures { OnOk result (found.new ≡ found.old ++ (if wanted then id.now ∷ [] else [])) }
{
    if wanted {
        found.push(id.clone()?)?;
    }
    Ok(())
}

/// Each id once, at its first place.
pub fn once(alloc: Global, ids: &Ids) -> Result<Ids, AllocError>
    ensures { IfOk result (λ found. found ≡ once ids.now) }
{
    let mut seen = BTreeMap::new(alloc);
    let mut found = Sequence::new(alloc);
    for id in ids.as_slice() {
        let new = seen.insert(id.as_str(), ())?.is_none();
        push_if(&mut found, new, id)?;
    }
    Ok(found)
}
