//! The metadata of tasks.

ghost use Rattle.std.specs.Prelude.{◌≡◌, true};
ghost use Rattle.client_core.specs.Limits.{is_within_limits};
ghost use Rattle.client_core.specs.Metadata.{dependency_on, dependent_meta, plain_meta};

use cluster_defs::content::SubmitMeta;
use cluster_types::event::Dep;
use cluster_types::message::Ids;
use cluster_types::sequence::Sequence;
use std::alloc::Global;

/// A dependency on tasks all of which have to have completed.
pub fn dependency_on(ids: Ids) -> Dep
    ensures { result ≡ dependency_on ids }
{
    Dep {
        ids,
        all: true,
        success: true,
        failure: false,
    }
}

/// Metadata of a task that runs once the tasks of `after` have completed, on the engine where those of `follow` have, and
/// is tried again so often.
pub fn dependent_meta(alloc: Global, after: Ids, follow: Ids, retries: u32) -> SubmitMeta
    ensures { result ≡ dependent_meta after follow retries }
{
    SubmitMeta {
        after: dependency_on(after),
        follow: dependency_on(follow),
        targets: Sequence::new(alloc),
        timeout: 0,
        retries,
    }
}

/// Metadata that asks for nothing.
pub fn plain_meta(alloc: Global) -> SubmitMeta
    ensures value { result ≡ plain_meta }
    ensures limits { is_within_limits result ≡ true }
{
    dependent_meta(alloc, Sequence::new(alloc), Sequence::new(alloc), 0)
}
