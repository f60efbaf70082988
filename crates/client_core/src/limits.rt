//! Whether a request keeps to the limits of its readers.

ghost use Rattle.std.specs.Prelude.{◌≡◌};
ghost use Rattle.client_core.specs.Limits.{are_ids, is_dependency, is_within_limits, is_engine};
ghost use Rattle.cluster_defs.specs.Fields.{is_id};

use cluster_defs::content::SubmitMeta;
use cluster_types::event::Dep;
use cluster_types::message::Ids;

/// The greatest number of octets of an id.
const MOST_OCTETS: usize = 255;

/// The greatest number of ids that a dependency lists.
const MOST_IDS: usize = 4_096;

/// The greatest timeout, in seconds.
const MOST_SECONDS: u64 = 1_000_000_000;

/// The greatest number of retries.
const MOST_RETRIES: u32 = 1_000;

/// What stands behind the identity frames of a message.
const DELIMITER: &str = "<IDS|MSG>";

fn is_id(text: &str) -> bool
    ensures { result ≡ is_id text.now }
{
    0 < text.len() && text.len() <= MOST_OCTETS
}

fn are_ids(ids: &Ids) -> bool
    ensures { result ≡ are_ids ids.now }
{
    ids.as_slice().iter().all(|id| is_id(id.as_str()))
}

fn is_dependency(dependency: &Dep) -> bool
    ensures { result ≡ is_dependency dependency.now }
{
    dependency.ids.len() <= MOST_IDS && are_ids(&dependency.ids)
}

/// Whether the metadata of a task is within the limits of its readers: dependencies on at most 4,096 ids, ids of 1 to 255
/// octets, a timeout of at most 1,000,000,000 seconds, and at most 1,000 retries.
pub fn is_within_limits(meta: &SubmitMeta) -> bool
    ensures { result ≡ is_within_limits meta.now }
{
    is_dependency(&meta.after)
        && is_dependency(&meta.follow)
        && are_ids(&meta.targets)
        && meta.timeout <= MOST_SECONDS
        && meta.retries <= MOST_RETRIES
}

/// Whether an identity frame can name an engine so: 1 to 255 octets other than the delimiter.
pub fn is_engine(engine: &str) -> bool
    ensures { result ≡ is_engine engine.now }
{
    is_id(engine) && engine != DELIMITER
}
