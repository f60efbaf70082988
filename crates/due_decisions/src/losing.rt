//! Engines that missed too many beats.

ghost use Rattle.std.specs.Prelude.{◌≡◌};
ghost use Rattle.cluster_defs.specs.Scheduling.{lose_due};
ghost use Rattle.due_decisions.specs.Table.{beating};

use cluster_types::entry::Entry;
use engine_registry::registry::Registry;

/// The loss of the lowest engine that missed more beats than it may.
pub fn lose_due(engines: &Registry, misses: u32, beats: u64) -> Option<Entry>
    ensures { result ≡ lose_due (beating engines.now misses beats) }
{
    match engines.missing(misses, beats) {
        Some(engine) => Some(Entry::Lose {
            engine: engine.number,
        }),
        None => None,
    }
}
