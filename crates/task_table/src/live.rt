//! Engines by which is told whether a task may run for good.

ghost use Rattle.std.specs.Prelude.{◌≡◌};
ghost use Rattle.cluster_defs.specs.Engines.{lists_number};
ghost use Rattle.task_table.specs.Live.{live_of};

use engine_registry::registry::Registry;

/// The engines that count as live.
#[derive(Clone, Copy, Drop)]
pub enum Live<'a> {
    /// Those of a registry.
    Among(&'a Registry),
    /// One alone, by its number.
    Only(u32),
    Nobody,
}

/// Whether an engine is one of them.
pub fn is_live(live: Live, engine: u32) -> bool
    ensures { result ≡ lists_number engine (live_of live.entry) }
{
    match live {
        Live::Among(engines) => engines.is_live(u64::from(engine)),
        Live::Only(number) => number == engine,
        Live::Nobody => false,
    }
}
