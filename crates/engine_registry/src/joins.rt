//! What registrations come to.

ghost use Rattle.std.specs.Prelude.{◌≡◌};
ghost use Rattle.std.specs.Option.{option_copied};
ghost use Rattle.cluster_defs.specs.Engines.{joining_again, joining_new};

use cluster_defs::engine::{Engine, Joining};
use cluster_types::limits::MOST_ENGINES;
use cluster_types::text::Text;

/// On a connection that has this engine.
pub fn joining_again(uuid: &Text, engine: &Engine) -> Joining
    ensures { result ≡ joining_again uuid.now engine.now }
{
    if engine.uuid.is(uuid) {
        Joining::Repeat {
            engine: engine.number,
        }
    } else {
        Joining::AlreadyJoined {
            engine: engine.number,
        }
    }
}

/// On another connection, where this engine has the uuid, or none does.
pub fn joining_new(next: u32, holder: Option<&Engine>) -> Joining
    ensures { result ≡ joining_new next (option_copied holder.entry) }
{
    match holder {
        Some(holder) => Joining::UuidInUse {
            engine: holder.number,
        },
        None if next == MOST_ENGINES => Joining::UsedUp,
        None => Joining::Accepted,
    }
}
