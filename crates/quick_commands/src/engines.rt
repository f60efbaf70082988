//! The engines of the tape.

ghost use Rattle.std.specs.Prelude.{◌≡◌, IfOk, true, string_bytes};
ghost use Rattle.engine_core.specs.State.{is_uuid, new_engine};
ghost use Rattle.quick_commands.specs.Generated.{engine_uuid};

use engine_core::engine::Engine;
use engine_core::error::EngineError;
use std::alloc::{AllocError, Global};

/// The uuid of the engine on a connection.
#[tactic(auto, unfolding(crate::specs::Generated::engine_uuid), using(crate::proofs::Uuids::uuid_is))]
pub fn engine_uuid(alloc: Global, conn: u32) -> Result<String, AllocError>
    ensures text { IfOk result (λ s. string_bytes s ≡ engine_uuid conn) }
    ensures uuid { IfOk result (λ s. is_uuid (string_bytes s) ≡ true) }
{
    let digits = conn.saturating_sub(1).to_string(alloc)?;
    let mut uuid = String::from_str(alloc, "e")?;
    uuid.push_str(digits.as_str())?;
    Ok(uuid)
}

/// An engine with a uuid.
pub fn engine_of(alloc: Global, uuid: &str) -> Result<Engine, AllocError>
    requires { is_uuid uuid.now ≡ true }
    ensures { IfOk result (λ engine. engine ≡ new_engine uuid.now) }
{
    match Engine::new(alloc, uuid) {
        Ok(engine) => Ok(engine),
        Err(EngineError::OutOfMemory) => Err(AllocError),
        Err(EngineError::BadUuid) => unreachable!(),
    }
}
