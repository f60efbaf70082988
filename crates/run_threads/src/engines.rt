//! The engines of a run, each on a connection of its own.

ghost use Rattle.std.specs.Prelude.{◌≡◌, ◌<◌, ◌≤◌, true, length, IfOk, string_bytes};
ghost use Rattle.engine_core.specs.State.{is_uuid};
ghost use Rattle.history_lock.specs.History.{Extends};
ghost use Rattle.history_lock.specs.Names.{known, lock_id, IsIdle};

use crate::shared::RunShared;
use cluster_types::config::Channel;
use disk_model::disk::Disk;
use engine_core::engine::Engine;
use engine_core::error::EngineError;
use history_lock::lock::Pass;
use load_schemes::chooser::Chooser;
use run_book::halt::{Halt, halt_of};
use run_book::kept::RunBook;
use std::alloc::{AllocError, Global};
use std::sync::Wait;
use thread_edges::gate::Gate;

/// What the engines and the client are called, without their numbers.
const ENGINE: &str = "engine-";

/// An engine, and the connection that it is on.
#[derive(Drop)]
pub struct Joined {
    pub conn: u32,
    pub engine: Engine,
}

/// A text as the name of an engine.
fn engine_named(alloc: Global, uuid: &str) -> Result<Engine, AllocError> {
    match Engine::new(alloc, uuid) {
        Ok(engine) => Ok(engine),
        Err(EngineError::OutOfMemory | EngineError::BadUuid) => Err(AllocError),
    }
}

/// The name of the engine with a number.
fn uuid_of(alloc: Global, number: u32) -> Result<String, AllocError> {
    let digits = number.to_string(alloc)?;
    let mut uuid = String::from_str(alloc, ENGINE)?;
    uuid.push_str(digits.as_str())?;
    Ok(uuid)
}

impl<D: Disk + Drop, G: Gate + Drop, R: Wait> RunShared<D, G, R> {
    /// Brings up a connection.
    pub fn open(
        &self,
        pass: &mut Pass<RunBook<D>>,
        chooser: &Chooser,
        channel: Channel,
        identity: &str,
    ) -> Result<u32, Halt>
        requires idle { IsIdle (lock_id self.now.book.lock) pass.old }
        ensures idle { IsIdle (lock_id self.now.book.lock) pass.new }
    {
        if identity.len() >= 256 {
            return Err(Halt::OutOfMemory);
        }
        let identity = identity.as_bytes();
        match self
            .book
            .open_conn(&self.rt, pass, chooser, channel, identity)
        {
            Ok(conn) => Ok(conn),
            Err(error) => Err(halt_of(error)),
        }
    }

    /// Registers an engine on its connection.
    fn register(
        &self,
        pass: &mut Pass<RunBook<D>>,
        chooser: &Chooser,
        conn: u32,
        engine: &Engine,
    ) -> Result<(), Halt>
        requires idle { IsIdle (lock_id self.now.book.lock) pass.old }
        ensures idle { IsIdle (lock_id self.now.book.lock) pass.new }
    {
        let Ok(message) = engine.join(0) else {
            return Err(Halt::OutOfMemory);
        };
        self.enter(pass, chooser, conn, message)
    }

    /// Brings up the engine with a number, on a connection of its own.
    pub fn join_engine(
        &self,
        pass: &mut Pass<RunBook<D>>,
        chooser: &Chooser,
        number: u32,
    ) -> Result<Joined, Halt>
        requires idle { IsIdle (lock_id self.now.book.lock) pass.old }
        ensures idle { IsIdle (lock_id self.now.book.lock) pass.new }
    {
        let Ok(uuid) = uuid_of(self.alloc, number) else {
            return Err(Halt::OutOfMemory);
        };
        let Ok(engine) = engine_named(self.alloc, uuid.as_str()) else {
            return Err(Halt::OutOfMemory);
        };
        let conn = self.open(pass, chooser, Channel::Engine, uuid.as_str())?;
        self.register(pass, chooser, conn, &engine)?;
        Ok(Joined { conn, engine })
    }
}
