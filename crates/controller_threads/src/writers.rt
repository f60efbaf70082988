//! The connections that have a writer.

use std::alloc::{AllocError, Global};
use std::sync::{Mutex, Wait};
use thread_edges::gate::{Gate, Point};

/// The numbers of the connections whose writers are running.
#[derive(Drop)]
pub struct Writers {
    conns: Mutex<Vec<u32>>,
}

impl Writers {
    /// None yet. Takes no memory.
    pub fn new(alloc: Global) -> Writers {
        Writers {
            conns: Mutex::new(Vec::new(alloc)),
        }
    }

    /// Notes that the writer of a connection runs. An error is want of memory, and leaves the list as it was.
    pub fn add<R: Wait>(&self, rt: &R, conn: u32) -> Result<(), AllocError> {
        self.conns.lock(rt).push(conn)?;
        Ok(())
    }

    /// Notes that the writer of a connection has ended.
    pub fn remove<R: Wait>(&self, rt: &R, conn: u32) {
        self.conns.lock(rt).retain(|other| *other != conn);
    }

    /// Writes these connections into a list, in place of what it has. Where there is no memory for it, it is left empty.
    pub fn copy_into<R: Wait>(&self, rt: &R, list: &mut Vec<u32>) -> Result<(), AllocError> {
        list.clear();
        list.extend_from_slice(self.conns.lock(rt).as_slice())?;
        Ok(())
    }

    /// Wakes each writer.
    pub fn wake_all<R: Wait, G: Gate>(&self, rt: &R, gate: &G) {
        wake_each(gate, self.conns.lock(rt).as_slice());
    }
}

/// Wakes the writers of these connections.
pub fn wake_each<G: Gate>(gate: &G, conns: &[u32]) {
    for conn in conns {
        gate.wake(Point::Idle, *conn);
    }
}
