//! The session that writes the outs of a connection.

ghost use Rattle.std.specs.Prelude.{◌≡◌};
ghost use Rattle.cluster_types.specs.Causes.{Rose};
ghost use Rattle.history_lock.specs.Names.{known, room_of, lock_id, IsIdle};
ghost use Rattle.session_threads.specs.Ends.{EndsWriting};
ghost use Rattle.controller_desk.specs.Contents.{Rests};
ghost use Rattle.session_threads.specs.Writing.{HasNoMore, WritesFront, WritesWhole};

use crate::context::{PassOf, SessionContext, SessionTypes};
use crate::outgoing::{BatchEnd, take_batch};
use edges::sink::Sink;
use link_messages::end::SessionEnd;
use link_messages::link::write;
use std::alloc::AllocError;
use std::sync::Wait;
use thread_edges::gate::{Gate, Point};

/// Passes the gate for so many outs that were written.
fn pass_wrote<R: Wait, G: Gate>(rt: &R, gate: &G, conn: u32, outs: usize) {
    for _ in 0..outs {
        gate.pass(rt, Point::Wrote, conn);
    }
}

/// Writes the outs of a connection, in their order, until it isn't live and none is left. All outs that may be handed out
/// are written at once, but that no further one is taken once there are 4,096 of them or 65,536 octets of them.
///
/// It passes the gate at `Wrote` for each out, after it was written. Where there is nothing to write yet it waits at `Idle`
/// until it is woken, unless it was since it began to look.
pub fn write_session<T: SessionTypes, K: Sink>(
    context: &SessionContext<T>,
    writer: &mut K,
    pass: &mut PassOf<T>,
    conn: u32,
) -> SessionEnd
    requires idle { IsIdle (lock_id context.now.desk.now.lock) pass.old }
    ensures idle { IsIdle (lock_id context.now.desk.now.lock) pass.new }
    ensures room { room_of pass.new ≡ room_of pass.old }
    ensures front { WritesFront context.now.key.now conn (known pass.old) (known pass.new) (K.written writer.old) (K.written writer.new) }
    ensures whole { result ≡ SessionEnd.Closed → WritesWhole context.now.key.now conn (known pass.old) (known pass.new) (K.written writer.old) (K.written writer.new) }
    ensures closed { result ≡ SessionEnd.Closed → HasNoMore conn (known pass.new).seen }
    ensures ends { EndsWriting result }
    ensures cause { result ≡ SessionEnd.LinkFault → Rose (K.faults writer.old) (K.faults writer.new) }
    ensures rests { Rests (known pass.new).seen }
{
    for _ in context.rt.forever() {
        let wakes = context.gate.wakes(Point::Idle, conn);
        let batch = match take_batch(context, pass, conn) {
            Ok(batch) => batch,
            Err(AllocError) => return SessionEnd::OutOfMemory,
        };
        match write(writer, batch.octets.as_slice()) {
            Ok(()) => {}
            Err(end) => return end,
        }
        pass_wrote(context.rt, context.gate, conn, batch.outs);
        match batch.end {
            BatchEnd::Full => {}
            BatchEnd::NothingYet => context.gate.wait(context.rt, Point::Idle, conn, wakes),
            BatchEnd::Closed => return SessionEnd::Closed,
        }
    }
    unreachable!()
}
