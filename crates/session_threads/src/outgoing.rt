//! The outs of a connection, as octets.

ghost use Rattle.std.specs.Prelude.{◌≡◌, ◌++◌, [], IfOk, OnOk, OnErr};
ghost use Rattle.history_lock.specs.Names.{known, room_of, lock_id, IsIdle};
ghost use Rattle.controller_desk.specs.Contents.{Rests};
ghost use Rattle.session_threads.specs.Writing.{Took, TookSome, HasNoMore};
ghost use Rattle.link_messages.specs.Outs.{octets_of};

use crate::context::{PassOf, SessionContext, SessionTypes};
use cluster_store::taken::Taken;
use cluster_types::out::Out;
use hmac_sign::Key;
use link_messages::outs::out_octets;
use std::alloc::{AllocError, Global};

/// A batch takes no further out once it has so many octets.
const BATCH_OCTETS: usize = 65_536;

/// A batch has so many outs at most.
const BATCH_OUTS: usize = 4_096;

/// Why a batch has no further outs.
#[derive(Clone, Copy, Debug, PartialEq, Eq)]
pub enum BatchEnd {
    /// It is full.
    Full,
    /// There is none yet.
    NothingYet,
    /// There is none, and the connection isn't live.
    Closed,
}

/// Outs that are written at once.
#[derive(Drop)]
pub struct OutBatch {
    pub octets: Vec<u8>,
    pub outs: usize,
    pub end: BatchEnd,
}

/// Appends the octets of an out.
fn put_out(alloc: Global, key: &Key, out: Out, into: &mut Vec<u8>) -> Result<(), AllocError>
    ensures { OnOk result (into.new.items ≡ into.old.items ++ octets_of key.now out) }
{
    let octets = out_octets(alloc, key, out)?;
    into.extend_from_slice(octets.as_slice())?;
    Ok(())
}

/// Takes outs, one after another, while some may be handed out and the batch isn't full.
pub fn take_batch<T: SessionTypes>(
    context: &SessionContext<T>,
    pass: &mut PassOf<T>,
    conn: u32,
) -> Result<OutBatch, AllocError>
    requires idle { IsIdle (lock_id context.now.desk.now.lock) pass.old }
    ensures idle { IsIdle (lock_id context.now.desk.now.lock) pass.new }
    ensures room { room_of pass.new ≡ room_of pass.old }
    ensures ok { IfOk result (λ batch. Took context.now.key.now conn batch.octets.items (known pass.old) (known pass.new)) }
    ensures err { OnErr result (TookSome context.now.key.now conn (known pass.old) (known pass.new)) }
    ensures closed { IfOk result (λ batch. batch.end ≡ BatchEnd.Closed → HasNoMore conn (known pass.new).seen) }
    ensures rests { Rests (known pass.new).seen }
{
    let mut octets = Vec::new(context.alloc);
    for outs in 0..BATCH_OUTS {
        match context.desk.take_out(context.rt, pass, conn) {
            Taken::Out(out) => put_out(context.alloc, context.key, out, &mut octets)?,
            Taken::NothingYet => {
                return Ok(OutBatch {
                    octets,
                    outs,
                    end: BatchEnd::NothingYet,
                });
            }
            Taken::Closed => {
                return Ok(OutBatch {
                    octets,
                    outs,
                    end: BatchEnd::Closed,
                });
            }
        }
        if octets.len() >= BATCH_OCTETS {
            return Ok(OutBatch {
                octets,
                outs: outs + 1,
                end: BatchEnd::Full,
            });
        }
    }
    Ok(OutBatch {
        octets,
        outs: BATCH_OUTS,
        end: BatchEnd::Full,
    })
}
