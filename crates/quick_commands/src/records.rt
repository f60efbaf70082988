//! The records of the tape.

ghost use Rattle.std.specs.Prelude.{◌≡◌, ◌++◌, [], IfOk, OnOk, true};
ghost use Rattle.std.specs.List.{flat_map};
ghost use Rattle.quick_commands.specs.Generated.{work_key, at_zero, up, sent, engine_uuid, engine_records, opening, task_record};

use crate::engines::{engine_of, engine_uuid};
use crate::tasks::task_message;
use cluster_types::config::Channel;
use cluster_types::octets::Octets;
use cluster_types::shared_message::SharedMessage;
use hmac_sign::Key;
use jupyter_parts::write::write_untargeted;
use std::alloc::{AllocError, Global};
use std::collections::VecDeque;
use tape::record::{TapeKind, TapeRecord};

/// The connections of the engines.
const ENGINES: [u32; 4] = [1, 2, 3, 4];

/// The connection of the client.
const CLIENT: u32 = 5;

/// A record of the moment 0 and the word 0.
fn at_zero(kind: TapeKind) -> TapeRecord
    ensures { result ≡ at_zero kind }
{
    TapeRecord {
        moment: 0,
        word: 0,
        kind,
    }
}

/// A bare connection comes up.
fn up(alloc: Global, conn: u32, channel: Channel, identity: &[u8]) -> Result<TapeRecord, AllocError>
    ensures { IfOk result (λ r. r ≡ up conn channel identity.now) }
{
    let identity = Octets::new(alloc, identity)?;
    Ok(at_zero(TapeKind::Up {
        conn,
        channel,
        bare: true,
        identity,
    }))
}

/// A message without identity frames comes on a connection.
fn sent(
    alloc: Global,
    key: &Key,
    conn: u32,
    message: &SharedMessage,
) -> Result<TapeRecord, AllocError>
    requires key { key.now ≡ work_key }
    requires target { message.now.target ≡ [] }
    ensures { IfOk result (λ r. r ≡ sent conn message.now) }
{
    let frames = write_untargeted(alloc, message, key)?;
    Ok(at_zero(TapeKind::Message { conn, frames }))
}

/// Adds that the engine on a connection comes up and asks to be registered.
#[tactic(auto, unfolding(crate::specs::Generated::engine_records))]
fn push_engine(
    records: &mut VecDeque<TapeRecord>,
    alloc: Global,
    key: &Key,
    conn: u32,
) -> Result<(), AllocError>
    requires { key.now ≡ work_key }
    ensures { OnOk result (records.new.items ≡ records.old.items ++ engine_records conn) }
{
    let uuid = engine_uuid(alloc, conn)?;
    let request = engine_of(alloc, uuid.as_str())?.join(0)?;
    records.push_back(up(alloc, conn, Channel::Engine, uuid.as_bytes())?)?;
    records.push_back(sent(alloc, key, conn, &request)?)?;
    Ok(())
}

/// Adds the same for each of these connections.
fn push_engines(
    records: &mut VecDeque<TapeRecord>,
    alloc: Global,
    key: &Key,
    conns: &[u32],
) -> Result<(), AllocError>
    requires { key.now ≡ work_key }
    ensures { OnOk result (records.new.items ≡ records.old.items ++ flat_map engine_records conns.now) }
{
    for conn in conns {
        push_engine(records, alloc, key, *conn)?;
    }
    Ok(())
}

/// The records before the tasks.
#[tactic(auto, unfolding(crate::specs::Generated::opening))]
pub fn opening(alloc: Global, key: &Key) -> Result<VecDeque<TapeRecord>, AllocError>
    requires { key.now ≡ work_key }
    ensures { IfOk result (λ records. records.items ≡ opening) }
{
    let mut records = VecDeque::new(alloc);
    push_engines(&mut records, alloc, key, &ENGINES)?;
    records.push_back(up(alloc, CLIENT, Channel::Task, b"client")?)?;
    Ok(records)
}

/// The client submits the task with a number, for which a number was drawn.
#[tactic(auto, unfolding(crate::specs::Generated::task_record))]
pub fn task_record(
    alloc: Global,
    key: &Key,
    number: u32,
    drawn: u32,
) -> Result<TapeRecord, AllocError>
    requires { key.now ≡ work_key }
    ensures { IfOk result (λ r. r ≡ task_record number drawn) }
{
    let message = task_message(alloc, number, drawn)?;
    sent(alloc, key, CLIENT, &message)
}
