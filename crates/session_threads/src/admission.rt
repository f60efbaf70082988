//! The admission of a link.

ghost use Rattle.std.specs.Prelude.{◌≡◌, ◌⊎◌, ◌<◌, ◌≤◌, ◌+◌, ◌-◌, ◌↔◌, All, None, IfOk, IfSome, IsSome, Ok, Err, length, take};
ghost use Rattle.std.specs.Vec.{vec_capacity};
ghost use Rattle.controller_desk.specs.declared.fault.ActError.{ActError as Refusal};
ghost use Rattle.history_lock.specs.Names.{known, room_of, lock_id, IsIdle};
ghost use Rattle.session_threads.specs.Admission.{OpensInTurn, IsFrom};
ghost use Rattle.controller_desk.specs.Contents.{Rests};

use crate::context::{DeskOf, LockedOf, PassOf, SessionContext, SessionTypes};
use cluster_types::config::Channel;
use controller_desk::fault::ActError;
use history_lock::lock::Pass;
use load_schemes::chooser::Chooser;
use thiserror::Error;

/// What passes are given from: a pass, and others that are kept to be used again.
#[derive(Drop)]
pub struct PassPool<T> {
    pub pass: Pass<T>,
    pub kept: Vec<Pass<T>>,
}

/// The passes of the two sessions of a link.
#[derive(Drop)]
pub struct SessionPasses<T> {
    pub reading: Pass<T>,
    pub writing: Pass<T>,
}

/// A link that was admitted: the number of its connection, and the passes of its two sessions.
#[derive(Drop)]
pub struct Admitted<T> {
    pub conn: u32,
    pub passes: SessionPasses<T>,
}

/// Why a link isn't admitted.
#[derive(Clone, Copy, Debug, PartialEq, Eq, Error)]
pub enum AdmitEnd {
    /// There are no passes for its sessions.
    #[error("there are no passes for two sessions")]
    NoPass,
    /// Its connection doesn't come up.
    #[error("the connection does not come up: {0}")]
    Act(ActError),
}

/// Two passes of a pass whose room does.
fn split_two<T: SessionTypes>(
    desk: &DeskOf<T>,
    pass: &mut PassOf<T>,
) -> Option<SessionPasses<LockedOf<T>>>
    requires idle { IsIdle (lock_id desk.now.lock) pass.old }
    ensures idle { IsIdle (lock_id desk.now.lock) pass.new }
    ensures exact { IsSome result ↔ (2 ≤ room_of pass.old) }
    ensures some { IfSome result (λ two. IsIdle (lock_id desk.now.lock) two.reading × IsIdle (lock_id desk.now.lock) two.writing × (room_of pass.new + 2 ≡ room_of pass.old)) }
    ensures made { IfSome result (λ two. ((known two.reading).seen ≡ (known pass.old).seen) × ((known two.writing).seen ≡ (known pass.old).seen)) }
    ensures none { result ≡ None → (known pass.new ≡ known pass.old) × (room_of pass.new ≡ room_of pass.old) }
    ensures seen { (known pass.new).seen ≡ (known pass.old).seen }
    ensures added { (known pass.new).added ≡ (known pass.old).added }
{
    let mut reading = match desk.split(pass, 1) {
        Ok(reading) => reading,
        Err(_) => return None,
    };
    match desk.split(&mut reading, 0) {
        Ok(writing) => Some(SessionPasses { reading, writing }),
        Err(_) => unreachable!(),
    }
}

/// Two passes: from the end of those that are kept, and then from the pool's own.
fn two_passes<T: SessionTypes>(
    desk: &DeskOf<T>,
    pool: &mut PassPool<LockedOf<T>>,
) -> Option<SessionPasses<LockedOf<T>>>
    requires idle { IsIdle (lock_id desk.now.lock) pool.old.pass }
    requires kept { All (λ p. IsIdle (lock_id desk.now.lock) p) pool.old.kept.items }
    ensures idle { IsIdle (lock_id desk.now.lock) pool.new.pass }
    ensures kept { All (λ p. IsIdle (lock_id desk.now.lock) p) pool.new.kept.items }
    ensures exact { IsSome result ↔ (2 ≤ length pool.old.kept.items + room_of pool.old.pass) }
    ensures some { IfSome result (λ two. IsIdle (lock_id desk.now.lock) two.reading × IsIdle (lock_id desk.now.lock) two.writing) }
    ensures from { IfSome result (λ two. IsFrom pool.old.kept.items (known pool.old.pass).seen two.reading × IsFrom pool.old.kept.items (known pool.old.pass).seen two.writing) }
    ensures taken { IsSome result → (pool.new.kept.items ≡ take (length pool.old.kept.items - 2) pool.old.kept.items) × (room_of pool.new.pass + (2 - length pool.old.kept.items) ≡ room_of pool.old.pass) }
    ensures none { result ≡ None → (known pool.new.pass ≡ known pool.old.pass) × (room_of pool.new.pass ≡ room_of pool.old.pass) × (pool.new.kept.items ≡ pool.old.kept.items) }
    ensures seen { (known pool.new.pass).seen ≡ (known pool.old.pass).seen }
    ensures added { (known pool.new.pass).added ≡ (known pool.old.pass).added }
    ensures spare { vec_capacity pool.new.kept ≡ vec_capacity pool.old.kept }
{
    let Some(reading) = pool.kept.pop() else {
        return split_two::<T>(desk, &mut pool.pass);
    };
    if let Some(writing) = pool.kept.pop() {
        return Some(SessionPasses { reading, writing });
    }
    match desk.split(&mut pool.pass, 0) {
        Ok(writing) => Some(SessionPasses { reading, writing }),
        Err(_) => {
            pool.kept.push_reserved(reading);
            None
        }
    }
}

/// Admits a link: takes passes for its two sessions, from the end of those that are kept and then from the pool's own, and
/// brings its connection up in a turn of the pool's own pass. Any thread may do so that has a pool.
///
/// `NoPass` comes exactly where those that are kept and the room of the pool's own are together below two, and changes
/// nothing. At `Act` both passes are kept again, for which the pool has to have room.
pub fn admit<T: SessionTypes>(
    context: &SessionContext<T>,
    chooser: &Chooser,
    pool: &mut PassPool<LockedOf<T>>,
    channel: Channel,
    identity: &[u8],
) -> Result<Admitted<LockedOf<T>>, AdmitEnd>
    requires idle { IsIdle (lock_id context.now.desk.now.lock) pool.old.pass }
    requires kept { All (λ p. IsIdle (lock_id context.now.desk.now.lock) p) pool.old.kept.items }
    requires spare { 2 ≤ vec_capacity pool.old.kept }
    requires identity { length identity.now < 256 }
    ensures idle { IsIdle (lock_id context.now.desk.now.lock) pool.new.pass }
    ensures kept { All (λ p. IsIdle (lock_id context.now.desk.now.lock) p) pool.new.kept.items }
    ensures from { All (IsFrom pool.old.kept.items (known pool.old.pass).seen) pool.new.kept.items }
    ensures spare { vec_capacity pool.new.kept ≡ vec_capacity pool.old.kept }
    ensures no_pass { (result ≡ Err AdmitEnd.NoPass) ↔ (length pool.old.kept.items + room_of pool.old.pass < 2) }
    ensures unchanged { result ≡ Err AdmitEnd.NoPass → (known pool.new.pass ≡ known pool.old.pass) × (room_of pool.new.pass ≡ room_of pool.old.pass) × (pool.new.kept.items ≡ pool.old.kept.items) }
    ensures ok { IfOk result (λ a. IsIdle (lock_id context.now.desk.now.lock) a.passes.reading × IsIdle (lock_id context.now.desk.now.lock) a.passes.writing) }
    ensures given { IfOk result (λ a. IsFrom pool.old.kept.items (known pool.old.pass).seen a.passes.reading × IsFrom pool.old.kept.items (known pool.old.pass).seen a.passes.writing) }
    ensures opened { IfOk result (λ a. OpensInTurn T.Disk.faults (known pool.old.pass) channel identity.now (Ok a.conn) (known pool.new.pass)) }
    ensures taken { IfOk result (λ _. (pool.new.kept.items ≡ take (length pool.old.kept.items - 2) pool.old.kept.items) × (room_of pool.new.pass + (2 - length pool.old.kept.items) ≡ room_of pool.old.pass)) }
    ensures act { (e : Refusal) → result ≡ Err (AdmitEnd.Act e) → OpensInTurn T.Disk.faults (known pool.old.pass) channel identity.now (Err e) (known pool.new.pass) }
    ensures returned { (e : Refusal) → result ≡ Err (AdmitEnd.Act e) → (2 ≤ length pool.new.kept.items) × (length pool.new.kept.items + room_of pool.new.pass ≡ length pool.old.kept.items + room_of pool.old.pass) }
    ensures rests { (result ≡ Err AdmitEnd.NoPass) ⊎ Rests (known pool.new.pass).seen }
{
    let Some(passes) = two_passes::<T>(context.desk, pool) else {
        return Err(AdmitEnd::NoPass);
    };
    let opened = context
        .desk
        .open_conn(context.rt, &mut pool.pass, chooser, channel, identity);
    match opened {
        Ok(conn) => Ok(Admitted { conn, passes }),
        Err(error) => {
            let SessionPasses { reading, writing } = passes;
            pool.kept.push_reserved(reading);
            pool.kept.push_reserved(writing);
            Err(AdmitEnd::Act(error))
        }
    }
}
