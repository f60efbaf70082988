//! What the sessions of a controller have in common.

use controller_desk::desk::Desk;
use controller_desk::locked::Locked;
use disk_model::disk::Disk;
use history_lock::lock::Pass;
use hmac_sign::Key;
use std::alloc::Global;
use std::marker::PhantomData;
use std::sync::Wait;
use thread_edges::clock::Clock;
use thread_edges::gate::Gate;
use thread_edges::words::Words;

/// The types of what the sessions of a controller stand on.
pub trait SessionTypes {
    type Disk: Disk + Drop;

    type Clock: Clock + Drop;

    type Words: Words + Drop;

    type Gate: Gate + Drop;

    /// Waits for the system.
    type Runtime: Wait + Drop;
}

/// The types of a disk, a clock, random words, a gate and a runtime.
pub struct TypesOf<D, C, W, G, R> {
    of: PhantomData<(D, C, W, G, R)>,
}

impl<D: Disk + Drop, C: Clock + Drop, W: Words + Drop, G: Gate + Drop, R: Wait + Drop> SessionTypes
    for TypesOf<D, C, W, G, R> {
    type Disk = D;

    type Clock = C;

    type Words = W;

    type Gate = G;

    type Runtime = R;
}

/// What is behind the lock of a desk of these types.
pub type LockedOf<T> = Locked<
    <T as SessionTypes>::Disk,
    <T as SessionTypes>::Clock,
    <T as SessionTypes>::Words,
>;

/// A pass of such a desk.
pub type PassOf<T> = Pass<LockedOf<T>>;

/// A desk of these types.
pub type DeskOf<T> = Desk<
    <T as SessionTypes>::Disk,
    <T as SessionTypes>::Clock,
    <T as SessionTypes>::Words,
>;

/// What a session has in common with all others of its controller. A chooser isn't: it belongs to one thread.
#[derive(Drop)]
pub struct SessionContext<'a, T: SessionTypes> {
    pub rt: &'a T::Runtime,
    pub alloc: Global,
    pub desk: &'a DeskOf<T>,
    /// Under which messages are signed.
    pub key: &'a Key,
    pub gate: &'a T::Gate,
}
