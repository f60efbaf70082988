//! Passes that threads hand over, with what is known of them.

ghost use Rattle.std.specs.Prelude.{◌≡◌, IfSome};
ghost use Rattle.history_lock.specs.Names.{known};
ghost use Rattle.controller_threads.specs.Halts.{HaltCause};
ghost use Rattle.controller_threads.specs.Passes.{IsSince};

use crate::halt::Halt;
use crate::naming::Naming;
use history_lock::lock::Pass;
use std::marker::PhantomData;

/// A pass of the lock, which has seen what was seen at the start.
#[derive(Drop)]
pub struct NamedPass<T, N: Naming> {
    pub pass: Pass<T>,
    pub of: PhantomData<N>,
    ghost since: { IsSince N.lock N.start pass },
}

impl<T, N: Naming> NamedPass<T, N> {
    /// A pass that has seen what was seen at the start.
    pub fn new(pass: Pass<T>) -> NamedPass<T, N>
        requires { IsSince N.lock N.start pass }
        ensures { result.pass ≡ pass }
    {
        NamedPass {
            pass,
            of: PhantomData,
        }
    }
}

/// Why a desk halts its controller, with a pass that has seen it.
#[derive(Drop)]
pub struct Halted<T, N: Naming> {
    pub halt: Halt,
    pub pass: Pass<T>,
    pub of: PhantomData<N>,
    ghost since: { IsSince N.lock N.start pass },
    ghost cause: { HaltCause halt N.start (known pass).seen },
}

impl<T, N: Naming> Halted<T, N> {
    /// Why a desk halts its controller, with a pass that has seen it.
    pub fn new(halt: Halt, pass: Pass<T>) -> Halted<T, N>
        requires since { IsSince N.lock N.start pass }
        requires cause { HaltCause halt N.start (known pass).seen }
    {
        Halted {
            halt,
            pass,
            of: PhantomData,
        }
    }
}
