//! The lock and the moment that the threads of one `serve` have in common.

ghost use Rattle.history_lock.specs.declared.known.Content.{Content};
ghost use Rattle.history_lock.specs.Names.{LockId};
ghost use Rattle.history_lock.specs.Rule.{nothing};
ghost use Rattle.controller_threads.specs.Passes.{no_lock};

use std::marker::Brand;

/// The lock of the desk, and what the pass of `serve` had seen at its start. Each call of `serve` picks them.
pub trait Naming {
    ghost lock: { LockId };

    ghost start: { Content };
}

impl Naming for Brand {
    ghost lock = { no_lock };

    ghost start = { nothing };
}
