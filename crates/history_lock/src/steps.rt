//! The rule of the lock's table, and the names of the steps that change what a pass knows.
ghost use Rattle.std.specs.Prelude.{[], ◌∷◌};
ghost use Rattle.history_lock.specs.Rule.{Ruled, without_turn, whole, knows, kept_of_split, given_of_split, spent_seat, told_seat, turn_taken, turn_given_up, told_merged};

use crate::known::{Keeps, Knows};
use atomic_table::{Join, Play, Split, TableRule};
use std::marker::PhantomData;
use std::snapshot::Snapshot;

/// The rule: who has the turn, where the value is, and what it extends.
pub struct Turns<T> {
    marker: PhantomData<T>,
}

impl<T: Keeps> TableRule<Option<T>, Knows<T>, Snapshot<T>> for Turns<T> {
    ghost holds = { λ key. Ruled T.content T.step T.loan key.value };

    ghost first = { λ key. knows (without_turn whole (T.content key.value) []) (key.value ∷ []) (T.loan key.value) };
}

/// Takes the turn, where it is free.
pub struct TakeTurn;

impl<T: Keeps> Play<Option<T>, Knows<T>> for TakeTurn {
    ghost then = { turn_taken T.content T.step T.loan };
}

/// Gives up the turn.
pub struct GiveUpTurn;

impl<T: Keeps> Play<Option<T>, Knows<T>> for GiveUpTurn {
    ghost then = { turn_given_up T.content T.step T.loan };
}

/// Makes one of what a pass has seen and what it was told.
pub struct MergeTold;

impl<T: Keeps> Play<Option<T>, Knows<T>> for MergeTold {
    ghost then = { told_merged T.content T.step T.loan };
}

/// Makes a second pass that has seen the same.
pub struct SplitPass;

impl<T> Split<Knows<T>> for SplitPass {
    ghost left = { kept_of_split };

    ghost right = { given_of_split };
}

/// Tells a pass what another has seen, which is spent.
pub struct TellOther;

impl<T> Join<Knows<T>> for TellOther {
    ghost both = { told_seat };

    ghost spent = { spent_seat };
}
