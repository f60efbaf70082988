//! The steps of a store on the inputs of a tape.

ghost use Rattle.std.specs.Prelude.{◌≡◌, ◌↔◌, ◌≤◌, ◌∷◌, [], true, false, length, Err, IfOk, OnOk};
ghost use Rattle.cluster_types.specs.Causes.{Rose};
ghost use Rattle.cluster_types.specs.declared.entry.Entry.{Entry};
ghost use Rattle.cluster_defs.specs.Facts.{event_in};
ghost use Rattle.cluster_defs.specs.Scheduling.{may_take};
ghost use Rattle.cluster_defs.specs.Histories.{facts, decide_all};
ghost use Rattle.cluster_defs.specs.Lives.{is_open};
ghost use Rattle.cluster_defs.specs.Outs.{outs_from};
ghost use Rattle.entry_outs.specs.Asked.{type_on, told_type};
ghost use Rattle.record_codec.specs.Spelling.{IsWithinLimits};
ghost use Rattle.tape_drive.specs.Steps.{IsCalm, may_come, stepped, step_outs, overfull, made, history_behind};
ghost use Rattle.tape_drive.specs.Served.{HoldsSome, IsOnWay, IsTouched, is_failed};

use crate::fault::DriveError;
use cluster_core::meaning::Meaning;
use cluster_core::size::HistorySize;
use cluster_store::fault::{ServeError, StepError};
use cluster_store::store::Store;
use cluster_types::entry::Input;
use cluster_types::out::Outs;
use disk_model::disk::Disk;
use load_schemes::chooser::Chooser;

/// What a step comes to.
#[derive(Debug, Drop)]
pub enum Stepped {
    /// It is made, and sends these outs.
    Sends(Outs),
    /// It would pass a limit and isn't made. The history would have this size.
    Full(HistorySize),
}

/// Takes an input that may come, with its meaning.
fn take_step<D: Disk>(
    store: &mut Store<D>,
    chooser: &Chooser,
    input: Input,
    meaning: Meaning,
) -> Result<Stepped, DriveError>
    requires event { meaning.event ≡ event_in (facts store.old.history) (Entry.Input input) }
    requires kind { meaning.msg_type ≡ told_type meaning.event (type_on (Entry.Input input)) }
    requires taken { may_take (facts store.old.history) input meaning.event ≡ true }
    requires fits { IsWithinLimits (Entry.Input input) }
    requires no_open { is_open (Entry.Input input) ≡ false }
    requires calm { IsCalm store.old }
    requires working { store.old.failed ≡ false }
    ensures calm { IsCalm store.new }
    ensures history { OnOk result (store.new.history ≡ history_behind store.old.limits store.old.history input) }
    ensures limits { store.new.limits ≡ store.old.limits }
    ensures made { IfOk result (λ s. s ≡ made store.old.limits store.old.history input) }
    ensures on_way { IsOnWay store.old.limits store.old.history (input ∷ []) store.new.history }
    ensures any_moment { D.tells → store.old.failed ≡ false → IsTouched D.moment D.image D.image_since store.old.disk store.new.disk store.new.failed (HoldsSome (IsOnWay store.old.limits store.old.history (input ∷ []))) }
    ensures no_reopen { result ≡ Err DriveError.Reopen → ⊥ }
    ensures failed { store.new.failed ≡ is_failed result }
    ensures later { D.faults store.old.disk ≤ D.faults store.new.disk }
    ensures cause { result ≡ Err DriveError.DiskFault → Rose (D.faults store.old.disk) (D.faults store.new.disk) }
{
    match store.serve(chooser, input, meaning) {
        Ok(outs) => Ok(Stepped::Sends(outs)),
        Err(ServeError::Step(StepError::HistoryFull { entries, bytes })) => {
            Ok(Stepped::Full(HistorySize { entries, bytes }))
        }
        Err(ServeError::Step(StepError::OutOfMemory)) => Err(DriveError::OutOfMemory),
        Err(ServeError::Step(StepError::Reopen)) => unreachable!(),
        Err(ServeError::Step(StepError::BatchFull)) => unreachable!(),
        Err(ServeError::DiskFault) => Err(DriveError::DiskFault),
    }
}

/// Takes an input, where it may come. One that may not sends nothing.
#[tactic(auto, using(crate::proofs::Unsent::none_sent))]
pub fn step<D: Disk>(
    store: &mut Store<D>,
    chooser: &Chooser,
    input: Input,
) -> Result<Stepped, DriveError>
    requires fits { IsWithinLimits (Entry.Input input) }
    requires no_open { is_open (Entry.Input input) ≡ false }
    requires calm { IsCalm store.old }
    ensures calm { IsCalm store.new }
    ensures history { OnOk result (store.new.history ≡ history_behind store.old.limits store.old.history input) }
    ensures limits { store.new.limits ≡ store.old.limits }
    ensures made { IfOk result (λ s. s ≡ made store.old.limits store.old.history input) }
    ensures on_way { IsOnWay store.old.limits store.old.history (input ∷ []) store.new.history }
    ensures any_moment { D.tells → store.old.failed ≡ false → IsTouched D.moment D.image D.image_since store.old.disk store.new.disk store.new.failed (HoldsSome (IsOnWay store.old.limits store.old.history (input ∷ []))) }
    ensures reopen { (result ≡ Err DriveError.Reopen) ↔ (store.old.failed ≡ true) }
    ensures failed { store.new.failed ≡ is_failed result }
    ensures later { D.faults store.old.disk ≤ D.faults store.new.disk }
    ensures cause { result ≡ Err DriveError.DiskFault → Rose (D.faults store.old.disk) (D.faults store.new.disk) }
{
    if store.failed() {
        return Err(DriveError::Reopen);
    }
    let meaning = store.understand(&input)?;
    if store.may_take(&input, &meaning.event)? {
        return take_step(store, chooser, input, meaning);
    }
    Ok(Stepped::Sends(Outs::new(store.core().allocator())))
}
