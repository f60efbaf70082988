//! A tape's way through a store.

ghost use Rattle.std.specs.Prelude.{◌≡◌, ◌↔◌, ◌⊎◌, ◌≤◌, ◌<◌, ◌+◌, ◌^◌, ◌++◌, ◌∷◌, [], List, ℕ, Some, None, Err, true, false, IfOk, IfErr, OnOk, OnErr, length, map, reverse, option_map};
ghost use Rattle.cluster_types.specs.declared.entry.Entry.{Entry as EntryType};
ghost use Rattle.cluster_types.specs.Causes.{Rose};
ghost use Rattle.cluster_types.specs.Limits.{last_moment, tape_limit};
ghost use Rattle.cluster_defs.specs.Lives.{is_open};
ghost use Rattle.cluster_store.specs.Openings.{IsOpened, HasOpen, Exits, WhyNot};
ghost use Rattle.cluster_store.specs.Stores.{written};
ghost use Rattle.disk_model.specs.Crashes.{LeavesOnly};
ghost use Rattle.record_codec.specs.Spelling.{IsWithinLimits};
ghost use Rattle.edges.specs.Keeping.{Keeps};
ghost use Rattle.tape.specs.Spelling.{Fits, spelled, all_spelled};
ghost use Rattle.task_journal.specs.Journal.{StandsFor};
ghost use Rattle.task_journal.specs.Settled.{Unharmed, Spared, OnRefusal};
ghost use Rattle.tape_drive.specs.Rules.{stop_of};
ghost use Rattle.tape_drive.specs.Inputs.{inputs_of};
ghost use Rattle.tape_drive.specs.Steps.{stepped, stepped_all, overfull, unless_full, fitting, full_at, history_behind, step_outs, made, AreTaken};
ghost use Rattle.tape_drive.specs.Sends.{step_sends, steps_send, sent_at};
ghost use Rattle.tape_drive.specs.declared.drive.TapeStop.TheVariants.{HistoryFull};
ghost use Rattle.tape_drive.specs.Drive.{Stand, started_as, goes_on, sends, halts, served, outs};
ghost use Rattle.tape_drive.specs.Served.{DriveView, HoldsSome, IsOnWay, IsTouched, is_failed, inputs_taken};

use crate::fault::DriveError;
use crate::links::TapeLink;
use crate::records::{leave, take_record};
use crate::rules::{least_after, stop_of};
use crate::sends::put_outs;
use crate::sizes::size_of;
use crate::steps::{Stepped, step};
use cluster_core::size::HistorySize;
use cluster_store::store::Store;
use cluster_types::config::Config;
use cluster_types::entry::{Entry, Input};
use disk_model::disk::Disk;
use hmac_sign::Key;
use load_schemes::chooser::Chooser;
use std::alloc::Global;
use std::marker::Model;
use tape::record::TapeRecord;
use task_journal::fault::OpenFault;
use task_journal::opening::Refused;

/// What stops a tape before its end.
#[derive(Clone, Copy, Debug, PartialEq, Eq)]
pub enum TapeStop {
    /// A record breaks a rule, or no whole record stands, at this place.
    BadTape(u64),
    /// A step would pass a limit; the history would have this size.
    HistoryFull(HistorySize),
}

/// What stops a tape where a step would pass a limit.
fn stop_at(full: Option<HistorySize>) -> Option<TapeStop>
    ensures { result ≡ option_map HistoryFull full }
{
    match full {
        Some(size) => Some(TapeStop::HistoryFull(size)),
        None => None,
    }
}

/// Where a tape has come to, over a database.
#[derive(Drop)]
pub struct Drive<D: Disk> {
    store: Store<D>,
    links: Vec<TapeLink>,
    least: u64,
    at: u64,
    stop: Option<TapeStop>,
}

impl<D: Disk> Model for Drive<D> {
    ghost use Rattle.tape_drive.specs.Steps.{IsCalm};
    ghost use Rattle.tape_drive.specs.Served.{DriveView};

    ghost Value = { DriveView D };

    ghost view = { λ d. record {
      stand = record { history = d.store.history; limits = d.store.limits; links = d.links.items; least = d.least; at = d.at; stop = d.stop };
      disk = d.store.disk;
      failed = d.store.failed;
    } };

    ghost invariant = { λ d. IsCalm d.store };
}

impl<D: Disk> Drive<D> {
    /// A drive of a tape of which nothing has come, over the database of a disk: its history goes on with an Open of the
    /// moment 0.
    pub fn begin(
        alloc: Global,
        disk: D,
        config: Config,
        chooser: &Chooser,
    ) -> Result<Drive<D>, Refused<D>>
        requires { config.bytes < 2 ^ 32 }
        ensures history { IfOk result (λ d. IsOpened D.tells (D.content disk) config 0 d.stand.history) }
        ensures stand { IfOk result (λ d. d.stand ≡ started_as d.stand.history (record { entries = config.entries; bytes = config.bytes })) }
        ensures fresh { IfOk result (λ d. d.failed ≡ false) }
        ensures refused { D.tells → IfErr result (λ r. WhyNot (D.content disk) r.why) }
        ensures spared { D.tells → IfErr result (λ r. OnRefusal r.why (Spared (D.image disk) (D.content disk) (D.image r.disk))) }
        ensures exits { D.tells → IfErr result (λ r. Exits (D.image disk) (D.content disk) config 0 (D.image r.disk)) }
        ensures any_moment { D.tells → IfOk result (λ d.
            LeavesOnly D.moment D.image_since disk d.disk (λ c. Unharmed (D.image disk) (D.content disk) c ⊎ HasOpen (D.content disk) config 0 c)) }
        ensures any_moment_err { D.tells → IfErr result (λ r.
            LeavesOnly D.moment D.image_since disk r.disk (λ c. Unharmed (D.image disk) (D.content disk) c ⊎ HasOpen (D.content disk) config 0 c)) }
        ensures later { IfOk result (λ d. D.faults disk ≤ D.faults d.disk) }
        ensures later_err { IfErr result (λ r. D.faults disk ≤ D.faults r.disk) }
        ensures cause { IfErr result (λ r. r.why ≡ OpenFault.DiskFault → Rose (D.faults disk) (D.faults r.disk)) }
    {
        match Store::open(alloc, disk, config, chooser, 0) {
            Ok(store) => Ok(Drive {
                store,
                links: Vec::new(alloc),
                least: 0,
                at: 0,
                stop: None,
            }),
            Err(refused) => Err(refused),
        }
    }

    /// What stops the tape: nothing is served from there on.
    pub fn stop(&self) -> Option<TapeStop>
        ensures { result ≡ self.now.stand.stop }
    {
        self.stop
    }

    /// The disk. While no call of it has failed, a crash leaves what is kept of the history.
    pub fn close(self) -> D
        ensures disk { result ≡ self.disk }
        ensures stands { D.tells → self.failed ≡ false → (c : List ℕ) → D.image result c → StandsFor c (written self.stand.history) }
    {
        let Drive { store, .. } = self;
        let _failed = store.failed();
        store.close()
    }

    /// The history, in the order in which its entries came.
    pub fn history(&self) -> &[Entry]
        ensures { reverse result.now ≡ self.now.stand.history }
    {
        self.store.history()
    }

    /// Takes an input outside of any record of the tape, and hands out what its step sends. One that may not come sends
    /// nothing, and a step that would pass a limit isn't made.
    pub fn step(&mut self, chooser: &Chooser, input: Input) -> Result<Stepped, DriveError>
        requires fits { IsWithinLimits (EntryType.Input input) }
        requires no_open { is_open (EntryType.Input input) ≡ false }
        ensures made { IfOk result (λ s. s ≡ made self.old.stand.limits self.old.stand.history input) }
        ensures stand { OnOk result (self.new.stand ≡ record self.old.stand { history = history_behind self.old.stand.limits self.old.stand.history input }) }
        ensures on_way { IsOnWay self.old.stand.limits self.old.stand.history (input ∷ []) self.new.stand.history }
        ensures any_moment { D.tells → self.old.failed ≡ false → IsTouched D.moment D.image D.image_since self.old.disk self.new.disk self.new.failed (HoldsSome (IsOnWay self.old.stand.limits self.old.stand.history (input ∷ []))) }
        ensures reopen { (result ≡ Err DriveError.Reopen) ↔ (self.old.failed ≡ true) }
        ensures failed { self.new.failed ≡ is_failed result }
        ensures later { D.faults self.old.disk ≤ D.faults self.new.disk }
        ensures cause { result ≡ Err DriveError.DiskFault → Rose (D.faults self.old.disk) (D.faults self.new.disk) }
    {
        step(&mut self.store, chooser, input)
    }

    /// Serves an input, and appends the records of what is sent. It gives the size of the history where the step would
    /// pass a limit.
    fn serve_input(
        &mut self,
        into: &mut Vec<u8>,
        key: &Key,
        chooser: &Chooser,
        moment: u64,
        input: Input,
    ) -> Result<Option<HistorySize>, DriveError>
        requires fits { IsWithinLimits (EntryType.Input input) }
        requires no_open { is_open (EntryType.Input input) ≡ false }
        ensures full { IfOk result (λ f. f ≡ overfull self.old.stand.limits self.old.stand.history input) }
        ensures stand { OnOk result (self.new.stand ≡ record self.old.stand { history = history_behind self.old.stand.limits self.old.stand.history input }) }
        ensures octets { OnOk result (into.new.items ≡ into.old.items ++ all_spelled (map (sent_at moment) (unless_full (overfull self.old.stand.limits self.old.stand.history input) (step_sends key.now self.old.stand.links self.old.stand.history input)))) }
        ensures kept { OnErr result (Keeps into.old.items into.new.items) }
        ensures on_way { IsOnWay self.old.stand.limits self.old.stand.history (input ∷ []) self.new.stand.history }
        ensures any_moment { D.tells → self.old.failed ≡ false → IsTouched D.moment D.image D.image_since self.old.disk self.new.disk self.new.failed (HoldsSome (IsOnWay self.old.stand.limits self.old.stand.history (input ∷ []))) }
        ensures reopen { (result ≡ Err DriveError.Reopen) ↔ (self.old.failed ≡ true) }
        ensures failed { self.new.failed ≡ is_failed result }
        ensures later { D.faults self.old.disk ≤ D.faults self.new.disk }
        ensures cause { result ≡ Err DriveError.DiskFault → Rose (D.faults self.old.disk) (D.faults self.new.disk) }
    {
        match self.step(chooser, input)? {
            Stepped::Sends(outs) => {
                put_outs(into, key, self.links.as_slice(), moment, outs)?;
                Ok(None)
            }
            Stepped::Full(size) => Ok(Some(size)),
        }
    }

    /// Serves inputs one after another, the last of the list first, until a step would pass a limit. It gives the size of
    /// the history with that step.
    fn serve_inputs(
        &mut self,
        into: &mut Vec<u8>,
        key: &Key,
        chooser: &Chooser,
        moment: u64,
        mut inputs: Vec<Input>,
    ) -> Result<Option<HistorySize>, DriveError>
        requires { AreTaken (reverse inputs.items) }
        ensures full { IfOk result (λ f. f ≡ full_at self.old.stand.limits self.old.stand.history (reverse inputs.items)) }
        ensures stand { OnOk result (self.new.stand ≡ record self.old.stand { history = stepped_all self.old.stand.history (fitting self.old.stand.limits self.old.stand.history (reverse inputs.items)) }) }
        ensures octets { OnOk result (into.new.items ≡ into.old.items ++ all_spelled (map (sent_at moment) (steps_send key.now self.old.stand.links self.old.stand.history (fitting self.old.stand.limits self.old.stand.history (reverse inputs.items))))) }
        ensures kept { OnErr result (Keeps into.old.items into.new.items) }
        ensures on_way { IsOnWay self.old.stand.limits self.old.stand.history (reverse inputs.items) self.new.stand.history }
        ensures any_moment { D.tells → self.old.failed ≡ false → IsTouched D.moment D.image D.image_since self.old.disk self.new.disk self.new.failed (HoldsSome (IsOnWay self.old.stand.limits self.old.stand.history (reverse inputs.items))) }
        ensures reopen { result ≡ Err DriveError.Reopen → self.old.failed ≡ true }
        ensures failed { OnOk result (self.new.failed ≡ self.old.failed) }
        ensures failed_err { OnErr result (self.new.failed ≡ is_failed result) }
        ensures later { D.faults self.old.disk ≤ D.faults self.new.disk }
        ensures cause { result ≡ Err DriveError.DiskFault → Rose (D.faults self.old.disk) (D.faults self.new.disk) }
    {
        while let Some(input) = inputs.pop() {
            if let Some(size) = self.serve_input(into, key, chooser, moment, input)? {
                return Ok(Some(size));
            }
        }
        Ok(None)
    }

    /// Serves a record that keeps the rules, and appends the records of what is sent.
    fn go_on(
        &mut self,
        into: &mut Vec<u8>,
        key: &Key,
        chooser: &Chooser,
        item: &TapeRecord,
    ) -> Result<(), DriveError>
        requires fits { Fits item.now }
        requires end { self.old.stand.at + length (spelled item.now) ≤ tape_limit }
        ensures stand { OnOk result (self.new.stand ≡ goes_on key.now self.old.stand item.now) }
        ensures octets { OnOk result (into.new.items ≡ into.old.items ++ all_spelled (sends key.now self.old.stand item.now)) }
        ensures kept { OnErr result (Keeps into.old.items into.new.items) }
        ensures on_way { IsOnWay self.old.stand.limits self.old.stand.history (inputs_of key.now self.old.stand.links item.now) self.new.stand.history }
        ensures any_moment { D.tells → self.old.failed ≡ false → IsTouched D.moment D.image D.image_since self.old.disk self.new.disk self.new.failed (HoldsSome (IsOnWay self.old.stand.limits self.old.stand.history (inputs_of key.now self.old.stand.links item.now))) }
        ensures reopen { result ≡ Err DriveError.Reopen → self.old.failed ≡ true }
        ensures failed { OnOk result (self.new.failed ≡ self.old.failed) }
        ensures failed_err { self.old.failed ≡ false → OnErr result (self.new.failed ≡ is_failed result) }
        ensures later { D.faults self.old.disk ≤ D.faults self.new.disk }
        ensures cause { result ≡ Err DriveError.DiskFault → Rose (D.faults self.old.disk) (D.faults self.new.disk) }
    {
        let mut inputs = Vec::new(self.store.core().allocator());
        take_record(&mut self.links, &mut inputs, into, key, item)?;
        inputs.reverse();
        self.stop = stop_at(self.serve_inputs(into, key, chooser, item.moment, inputs)?);
        leave(&mut self.links, &item.kind);
        self.least = least_after(self.least, &item.kind);
        self.at += size_of(item);
        Ok(())
    }

    /// The place of the fault of the next record, where it has one.
    fn fault_of(&self, item: &TapeRecord) -> Option<u64>
        ensures { result ≡ stop_of self.now.stand.links self.now.stand.least self.now.stand.at item.now }
    {
        stop_of(self.links.as_slice(), self.least, self.at, item)
    }

    /// Serves a record, and appends the octets of what is sent, which is safe then. A record that breaks a rule stops the
    /// tape: neither it nor what stands behind it is served. So does a step that would pass a limit, but for what its
    /// record sends before it. At an error some inputs of the record may be served, and nothing is appended.
    pub fn serve(
        &mut self,
        into: &mut Vec<u8>,
        key: &Key,
        chooser: &Chooser,
        item: &TapeRecord,
    ) -> Result<(), DriveError>
        requires { Fits item.now }
        ensures stand { OnOk result (self.new.stand ≡ served key.now self.old.stand item.now) }
        ensures octets { OnOk result (into.new.items ≡ into.old.items ++ all_spelled (outs key.now self.old.stand item.now)) }
        ensures err { OnErr result (into.new.items ≡ into.old.items) }
        ensures on_way { IsOnWay self.old.stand.limits self.old.stand.history (inputs_taken key.now self.old.stand item.now) self.new.stand.history }
        // A crash at any moment of the call leaves what is kept of the history from before it, or with some of the steps.
        ensures any_moment { D.tells → self.old.failed ≡ false → IsTouched D.moment D.image D.image_since self.old.disk self.new.disk self.new.failed (HoldsSome (IsOnWay self.old.stand.limits self.old.stand.history (inputs_taken key.now self.old.stand item.now))) }
        ensures reopen { result ≡ Err DriveError.Reopen → self.old.failed ≡ true }
        ensures failed { OnOk result (self.new.failed ≡ self.old.failed) }
        ensures failed_err { self.old.failed ≡ false → OnErr result (self.new.failed ≡ is_failed result) }
        ensures later { D.faults self.old.disk ≤ D.faults self.new.disk }
        ensures cause { result ≡ Err DriveError.DiskFault → Rose (D.faults self.old.disk) (D.faults self.new.disk) }
    {
        if self.stop.is_some() {
            return Ok(());
        }
        if let Some(place) = self.fault_of(item) {
            self.stop = Some(TapeStop::BadTape(place));
            return Ok(());
        }
        let before = into.len();
        let served = self.go_on(into, key, chooser, item);
        if served.is_err() {
            into.truncate(before);
        }
        served
    }
}
