//! The state machine.

ghost use Rattle.std.specs.Prelude.{◌≡◌, ◌≤◌, ◌+◌, ◌∷◌, ◌++◌, [], reverse, length, vec_len, vec_capacity, true, false, None, Some, IfOk, IfErr, OnOk};
ghost use Rattle.std.specs.Option.{ForSome, is_some};
ghost use Rattle.cluster_types.specs.declared.entry.Entry.{Entry};
ghost use Rattle.cluster_defs.specs.Connections.{channel_on};
ghost use Rattle.cluster_defs.specs.Facts.{event_in};
ghost use Rattle.cluster_defs.specs.Scheduling.{due, may_take};
ghost use Rattle.cluster_defs.specs.Histories.{facts, Legal, is_stopping, decide_all};
ghost use Rattle.cluster_defs.specs.Lives.{is_open};
ghost use Rattle.cluster_defs.specs.Outs.{outs_from};
ghost use Rattle.cluster_state.specs.Plain.{InTime, facts_in};
ghost use Rattle.cluster_state.specs.Stands.{plain};
ghost use Rattle.entry_outs.specs.Asked.{type_on, told_type};
ghost use Rattle.cluster_core.specs.Steps.{IsPlan, planned, kept_from, AllInTime, IsReadOff};
ghost use Rattle.cluster_core.specs.Size.{size_since, is_past, no_limit, FullAt};
ghost use Rattle.cluster_core.specs.Growth.{size_next, sizes_next};

use crate::known::{Known, may_take, meaning_of_input, rebuilt};
use crate::live::channel_told;
use crate::meaning::Meaning;
use crate::plan::{Plan, PlanError};
use crate::size::{GREATEST, HistorySize, NOTHING};
use cluster_types::config::Channel;
use cluster_types::entry::{Entries, Entry, Input};
use cluster_types::event::Event;
use cluster_types::out::Outs;
use json::Scratch;
use load_schemes::chooser::Chooser;
use std::alloc::{AllocError, Global};
use std::marker::Model;

/// What a step made.
#[derive(Drop)]
pub struct Made {
    /// What it sends, in order.
    pub outs: Outs,
    /// The entries that a journal keeps, in order.
    pub kept: Entries,
}

/// A controller without connections, disk and clock. Contracts see its history, the newest entry first, for how many
/// entries it has room, and how much may come after an Open. The history is legal, and no decision is due after it.
pub struct Core {
    entries: Vec<Entry>,
    /// What is known after the entries, where no step was given up for want of memory.
    known: Option<Known>,
    /// How many connections are live.
    live: usize,
    /// Whether a shutdown was asked since the last Open.
    stops: bool,
    /// How much came since the last Open and its decisions.
    size: HistorySize,
    /// What may come at most.
    limits: HistorySize,
    /// Room for the texts of messages while they are read.
    scratch: Scratch,
}

// Written out, so that what lets one go is proved over one call, and not case by case.
impl Drop for Core {
    fn drop(self) {
        let Core {
            entries,
            known,
            live: _,
            stops: _,
            size: _,
            limits: _,
            scratch,
        } = self;
        drop(entries);
        drop(known);
        drop(scratch);
    }
}

impl Model for Core {
    ghost use Rattle.std.specs.Prelude.{◌-◌, reverse, vec_len, vec_capacity};
    ghost use Rattle.std.specs.Option.{ForSome};
    ghost use Rattle.cluster_state.specs.Stands.{plain};
    ghost use Rattle.cluster_core.specs.Steps.{CoreView, IsCounted, IsReadOff};

    ghost Value = { CoreView };

    ghost view = { λ c. record { history = reverse c.entries.items; spare = vec_capacity c.entries - vec_len c.entries; limits = c.limits } };

    ghost invariant = { λ c. IsCounted (reverse c.entries.items) c.live c.stops c.size × ForSome c.known (λ k. IsReadOff (reverse c.entries.items) (plain k.state) k.place) };
}

impl Core {
    /// A core with an empty history, which may grow without a limit. It takes no memory.
    pub fn new(alloc: Global) -> Core
        ensures history { result.history ≡ [] }
        ensures limits { result.limits ≡ no_limit }
    {
        Core {
            entries: Vec::new(alloc),
            known: None,
            live: 0,
            stops: false,
            size: NOTHING,
            limits: GREATEST,
            scratch: Scratch::new(alloc),
        }
    }

    /// The history, in the order in which its entries came.
    pub fn history(&self) -> &[Entry]
        ensures is { reverse result.now ≡ self.now.history }
        ensures legal { Legal self.now.history }
        ensures rests { due (facts self.now.history) ≡ None }
        ensures time { AllInTime self.now.history }
    {
        self.entries.as_slice()
    }

    /// How many entries came after the last Open and its decisions, and how many octets their records have.
    pub fn size(&self) -> HistorySize
        ensures { result ≡ size_since self.now.history }
    {
        self.size
    }

    /// How much may come after an Open and its decisions.
    pub fn limits(&self) -> HistorySize
        ensures { result ≡ self.now.limits }
    {
        self.limits
    }

    /// Sets how much may come after an Open and its decisions.
    pub fn set_limits(&mut self, limits: HistorySize)
        ensures { self.new ≡ record self.old { limits = limits } }
    {
        self.limits = limits;
    }

    /// Whether a shutdown was asked since the last Open.
    pub fn stopping(&self) -> bool
        ensures { result ≡ is_stopping self.now.history }
    {
        self.stops
    }

    /// How many connections are live.
    pub fn live_conns(&self) -> usize
        ensures { result ≡ length (facts self.now.history).connections }
    {
        self.live
    }

    /// The channel of a connection, where it is live.
    pub fn channel_of(&self, conn: u32) -> Option<Channel>
        ensures { result ≡ channel_on (facts self.now.history).connections conn }
    {
        channel_in(self.known.as_ref(), self.history(), conn)
    }

    /// Whether a connection is live.
    pub fn is_live(&self, conn: u32) -> bool
        ensures { result ≡ is_some (channel_on (facts self.now.history).connections conn) }
    {
        self.channel_of(conn).is_some()
    }

    /// The allocator that the core takes its memory from.
    pub fn allocator(&self) -> Global {
        *self.entries.allocator()
    }

    /// What is known after the history. Where a step was given up, it is read off the entries again.
    fn take_known(&mut self) -> Result<Known, AllocError>
        ensures same { self.new.history ≡ self.old.history }
        ensures limits { self.new.limits ≡ self.old.limits }
        ensures known { IfOk result (λ k. IsReadOff self.old.history (plain k.state) k.place) }
    {
        let cached = self.known.take();
        known_after(*self.entries.allocator(), cached, self.entries.as_slice())
    }

    /// Keeps what is known.
    fn keep_known(&mut self, known: Known)
        requires { IsReadOff self.old.history (plain known.state) known.place }
        ensures same { self.new.history ≡ self.old.history }
        ensures limits { self.new.limits ≡ self.old.limits }
    {
        self.known = Some(known);
    }

    /// What the message of an input means. Each part of the message is read once, here.
    pub fn understand(&mut self, input: &Input) -> Result<Meaning, AllocError>
        ensures same { self.new.history ≡ self.old.history }
        ensures limits { self.new.limits ≡ self.old.limits }
        ensures event { IfOk result (λ m. m.event ≡ event_in (facts self.old.history) (Entry.Input input.now)) }
        ensures kind { IfOk result (λ m. m.msg_type ≡ told_type m.event (type_on (Entry.Input input.now))) }
    {
        let known = self.take_known()?;
        let alloc = self.allocator();
        let meaning = meaning_of_input(alloc, &known.state, input, &mut self.scratch);
        self.keep_known(known);
        meaning
    }

    /// Whether an input may come: an Up of a connection that isn't live, a Down of one that is, a message that means
    /// something. `event` is what its message means.
    pub fn may_take(&mut self, input: &Input, event: &Option<Event>) -> Result<bool, AllocError>
        ensures same { self.new.history ≡ self.old.history }
        ensures limits { self.new.limits ≡ self.old.limits }
        ensures may { IfOk result (λ b. b ≡ may_take (facts self.old.history) input.now event.now) }
    {
        let known = self.take_known()?;
        let may = may_take(&known.state, input, event);
        self.keep_known(known);
        Ok(may)
    }

    /// Makes room for so many further entries.
    fn reserve(&mut self, more: usize) -> Result<(), AllocError>
        ensures same { self.new.history ≡ self.old.history }
        ensures limits { self.new.limits ≡ self.old.limits }
        ensures room { OnOk result (more ≤ self.new.spare) }
    {
        self.entries.reserve(more)
    }

    /// Works out the step of an input that may come, with its meaning. It takes all the memory of the step.
    fn plan_with(
        &mut self,
        chooser: &Chooser,
        input: Input,
        meaning: &Meaning,
    ) -> Result<Plan, AllocError>
        requires event { meaning.now.event ≡ event_in (facts self.old.history) (Entry.Input input) }
        requires kind { meaning.now.msg_type ≡ told_type meaning.now.event (type_on (Entry.Input input)) }
        requires taken { may_take (facts self.old.history) input meaning.now.event ≡ true }
        requires time { InTime (Entry.Input input) }
        ensures same { self.new.history ≡ self.old.history }
        ensures limits { self.new.limits ≡ self.old.limits }
        ensures ok { IfOk result (λ p. IsPlan self.new p) }
        ensures input { IfOk result (λ p. p.input ≡ input) }
    {
        let known = self.take_known()?;
        let stopping = self.stopping();
        let plan = Plan::work_out(self.history(), known, input, meaning, stopping, chooser)?;
        self.reserve(plan.steps())?;
        Ok(plan)
    }

    /// Works out the step of an input that may come, with its meaning. It takes all the memory of the step. The history
    /// stays as it is, also where the step would pass a limit: the next call then reads the whole history once more.
    pub fn plan(
        &mut self,
        chooser: &Chooser,
        input: Input,
        meaning: Meaning,
    ) -> Result<Plan, PlanError>
        requires event { meaning.event ≡ event_in (facts self.old.history) (Entry.Input input) }
        requires kind { meaning.msg_type ≡ told_type meaning.event (type_on (Entry.Input input)) }
        requires taken { may_take (facts self.old.history) input meaning.event ≡ true }
        requires time { InTime (Entry.Input input) }
        ensures same { self.new.history ≡ self.old.history }
        ensures limits { self.new.limits ≡ self.old.limits }
        ensures ok { IfOk result (λ p. IsPlan self.new p) }
        ensures input { IfOk result (λ p. p.input ≡ input) }
        // It is refused exactly where it passes a limit, with the two sums; an Open never does.
        ensures fits { IfOk result (λ p. is_past self.old.limits (size_since (decide_all (Entry.Input input ∷ self.old.history))) ≡ false) }
        ensures full { IfErr result (FullAt self.old.limits (size_since (decide_all (Entry.Input input ∷ self.old.history)))) }
        ensures open { is_open (Entry.Input input) ≡ true → IfErr result (λ e. e ≡ PlanError.OutOfMemory) }
    {
        let plan = self.plan_with(chooser, input, &meaning)?;
        let size = plan.size_behind(self.size());
        if size.is_past(self.limits()) {
            return Err(PlanError::HistoryFull {
                entries: size.entries,
                bytes: size.bytes,
            });
        }
        Ok(plan)
    }

    /// Takes the step that was planned last: the input and all decisions that are then due. It takes no memory.
    pub fn apply(&mut self, plan: Plan) -> Made
        requires { IsPlan self.old plan }
        ensures history { self.new.history ≡ decide_all (Entry.Input plan.input ∷ self.old.history) }
        ensures outs { result.outs ≡ outs_from (length self.old.history) self.new.history }
        ensures kept { result.kept ≡ kept_from (length self.old.history) self.new.history }
        ensures limits { self.new.limits ≡ self.old.limits }
    {
        self.size = plan.size_behind(self.size);
        let Plan {
            input,
            decisions,
            outs,
            kept,
            known,
            stops,
        } = plan;
        add_step(&mut self.entries, input, decisions);
        self.live = known.live();
        self.stops = stops;
        self.known = Some(known);
        Made {
            outs: Outs::from_vec(outs),
            kept: Entries::from_vec(kept),
        }
    }
}

/// The channel of a connection, by what is known, or else by the entries.
fn channel_in(known: Option<&Known>, entries: &[Entry], conn: u32) -> Option<Channel>
    requires legal { Legal (reverse entries.now) }
    requires known { ForSome known (λ k. IsReadOff (reverse entries.now) (plain k.now.state) k.now.place) }
    ensures { result ≡ channel_on (facts (reverse entries.now)).connections conn }
{
    match known {
        Some(known) => known.channel_of(conn),
        None => channel_told(entries, conn),
    }
}

/// What is known after a history: what is kept of it, or what its entries say.
fn known_after(alloc: Global, cached: Option<Known>, entries: &[Entry]) -> Result<Known, AllocError>
    requires legal { Legal (reverse entries.now) }
    requires time { AllInTime (reverse entries.now) }
    requires cached { ForSome cached (λ k. IsReadOff (reverse entries.now) (plain k.state) k.place) }
    ensures { IfOk result (λ k. IsReadOff (reverse entries.now) (plain k.state) k.place) }
{
    match cached {
        Some(known) => Ok(known),
        None => {
            let known = rebuilt(alloc, entries)?;
            Ok(known)
        }
    }
}

/// Adds an input and the decisions after it, into the room that is there.
fn add_step(entries: &mut Vec<Entry>, input: Input, mut decisions: Vec<Entry>)
    requires { vec_len entries.old + vec_len decisions + 1 ≤ vec_capacity entries.old }
    ensures { reverse entries.new.items ≡ reverse decisions.items ++ Entry.Input input ∷ reverse entries.old.items }
{
    entries.push_reserved(Entry::Input(input));
    let _ = entries.append(&mut decisions);
}
