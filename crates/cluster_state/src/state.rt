//! What is known of a cluster.

ghost use Rattle.std.specs.Prelude.{◌≡◌, ◌==◌, ◌≤◌, ◌+◌, ◌%◌, true, false, Some, None, IfOk, OnOk, option_map};
ghost use Rattle.cluster_types.specs.Limits.{most_engines};
ghost use Rattle.cluster_defs.specs.Facts.{nothing_yet};
ghost use Rattle.cluster_defs.specs.Engines.{engine_on, with_mark, with_engine};
ghost use Rattle.cluster_types.specs.Chance.{next_word};
ghost use Rattle.cluster_defs.specs.Connections.{without_connection};
ghost use Rattle.cluster_state.specs.Plain.{plain_of, opened, input_at, came_up, went_down, engine_ended, beaten, passed, handed_out, settled_out, joined_by, echoed_by};
ghost use Rattle.cluster_state.specs.Stands.{plain};

use crate::engines::use_engine;
use crate::outcomes::outcome_for;
use cluster_defs::connection::Connection;
use cluster_defs::engine::Engine;
use cluster_defs::settled::Settled;
use cluster_types::chance::next_word;
use cluster_types::config::{Channel, Scheme};
use cluster_types::octets::Octets;
use cluster_types::text::Text;
use cluster_types::verdict::{Cause, Verdict};
use engine_registry::registry::Registry;
use std::alloc::{AllocError, Global};
use task_table::attempts::{engine_of, one_more};
use task_table::tasks::Tasks;

/// What is known of a cluster after a history. A call that answers want of memory may have made a part of its change, so who
/// calls lets the state go then, and reads it off the entries anew.
pub struct State {
    /// Whether the database was opened.
    pub begun: bool,
    /// How often it was opened.
    pub opens: u64,
    pub scheme: Scheme,
    /// How many Submits may run on an engine at once; 0 is no bound.
    pub hwm: u32,
    /// How many beats an engine may miss.
    pub misses: u32,
    /// The greatest moment of the Opens, Beats and Times, in milliseconds.
    pub clock: u64,
    /// The moment of the last input, in milliseconds.
    pub moment: u64,
    /// The word that the next hand-out draws by.
    pub word: u64,
    /// How many beats there were since the last opening.
    pub beats: u64,
    /// The live connections, in the order in which they came up.
    pub connections: Vec<Connection>,
    /// The live engines, ascending.
    pub engines: Registry,
    /// The number of the next engine.
    pub next_engine: u32,
    /// The engines in ascending order of last use.
    pub by_use: Vec<u32>,
    pub tasks: Tasks,
}

// Written out, so that what lets one go is proved over one call, and not case by case.
impl Drop for State {
    fn drop(self) {
        let State {
            begun: _,
            opens: _,
            scheme: _,
            hwm: _,
            misses: _,
            clock: _,
            moment: _,
            word: _,
            beats: _,
            connections,
            engines,
            next_engine: _,
            by_use,
            tasks,
        } = self;
        drop(connections);
        drop(engines);
        drop(by_use);
        drop(tasks);
    }
}

fn drop_connection(live: &mut Vec<Connection>, conn: u32)
    ensures { live.new.items ≡ without_connection conn live.old.items }
{
    live.retain(|c| c.number != conn);
}

impl State {
    /// Before the first entry. It takes no memory.
    pub fn new(alloc: Global) -> State
        ensures { plain result ≡ plain_of nothing_yet }
    {
        State {
            begun: false,
            opens: 0,
            scheme: Scheme::LeastLoad,
            hwm: 0,
            misses: 0,
            clock: 0,
            moment: 0,
            word: 0,
            beats: 0,
            connections: Vec::new(alloc),
            engines: Registry::new(alloc),
            next_engine: 0,
            by_use: Vec::new(alloc),
            tasks: Tasks::new(alloc),
        }
    }

    /// The allocator that it takes its memory from.
    pub fn allocator(&self) -> Global {
        *self.by_use.allocator()
    }

    /// Takes an Open.
    pub fn take_open(
        &mut self,
        moment: u64,
        scheme: Scheme,
        hwm: u32,
        misses: u32,
    ) -> Result<(), AllocError>
        ensures { OnOk result (plain self.new ≡ opened moment scheme hwm misses (plain self.old)) }
    {
        self.tasks.lose_all()?;
        self.opens = one_more(self.opens)?;
        self.begun = true;
        self.scheme = scheme;
        self.hwm = hwm;
        self.misses = misses;
        self.clock = self.clock.max(moment);
        self.moment = moment;
        self.word = 0;
        self.beats = 0;
        self.connections.clear();
        self.engines.clear();
        Ok(())
    }

    /// Notes the moment and the word of an input.
    pub fn note_input(&mut self, moment: u64, word: u64)
        ensures { plain self.new ≡ input_at moment word (plain self.old) }
    {
        self.moment = moment;
        self.word = word;
    }

    /// Takes a connection that came up.
    pub fn connect(
        &mut self,
        conn: u32,
        channel: Channel,
        identity: &Octets,
    ) -> Result<(), AllocError>
        ensures { OnOk result (plain self.new ≡ came_up conn channel identity.now (plain self.old)) }
    {
        let identity = identity.clone()?;
        self.connections.push(Connection {
            number: conn,
            channel,
            identity,
        })?;
        Ok(())
    }

    /// Ends an engine, and the attempts on it.
    pub fn end_engine(&mut self, engine: u32) -> Result<(), AllocError>
        ensures { OnOk result (plain self.new ≡ engine_ended (Some engine) (plain self.old)) }
    {
        self.engines.end(engine);
        self.tasks.end_on(engine)
    }

    /// Ends the engine on a connection, where there is one.
    pub fn end_engine_on(&mut self, conn: u32) -> Result<(), AllocError>
        ensures { OnOk result (plain self.new ≡ engine_ended (option_map (λ e. e.number) (engine_on self.old.engines conn)) (plain self.old)) }
    {
        if let Some(engine) = self.engines.number_on(conn) {
            self.end_engine(engine)?;
        }
        Ok(())
    }

    /// Takes a connection that went down.
    pub fn disconnect(&mut self, conn: u32)
        ensures { plain self.new ≡ went_down conn (plain self.old) }
    {
        drop_connection(&mut self.connections, conn);
    }

    /// Counts a beat.
    pub fn beat(&mut self) -> Result<(), AllocError>
        ensures { OnOk result (plain self.new ≡ beaten (plain self.old)) }
    {
        self.beats = one_more(self.beats)?;
        self.engines.refresh();
        Ok(())
    }

    /// Notes the moment of a Beat or a Time.
    pub fn pass(&mut self, moment: u64)
        ensures { plain self.new ≡ passed moment (plain self.old) }
    {
        self.clock = self.clock.max(moment);
    }

    /// Makes an engine.
    pub fn join(&mut self, conn: u32, uuid: &Text) -> Result<(), AllocError>
        requires { (self.old.next_engine == most_engines) ≡ false }
        ensures { OnOk result (plain self.new ≡ joined_by conn (Some uuid.now) (plain self.old)) }
    {
        let number = self.next_engine;
        let uuid = uuid.clone()?;
        self.engines.push(Engine {
            number,
            conn,
            uuid,
            mark: self.beats,
        })?;
        use_engine(&mut self.by_use, number)?;
        self.next_engine = number + 1;
        Ok(())
    }

    /// Raises the mark of the engine on a connection.
    pub fn mark(&mut self, conn: u32, beat: u64)
        ensures { plain self.new ≡ echoed_by conn (Some beat) (plain self.old) }
    {
        self.engines.mark(conn, beat);
    }

    /// Takes a hand-out, of a direct request or another.
    pub fn hand(&mut self, id: &Text, engine: u32, direct: bool) -> Result<(), AllocError>
        ensures { OnOk result (plain self.new ≡ handed_out id.now engine direct (plain self.old)) }
    {
        if !direct {
            use_engine(&mut self.by_use, engine)?;
        }
        self.word = next_word(self.word);
        self.tasks.hand(id, engine)?;
        Ok(())
    }
}
