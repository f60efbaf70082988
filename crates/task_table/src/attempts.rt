//! What became of a task's attempts.

ghost use Rattle.std.specs.Prelude.{◌≡◌, ◌∷◌, ◌+◌, ◌^◌, ◌==◌, ◌&&◌, not, Some, None, IfOk, OnOk, OnErr, bytes_eq};
ghost use Rattle.std.specs.List.{list_any};
ghost use Rattle.cluster_defs.specs.Tasks.{new_task, runs, runs_at, is_never, engine_of, handed, lost, after_end, replied, took, has_heard, withdrawn};
ghost use Rattle.cluster_defs.specs.declared.attempt.Attempt.{Attempt as AttemptType};

use cluster_defs::attempt::{Attempt, Ending};
use cluster_types::text::Text;
use std::alloc::{AllocError, Global};
use std::marker::Model;

/// The attempts of a task, which contracts see as a history tells them.
#[derive(Debug, Drop)]
pub struct Attempts {
    pub last: Attempt,
    /// How many ended by an error reply, their engine's end or an Open.
    pub spent: u64,
    /// The engines that declined the task, the last one first.
    pub excluded: Vec<u32>,
    /// The engine and the header id of each valid reply, the last one first.
    pub heard: Vec<(u32, Text)>,
}

impl Model for Attempts {
    ghost use Rattle.cluster_defs.specs.Tasks.{Task};

    ghost Value = { Task };

    ghost view = { λ a. record { last = a.last; spent = a.spent; excluded = a.excluded.items; heard = a.heard.items } };
}

/// One more of something that is counted. At the last number of 64 bits there is none; what is counted lies in memory, and
/// no memory holds as much, so that counts as want of memory.
pub fn one_more(count: u64) -> Result<u64, AllocError>
    ensures ok { IfOk result (λ n. n ≡ count + 1) }
    ensures last { OnErr result (count + 1 ≡ 2 ^ 64) }
{
    match count.checked_add(1) {
        Some(more) => Ok(more),
        None => Err(AllocError),
    }
}

/// Whether an attempt is current.
pub fn runs(attempt: Attempt) -> bool
    ensures { result ≡ runs attempt }
{
    match attempt {
        Attempt::Running { engine: _ } => true,
        _ => false,
    }
}

/// Whether an attempt is current on an engine.
pub fn runs_at(engine: u32, attempt: Attempt) -> bool
    ensures { result ≡ runs_at engine attempt }
{
    match attempt {
        Attempt::Running { engine: at } => at == engine,
        _ => false,
    }
}

/// Whether there was no attempt yet.
pub fn is_never(attempt: Attempt) -> bool
    ensures { result ≡ is_never attempt }
{
    match attempt {
        Attempt::Never => true,
        _ => false,
    }
}

/// The engine of an attempt.
pub fn engine_of(attempt: Attempt) -> Option<u32>
    ensures { result ≡ engine_of attempt }
{
    match attempt {
        Attempt::Never => None,
        Attempt::Running { engine } => Some(engine),
        Attempt::EndedOk { engine } => Some(engine),
        Attempt::EndedBadly { engine } => Some(engine),
        Attempt::Lost { engine } => Some(engine),
        Attempt::Declined { engine } => Some(engine),
        Attempt::Withdrawn { engine } => engine,
    }
}

impl Attempts {
    /// Those of a task that was not handed out yet. It takes no memory.
    pub fn new(alloc: Global) -> Attempts
        ensures { result ≡ new_task }
    {
        Attempts {
            last: Attempt::Never,
            spent: 0,
            excluded: Vec::new(alloc),
            heard: Vec::new(alloc),
        }
    }

    /// Begins an attempt on an engine.
    pub fn hand(&mut self, engine: u32)
        ensures { self.new ≡ handed engine self.old }
    {
        self.last = Attempt::Running { engine };
    }

    /// Ends a current attempt with its engine, or by an Open.
    pub fn lose(&mut self) -> Result<(), AllocError>
        ensures { OnOk result (self.new ≡ lost self.old.last self.old) }
    {
        if let Attempt::Running { engine } = self.last {
            self.spent = one_more(self.spent)?;
            self.last = Attempt::Lost { engine };
        }
        Ok(())
    }

    /// Ends a current attempt on an engine that ended.
    pub fn end(&mut self, engine: u32) -> Result<(), AllocError>
        ensures { OnOk result (self.new ≡ after_end (Some engine) self.old) }
    {
        if runs_at(engine, self.last) {
            self.lose()?;
        }
        Ok(())
    }

    /// Takes the task back: a current attempt ends, and isn't spent.
    pub fn withdraw(&mut self)
        ensures { self.new ≡ withdrawn self.old }
    {
        let engine = engine_of(self.last);
        self.last = Attempt::Withdrawn { engine };
    }

    /// Whether the current attempt's engine has given a valid reply with this header id before.
    pub fn has_heard(&self, header: &Text) -> bool
        ensures { result ≡ has_heard header.now self.now.heard self.now.last }
    {
        match self.last {
            Attempt::Running { engine } => is_heard(&self.heard, engine, header),
            _ => false,
        }
    }

    /// Takes a valid reply on the current attempt.
    pub fn take_reply(&mut self, header: &Text, how: Ending) -> Result<(), AllocError>
        ensures { OnOk result (self.new ≡ took header.now how self.old.last self.old) }
    {
        if let Attempt::Running { engine } = self.last {
            self.hear(header, engine)?;
            match how {
                Ending::Well => self.last = Attempt::EndedOk { engine },
                Ending::Badly => {
                    self.spent = one_more(self.spent)?;
                    self.last = Attempt::EndedBadly { engine };
                }
                Ending::Declines => {
                    self.excluded.insert(0, engine)?;
                    self.last = Attempt::Declined { engine };
                }
            }
        }
        Ok(())
    }

    fn hear(&mut self, header: &Text, engine: u32) -> Result<(), AllocError>
        ensures { OnOk result (self.new ≡ record self.old { heard = (engine, header.now) ∷ self.old.heard }) }
    {
        let header = header.clone()?;
        self.heard.insert(0, (engine, header))?;
        Ok(())
    }
}

fn is_heard(heard: &[(u32, Text)], engine: u32, header: &Text) -> bool
    ensures { result ≡ list_any (λ h. h.0 == engine && bytes_eq h.1 header.now) heard.now }
{
    heard.iter().any(|h| h.0 == engine && h.1.is(header))
}
