//! Codes on engines of their own, over the system.

use cluster_types::message::WordList;
use command_words::ending::{Ending, StandingEnding};
use disk_model::memory::MemDisk;
use edges::sink::Sink;
use edges::standard::StdSink;
use load_schemes::chooser::Chooser;
use run_commands::running::{RunSite, running};
use std::alloc::AllocError;
use std::sync::{Arc, Wait};
use std::thread::Threads;
use thread_edges::event_gate::EventGate;
use thread_edges::spawner::Spawner;

/// Runs codes as the words ask for, over a disk in memory, with a thread for each engine.
fn run_over<H: Threads + Wait + Drop + Copy + Send + Sync + 'static, E: Sink>(
    (rt, handle): (HostRuntime, H),
    words: &WordList,
    chooser: Chooser,
    errors: &mut E,
) -> Result<u8, AllocError> {
    let alloc = rt.alloc();
    let Ok(gate) = Arc::new(alloc, EventGate::new(alloc, rt)?) else {
        return Err(AllocError);
    };
    let site = RunSite {
        disk: MemDisk::new(alloc, b"")?,
        chooser,
        gate,
        rt: handle,
        alloc,
    };
    let (status, _shown) = running(
        site,
        words,
        &mut Spawner::beside(alloc, handle)?,
        &mut StdSink::new(rt.stdout()),
        errors,
    );
    Ok(status)
}

/// Runs codes on engines of their own, as the words ask for.
pub fn run_engines<H: Threads + Wait + Drop + Copy + Send + Sync + 'static, E: Sink>(
    (rt, handle): (HostRuntime, H),
    words: &WordList,
    chooser: Chooser,
    errors: &mut E,
) -> Result<u8, StandingEnding> {
    match run_over((rt, handle), words, chooser, errors) {
        Ok(status) => Ok(status),
        Err(AllocError) => Err(StandingEnding::Plain(Ending::OutOfMemory)),
    }
}
