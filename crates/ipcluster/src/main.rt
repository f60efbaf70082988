//! A cluster controller: it serves the engines and clients of a cluster over a database, or tapes of recorded connections.
#![tactic(auto)]

mod cluster;
mod codes;
mod database;
mod key_file;

ghost use Rattle.std.specs.Prelude.{◌≡◌, ◌<◌, length};
ghost use Rattle.cluster_defs.specs.Scheduling.{pick};

use cluster::run_cluster;
use cluster_types::config::Scheme;
use cluster_types::message::WordList;
use cluster_types::text::Text;
use codes::run_engines;
use command_words::command::{Command, CommandError, command_of};
use command_words::ending::{Ending, StandingEnding};
use command_words::standing::standing_command_of;
use database::open_database;
use disk_model::disk::Disk;
use disk_model::file::FileDisk;
use disk_model::memory::MemDisk;
use edges::sink::Sink;
use edges::standard::{StdSink, StdSource};
use key_file::{KeyFileError, with_keys};
use load_schemes::chooser::Chooser;
use load_schemes::place::place_of;
use quick_commands::quick::quick;
use run_words::command::run_command_of;
use standing_commands::errors::tell;
use std::alloc::AllocError;
use std::process::ExitCode;
use std::sync::Wait;
use std::thread::Threads;
use std::{env, io};

/// Why there are no words.
#[derive(Debug, Drop)]
enum WordsError {
    /// They can't be had, or aren't UTF-8.
    Unreadable(io::Error),
    OutOfMemory,
}

impl From<io::Error> for WordsError {
    fn from(error: io::Error) -> Self {
        WordsError::Unreadable(error)
    }
}

impl From<AllocError> for WordsError {
    fn from(_: AllocError) -> Self {
        WordsError::OutOfMemory
    }
}

/// The words behind the program's name.
fn words_of(rt: &HostRuntime) -> Result<WordList, WordsError> {
    let mut words = WordList::new(rt.alloc());
    let mut args = env::args(rt)?;
    let _program = args.next();
    for arg in args {
        words.push(Text::from_string(arg)?)?;
    }
    Ok(words)
}

/// How the program ends where there are no words.
fn ending_of(error: &WordsError) -> Ending {
    match error {
        WordsError::Unreadable(error) if error.kind() == io::ErrorKind::InvalidData => {
            Ending::Usage
        }
        _ => Ending::OutOfMemory,
    }
}

/// How the program ends where a file that they name gives no key.
fn ending_without_key(error: &KeyFileError) -> Ending {
    match error {
        KeyFileError::OutOfMemory(_) => Ending::OutOfMemory,
        _ => Ending::Usage,
    }
}

/// How the program ends where the words have no reading, or aren't read.
fn ending_unread(error: CommandError) -> Ending {
    match error {
        CommandError::Usage => Ending::Usage,
        CommandError::OutOfMemory => Ending::OutOfMemory,
    }
}

/// Does what the words ask for over a disk.
fn run_over<E: Sink, D: Disk + Drop>(
    rt: &HostRuntime,
    words: &WordList,
    disk: D,
    chooser: Chooser,
    errors: &mut E,
) -> u8 {
    let mut input = StdSource::new(rt.stdin());
    let mut output = StdSink::new(rt.stdout());
    let (status, _disk) = quick(
        rt.alloc(),
        words,
        &mut input,
        &mut output,
        errors,
        disk,
        chooser,
    );
    status
}

/// Does what a command asks for that ends by itself, over the database that it names, or over a disk in memory where it
/// names none.
fn run_quick<E: Sink>(
    rt: &HostRuntime,
    words: &WordList,
    command: &Command,
    chooser: Chooser,
    errors: &mut E,
) -> Result<u8, Ending> {
    match open_database(rt, command) {
        Ok(Some(file)) => Ok(run_over(rt, words, FileDisk::new(file), chooser, errors)),
        Ok(None) => match MemDisk::new(rt.alloc(), b"") {
            Ok(disk) => Ok(run_over(rt, words, disk, chooser, errors)),
            Err(_) => Err(Ending::OutOfMemory),
        },
        Err(_) => Err(Ending::DiskFault),
    }
}

/// Does what the words ask for, where that takes threads: codes on engines of their own, or a cluster at its ports.
fn run_beside<H: Threads + Wait + Drop + Copy + Send + Sync + 'static, E: Sink>(
    (rt, handle): (HostRuntime, H),
    words: &WordList,
    chooser: Chooser,
    errors: &mut E,
) -> Result<u8, StandingEnding> {
    match run_command_of(rt.alloc(), words) {
        Ok(_) => return run_engines((rt, handle), words, chooser, errors),
        Err(CommandError::Usage) => {}
        Err(error) => return Err(StandingEnding::Plain(ending_unread(error))),
    }
    match standing_command_of(rt.alloc(), words) {
        Ok(command) => run_cluster((rt, handle), words, &command, chooser, errors),
        Err(error) => Err(StandingEnding::Plain(ending_unread(error))),
    }
}

/// Does what the words ask for.
fn run<H: Threads + Wait + Drop + Copy + Send + Sync + 'static, E: Sink>(
    rt: HostRuntime,
    handle: H,
    errors: &mut E,
) -> Result<u8, StandingEnding> {
    let words = match words_of(&rt) {
        Ok(words) => words,
        Err(error) => return Err(StandingEnding::Plain(ending_of(&error))),
    };
    let words = match with_keys(&rt, &words) {
        Ok(words) => words,
        Err(error) => return Err(StandingEnding::Plain(ending_without_key(&error))),
    };
    let Ok(choose) = Box::new(
        rt.alloc(),
        |scheme: Scheme, loads: &[u32], word: u64| -> usize
            requires { 0 < length loads.now }
            ensures { result ≡ pick scheme loads.now word }
        { place_of(scheme, loads, word) },
    ) else {
        return Err(StandingEnding::Plain(Ending::OutOfMemory));
    };
    let chooser = Chooser::new(choose);
    let status = match command_of(rt.alloc(), &words) {
        Ok(command) => run_quick(&rt, &words, &command, chooser, errors),
        Err(CommandError::Usage) => {
            return run_beside((rt, handle), &words, chooser, errors);
        }
        Err(error) => Err(ending_unread(error)),
    };
    match status {
        Ok(status) => Ok(status),
        Err(ending) => Err(StandingEnding::Plain(ending)),
    }
}

fn main(rt: HostRuntime) -> ExitCode {
    let mut errors = StdSink::new(rt.stderr());
    match run(rt, rt, &mut errors) {
        Ok(status) => ExitCode::from(status),
        Err(ending) => ExitCode::from(tell(&mut errors, ending)),
    }
}
