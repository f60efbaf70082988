//! What a command line asks for.

ghost use Rattle.std.specs.Prelude.{◌≡◌, ◌∷◌, [], Some, None, Err, IfOk, bytes_eq};
ghost use Rattle.command_words.specs.Reading.{reading, asked_by, database_of, only_word, database_in, replay_of, dump_of, check_of, compact_of, follow_of, work_of, work_behind, replay_behind, replay_options, IsInRange, key_name, scheme_name, hwm_name, misses_name, entries_name, bytes_name};
ghost use Rattle.std.specs.Option.{option_copied};
ghost use Rattle.command_words.specs.Simple.{values_of, word_id};

use crate::matches::{are_formed, borrowed, parted, words};
use crate::values::{needed_key, number_from, optional_number, optional_scheme};
use clap::ArgMatches;
use clap::error::ErrorKind;
use cluster_types::config::Scheme;
use cluster_types::limits::{MOST_ENTRIES, MOST_RECORD_OCTETS};
use cluster_types::message::WordList;
use cluster_types::octets::Octets;
use cluster_types::text::Text;
use std::alloc::{AllocError, Global};
use thiserror::Error;

/// How a tape is to be served.
#[derive(Debug, Drop)]
pub struct ReplayOptions {
    /// The key of the signatures, of 1 to 4,096 octets.
    pub key: Octets,
    /// How engines are chosen.
    pub scheme: Scheme,
    /// The load from which on an engine gets no further task; 0 is no bound.
    pub hwm: u32,
    /// The number of missed beats beyond which an engine is lost.
    pub misses: u32,
    /// The most entries of a history, from 1 on.
    pub entries: u32,
    /// The most octets of the records of its entries, from 1 on.
    pub bytes: u32,
}

/// What the program is to do. The database is the path of a file: any word that doesn't begin with `-`, an empty one too.
#[derive(Debug, Drop)]
pub enum Command {
    /// A tape from the input is to be served, after what the database keeps, and what comes of it is to be kept there.
    Replay {
        database: Text,
        options: ReplayOptions,
    },
    /// The history that the database keeps is to be written as text, a line for each entry.
    Dump {
        database: Text,
    },
    /// The input is to be compared with the text of the history that the database keeps.
    Check {
        database: Text,
    },
    /// A journal of the history that the database keeps, without what purges let go, is to be written at once.
    Compact {
        database: Text,
    },
    /// Generated work is to be done over a disk in memory, and summed up.
    Work {
        /// What the work is drawn from, below 2^31.
        seed: u32,
        /// How many tasks, at most 500,000.
        tasks: u32,
    },
    /// The database is a standby's: what it lacks of the journal in the input is to be appended to it.
    Follow {
        database: Text,
    },
}

impl Command {
    /// The path of the database's file, where the command is about one.
    pub fn database(&self) -> Option<&Text>
        ensures { option_copied result ≡ database_of self.now }
    {
        match self {
            Command::Replay { database, .. } => Some(database),
            Command::Dump { database } => Some(database),
            Command::Check { database } => Some(database),
            Command::Compact { database } => Some(database),
            Command::Work { .. } => None,
            Command::Follow { database } => Some(database),
        }
    }
}

/// Why there is no command.
#[derive(Clone, Copy, Debug, PartialEq, Eq, Error)]
pub enum CommandError {
    /// The words have no reading.
    #[error("the command line has no reading")]
    Usage,
    #[error("out of memory")]
    OutOfMemory,
}

impl From<AllocError> for CommandError {
    ghost use Rattle.std.specs.Prelude.{◌≡◌};
    ghost use Rattle.command_words.specs.declared.command.CommandError.{CommandError};

    ghost from_gives = { λ _ e. e ≡ CommandError.OutOfMemory };

    fn from(_: AllocError) -> Self {
        CommandError::OutOfMemory
    }
}

impl From<clap::Error> for CommandError {
    ghost use Rattle.std.specs.Prelude.{◌≡◌, ◌≢◌};
    ghost use Rattle.clap.specs.Words.{kind_of};
    ghost use Rattle.clap.specs.declared.error.kind.ErrorKind.{ErrorKind};
    ghost use Rattle.command_words.specs.declared.command.CommandError.{CommandError};

    ghost from_gives = { λ error e. (kind_of error ≡ ErrorKind.OutOfMemory → e ≡ CommandError.OutOfMemory) × (kind_of error ≢ ErrorKind.OutOfMemory → e ≡ CommandError.Usage) };

    fn from(error: clap::Error) -> Self {
        if error.kind() == ErrorKind::OutOfMemory {
            CommandError::OutOfMemory
        } else {
            CommandError::Usage
        }
    }
}

/// The name of the option of the key.
pub(crate) const KEY: &str = "key";

/// The name of the option of the scheme.
const SCHEME: &str = "scheme";

/// The name of the option of the greatest load.
const HWM: &str = "hwm";

/// The name of the option of the missed beats.
const MISSES: &str = "misses";

/// The name of the option of the most entries.
const ENTRIES: &str = "entries";

/// The name of the option of the most octets.
const BYTES: &str = "bytes";

/// The options of `replay`.
pub(crate) const REPLAY: [&str; 6] = [KEY, SCHEME, HWM, MISSES, ENTRIES, BYTES];

/// The options of a command that has none.
const NONE: [&str; 0] = [];

/// The greatest bound of a load.
const GREATEST_HWM: u32 = 1_000_000;

/// The most missed beats that can be asked for.
const GREATEST_MISSES: u32 = 1000;

/// The greatest seed of generated work.
const GREATEST_SEED: u32 = 2_147_483_647;

/// The most tasks of generated work.
const GREATEST_TASKS: u32 = 500_000;

/// The options of `replay` with their values.
#[tactic(auto, unfolding(crate::specs::Reading::key_name, crate::specs::Reading::scheme_name, crate::specs::Reading::hwm_name, crate::specs::Reading::misses_name, crate::specs::Reading::entries_name, crate::specs::Reading::bytes_name))]
pub(crate) fn replay_options(
    alloc: Global,
    matches: &ArgMatches<'_>,
) -> Result<ReplayOptions, CommandError>
    ensures ok { IfOk result (λ o. replay_options (values_of matches.now) ≡ Some o) }
    ensures usage { result ≡ Err CommandError.Usage → replay_options (values_of matches.now) ≡ None }
{
    let Some(key) = needed_key(matches.get_strs(KEY)) else {
        return Err(CommandError::Usage);
    };
    let Some(scheme) = optional_scheme(matches.get_strs(SCHEME)) else {
        return Err(CommandError::Usage);
    };
    let Some(hwm) = optional_number(1, 0, GREATEST_HWM, matches.get_strs(HWM)) else {
        return Err(CommandError::Usage);
    };
    let Some(misses) = optional_number(10, 1, GREATEST_MISSES, matches.get_strs(MISSES)) else {
        return Err(CommandError::Usage);
    };
    let entries = matches.get_strs(ENTRIES);
    let Some(entries) = optional_number(MOST_ENTRIES, 1, MOST_ENTRIES, entries) else {
        return Err(CommandError::Usage);
    };
    let bytes = matches.get_strs(BYTES);
    let Some(bytes) = optional_number(MOST_RECORD_OCTETS, 1, MOST_RECORD_OCTETS, bytes) else {
        return Err(CommandError::Usage);
    };
    Ok(ReplayOptions {
        key: Octets::new(alloc, key.as_bytes())?,
        scheme,
        hwm,
        misses,
        entries,
        bytes,
    })
}

/// `replay` over a database.
fn replay_over(
    alloc: Global,
    database: &str,
    matches: &ArgMatches<'_>,
) -> Result<Command, CommandError>
    ensures ok { IfOk result (λ c. replay_behind (database.now ∷ []) (values_of matches.now) ≡ Some c) }
    ensures usage { result ≡ Err CommandError.Usage → replay_behind (database.now ∷ []) (values_of matches.now) ≡ None }
    ensures range { IfOk result IsInRange }
{
    let options = replay_options(alloc, matches)?;
    let database = Text::new(alloc, database)?;
    Ok(Command::Replay { database, options })
}

/// `replay` with what stands behind it.
fn replay_behind(alloc: Global, matches: &ArgMatches<'_>) -> Result<Command, CommandError>
    ensures ok { IfOk result (λ c. replay_behind (values_of matches.now word_id) (values_of matches.now) ≡ Some c) }
    ensures usage { result ≡ Err CommandError.Usage → replay_behind (values_of matches.now word_id) (values_of matches.now) ≡ None }
    ensures range { IfOk result IsInRange }
{
    let words = words(alloc, matches)?;
    match words.as_slice() {
        [database] => replay_over(alloc, *database, matches),
        _ => Err(CommandError::Usage),
    }
}

/// What the words behind `replay` ask for.
fn replay_of(alloc: Global, behind: &[Text]) -> Result<Command, CommandError>
    ensures ok { IfOk result (λ c. replay_of behind.now ≡ Some c) }
    ensures usage { result ≡ Err CommandError.Usage → replay_of behind.now ≡ None }
    ensures range { IfOk result IsInRange }
{
    if !are_formed(behind) {
        return Err(CommandError::Usage);
    }
    let texts = borrowed(alloc, behind)?;
    let matches = parted(alloc, "replay", &REPLAY, texts.as_slice())?;
    replay_behind(alloc, &matches)
}

/// The one positional word.
fn only_word(alloc: Global, matches: &ArgMatches<'_>) -> Result<Text, CommandError>
    ensures ok { IfOk result (λ d. only_word (values_of matches.now word_id) ≡ Some d) }
    ensures usage { result ≡ Err CommandError.Usage → only_word (values_of matches.now word_id) ≡ None }
{
    let words = words(alloc, matches)?;
    match words.as_slice() {
        [database] => Ok(Text::new(alloc, *database)?),
        _ => Err(CommandError::Usage),
    }
}

/// The database behind a command that has no options.
fn database_in(alloc: Global, name: &str, behind: &[Text]) -> Result<Text, CommandError>
    ensures ok { IfOk result (λ d. database_in behind.now ≡ Some d) }
    ensures usage { result ≡ Err CommandError.Usage → database_in behind.now ≡ None }
{
    if !are_formed(behind) {
        return Err(CommandError::Usage);
    }
    let texts = borrowed(alloc, behind)?;
    let matches = parted(alloc, name, &NONE, texts.as_slice())?;
    only_word(alloc, &matches)
}

/// What the words behind `dump` ask for.
fn dump_of(alloc: Global, behind: &[Text]) -> Result<Command, CommandError>
    ensures ok { IfOk result (λ c. dump_of behind.now ≡ Some c) }
    ensures usage { result ≡ Err CommandError.Usage → dump_of behind.now ≡ None }
    ensures range { IfOk result IsInRange }
{
    let database = database_in(alloc, "dump", behind)?;
    Ok(Command::Dump { database })
}

/// What the words behind `check` ask for.
fn check_of(alloc: Global, behind: &[Text]) -> Result<Command, CommandError>
    ensures ok { IfOk result (λ c. check_of behind.now ≡ Some c) }
    ensures usage { result ≡ Err CommandError.Usage → check_of behind.now ≡ None }
    ensures range { IfOk result IsInRange }
{
    let database = database_in(alloc, "check", behind)?;
    Ok(Command::Check { database })
}

/// What the words behind `compact` ask for.
fn compact_of(alloc: Global, behind: &[Text]) -> Result<Command, CommandError>
    ensures ok { IfOk result (λ c. compact_of behind.now ≡ Some c) }
    ensures usage { result ≡ Err CommandError.Usage → compact_of behind.now ≡ None }
    ensures range { IfOk result IsInRange }
{
    let database = database_in(alloc, "compact", behind)?;
    Ok(Command::Compact { database })
}

/// What the words behind `follow` ask for.
fn follow_of(alloc: Global, behind: &[Text]) -> Result<Command, CommandError>
    ensures ok { IfOk result (λ c. follow_of behind.now ≡ Some c) }
    ensures usage { result ≡ Err CommandError.Usage → follow_of behind.now ≡ None }
    ensures range { IfOk result IsInRange }
{
    let database = database_in(alloc, "follow", behind)?;
    Ok(Command::Follow { database })
}

/// `work` with a seed and a number of tasks.
fn work_with(seed: &str, tasks: &str) -> Result<Command, CommandError>
    ensures ok { IfOk result (λ c. work_behind (seed.now ∷ tasks.now ∷ []) ≡ Some c) }
    ensures usage { result ≡ Err CommandError.Usage → work_behind (seed.now ∷ tasks.now ∷ []) ≡ None }
    ensures range { IfOk result IsInRange }
{
    let Some(seed) = number_from(0, GREATEST_SEED, seed) else {
        return Err(CommandError::Usage);
    };
    let Some(tasks) = number_from(0, GREATEST_TASKS, tasks) else {
        return Err(CommandError::Usage);
    };
    Ok(Command::Work { seed, tasks })
}

/// `work` with what stands behind it.
fn work_behind(alloc: Global, matches: &ArgMatches<'_>) -> Result<Command, CommandError>
    ensures ok { IfOk result (λ c. work_behind (values_of matches.now word_id) ≡ Some c) }
    ensures usage { result ≡ Err CommandError.Usage → work_behind (values_of matches.now word_id) ≡ None }
    ensures range { IfOk result IsInRange }
{
    let words = words(alloc, matches)?;
    match words.as_slice() {
        [] | [_] => Err(CommandError::Usage),
        [seed, tasks] => work_with(*seed, *tasks),
        [_, _, _, ..] => Err(CommandError::Usage),
    }
}

/// What the words behind `work` ask for.
fn work_of(alloc: Global, behind: &[Text]) -> Result<Command, CommandError>
    ensures ok { IfOk result (λ c. work_of behind.now ≡ Some c) }
    ensures usage { result ≡ Err CommandError.Usage → work_of behind.now ≡ None }
    ensures range { IfOk result IsInRange }
{
    if !are_formed(behind) {
        return Err(CommandError::Usage);
    }
    let texts = borrowed(alloc, behind)?;
    let matches = parted(alloc, "work", &NONE, texts.as_slice())?;
    work_behind(alloc, &matches)
}

/// Whether a word is this command.
pub(crate) fn is_command(word: &Text, name: &[u8]) -> bool
    ensures { result ≡ bytes_eq word.now name.now }
{
    word.as_slice() == name
}

/// What a command asks for with the words behind it.
#[tactic(auto, unfolding(crate::specs::Reading::replay_word, crate::specs::Reading::dump_word, crate::specs::Reading::check_word, crate::specs::Reading::compact_word, crate::specs::Reading::work_word, crate::specs::Reading::follow_word))]
fn asked_by(alloc: Global, command: &Text, behind: &[Text]) -> Result<Command, CommandError>
    ensures ok { IfOk result (λ c. asked_by command.now behind.now ≡ Some c) }
    ensures usage { result ≡ Err CommandError.Usage → asked_by command.now behind.now ≡ None }
    ensures range { IfOk result IsInRange }
{
    if is_command(command, b"replay") {
        return replay_of(alloc, behind);
    }
    if is_command(command, b"dump") {
        return dump_of(alloc, behind);
    }
    if is_command(command, b"check") {
        return check_of(alloc, behind);
    }
    if is_command(command, b"compact") {
        return compact_of(alloc, behind);
    }
    if is_command(command, b"work") {
        return work_of(alloc, behind);
    }
    if is_command(command, b"follow") {
        return follow_of(alloc, behind);
    }
    Err(CommandError::Usage)
}

/// What the words ask for.
pub fn command_of(alloc: Global, words: &WordList) -> Result<Command, CommandError>
    ensures ok { IfOk result (λ c. reading words.now ≡ Some c) }
    ensures usage { result ≡ Err CommandError.Usage → reading words.now ≡ None }
    ensures range { IfOk result IsInRange }
{
    match words.as_slice() {
        [command, behind @ ..] => asked_by(alloc, command, behind),
        [] => Err(CommandError::Usage),
    }
}
