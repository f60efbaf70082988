//! What a command line asks for that is about a cluster which stands at its ports.

ghost use Rattle.std.specs.Prelude.{◌≡◌, ◌≤◌, ◌∷◌, [], Some, None, Err, IfOk, IfSome, map, option_map};
ghost use Rattle.std.specs.Option.{option_copied};
ghost use Rattle.command_words.specs.Reading.{only_word, replay_options, key_name};
ghost use Rattle.command_words.specs.Simple.{values_of, word_id};
ghost use Rattle.command_words.specs.Standing.{action_alone, action_about, action_of, client_behind, client_of, engine_behind, engine_of, filled_from, greatest_port, id_from, port_from, serve_behind, serve_of, standing_by, standing_reading, uuid_from};
ghost use Rattle.command_words.specs.Values.{needed, key_from};

use crate::command::{CommandError, KEY, REPLAY, ReplayOptions, is_command, replay_options};
use crate::matches::{are_formed, borrowed, parted, words};
use crate::values::{needed_key, number_from};
use clap::ArgMatches;
use cluster_types::message::WordList;
use cluster_types::octets::Octets;
use cluster_types::text::Text;
use std::alloc::Global;

/// What a client asks of a controller.
#[derive(Debug, Drop)]
pub enum Action {
    /// A program is to be run on any engine, with no dependencies, no timeout and no retries.
    Run { code: Text },
    /// How a task ended.
    Result { id: Text },
    /// The outcome of a task is to be let go.
    Purge { id: Text },
    /// A task is to be run again.
    Resubmit { id: Text },
    /// A task is to be taken back, if it hasn't ended.
    Abort { id: Text },
    /// What the engines have to do.
    Queue,
    /// The ids of all tasks.
    History,
    /// The controller is to end.
    Shutdown,
}

/// What the program is to do at the ports of a cluster: the first port is the hub's, and the three behind it are those of
/// load-balanced tasks, of direct requests, and of engines.
#[derive(Debug, Drop)]
pub enum StandingCommand {
    /// A controller is to serve, after what the database keeps, and what comes of it is to be kept there.
    Serve {
        host: Text,
        port: u16,
        database: Text,
        options: ReplayOptions,
    },
    /// An engine is to work for a controller.
    Engine {
        host: Text,
        port: u16,
        uuid: Text,
        key: Octets,
    },
    /// A controller is to be asked for something, and its answer to be printed.
    Client {
        host: Text,
        port: u16,
        action: Action,
        key: Octets,
    },
}

/// The options of a command that needs a key alone.
const KEY_ALONE: [&str; 1] = [KEY];

/// The greatest first port.
const GREATEST_PORT: u32 = 65_532;

/// The most octets of a uuid.
const LONGEST_UUID: usize = 200;

/// The most octets of an id.
const LONGEST_ID: usize = 255;

/// The first port that a value is.
fn port_from(value: &str) -> Option<u16>
    ensures { result ≡ port_from value.now }
{
    match number_from(1, GREATEST_PORT, value) {
        Some(port) => Some(port as u16),
        None => None,
    }
}

/// A word, if it has at least one octet and so many at most.
fn filled_from(most: usize, word: &str) -> Option<&str>
    ensures { option_map (λ w. w.now) result ≡ filled_from most word.now }
{
    if word.len() > 0 && word.len() <= most {
        Some(word)
    } else {
        None
    }
}

/// An id as a text.
fn id_from(alloc: Global, word: &str) -> Result<Text, CommandError>
    ensures ok { IfOk result (λ t. id_from word.now ≡ Some t) }
    ensures usage { result ≡ Err CommandError.Usage → id_from word.now ≡ None }
{
    match filled_from(LONGEST_ID, word) {
        Some(id) => Ok(Text::new(alloc, id)?),
        None => Err(CommandError::Usage),
    }
}

/// A uuid as a text.
fn uuid_from(alloc: Global, word: &str) -> Result<Text, CommandError>
    ensures ok { IfOk result (λ t. uuid_from word.now ≡ Some t) }
    ensures usage { result ≡ Err CommandError.Usage → uuid_from word.now ≡ None }
{
    match filled_from(LONGEST_UUID, word) {
        Some(uuid) => Ok(Text::new(alloc, uuid)?),
        None => Err(CommandError::Usage),
    }
}

/// The action that is about nothing, by its word.
#[tactic(auto, unfolding(crate::specs::Standing::queue_word, crate::specs::Standing::history_word, crate::specs::Standing::shutdown_word))]
fn action_alone(word: &[u8]) -> Option<Action>
    ensures { result ≡ action_alone word.now }
{
    if word == b"queue".as_slice() {
        Some(Action::Queue)
    } else if word == b"history".as_slice() {
        Some(Action::History)
    } else if word == b"shutdown".as_slice() {
        Some(Action::Shutdown)
    } else {
        None
    }
}

/// The action that is about a program or a task, by its word.
#[tactic(auto, unfolding(crate::specs::Standing::run_word, crate::specs::Standing::result_word, crate::specs::Standing::purge_word, crate::specs::Standing::resubmit_word, crate::specs::Standing::abort_word))]
fn action_about(alloc: Global, word: &[u8], argument: &str) -> Result<Action, CommandError>
    ensures ok { IfOk result (λ a. action_about word.now argument.now ≡ Some a) }
    ensures usage { result ≡ Err CommandError.Usage → action_about word.now argument.now ≡ None }
{
    if word == b"run".as_slice() {
        let code = Text::new(alloc, argument)?;
        return Ok(Action::Run { code });
    }
    if word == b"result".as_slice() {
        let id = id_from(alloc, argument)?;
        return Ok(Action::Result { id });
    }
    if word == b"purge".as_slice() {
        let id = id_from(alloc, argument)?;
        return Ok(Action::Purge { id });
    }
    if word == b"resubmit".as_slice() {
        let id = id_from(alloc, argument)?;
        return Ok(Action::Resubmit { id });
    }
    if word == b"abort".as_slice() {
        let id = id_from(alloc, argument)?;
        return Ok(Action::Abort { id });
    }
    Err(CommandError::Usage)
}

/// The action that words ask for.
fn action_of(alloc: Global, words: &[&str]) -> Result<Action, CommandError>
    ensures ok { IfOk result (λ a. action_of (map (λ w. w.now) words.now) ≡ Some a) }
    ensures usage { result ≡ Err CommandError.Usage → action_of (map (λ w. w.now) words.now) ≡ None }
{
    let [word, behind @ ..] = words else {
        return Err(CommandError::Usage);
    };
    match behind {
        [] => match action_alone(word.as_bytes()) {
            Some(action) => Ok(action),
            None => Err(CommandError::Usage),
        },
        [argument] => action_about(alloc, word.as_bytes(), *argument),
        [_, _, ..] => Err(CommandError::Usage),
    }
}

/// The key that is needed.
#[tactic(auto, unfolding(crate::specs::Reading::key_name))]
fn key_in(alloc: Global, matches: &ArgMatches<'_>) -> Result<Octets, CommandError>
    ensures ok { IfOk result (λ k. needed key_from (values_of matches.now key_name) ≡ Some k) }
    ensures usage { result ≡ Err CommandError.Usage → needed key_from (values_of matches.now key_name) ≡ None }
{
    match needed_key(matches.get_strs(KEY)) {
        Some(key) => Ok(Octets::new(alloc, key.as_bytes())?),
        None => Err(CommandError::Usage),
    }
}

/// The one word of these.
fn only_word<'a>(words: &[&'a str]) -> Option<&'a str>
    ensures { option_map (λ w. w.now) result ≡ only_word (map (λ w. w.now) words.now) }
{
    match words {
        [word] => Some(*word),
        _ => None,
    }
}

/// `serve` with what stands behind it.
fn serve_behind(alloc: Global, matches: &ArgMatches<'_>) -> Result<StandingCommand, CommandError>
    ensures ok { IfOk result (λ c. serve_behind (values_of matches.now word_id) (values_of matches.now) ≡ Some c) }
    ensures usage { result ≡ Err CommandError.Usage → serve_behind (values_of matches.now word_id) (values_of matches.now) ≡ None }
{
    let words = words(alloc, matches)?;
    let [host, port, behind @ ..] = words.as_slice() else {
        return Err(CommandError::Usage);
    };
    let Some(port) = port_from(*port) else {
        return Err(CommandError::Usage);
    };
    let Some(database) = only_word(behind) else {
        return Err(CommandError::Usage);
    };
    let options = replay_options(alloc, matches)?;
    Ok(StandingCommand::Serve {
        host: Text::new(alloc, *host)?,
        port,
        database: Text::new(alloc, database)?,
        options,
    })
}

/// `engine` with what stands behind it.
fn engine_behind(alloc: Global, matches: &ArgMatches<'_>) -> Result<StandingCommand, CommandError>
    ensures ok { IfOk result (λ c. engine_behind (values_of matches.now word_id) (values_of matches.now) ≡ Some c) }
    ensures usage { result ≡ Err CommandError.Usage → engine_behind (values_of matches.now word_id) (values_of matches.now) ≡ None }
{
    let words = words(alloc, matches)?;
    let [host, port, behind @ ..] = words.as_slice() else {
        return Err(CommandError::Usage);
    };
    let Some(port) = port_from(*port) else {
        return Err(CommandError::Usage);
    };
    let Some(uuid) = only_word(behind) else {
        return Err(CommandError::Usage);
    };
    Ok(StandingCommand::Engine {
        uuid: uuid_from(alloc, uuid)?,
        key: key_in(alloc, matches)?,
        host: Text::new(alloc, *host)?,
        port,
    })
}

/// `client` with what stands behind it.
fn client_behind(alloc: Global, matches: &ArgMatches<'_>) -> Result<StandingCommand, CommandError>
    ensures ok { IfOk result (λ c. client_behind (values_of matches.now word_id) (values_of matches.now) ≡ Some c) }
    ensures usage { result ≡ Err CommandError.Usage → client_behind (values_of matches.now word_id) (values_of matches.now) ≡ None }
{
    let words = words(alloc, matches)?;
    let [host, port, behind @ ..] = words.as_slice() else {
        return Err(CommandError::Usage);
    };
    let Some(port) = port_from(*port) else {
        return Err(CommandError::Usage);
    };
    Ok(StandingCommand::Client {
        action: action_of(alloc, behind)?,
        key: key_in(alloc, matches)?,
        host: Text::new(alloc, *host)?,
        port,
    })
}

/// What the words behind `serve` ask for.
fn serve_of(alloc: Global, behind: &[Text]) -> Result<StandingCommand, CommandError>
    ensures ok { IfOk result (λ c. serve_of behind.now ≡ Some c) }
    ensures usage { result ≡ Err CommandError.Usage → serve_of behind.now ≡ None }
{
    if !are_formed(behind) {
        return Err(CommandError::Usage);
    }
    let texts = borrowed(alloc, behind)?;
    let matches = parted(alloc, "serve", &REPLAY, texts.as_slice())?;
    serve_behind(alloc, &matches)
}

/// What the words behind `engine` ask for.
fn engine_of(alloc: Global, behind: &[Text]) -> Result<StandingCommand, CommandError>
    ensures ok { IfOk result (λ c. engine_of behind.now ≡ Some c) }
    ensures usage { result ≡ Err CommandError.Usage → engine_of behind.now ≡ None }
{
    if !are_formed(behind) {
        return Err(CommandError::Usage);
    }
    let texts = borrowed(alloc, behind)?;
    let matches = parted(alloc, "engine", &KEY_ALONE, texts.as_slice())?;
    engine_behind(alloc, &matches)
}

/// What the words behind `client` ask for.
fn client_of(alloc: Global, behind: &[Text]) -> Result<StandingCommand, CommandError>
    ensures ok { IfOk result (λ c. client_of behind.now ≡ Some c) }
    ensures usage { result ≡ Err CommandError.Usage → client_of behind.now ≡ None }
{
    if !are_formed(behind) {
        return Err(CommandError::Usage);
    }
    let texts = borrowed(alloc, behind)?;
    let matches = parted(alloc, "client", &KEY_ALONE, texts.as_slice())?;
    client_behind(alloc, &matches)
}

/// What a command asks for with the words behind it.
#[tactic(auto, unfolding(crate::specs::Standing::serve_word, crate::specs::Standing::engine_word, crate::specs::Standing::client_word))]
fn standing_by(
    alloc: Global,
    command: &Text,
    behind: &[Text],
) -> Result<StandingCommand, CommandError>
    ensures ok { IfOk result (λ c. standing_by command.now behind.now ≡ Some c) }
    ensures usage { result ≡ Err CommandError.Usage → standing_by command.now behind.now ≡ None }
{
    if is_command(command, b"serve") {
        return serve_of(alloc, behind);
    }
    if is_command(command, b"engine") {
        return engine_of(alloc, behind);
    }
    if is_command(command, b"client") {
        return client_of(alloc, behind);
    }
    Err(CommandError::Usage)
}

/// What the words ask for, if it is about a cluster at its ports.
pub fn standing_command_of(alloc: Global, words: &WordList) -> Result<StandingCommand, CommandError>
    ensures ok { IfOk result (λ c. standing_reading words.now ≡ Some c) }
    ensures usage { result ≡ Err CommandError.Usage → standing_reading words.now ≡ None }
{
    match words.as_slice() {
        [command, behind @ ..] => standing_by(alloc, command, behind),
        [] => Err(CommandError::Usage),
    }
}
