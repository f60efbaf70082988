//! The top call of the commands that are about a cluster at its ports.

ghost use Rattle.std.specs.Prelude.{◌≡◌, ◌⊎◌, None, IfSome};
ghost use Rattle.command_words.specs.declared.ending.StandingEnding.{StandingEnding as EndingType};
ghost use Rattle.command_words.specs.Lines.{standing_line, standing_status};
ghost use Rattle.command_words.specs.Standing.{standing_reading};
ghost use Rattle.link_commands.specs.Links.{IsUndialled, dials, prints};
ghost use Rattle.quick_commands.specs.Written.{Said};
ghost use Rattle.standing_commands.specs.Commands.{By, EndsAs, IsInRange, Unread, serves};

use crate::errors::tell;
use crate::links::{ask, work};
use crate::serving::{ServeShown, serve_cluster};
use crate::shown::Shown;
use crate::site::Site;
use cluster_types::message::WordList;
use command_words::command::CommandError;
use command_words::ending::{Ending, StandingEnding};
use command_words::standing::{StandingCommand, standing_command_of};
use controller_threads::closing::Closing;
use edges::sink::Sink;
use session_threads::context::SessionTypes;
use std::thread::Threads;
use thread_edges::links::{Dialer, Listener};
use thread_edges::spawner::Spawner;

/// Does what a command asks for, and says how it ended, with what shows it.
fn obey<
    L: Listener + Drop + Send + 'static,
    N: Dialer,
    T: SessionTypes + Send + Sync + 'static,
    K: Sink,
    H: Threads + Drop,
>(
    site: Site<L, T>,
    command: &StandingCommand,
    dialer: &mut N,
    spawner: &mut Spawner<H>,
    output: &mut K,
) -> (StandingEnding, ServeShown<L, N::In, N::Out, T>)
where
    L::Out: Closing,
    T::Disk: Send + Sync + 'static,
    T::Clock: Send + Sync + 'static,
    T::Words: Send + Sync + 'static,
    T::Gate: Send + Sync + 'static,
    T::Runtime: Copy + Send + Sync + 'static,
    requires { IsInRange command.now }
    ensures { By (serves T.Disk.Disk L.Listener site.disk spawner.old spawner.new) (dials N.Dialer N.In.Source N.Out.Sink dialer.old dialer.new) (T.Words.coming site.host.words) (prints K.Sink output.old output.new) command.now result }
{
    match command {
        StandingCommand::Serve { options, .. } => serve_cluster(site, options, spawner),
        StandingCommand::Engine { uuid, key, .. } => work(site.host, uuid, key, dialer),
        StandingCommand::Client { action, key, .. } => ask(site.host, action, key, dialer, output),
    }
}

/// Does what the words ask for, and says how it ended, with what shows it.
fn run<
    L: Listener + Drop + Send + 'static,
    N: Dialer,
    T: SessionTypes + Send + Sync + 'static,
    K: Sink,
    H: Threads + Drop,
>(
    site: Site<L, T>,
    words: &WordList,
    dialer: &mut N,
    spawner: &mut Spawner<H>,
    output: &mut K,
) -> (StandingEnding, ServeShown<L, N::In, N::Out, T>)
where
    L::Out: Closing,
    T::Disk: Send + Sync + 'static,
    T::Clock: Send + Sync + 'static,
    T::Words: Send + Sync + 'static,
    T::Gate: Send + Sync + 'static,
    T::Runtime: Copy + Send + Sync + 'static,
    ensures unread { standing_reading words.now ≡ None → Unread site.disk result × (K.written output.new ≡ K.written output.old) × IsUndialled (dials N.Dialer N.In.Source N.Out.Sink dialer.old dialer.new) }
    ensures ended { IfSome (standing_reading words.now) (λ c. By (serves T.Disk.Disk L.Listener site.disk spawner.old spawner.new) (dials N.Dialer N.In.Source N.Out.Sink dialer.old dialer.new) (T.Words.coming site.host.words) (prints K.Sink output.old output.new) c result) }
{
    match standing_command_of(site.host.alloc, words) {
        Ok(command) => obey(site, &command, dialer, spawner, output),
        Err(CommandError::Usage) => {
            let Site { disk, .. } = site;
            (StandingEnding::Plain(Ending::Usage), Shown::Disk(disk))
        }
        Err(CommandError::OutOfMemory) => (
            StandingEnding::Plain(Ending::OutOfMemory),
            Shown::Nothing,
        ),
    }
}

/// Does what the words ask for at the ports of a cluster, and gives a status with what shows it.
///
/// `serve` serves the links of the four ports over the database of the disk: the disk is written before what it tells of is
/// sent. `engine` and `client` dial a controller; what else they are handed is let go unused. The host and the port of the words
/// are those of the ports and of the dialler.
///
/// The status: 0 a shutdown was asked, or all ports and links have ended; the controller's stream was read to its end by an
/// engine; or the status of a client's answer is `ok`. 1 it isn't. 2 the words have no reading. 4 a write of a client's
/// output failed. 5 a call of the disk failed. 7 the disk holds no journal, or a damaged one, or one whose list isn't that
/// of a cluster. 8 there was no memory. 9 the next step would pass a limit of the history. 11 a port failed. 12 a thread
/// wasn't started. 13 no link was made, or it failed, or its stream has a fault, or a client's ended before the answer. At
/// each status but 0 and 1 it writes the line that says so to `errors`, as far as these take it: a write there that fails
/// changes nothing.
pub fn standing<
    L: Listener + Drop + Send + 'static,
    N: Dialer,
    T: SessionTypes + Send + Sync + 'static,
    K: Sink,
    E: Sink,
    H: Threads + Drop,
>(
    site: Site<L, T>,
    words: &WordList,
    dialer: &mut N,
    spawner: &mut Spawner<H>,
    output: &mut K,
    errors: &mut E,
) -> (u8, ServeShown<L, N::In, N::Out, T>)
where
    L::Out: Closing,
    T::Disk: Send + Sync + 'static,
    T::Clock: Send + Sync + 'static,
    T::Words: Send + Sync + 'static,
    T::Gate: Send + Sync + 'static,
    T::Runtime: Copy + Send + Sync + 'static,
    // Where the words have no reading the disk is handed back, and nothing is written to the output.
    ensures unread { standing_reading words.now ≡ None → ((result.0 ≡ 2) × (result.1 ≡ Shown.Disk site.disk) ⊎ (result.0 ≡ 8)) × (K.written output.new ≡ K.written output.old) × IsUndialled (dials N.Dialer N.In.Source N.Out.Sink dialer.old dialer.new) }
    // Else the status is that of an end that the command may come to, with what shows it, and the line of this end is written to the errors.
    ensures ended { EndsAs E.Sink errors.old errors.new words.now result (By (serves T.Disk.Disk L.Listener site.disk spawner.old spawner.new) (dials N.Dialer N.In.Source N.Out.Sink dialer.old dialer.new) (T.Words.coming site.host.words) (prints K.Sink output.old output.new)) }
    ensures usage { result.0 ≡ 2 → standing_reading words.now ≡ None }
    ensures says { (e : EndingType) × (result.0 ≡ standing_status e) × Said (standing_line e) (E.written errors.old) (E.written errors.new) (E.faults errors.old) (E.faults errors.new) }
{
    let (ending, shown) = run(site, words, dialer, spawner, output);
    (tell(errors, ending), shown)
}
