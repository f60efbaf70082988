//! How a database is opened for a command, and how the program ends where it isn't.

ghost use Rattle.std.specs.Prelude.{◌≡◌, ◌<◌, ◌^◌};
ghost use Rattle.quick_commands.specs.Replays.{config_of};
ghost use Rattle.quick_commands.specs.Written.{ending_of_refusal};

use cluster_types::config::Config;
use command_words::command::ReplayOptions;
use command_words::ending::Ending;
use task_journal::fault::OpenFault;

/// How a database is opened.
pub fn config_of(options: &ReplayOptions) -> Config
    ensures config { result ≡ config_of options.now }
    ensures short { result.bytes < 2 ^ 32 }
{
    Config {
        scheme: options.scheme,
        hwm: options.hwm,
        misses: options.misses,
        entries: u64::from(options.entries),
        bytes: u64::from(options.bytes),
    }
}

/// How the program ends where a database isn't opened.
pub fn ending_of_refusal(why: OpenFault) -> Ending
    ensures { result ≡ ending_of_refusal why }
{
    match why {
        OpenFault::NotAJournal(place) => Ending::Damaged(place),
        OpenFault::Damaged(place) => Ending::Damaged(place),
        OpenFault::DiskFault => Ending::DiskFault,
        OpenFault::OutOfMemory => Ending::OutOfMemory,
    }
}
