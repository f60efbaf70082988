//! Command lines about a cluster at its ports, with and without a reading.

use cluster_types::message::WordList;
use cluster_types::text::Text;
use command_words::command::CommandError;
use command_words::standing::{Action, StandingCommand, standing_command_of};
use std::alloc::Global;
use std::process::Abort;

/// What the words of a command line are read as.
fn reading_of<R: Abort>(
    rt: &R,
    alloc: Global,
    texts: &[&str],
) -> Result<StandingCommand, CommandError> {
    let mut words = WordList::new(alloc);
    for text in texts {
        let word = Text::new(alloc, text).expect(rt, "memory is ample");
        words.push(word).expect(rt, "memory is ample");
    }
    standing_command_of(alloc, &words)
}

/// The name of an action, and what it is about.
fn action_in(action: &Action) -> (&'static str, &[u8]) {
    match action {
        Action::Run { code } => ("run", code.as_slice()),
        Action::Result { id } => ("result", id.as_slice()),
        Action::Purge { id } => ("purge", id.as_slice()),
        Action::Resubmit { id } => ("resubmit", id.as_slice()),
        Action::Abort { id } => ("abort", id.as_slice()),
        Action::Queue => ("queue", b""),
        Action::History => ("history", b""),
        Action::Shutdown => ("shutdown", b""),
    }
}

/// The name of a command or action, and what it is about: the database, the uuid, or what the action is about.
fn named(reading: &Result<StandingCommand, CommandError>) -> (&'static str, &[u8]) {
    match reading {
        Ok(StandingCommand::Serve { database, .. }) => ("serve", database.as_slice()),
        Ok(StandingCommand::Engine { uuid, .. }) => ("engine", uuid.as_slice()),
        Ok(StandingCommand::Client { action, .. }) => action_in(action),
        Err(CommandError::Usage) => ("usage", b""),
        Err(CommandError::OutOfMemory) => ("memory", b""),
    }
}

/// The host, the port and the key of a command, or nothing.
fn address_in(reading: &Result<StandingCommand, CommandError>) -> (&[u8], u16, &[u8]) {
    match reading {
        Ok(
            StandingCommand::Serve {
                host,
                port,
                options,
                ..
            },
        ) => (host.as_slice(), *port, options.key.as_slice()),
        Ok(
            StandingCommand::Engine {
                host,
                port,
                key,
                ..
            },
        ) => (host.as_slice(), *port, key.as_slice()),
        Ok(
            StandingCommand::Client {
                host,
                port,
                key,
                ..
            },
        ) => (host.as_slice(), *port, key.as_slice()),
        Err(_) => (b"", 0, b""),
    }
}

/// Command lines whose host, where they have a reading, is `h` and whose key is `k`: the port, the name and what it is about.
const ROWS: &[(&[&str], u16, &str, &str)] = &[
    (&["serve", "h", "1", "db", "--key", "k"], 1, "serve", "db"),
    (
        &[
            "serve",
            "--misses=3",
            "h",
            "--key=k",
            "65532",
            "--hwm",
            "0",
            "db",
        ],
        65532,
        "serve",
        "db",
    ),
    (
        &["engine", "h", "7000", "e0", "--key", "k"],
        7000,
        "engine",
        "e0",
    ),
    (
        &["client", "h", "5000", "run", "6*7", "--key", "k"],
        5000,
        "run",
        "6*7",
    ),
    (
        &["client", "h", "5000", "run", "", "--key=k"],
        5000,
        "run",
        "",
    ),
    (
        &["client", "h", "5000", "result", "a", "--key=k"],
        5000,
        "result",
        "a",
    ),
    (
        &["client", "h", "5000", "purge", "a", "--key=k"],
        5000,
        "purge",
        "a",
    ),
    (
        &["client", "h", "5000", "--key=k", "resubmit", "a"],
        5000,
        "resubmit",
        "a",
    ),
    (
        &["client", "h", "5000", "abort", "a", "--key=k"],
        5000,
        "abort",
        "a",
    ),
    (
        &["client", "h", "5000", "queue", "--key=k"],
        5000,
        "queue",
        "",
    ),
    (
        &["client", "h", "5000", "history", "--key=k"],
        5000,
        "history",
        "",
    ),
    (
        &["client", "h", "5000", "shutdown", "--key=k"],
        5000,
        "shutdown",
        "",
    ),
    (&["serve", "h", "0", "db", "--key", "k"], 0, "usage", ""),
    (&["serve", "h", "65533", "db", "--key", "k"], 0, "usage", ""),
    (&["serve", "h", "07000", "db", "--key", "k"], 0, "usage", ""),
    (&["serve", "h", "7000", "--key", "k"], 0, "usage", ""),
    (&["serve", "h", "7000", "db"], 0, "usage", ""),
    (&["engine", "h", "7000", "", "--key", "k"], 0, "usage", ""),
    (
        &["engine", "h", "7000", "e", "--key", "k", "--hwm=1"],
        0,
        "usage",
        "",
    ),
    (
        &["client", "h", "7000", "queue", "a", "--key=k"],
        0,
        "usage",
        "",
    ),
    (&["client", "h", "7000", "run", "--key=k"], 0, "usage", ""),
    (
        &["client", "h", "7000", "result", "", "--key=k"],
        0,
        "usage",
        "",
    ),
    (&["client", "h", "7000", "abort", "--key=k"], 0, "usage", ""),
    (
        &["client", "h", "7000", "abort", "", "--key=k"],
        0,
        "usage",
        "",
    ),
    (
        &["client", "h", "7000", "run", "a", "b", "--key=k"],
        0,
        "usage",
        "",
    ),
    (
        &["client", "h", "7000", "stop", "a", "--key=k"],
        0,
        "usage",
        "",
    ),
    (&["client", "h", "--key=k"], 0, "usage", ""),
    (&["replay", "db", "--key=k"], 0, "usage", ""),
    (&[], 0, "usage", ""),
];

/// Whether a reading has this name and is about this.
fn is_named(reading: &Result<StandingCommand, CommandError>, name: &str, about: &str) -> bool {
    let (found, what) = named(reading);
    found == name && what == about.as_bytes()
}

/// Whether a reading has this port, and where it has one, the host `h` and the key `k`.
fn is_at(reading: &Result<StandingCommand, CommandError>, port: u16) -> bool {
    let (host, found, key) = address_in(reading);
    found == port && (port == 0 || (host == b"h".as_slice() && key == b"k".as_slice()))
}

#[test]
fn commands_at_ports(rt: HostRuntime) {
    for (line, port, name, about) in ROWS {
        let reading = reading_of(&rt, rt.alloc(), line);
        assert!(rt;
            is_named(&reading, name, about) && is_at(&reading, *port),
            "at {line:?}"
        );
    }
}
