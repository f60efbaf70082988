//! Command lines with and without a reading, and the lines of ends.

use cluster_types::config::Scheme;
use cluster_types::message::WordList;
use cluster_types::text::Text;
use command_words::command::{Command, CommandError, command_of};
use command_words::ending::{
    Ending, StandingEnding, line_of, standing_line_of, standing_status_of, status_of,
};
use std::alloc::Global;
use std::process::Abort;

fn words<R: Abort>(rt: &R, alloc: Global, texts: &[&str]) -> WordList {
    let mut words = WordList::new(alloc);
    for text in texts {
        let word = Text::new(alloc, text).expect(rt, "memory is ample");
        words.push(word).expect(rt, "memory is ample");
    }
    words
}

/// What the words of a command line are read as.
fn reading_of<R: Abort>(rt: &R, alloc: Global, texts: &[&str]) -> Result<Command, CommandError> {
    command_of(alloc, &words(rt, alloc, texts))
}

/// The options of `replay`: key, scheme, greatest load, missed beats, entries, octets.
type Options = (&'static str, Scheme, u32, u32, u32, u32);

/// The options of `replay`, with no key where it isn't asked for.
fn asked(command: &Option<Command>) -> (&[u8], Scheme, u32, u32, u32, u32) {
    match command {
        Some(Command::Replay { options, .. }) => (
            options.key.as_slice(),
            options.scheme,
            options.hwm,
            options.misses,
            options.entries,
            options.bytes,
        ),
        _ => (b"", Scheme::LeastLoad, 0, 0, 0, 0),
    }
}

/// What stands for words without a reading.
const NOTHING: Options = ("", Scheme::LeastLoad, 0, 0, 0, 0);

/// Command lines, and the options that they ask for.
const ROWS: &[(&[&str], Options)] = &[
    (
        &["replay", "db", "--key", "k"],
        ("k", Scheme::LeastLoad, 1, 10, 4_000_000, 1_073_741_824),
    ),
    (
        &[
            "replay",
            "--misses=1000",
            "--hwm",
            "0",
            "db",
            "--key=-=k",
            "--scheme",
            "twobin",
            "--bytes",
            "1073741824",
            "--entries=1",
        ],
        ("-=k", Scheme::TwoBin, 0, 1000, 1, 1_073_741_824),
    ),
    (
        &[
            "replay",
            "--key",
            "k=v",
            "--bytes=1",
            "--entries",
            "4000000",
            "db",
        ],
        ("k=v", Scheme::LeastLoad, 1, 10, 4_000_000, 1),
    ),
    (
        &[
            "replay", "db", "--scheme", "lru", "--misses", "1", "--key", "k",
        ],
        ("k", Scheme::Lru, 1, 1, 4_000_000, 1_073_741_824),
    ),
    (
        &[
            "replay",
            "db",
            "--key",
            "k",
            "--scheme=plainrandom",
            "--hwm=1000000",
        ],
        (
            "k",
            Scheme::PlainRandom,
            1_000_000,
            10,
            4_000_000,
            1_073_741_824,
        ),
    ),
    (&["replay", "db"], NOTHING),
    (&[], NOTHING),
    (&["--key", "k", "replay", "db"], NOTHING),
    (&["Replay", "db", "--key", "k"], NOTHING),
    (&["replay", "db", "--key"], NOTHING),
    (&["replay", "db", "--key", ""], NOTHING),
    (&["replay", "db", "--key="], NOTHING),
    (&["replay", "db", "--key", "-k"], NOTHING),
    (&["replay", "db", "--key", "-"], NOTHING),
    (&["replay", "db", "--key", "--hwm=1"], NOTHING),
    (&["replay", "db", "--key", "k", "--key=k"], NOTHING),
    (&["replay", "db", "--key", "k", "--scheme", "LRU"], NOTHING),
    (&["replay", "db", "--key", "k", "--hwm", "1000001"], NOTHING),
    (&["replay", "db", "--key", "k", "--hwm", "01"], NOTHING),
    (&["replay", "db", "--key", "k", "--hwm", "+1"], NOTHING),
    (&["replay", "db", "--key", "k", "--hwm", ""], NOTHING),
    (
        &["replay", "db", "--key", "k", "--hwm", "4294967297"],
        NOTHING,
    ),
    (&["replay", "db", "--key", "k", "--misses", "0"], NOTHING),
    (&["replay", "db", "--key", "k", "--misses", "1001"], NOTHING),
    (&["replay", "db", "--key", "k", "--entries", "0"], NOTHING),
    (
        &["replay", "db", "--key", "k", "--entries=4000001"],
        NOTHING,
    ),
    (&["replay", "db", "--key", "k", "--bytes=0"], NOTHING),
    (
        &["replay", "db", "--key", "k", "--bytes", "1073741825"],
        NOTHING,
    ),
    (&["replay", "db", "--key", "k", "--"], NOTHING),
    (&["replay", "--", "db", "--key", "k"], NOTHING),
    (&["replay", "db", "--key", "k", "--=v"], NOTHING),
    (&["replay", "db", "--key", "k", "-"], NOTHING),
    (&["replay", "db", "--key", "k", "--help"], NOTHING),
    (&["replay", "db", "--key", "k", "-h"], NOTHING),
    (&["replay", "db", "--key", "k", "--version"], NOTHING),
    (&["replay", "db", "--key", "k", "help"], NOTHING),
    (&["replay", "db", "--key", "k", "--key-"], NOTHING),
    (&["replay", "db", "--ke", "k"], NOTHING),
    (&["replay", "db", "--key", "k", "--hwm="], NOTHING),
];

/// Whether these options are asked for, or, where there is no key, the words have no reading.
fn is_asked(command: &Option<Command>, options: &Options) -> bool {
    let (key, scheme, hwm, misses, entries, bytes) = options;
    let is_asked = asked(command) == (key.as_bytes(), *scheme, *hwm, *misses, *entries, *bytes);
    is_asked && command.is_some() == (key.len() > 0)
}

#[test]
fn readings(rt: HostRuntime) {
    for (texts, options) in ROWS {
        let command = reading_of(&rt, rt.alloc(), texts).ok();
        assert!(rt; is_asked(&command, options), "at {texts:?}");
    }
}

/// The word of a command.
fn name_of(command: &Command) -> &'static str {
    match command {
        Command::Replay { .. } => "replay",
        Command::Dump { .. } => "dump",
        Command::Check { .. } => "check",
        Command::Compact { .. } => "compact",
        Command::Follow { .. } => "follow",
        Command::Work { .. } => "work",
    }
}

/// The path of the database that a command is about, empty where it is about none.
fn database_in(command: &Command) -> &[u8] {
    match command.database() {
        Some(database) => database.as_slice(),
        None => b"",
    }
}

/// The name of a command and its database, both empty where the words have no reading.
fn named(command: &Result<Command, CommandError>) -> (&str, &[u8]) {
    match command {
        Ok(command) => (name_of(command), database_in(command)),
        Err(CommandError::Usage) => ("", b""),
        Err(CommandError::OutOfMemory) => ("out of memory", b""),
    }
}

/// Command lines, each with its command and the database; both are empty where the words have no reading.
const DATABASES: &[(&[&str], &str, &str)] = &[
    (&["replay", "db", "--key", "k"], "replay", "db"),
    (&["replay", "--key", "k", "db"], "replay", "db"),
    (&["replay", "--hwm=1", "db", "--key", "k"], "replay", "db"),
    (&["replay", "", "--key", "k"], "replay", ""),
    (&["replay", "--key", "k"], "", ""),
    (&["replay", "db", "db", "--key", "k"], "", ""),
    (&["replay", "db", "--key", "k", "db"], "", ""),
    (&["dump", "db"], "dump", "db"),
    (&["dump", ""], "dump", ""),
    (&["dump", "dump"], "dump", "dump"),
    (&["dump", "a=b/c d"], "dump", "a=b/c d"),
    (&["dump"], "", ""),
    (&["dump", "db", "db"], "", ""),
    (&["dump", "db", ""], "", ""),
    (&["dump", "db", "--key", "k"], "", ""),
    (&["dump", "--key=k", "db"], "", ""),
    (&["dump", "--hwm", "1"], "", ""),
    (&["dump", "--", "db"], "", ""),
    (&["dump", "db", "--"], "", ""),
    (&["dump", "-"], "", ""),
    (&["dump", "-db"], "", ""),
    (&["dump", "db", "-h"], "", ""),
    (&["check", "db"], "check", "db"),
    (&["check", ""], "check", ""),
    (&["check", "help"], "check", "help"),
    (&["check"], "", ""),
    (&["check", "db", "db"], "", ""),
    (&["check", "db", "--key", "k"], "", ""),
    (&["check", "--", "db"], "", ""),
    (&["check", "--help"], "", ""),
    (&["check", "db", "--help"], "", ""),
    (&["check", "\u{fc}ber.db"], "check", "\u{fc}ber.db"),
    (&["check", "db", "--version"], "", ""),
    (&["compact", "db"], "compact", "db"),
    (&["compact", ""], "compact", ""),
    (&["compact", "compact"], "compact", "compact"),
    (&["compact"], "", ""),
    (&["compact", "db", "db"], "", ""),
    (&["compact", "db", "--key", "k"], "", ""),
    (&["compact", "--", "db"], "", ""),
    (&["compact", "-db"], "", ""),
    (&["compacts", "db"], "", ""),
    (&["follow", "db"], "follow", "db"),
    (&["follow"], "", ""),
    (&["follow", "db", "--key", "k"], "", ""),
    (&["work", "1", "2"], "work", ""),
    (&["Dump", "db"], "", ""),
    (&["dum", "db"], "", ""),
    (&["checks", "db"], "", ""),
    (&["db", "dump"], "", ""),
    (&["", "db"], "", ""),
    (&["help", "db"], "", ""),
];

#[test]
fn databases(rt: HostRuntime) {
    for (texts, name, database) in DATABASES {
        let command = reading_of(&rt, rt.alloc(), texts);
        let is_named = named(&command) == (*name, database.as_bytes());
        assert!(rt; is_named, "at {texts:?}");
    }
}

/// Command lines, with the seed and the number of tasks, and none where they have no reading.
const WORKS: &[(&[&str], Option<(u32, u32)>)] = &[
    (&["work", "1", "2"], Some((1, 2))),
    (&["work", "0", "0"], Some((0, 0))),
    (
        &["work", "2147483647", "500000"],
        Some((2_147_483_647, 500_000)),
    ),
    (&["work", "2147483648", "1"], None),
    (&["work", "1", "500001"], None),
    (&["work", "1"], None),
    (&["work"], None),
    (&["work", "1", "2", "3"], None),
    (&["work", "01", "2"], None),
    (&["work", "1", "+2"], None),
    (&["work", "-1", "2"], None),
    (&["work", "--", "1", "2"], None),
    (&["work", "1", "2", "--key", "k"], None),
    (&["work", "1", ""], None),
    (&["work", "0x1", "2"], None),
];

/// The seed and the number of tasks that a command line asks for.
fn work_in(command: &Result<Command, CommandError>) -> Option<(u32, u32)> {
    match command {
        Ok(Command::Work { seed, tasks }) => Some((*seed, *tasks)),
        _ => None,
    }
}

#[test]
fn works(rt: HostRuntime) {
    for (texts, asked) in WORKS {
        let command = reading_of(&rt, rt.alloc(), texts);
        assert!(rt; work_in(&command) == *asked, "at {texts:?}");
    }
}

/// Each end, with its status and line.
const ENDS: &[(Ending, u8, &str)] = &[
    (Ending::Done, 0, ""),
    (
        Ending::Usage,
        2,
        "ipcluster: the command line has no reading\n",
    ),
    (Ending::ReadFault, 3, "ipcluster: read fault\n"),
    (Ending::WriteFault, 4, "ipcluster: write fault\n"),
    (Ending::DiskFault, 5, "ipcluster: disk fault\n"),
    (Ending::BadTape(25), 6, "ipcluster: bad tape at 25\n"),
    (
        Ending::BadTape(4_294_967_296),
        6,
        "ipcluster: bad tape at 4294967296\n",
    ),
    (Ending::Damaged(7), 7, "ipcluster: damaged database at 7\n"),
    (
        Ending::Damaged(41),
        7,
        "ipcluster: damaged database at 41\n",
    ),
    (Ending::OutOfMemory, 8, "ipcluster: out of memory\n"),
    (
        Ending::HistoryFull {
            entries: 4,
            bytes: 96,
        },
        9,
        "ipcluster: history full at 4 entries and 96 bytes\n",
    ),
    (
        Ending::HistoryFull {
            entries: u64::MAX,
            bytes: u64::MAX,
        },
        9,
        "ipcluster: history full at 18446744073709551615 entries and 18446744073709551615 bytes\n",
    ),
    (Ending::Different(0), 10, "ipcluster: different at 0\n"),
    (
        Ending::Different(u64::MAX),
        10,
        "ipcluster: different at 18446744073709551615\n",
    ),
    (
        Ending::StandbyDiffers(1),
        15,
        "ipcluster: standby differs at entry 1\n",
    ),
    (
        Ending::PrimaryRefused(u64::MAX),
        16,
        "ipcluster: primary refused at 18446744073709551615\n",
    ),
];

#[test]
fn statuses_and_lines(rt: HostRuntime) {
    for (ending, status, line) in ENDS {
        let is_status = status_of(*ending) == *status;
        assert!(rt; is_status && line_of(*ending).as_slice() == line.as_bytes());
    }
}

const STANDING_ENDS: &[(StandingEnding, u8, &str)] = &[
    (StandingEnding::Plain(Ending::Done), 0, ""),
    (StandingEnding::NotOk, 1, ""),
    (
        StandingEnding::Plain(Ending::Damaged(7)),
        7,
        "ipcluster: damaged database at 7\n",
    ),
    (
        StandingEnding::ListenerFault,
        11,
        "ipcluster: listener fault\n",
    ),
    (
        StandingEnding::NoWorker,
        12,
        "ipcluster: no worker could be started\n",
    ),
    (StandingEnding::LinkFault, 13, "ipcluster: link fault\n"),
];

#[test]
fn statuses_and_lines_of_standing_commands(rt: HostRuntime) {
    for (ending, status, line) in STANDING_ENDS {
        let is_status = standing_status_of(*ending) == *status;
        assert!(rt; is_status && standing_line_of(*ending).as_slice() == line.as_bytes());
    }
}
