//! Command lines with and without a reading, and the lines of ends.

use cluster_types::message::WordList;
use cluster_types::text::Text;
use command_words::command::CommandError;
use command_words::ending::Ending;
use run_words::command::{RunCommand, run_command_of};
use run_words::ending::{JobLine, RunEnding, run_status_of};
use std::alloc::Global;
use std::process::Abort;

fn words<R: Abort>(rt: &R, alloc: Global, texts: &[&str]) -> WordList {
    let mut words = WordList::new(alloc);
    for text in texts {
        let word = Text::new(alloc, text).expect(rt, "memory is ample");
        words.push(word).expect(rt, "memory is ample");
    }
    words
}

/// What the words of a command line are read as.
fn reading_of<R: Abort>(rt: &R, alloc: Global, texts: &[&str]) -> Result<RunCommand, CommandError> {
    run_command_of(alloc, &words(rt, alloc, texts))
}

/// How many engines, and how many codes or values or octets of a text, words ask for; or (0, 0) where they have no reading.
fn asked(command: &Result<RunCommand, CommandError>) -> (u32, usize) {
    match command {
        Ok(RunCommand::Run { engines, codes }) => (*engines, codes.len()),
        Ok(
            RunCommand::Map {
                engines,
                values,
                ..
            },
        ) => (*engines, values.len()),
        Ok(RunCommand::Job { engines, text }) => (*engines, text.len()),
        Err(_) => (0, 0),
    }
}

/// Command lines, and what they ask for.
const ROWS: &[(&[&str], (u32, usize))] = &[
    (&["run", "3", "6*7", "1/0", "x=3;x*x"], (3, 3)),
    (&["run", "64", ""], (64, 1)),
    (&["map", "2", "x*x", "3", "4"], (2, 2)),
    (&["map", "1", "", "0", "9223372036854775807"], (1, 2)),
    (&["job", "8", "a : 6*7"], (8, 7)),
    (&["job", "1", ""], (1, 0)),
    (&["run", " 4", "1"], (0, 0)),
    (&["run", "04", "1"], (0, 0)),
    (&["run", "0", "1"], (0, 0)),
    (&["run", "65", "1"], (0, 0)),
    (&["run", "4"], (0, 0)),
    (&["run"], (0, 0)),
    (&["run", "4", "-1"], (0, 0)),
    (&["run", "4", "--", "1"], (0, 0)),
    (&["run", "--key", "k", "4", "1"], (0, 0)),
    (&["map", "2", "x"], (0, 0)),
    (&["map", "2", "x", "-1"], (0, 0)),
    (&["map", "2", "x", "01"], (0, 0)),
    (&["map", "2", "x", "9223372036854775808"], (0, 0)),
    (&["map", "2", "x", "1", "y"], (0, 0)),
    (&["job", "2"], (0, 0)),
    (&["job", "2", "a : 1", "b : 2"], (0, 0)),
    (&["job", "2", "-a : 1"], (0, 0)),
    (&["work", "7", "1"], (0, 0)),
    (&[], (0, 0)),
];

#[test]
fn lines_are_read(rt: HostRuntime) {
    for (texts, wanted) in ROWS {
        let command = reading_of(&rt, rt.alloc(), texts);
        assert_eq!(rt; asked(&command), *wanted);
    }
}

/// A text of so many octets.
fn long<R: Abort>(rt: &R, alloc: Global, octets: usize) -> String {
    let mut text = String::new(alloc);
    for _ in 0..octets {
        text.push_str("1").expect(rt, "memory is ample");
    }
    text
}

#[test]
fn codes_and_bodies_have_their_bounds(rt: HostRuntime) {
    let alloc = rt.alloc();
    let longest = long(&rt, alloc, 65_536);
    let longer = long(&rt, alloc, 65_537);
    let body = long(&rt, alloc, 65_514);
    let fuller = long(&rt, alloc, 65_515);
    let read = |texts: &[&str]| -> bool { reading_of(&rt, alloc, texts).is_ok() };
    assert!(rt; read(&["run", "1", longest.as_str()]));
    assert!(rt; !read(&["run", "1", longer.as_str()]));
    assert!(rt; read(&["map", "1", body.as_str(), "1"]));
    assert!(rt; !read(&["map", "1", fuller.as_str(), "1"]));
}

#[test]
fn ends_have_statuses_and_a_bad_job_a_line(rt: HostRuntime) {
    assert_eq!(rt; run_status_of(RunEnding::Plain(Ending::Done)), 0);
    assert_eq!(rt; run_status_of(RunEnding::NoWorker), 12);
    assert_eq!(rt; run_status_of(RunEnding::BadJob(1)), 17);
    assert_eq!(rt;
        JobLine::new(1).as_slice(),
        b"ipcluster: bad job at line 1\n".as_slice()
    );
    assert_eq!(rt;
        JobLine::new(0).as_slice(),
        b"ipcluster: bad job at line 0\n".as_slice()
    );
}
