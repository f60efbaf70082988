//! How the program ends.

ghost use Rattle.std.specs.Prelude.{◌≡◌, ◌≤◌, ◌++◌, length, decimal, codes};
ghost use Rattle.command_words.specs.Lines.{status, line, standing_status, standing_line};

use arrayvec::ArrayString;
use itoa::Buffer;
use std::marker::Model;

/// How the program ends.
#[derive(Clone, Copy, Debug, PartialEq, Eq)]
pub enum Ending {
    /// All was done.
    Done,
    /// The words have no reading.
    Usage,
    /// A read from the input failed.
    ReadFault,
    /// A write to the output failed.
    WriteFault,
    /// A call of the disk failed.
    DiskFault,
    /// The tape has a fault at this place.
    BadTape(u64),
    /// The disk holds no journal, or a damaged one, or one whose list isn't that of a cluster; the place is an offset in it.
    Damaged(u64),
    OutOfMemory,
    /// The history would pass a limit with these entries, and these octets of their records.
    HistoryFull { entries: u64, bytes: u64 },
    /// The input isn't the text of the history: this is the first offset at which they differ.
    Different(u64),
    /// The standby's list isn't the front of the input's: this is the first entry at which they differ, counted from 0.
    StandbyDiffers(u64),
    /// The input holds no journal, or a damaged one, or is too long; the place is an offset in it.
    PrimaryRefused(u64),
}

/// How a command ends that is about a cluster at its ports.
#[derive(Clone, Copy, Debug, PartialEq, Eq)]
pub enum StandingEnding {
    /// As other commands end too.
    Plain(Ending),
    /// The answer that a client printed says that what it asked for was refused or has failed.
    NotOk,
    /// A port failed.
    ListenerFault,
    /// A thread couldn't be started.
    NoWorker,
    /// The link to the controller wasn't made, failed, had a fault in its stream, or ended before the answer.
    LinkFault,
}

/// The status that says how the program ends.
pub fn status_of(ending: Ending) -> u8
    ensures { result ≡ status ending }
{
    match ending {
        Ending::Done => 0,
        Ending::Usage => 2,
        Ending::ReadFault => 3,
        Ending::WriteFault => 4,
        Ending::DiskFault => 5,
        Ending::BadTape(_) => 6,
        Ending::Damaged(_) => 7,
        Ending::OutOfMemory => 8,
        Ending::HistoryFull { .. } => 9,
        Ending::Different(_) => 10,
        Ending::StandbyDiffers(_) => 15,
        Ending::PrimaryRefused(_) => 16,
    }
}

/// A line of at most 128 octets, which takes no memory beside its own.
#[derive(Drop)]
pub struct Line {
    text: ArrayString<128>,
}

impl Model for Line {
    ghost use Rattle.std.specs.Prelude.{List, ℕ};

    ghost Value = { List ℕ };

    ghost view = { λ l. l.text.bytes };
}

impl Line {
    /// The octets of the line, its line feed among them.
    pub fn as_slice(&self) -> &[u8]
        ensures { result.now ≡ self.now }
    {
        self.text.as_str().as_bytes()
    }
}

/// A text as a line.
fn plain(text: &str) -> Line
    requires { length text.now ≤ 128 }
    ensures { result ≡ text.now }
{
    let mut line = ArrayString::new();
    line.push_str(text);
    Line { text: line }
}

/// A text, and a place behind it.
fn with_place(text: &str, place: u64) -> Line
    requires { length text.now ≤ 80 }
    ensures { result ≡ text.now ++ decimal place ++ codes "\n" }
{
    let mut digits = Buffer::new();
    let mut line = ArrayString::new();
    line.push_str(text);
    line.push_str(digits.format(place));
    line.push_str("\n");
    Line { text: line }
}

/// The line of a history that is full.
fn history_full(entries: u64, bytes: u64) -> Line
    ensures { result ≡ codes "ipcluster: history full at " ++ decimal entries ++ codes " entries and " ++ decimal bytes ++ codes " bytes\n" }
{
    let mut digits = Buffer::new();
    let mut line = ArrayString::new();
    line.push_str("ipcluster: history full at ");
    line.push_str(digits.format(entries));
    line.push_str(" entries and ");
    line.push_str(digits.format(bytes));
    line.push_str(" bytes\n");
    Line { text: line }
}

/// The line that says why the program ends; it is empty where all was done.
#[tactic(auto, unfolding(crate::specs::Lines::line))]
pub fn line_of(ending: Ending) -> Line
    ensures { result ≡ line ending }
{
    match ending {
        Ending::Done => plain(""),
        Ending::Usage => plain("ipcluster: the command line has no reading\n"),
        Ending::ReadFault => plain("ipcluster: read fault\n"),
        Ending::WriteFault => plain("ipcluster: write fault\n"),
        Ending::DiskFault => plain("ipcluster: disk fault\n"),
        Ending::BadTape(place) => with_place("ipcluster: bad tape at ", place),
        Ending::Damaged(place) => with_place("ipcluster: damaged database at ", place),
        Ending::OutOfMemory => plain("ipcluster: out of memory\n"),
        Ending::HistoryFull { entries, bytes } => history_full(entries, bytes),
        Ending::Different(place) => with_place("ipcluster: different at ", place),
        Ending::StandbyDiffers(place) => with_place("ipcluster: standby differs at entry ", place),
        Ending::PrimaryRefused(place) => with_place("ipcluster: primary refused at ", place),
    }
}

/// The status that says how a command ends that is about a cluster at its ports.
pub fn standing_status_of(ending: StandingEnding) -> u8
    ensures { result ≡ standing_status ending }
{
    match ending {
        StandingEnding::Plain(ending) => status_of(ending),
        StandingEnding::NotOk => 1,
        StandingEnding::ListenerFault => 11,
        StandingEnding::NoWorker => 12,
        StandingEnding::LinkFault => 13,
    }
}

/// The line that says why such a command ends; it is empty where all was done, and where the answer that was printed says
/// the rest.
#[tactic(auto, unfolding(crate::specs::Lines::standing_line))]
pub fn standing_line_of(ending: StandingEnding) -> Line
    ensures { result ≡ standing_line ending }
{
    match ending {
        StandingEnding::Plain(ending) => line_of(ending),
        StandingEnding::NotOk => plain(""),
        StandingEnding::ListenerFault => plain("ipcluster: listener fault\n"),
        StandingEnding::NoWorker => plain("ipcluster: no worker could be started\n"),
        StandingEnding::LinkFault => plain("ipcluster: link fault\n"),
    }
}
