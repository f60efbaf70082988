//! The system's time and random words.

ghost use Rattle.std.specs.Prelude.{◌≡◌, ◌≤◌, ◌+◌, ◌*◌, ◌%◌, ◌^◌, IfSome, None};
ghost use Rattle.cluster_types.specs.Limits.{last_moment};
ghost use Rattle.thread_edges.specs.Series.{Draws};

use crate::clock::Clock;
use crate::words::Words;
use cluster_types::chance::next_word;
use edges::date::Moment;
use std::random::RandomSource;
use std::time;
use std::time::SystemTime;

/// The last second of the year 9999.
const LAST_SECOND: u64 = 253_402_300_799;

/// The milliseconds since 1970, up to the end of the year 9999.
fn system_millis<R: time::Clock>(rt: &R) -> Option<u64>
    ensures { IfSome result (λ millis. millis ≤ last_moment) }
{
    let since = SystemTime::now(rt)
        .ok()?
        .duration_since(SystemTime::UNIX_EPOCH)
        .ok()?;
    if since.as_secs() > LAST_SECOND {
        return None;
    }
    Some(since.as_secs() * 1_000 + u64::from(since.subsec_millis()))
}

/// The system's clock. Where it can't be read, or reads no year up to 9999, the last moment comes again.
#[derive(Drop)]
pub struct SystemClock<R> {
    pub rt: R,
    pub last: u64,
    ghost within: { last ≤ last_moment },
}

impl<R> SystemClock<R> {
    /// The system's clock. Its last moment is 0 before it was read.
    pub fn new(rt: R) -> SystemClock<R>
        ensures { (result.rt ≡ rt) × (result.last ≡ 0) }
    {
        SystemClock { rt, last: 0 }
    }
}

impl<R: time::Clock> Clock for SystemClock<R> {
    ghost use Rattle.std.specs.Prelude.{None};

    ghost coming = { λ _. None };

    fn now(&mut self) -> Moment
        ensures limit { result.millis ≤ last_moment }
        ensures draws { Draws result.millis None None }
        ensures last { self.new.last ≡ result.millis }
    {
        if let Some(millis) = system_millis(&self.rt) {
            self.last = millis;
        }
        Moment { millis: self.last }
    }
}

/// The system's random words. Where the system gives none, the word that follows the last one.
#[derive(Drop)]
pub struct OsWords<R> {
    pub rt: R,
    pub last: u64,
}

impl<R> OsWords<R> {
    /// The system's random words. The last one is 0 before the first.
    pub fn new(rt: R) -> OsWords<R>
        ensures { (result.rt ≡ rt) × (result.last ≡ 0) }
    {
        OsWords { rt, last: 0 }
    }
}

impl<R: RandomSource> Words for OsWords<R> {
    ghost use Rattle.std.specs.Prelude.{None};

    ghost coming = { λ _. None };

    fn next(&mut self) -> u64
        ensures draws { Draws result None None }
        ensures last { self.new.last ≡ result }
    {
        let mut octets = [0u8; 8];
        self.last = match self.rt.fill_bytes(&mut octets) {
            Ok(()) => u64::from_le_bytes(octets),
            Err(_) => next_word(self.last),
        };
        self.last
    }
}
