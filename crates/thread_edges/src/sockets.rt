//! Links over TCP.

ghost use Rattle.std.specs.Prelude.{◌≡◌, IfOk, IfSome, None};

use crate::links::{Accepted, Dialer, Listener};
use edges::standard::{StdSink, StdSource};
use std::io;
use std::net::{Net, TcpListener, TcpStream};
use std::sync::Wait;
use std::sync::atomic::AtomicU64;
use std::time::Duration;

/// The two halves of a connection. What is written goes out at once, where the system lets it: one that doesn't
/// is only slower.
fn halves(stream: TcpStream) -> io::Result<(StdSource<TcpStream>, StdSink<TcpStream>)>
    ensures { IfOk result (λ link. (link.0.faults ≡ 0) × (link.1.faults ≡ 0)) }
{
    let _ = stream.set_nodelay(true);
    let other = stream.try_clone()?;
    Ok((StdSource::new(stream), StdSink::new(other)))
}

/// How many milliseconds an acceptor rests where the system had nothing for one more connection.
const REST_MILLIS: u64 = 20;

/// The errors of Linux behind which the next accept may do: a signal; no memory, descriptors or buffers; and what had already
/// gone wrong on the connection (accept(2), "Error handling").
const PASSING: [i32; 15] = [
    4, 11, 12, 23, 24, 64, 71, 92, 95, 100, 101, 103, 105, 112, 113,
];

/// Whether the next accept may do behind this error.
fn is_passing(error: &io::Error) -> bool {
    match error.raw_os_error() {
        Some(code) => PASSING.contains(&code),
        None => false,
    }
}

/// Rests a little.
fn rest<R: Wait>(rt: &R) {
    AtomicU64::new(0).park_timeout(rt, 0, Duration::from_millis(REST_MILLIS));
}

/// A port on which connections are accepted. It never ends.
#[derive(Drop)]
pub struct TcpPort {
    pub listener: TcpListener,
    pub faults: u64,
}

impl TcpPort {
    /// A port that hasn't failed.
    pub fn new(listener: TcpListener) -> TcpPort
        ensures { result ≡ record { listener = listener; faults = 0 } }
    {
        TcpPort {
            listener,
            faults: 0,
        }
    }

    /// The next connection whose halves can be had. One that breaks off before costs only itself.
    fn next_halves<R: Wait>(&self, rt: &R) -> io::Result<(StdSource<TcpStream>, StdSink<TcpStream>)>
        ensures { IfOk result (λ link. (link.0.faults ≡ 0) × (link.1.faults ≡ 0)) }
    {
        for _ in rt.forever() {
            match self.listener.accept() {
                Ok((stream, _)) => {
                    if let Ok(link) = halves(stream) {
                        return Ok(link);
                    }
                }
                Err(error) if is_passing(&error) => rest(rt),
                Err(error) => return Err(error),
            }
        }
        unreachable!()
    }
}

impl Listener for TcpPort {
    ghost use Rattle.std.specs.Prelude.{None};

    type In = StdSource<TcpStream>;

    type Out = StdSink<TcpStream>;

    ghost links = { λ _. None };

    ghost faults = { λ p. p.faults };

    /// Waits, too, where the system has no descriptor or no memory for one more connection.
    fn accept<R: Wait>(&mut self, rt: &R) -> Accepted<StdSource<TcpStream>, StdSink<TcpStream>> {
        match self.next_halves(rt) {
            Ok((source, sink)) => Accepted::Pair(source, sink),
            Err(_) => {
                self.faults = self.faults.saturating_add(1);
                Accepted::Failed
            }
        }
    }
}

/// Dials the ports of a controller: each channel has the port of its number behind the first.
#[derive(Drop)]
pub struct TcpDial<R: Net<Stream = TcpStream> + Drop> {
    pub rt: R,
    pub host: String,
    pub first_port: u16,
    pub faults: u64,
    /// How often it was told to dial.
    pub dials: u64,
    /// The channel that was dialled last.
    pub last: Option<u8>,
}

impl<R: Net<Stream = TcpStream> + Drop> TcpDial<R> {
    /// A dialer that hasn't dialled.
    pub fn new(rt: R, host: String, first_port: u16) -> TcpDial<R>
        ensures { result ≡ record { rt = rt; host = host; first_port = first_port; faults = 0; dials = 0; last = None } }
    {
        TcpDial {
            rt,
            host,
            first_port,
            faults: 0,
            dials: 0,
            last: None,
        }
    }

    fn connect(&self, channel: u8) -> Option<(StdSource<TcpStream>, StdSink<TcpStream>)>
        ensures { IfSome result (λ link. (link.0.faults ≡ 0) × (link.1.faults ≡ 0)) }
    {
        let port = self.first_port.checked_add(u16::from(channel))?;
        let stream = TcpStream::connect(&self.rt, (self.host.as_str(), port)).ok()?;
        halves(stream).ok()
    }
}

impl<R: Net<Stream = TcpStream> + Drop> Dialer for TcpDial<R> {
    ghost use Rattle.std.specs.Prelude.{None};

    type In = StdSource<TcpStream>;

    type Out = StdSink<TcpStream>;

    ghost links = { λ _. None };

    ghost faults = { λ d. d.faults };

    ghost dialled = { λ d. record { times = d.dials; last = d.last } };

    fn dial(&mut self, channel: u8) -> Accepted<StdSource<TcpStream>, StdSink<TcpStream>> {
        self.dials = self.dials.saturating_add(1);
        self.last = Some(channel);
        match self.connect(channel) {
            Some((source, sink)) => Accepted::Pair(source, sink),
            None => {
                self.faults = self.faults.saturating_add(1);
                Accepted::Failed
            }
        }
    }
}
