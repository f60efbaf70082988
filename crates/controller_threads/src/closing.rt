//! What ends a link from another thread.

use edges::memory::MemSink;
use edges::standard::StdSink;
use std::net::{Shutdown, TcpStream};

/// Ends a link: a read of its other half that waits ends.
pub trait Closer {
    fn close(&self);
}

/// The writing half of a link, which ends the link, or gives what does.
pub trait Closing {
    type Closer: Closer + Drop + Send + 'static;

    /// `None` where the system has nothing for it.
    fn closer(&self) -> Option<Self::Closer>;

    /// Ends the link.
    fn close(&self);
}

/// A link in memory, of which no read waits.
#[derive(Clone, Copy, Debug, Drop)]
pub struct MemCloser;

impl Closer for MemCloser {
    fn close(&self) {}
}

impl Closing for MemSink {
    type Closer = MemCloser;

    fn closer(&self) -> Option<MemCloser> {
        Some(MemCloser)
    }

    fn close(&self) {}
}

/// A connection over TCP, with a descriptor of its own.
#[derive(Drop)]
pub struct TcpCloser {
    stream: TcpStream,
}

impl Closer for TcpCloser {
    fn close(&self) {
        let _ = self.stream.shutdown(Shutdown::Both);
    }
}

impl Closing for StdSink<TcpStream> {
    type Closer = TcpCloser;

    fn closer(&self) -> Option<TcpCloser> {
        let stream = self.writer.try_clone().ok()?;
        Some(TcpCloser { stream })
    }

    fn close(&self) {
        let _ = self.writer.shutdown(Shutdown::Both);
    }
}
