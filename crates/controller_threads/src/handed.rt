//! What threads hand over to the caller of `serve`.

ghost use Rattle.std.specs.Prelude.{◌≤◌, All};
ghost use Rattle.std.proofs.Props.{props};
ghost use Rattle.zmtp_peer.specs.Limits.{IsShortMessage, IsShortIdentity};

use crate::naming::Naming;
use crate::passes::{Halted, NamedPass};
use crate::port::Port;
use crate::ports::EndedPort;
use cluster_types::config::Channel;
use link_messages::greeting::Greeted;

/// A link to another machine, the channel of the port where it was accepted, and its number among those that haven't signed
/// anything.
#[derive(Drop)]
pub struct AcceptedLink<I, O> {
    pub channel: Channel,
    pub number: u64,
    pub reader: I,
    pub writer: O,
}

/// A link that has signed something, and what came with its handshake and up to then.
#[derive(Drop)]
pub struct SignedLink<I, O> {
    pub channel: Channel,
    pub reader: I,
    pub writer: O,
    pub greeted: ShortGreeted,
}

/// The writing half of a link whose connection is up, what ends the link, and a pass for its session.
#[derive(Drop)]
pub struct AdmittedLink<P: Port, T, N: Naming> {
    pub conn: u32,
    pub writer: P::Out,
    pub closer: P::Closer,
    pub pass: NamedPass<T, N>,
}

/// What came with a handshake, within the limits.
#[derive(Drop)]
pub struct ShortGreeted {
    pub greeted: Greeted,
    ghost identity: { IsShortIdentity greeted.identity },
    ghost short: { All IsShortMessage greeted.early } by { Prim.hlevel props },
}

impl ShortGreeted {
    /// What came with a handshake whose identity and messages are within the limits.
    pub fn new(greeted: Greeted) -> ShortGreeted
        requires identity { IsShortIdentity greeted.identity }
        requires short { All IsShortMessage greeted.early }
    {
        ShortGreeted { greeted }
    }
}

/// A port on which an accept failed.
#[derive(Drop)]
pub struct FailedPort<P: Port> {
    pub channel: Channel,
    pub port: P,
    ghost fault: { 1 ≤ P.faults port },
}

/// A port whose last accept failed.
pub fn failed_port<P: Port>(channel: Channel, port: P) -> FailedPort<P>
    requires { 1 ≤ P.faults port }
{
    FailedPort { channel, port }
}

/// What a thread hands over, where the desk's lock holds `T`.
#[derive(Drop)]
pub enum Handed<P: Port, T, N: Naming> {
    /// A link was accepted.
    Accepted(AcceptedLink<P::In, P::Out>),
    /// A link has a connection, and its writer is to be started.
    Admitted(AdmittedLink<P, T, N>),
    /// A link was read to its end, or ended before it was admitted.
    LinkEnded,
    /// A session that writes ended.
    WriterEnded,
    /// A port has no further links.
    PortEnded(Channel, EndedPort<P>),
    /// An accept failed.
    PortFailed(FailedPort<P>),
    /// A worker ended, since no links are left.
    WorkerEnded(NamedPass<T, N>),
    /// A session or a worker met what ends the controller.
    Halted(Halted<T, N>),
}
