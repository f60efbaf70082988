//! The four ports of a controller.

ghost use Rattle.std.specs.Prelude.{◌≡◌, ◌↔◌, IsTrue, IsSome};
ghost use Rattle.controller_threads.specs.Ports.{HasNoLink, HaveNoLinks, AreAll, no_ports, with_port};

use crate::port::Port;
use cluster_types::config::Channel;

/// One for each channel.
#[derive(Drop)]
pub struct Ports<P> {
    pub hub: P,
    pub task: P,
    pub mux: P,
    pub engine: P,
}

/// A port of which no link is left.
#[derive(Drop)]
pub struct EndedPort<P: Port> {
    pub port: P,
    ghost no_link: { HasNoLink P.links port },
}

/// A port that has ended.
pub fn ended_port<P: Port>(port: P) -> EndedPort<P>
    requires { HasNoLink P.links port }
    ensures { result.port ≡ port }
{
    EndedPort { port }
}

/// The ports that have ended.
pub type EndedPorts<P> = Ports<Option<EndedPort<P>>>;

impl<P: Port + Drop> Ports<Option<EndedPort<P>>> {
    /// None yet.
    pub fn none() -> EndedPorts<P>
        ensures { result ≡ no_ports }
    {
        Ports {
            hub: None,
            task: None,
            mux: None,
            engine: None,
        }
    }

    /// Puts a port to those that have ended.
    pub fn put(&mut self, channel: Channel, port: EndedPort<P>)
        ensures { self.new ≡ with_port channel port self.old }
    {
        match channel {
            Channel::Hub => self.hub = Some(port),
            Channel::Task => self.task = Some(port),
            Channel::Mux => self.mux = Some(port),
            Channel::Engine => self.engine = Some(port),
        }
    }

    /// Whether all four have ended.
    pub fn are_all(&self) -> bool
        ensures { IsTrue result ↔ AreAll self.now }
    {
        self.hub.is_some() && self.task.is_some() && self.mux.is_some() && self.engine.is_some()
    }

    /// The four ports, once all have ended.
    pub fn into_ports(self) -> Ports<P>
        requires { AreAll self }
        ensures { HaveNoLinks P.links result }
    {
        let Ports {
            hub,
            task,
            mux,
            engine,
        } = self;
        Ports {
            hub: port_of(hub),
            task: port_of(task),
            mux: port_of(mux),
            engine: port_of(engine),
        }
    }
}

/// A port that has ended.
fn port_of<P: Port>(ended: Option<EndedPort<P>>) -> P
    requires { IsSome ended }
    ensures { HasNoLink P.links result }
{
    match ended {
        Some(EndedPort { port }) => port,
        None => unreachable!(),
    }
}
