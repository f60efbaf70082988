//! The thread of a link: its handshake, its first signed message, its admission, and the session that reads it.

ghost use Rattle.std.specs.Prelude.{All, IfSome};
ghost use Rattle.zmtp_peer.specs.Limits.{IsShortMessage};
ghost use Rattle.controller_threads.specs.Passes.{IsSince};

use crate::admissions::Refusal;
use crate::arriving::Arriving;
use crate::handed::{AcceptedLink, AdmittedLink, Handed, ShortGreeted, SignedLink};
use crate::naming::Naming;
use crate::opening::Admission;
use crate::passes::NamedPass;
use crate::port::Port;
use crate::sessions::{ended_session, read_link};
use crate::shared::Shared;
use crate::starting::ChoosingJob;
use cluster_types::config::Channel;
use edges::sink::{Sink, write_all};
use link_messages::greeting::{Greeted, greet};
use load_schemes::chooser::Chooser;
use session_threads::connection::ServedConnection;
use session_threads::context::{LockedOf, SessionTypes};
use signed_links::signing::read_to_signed;
use std::alloc::Global;
use std::sync::Arc;
use zmtp_peer::writing::error_octets;

/// Serves a link.
#[derive(Drop)]
pub struct Linking<P: Port, T: SessionTypes, N: Naming> {
    pub shared: Arc<Shared<P, T, N>, Global>,
    pub link: AcceptedLink<P::In, P::Out>,
}

/// Tells the other side of a link that there is no room for it, where memory and link let it.
fn tell_busy<K: Sink>(alloc: Global, writer: &mut K) {
    if let Ok(octets) = error_octets(alloc, "busy") {
        let _ = write_all(writer, octets.as_slice());
    }
}

impl<P: Port + Drop, T: SessionTypes, N: Naming> Shared<P, T, N> {
    /// Makes the handshake on a link, and reads to its first signed message. `None` where it ends before.
    fn hear_first(&self, link: AcceptedLink<P::In, P::Out>) -> Option<SignedLink<P::In, P::Out>> {
        let AcceptedLink {
            channel,
            number,
            reader,
            mut writer,
        } = link;
        let rt = &self.serving.rt;
        let alloc = self.serving.alloc;
        let mut reader = Arriving::new(reader, rt, &self.pending, number);
        let Ok(greeted) = greet(rt, alloc, &mut reader, &mut writer) else {
            return None;
        };
        reader.end_handshake();
        match read_to_signed(rt, alloc, &self.serving.key, &mut reader, greeted) {
            Ok(greeted) => Some(SignedLink {
                channel,
                reader: reader.into_source(),
                writer,
                greeted: ShortGreeted::new(greeted),
            }),
            Err(_) => None,
        }
    }

    /// Admits a link that has signed something.
    fn admit_signed(
        &self,
        chooser: &Chooser,
        channel: Channel,
        greeted: &ShortGreeted,
    ) -> Result<Admission<LockedOf<T>, N>, Refusal<LockedOf<T>, N>> {
        let identity = greeted.greeted.identity.as_slice();
        let mut admissions = self.admissions.lock(&self.serving.rt);
        admissions.admit(self, chooser, channel, identity)
    }

    /// Reads a link whose connection is up to its end, and keeps the pass of its session.
    fn read_admitted(
        &self,
        chooser: &Chooser,
        mut reader: P::In,
        greeted: ShortGreeted,
        connection: ServedConnection,
        pass: NamedPass<LockedOf<T>, N>,
    ) -> Handed<P, LockedOf<T>, N> {
        let ShortGreeted { greeted } = greeted;
        let NamedPass { mut pass, of: _ } = pass;
        let end = read_link(self, chooser, &mut reader, greeted, connection, &mut pass);
        drop(reader);
        ended_session(self, end, pass)
    }

    /// Admits a link that has signed something, has its writer started, and reads it to its end.
    fn serve_signed(
        &self,
        chooser: &Chooser,
        link: SignedLink<P::In, P::Out>,
        closer: P::Closer,
    ) -> Handed<P, LockedOf<T>, N> {
        let SignedLink {
            channel,
            reader,
            mut writer,
            greeted,
        } = link;
        match self.admit_signed(chooser, channel, &greeted) {
            Ok(
                Admission {
                    number,
                    reading,
                    writing,
                },
            ) => {
                self.hand(Handed::Admitted(AdmittedLink {
                    conn: number,
                    writer,
                    closer,
                    pass: writing,
                }));
                let connection = ServedConnection { number, channel };
                self.read_admitted(chooser, reader, greeted, connection, reading)
            }
            Err(Refusal::Busy) => {
                tell_busy(self.serving.alloc, &mut writer);
                Handed::LinkEnded
            }
            Err(Refusal::Refused) => Handed::LinkEnded,
            Err(Refusal::Halted(halted)) => Handed::Halted(halted),
        }
    }

    /// Serves a link to its end. One that was ended before it signed anything isn't admitted.
    fn serve_link(
        &self,
        chooser: &Chooser,
        link: AcceptedLink<P::In, P::Out>,
    ) -> Handed<P, LockedOf<T>, N> {
        let number = link.number;
        let signed = self.hear_first(link);
        let closer = self.pending.leave(&self.serving.rt, number);
        match (signed, closer) {
            (Some(link), Some(closer)) => self.serve_signed(chooser, link, closer),
            _ => Handed::LinkEnded,
        }
    }
}

impl<P: Port + Drop, T: SessionTypes, N: Naming> ChoosingJob for Linking<P, T, N> {
    fn run(self, chooser: &Chooser) {
        let Linking { shared, link } = self;
        let handed = shared.serve_link(chooser, link);
        shared.hand(handed);
    }
}
