//! The two sessions of a link whose connection is up.

ghost use Rattle.std.specs.Prelude.{All};
ghost use Rattle.history_lock.specs.Names.{known};
ghost use Rattle.zmtp_peer.specs.Limits.{IsShortMessage};
ghost use Rattle.controller_threads.specs.Ends.{SessionCause};
ghost use Rattle.controller_threads.specs.Passes.{IsSince};

use crate::closing::Closer;
use crate::halt::Halt;
use crate::handed::Handed;
use crate::naming::Naming;
use crate::passes::{Halted, NamedPass};
use crate::port::Port;
use crate::shared::Shared;
use link_messages::end::SessionEnd;
use link_messages::greeting::Greeted;
use load_schemes::chooser::Chooser;
use session_threads::connection::ServedConnection;
use session_threads::context::{LockedOf, PassOf, SessionTypes};
use session_threads::reading::read_session;
use session_threads::writing::write_session;
use std::alloc::Global;
use std::sync::{Arc, Wait};
use thread_edges::spawner::Job;

/// Writes to a link.
#[derive(Drop)]
pub struct WritingSession<P: Port, T: SessionTypes, N: Naming> {
    pub shared: Arc<Shared<P, T, N>, Global>,
    pub writer: P::Out,
    pub conn: u32,
}

/// Reads a link to its end.
pub fn read_link<P: Port + Drop, T: SessionTypes, N: Naming>(
    shared: &Shared<P, T, N>,
    chooser: &Chooser,
    reader: &mut P::In,
    greeted: Greeted,
    connection: ServedConnection,
    pass: &mut PassOf<T>,
) -> SessionEnd
    requires since { IsSince N.lock N.start pass.old }
    requires short { All IsShortMessage greeted.early }
    ensures since { IsSince N.lock N.start pass.new }
    ensures cause { SessionCause result N.start (known pass.new).seen }
{
    let context = shared.context();
    read_session(&context, chooser, reader, greeted, pass, connection)
}

/// Writes to a link until its connection isn't live.
fn write_link<P: Port + Drop, T: SessionTypes, N: Naming>(
    shared: &Shared<P, T, N>,
    writer: &mut P::Out,
    conn: u32,
    pass: &mut PassOf<T>,
)
    requires since { IsSince N.lock N.start pass.old }
    ensures since { IsSince N.lock N.start pass.new }
{
    let context = shared.context();
    let _ = write_session(&context, writer, pass, conn);
}

/// What the end of a session that reads is handed over as. Its pass is kept.
pub fn ended_session<P: Port + Drop, T: SessionTypes, N: Naming>(
    shared: &Shared<P, T, N>,
    end: SessionEnd,
    pass: PassOf<T>,
) -> Handed<P, LockedOf<T>, N>
    requires since { IsSince N.lock N.start pass }
    requires cause { SessionCause end N.start (known pass).seen }
{
    match end {
        SessionEnd::HistoryFull { entries, bytes } => {
            Handed::Halted(Halted::new(Halt::HistoryFull { entries, bytes }, pass))
        }
        _ => {
            shared.keep_pass(NamedPass::new(pass));
            Handed::LinkEnded
        }
    }
}

impl<P: Port + Drop, T: SessionTypes, N: Naming> Shared<P, T, N> {
    /// Keeps a pass that is free again.
    pub fn keep_pass(&self, pass: NamedPass<LockedOf<T>, N>) {
        self.admissions.lock(&self.serving.rt).keep(pass);
    }

    /// A pass for a session, where there is one.
    fn take_pass(&self) -> Option<NamedPass<LockedOf<T>, N>> {
        self.admissions.lock(&self.serving.rt).take(self)
    }

    /// Ends a link whose session that writes couldn't be started.
    pub fn end_unwritten(&self, conn: u32, closer: &P::Closer) {
        self.writers.remove(&self.serving.rt, conn);
        closer.close();
    }

    /// Writes to a link until its connection isn't live, with a pass for its session.
    fn write_admitted(&self, writer: &mut P::Out, conn: u32) {
        if let Some(NamedPass { mut pass, of: _ }) = self.take_pass() {
            write_link(self, writer, conn, &mut pass);
            self.keep_pass(NamedPass::new(pass));
        }
    }
}

impl<P: Port + Drop, T: SessionTypes, N: Naming> Job for WritingSession<P, T, N> {
    /// Once it writes no more the link is ended, so that nobody reads it on.
    fn run(self) {
        let WritingSession {
            shared,
            mut writer,
            conn,
        } = self;
        shared.write_admitted(&mut writer, conn);
        P::close(&writer);
        drop(writer);
        shared.writers.remove(&shared.serving.rt, conn);
        shared.hand(Handed::WriterEnded);
    }
}
