//! A client of the cluster.

ghost use Rattle.std.specs.Prelude.{◌≡◌, ◌⊎◌, ◌↔◌, ◌≤◌, [], true, false, Ok, Err, IfOk, IfErr, OnOk, OnErr};
ghost use Rattle.cluster_types.specs.Limits.{last_moment};
ghost use Rattle.cluster_defs.specs.Submit.{read_submit};
ghost use Rattle.client_core.specs.Limits.{is_within_limits, is_engine};
ghost use Rattle.client_core.specs.Messages.{task_request, engine_request, hub_request, meta_once};
ghost use Rattle.client_core.specs.declared.stand.Stand.TheVariants.{Unsettled};
ghost use Rattle.client_core.specs.Clients.{is_used, is_outstanding, is_watched, noted, unsettled, with_stand};
ghost use Rattle.client_core.specs.Noting.{note_of};
ghost use Rattle.client_core.specs.Numbers.{numbered};
ghost use Rattle.client_core.specs.Sending.{request_of, message_of, sent, after_sending};
ghost use Rattle.client_core.specs.Taking.{took, after_taking};

use crate::answers::answered_in;
use crate::error::SubmitError;
use crate::identifier::client_id;
use crate::noted::Noted;
use crate::notes::Notes;
use crate::numbered::numbered;
use crate::refusal::WatchRefusal;
use crate::request::{Request, message_under};
use crate::stand::Stand;
use crate::taking::took;
use crate::task::Task;
use crate::texts::{execute_content, submit_metadata};
use crate::took::Took;
use crate::used::{keep, note, settle, stand_in};
use crate::watcher::{Done, Watcher};
use cluster_defs::content::SubmitMeta;
use cluster_types::shared_message::SharedMessage;
use cluster_types::text::Text;
use json::Scratch;
use std::alloc::{AllocError, Global};
use std::collections::BTreeMap;
use std::marker::Model;

/// The type of a request to run code.
const EXECUTE_REQUEST: &str = "execute_request";

/// The metadata of a request that is no task.
const NO_METADATA: &str = "{}";

/// The requests of a client, each task of which can have a watcher. Contracts see the session and the ids that were used,
/// each with how its task stands.
#[derive(Drop)]
pub struct Requests<W> {
    session: Text,
    /// The task of each used id.
    used: BTreeMap<String, Task<W>>,
    /// How many of these tasks aren't settled.
    outstanding: usize,
    /// Texts with escapes, while a message is read.
    scratch: Scratch,
    alloc: Global,
}

impl<W> Model for Requests<W> {
    ghost use Rattle.client_core.specs.Clients.{Known, used_in, unsettled};
    ghost use Rattle.std.specs.Prelude.{◌≡◌};

    ghost Value = { Known };

    ghost view = { λ c. record { session = c.session; used = used_in c.used.entries } };

    ghost invariant = { λ c. c.outstanding ≡ unsettled (used_in c.used.entries) };
}

/// A client, whose watchers are stored closures.
pub type Client = Requests<Watcher>;

impl<W: Notes> Requests<W> {
    /// A client that used no id. `session` stands in its messages as the session and as the user.
    pub fn new(alloc: Global, session: &str) -> Result<Requests<W>, AllocError>
        ensures { IfOk result (λ c. c ≡ record { session = session.now; used = [] }) }
    {
        Ok(Requests {
            session: Text::new(alloc, session)?,
            used: BTreeMap::new(alloc),
            outstanding: 0,
            scratch: Scratch::new(alloc),
            alloc,
        })
    }

    /// A request under the id of the random octets, which is noted.
    fn send(
        &mut self,
        random: [u8; 16],
        moment: u64,
        request: &Request<'_>,
    ) -> Result<SharedMessage, SubmitError>
        requires { moment ≤ last_moment }
        ensures ok { IfOk result (λ m. sent self.old random moment (request_of request.now) ≡ Ok m) }
        ensures err { IfErr result (λ e. (e ≡ SubmitError.OutOfMemory) ⊎ (sent self.old random moment (request_of request.now) ≡ Err e)) }
        ensures noted { OnOk result (self.new ≡ after_sending self.old random) }
        ensures same { OnErr result (self.new ≡ self.old) }
    {
        let id = client_id(self.alloc, random)?;
        if stand_in(&self.used, id.as_str()).is_some() {
            return Err(SubmitError::KnownId);
        }
        let session = self.session.as_str();
        let message = message_under(self.alloc, session, id.as_str(), moment, request)?;
        note(
            &mut self.used,
            &mut self.outstanding,
            self.alloc,
            id.as_str(),
        )?;
        Ok(message)
    }

    /// A task for any engine that its metadata lets it run on. Its id is the UUID of the random octets, and the moment is in
    /// milliseconds since 1970-01-01T00:00:00Z.
    #[tactic(auto, unfolding(crate::specs::Messages::execute_request, cluster_defs::specs::Texts::empty_object))]
    pub fn submit(
        &mut self,
        code: &str,
        meta: &SubmitMeta,
        random: [u8; 16],
        moment: u64,
    ) -> Result<SharedMessage, SubmitError>
        requires moment { moment ≤ last_moment }
        requires limits { is_within_limits meta.now ≡ true }
        ensures ok { IfOk result (λ m. sent self.old random moment (task_request meta.now code.now) ≡ Ok m) }
        ensures err { IfErr result (λ e. (e ≡ SubmitError.OutOfMemory) ⊎ (sent self.old random moment (task_request meta.now code.now) ≡ Err e)) }
        ensures noted { OnOk result (self.new ≡ after_sending self.old random) }
        ensures same { OnErr result (self.new ≡ self.old) }
        ensures reads { IfOk result (λ m. read_submit m.metadata ≡ Ok (meta_once meta.now)) }
    {
        let metadata = submit_metadata(self.alloc, meta)?;
        let content = execute_content(self.alloc, code)?;
        let request = Request {
            target: "",
            msg_type: EXECUTE_REQUEST,
            metadata: metadata.as_str(),
            content: content.as_str(),
        };
        self.send(random, moment, &request)
    }

    /// A task under the id of a number.
    pub fn submit_numbered(
        &mut self,
        code: &str,
        meta: &SubmitMeta,
        number: u64,
        moment: u64,
    ) -> Result<SharedMessage, SubmitError>
        requires moment { moment ≤ last_moment }
        requires limits { is_within_limits meta.now ≡ true }
        ensures ok { IfOk result (λ m. sent self.old (numbered number) moment (task_request meta.now code.now) ≡ Ok m) }
        ensures err { IfErr result (λ e. (e ≡ SubmitError.OutOfMemory) ⊎ (sent self.old (numbered number) moment (task_request meta.now code.now) ≡ Err e)) }
        ensures noted { OnOk result (self.new ≡ after_sending self.old (numbered number)) }
        ensures same { OnErr result (self.new ≡ self.old) }
        ensures reads { IfOk result (λ m. read_submit m.metadata ≡ Ok (meta_once meta.now)) }
    {
        self.submit(code, meta, numbered(number), moment)
    }

    /// A request to one engine, which is named by its uuid. Its id is the UUID of the random octets, and the moment is in
    /// milliseconds since 1970-01-01T00:00:00Z.
    #[tactic(auto, unfolding(crate::specs::Messages::execute_request, cluster_defs::specs::Texts::empty_object))]
    pub fn direct(
        &mut self,
        engine: &str,
        code: &str,
        random: [u8; 16],
        moment: u64,
    ) -> Result<SharedMessage, SubmitError>
        requires moment { moment ≤ last_moment }
        requires engine { is_engine engine.now ≡ true }
        ensures ok { IfOk result (λ m. sent self.old random moment (engine_request engine.now code.now) ≡ Ok m) }
        ensures err { IfErr result (λ e. (e ≡ SubmitError.OutOfMemory) ⊎ (sent self.old random moment (engine_request engine.now code.now) ≡ Err e)) }
        ensures noted { OnOk result (self.new ≡ after_sending self.old random) }
        ensures same { OnErr result (self.new ≡ self.old) }
    {
        let content = execute_content(self.alloc, code)?;
        let request = Request {
            target: engine,
            msg_type: EXECUTE_REQUEST,
            metadata: NO_METADATA,
            content: content.as_str(),
        };
        self.send(random, moment, &request)
    }

    /// A request to the hub. Its id is the UUID of the random octets, and isn't kept, so that the answer is a
    /// stranger's unless a task has the same id. The moment is in milliseconds since 1970-01-01T00:00:00Z.
    #[tactic(auto, unfolding(cluster_defs::specs::Texts::empty_object))]
    pub fn ask(
        &self,
        msg_type: &str,
        content: &str,
        random: [u8; 16],
        moment: u64,
    ) -> Result<SharedMessage, AllocError>
        requires { moment ≤ last_moment }
        ensures { IfOk result (λ m. m ≡ message_of self.now random moment (hub_request msg_type.now content.now)) }
    {
        let id = client_id(self.alloc, random)?;
        let request = Request {
            target: "",
            msg_type,
            metadata: NO_METADATA,
            content,
        };
        let session = self.session.as_str();
        message_under(self.alloc, session, id.as_str(), moment, &request)
    }

    /// What a message is to this client. An outcome settles its task, and the closure that is kept for the task is called.
    pub fn take(&mut self, message: &SharedMessage) -> Result<Took, AllocError>
        ensures took { IfOk result (λ t. t ≡ took self.old.used message.now) }
        ensures settled { IfOk result (λ t. self.new ≡ after_taking self.old message.now t) }
        ensures same { OnErr result (self.new ≡ self.old) }
    {
        let took = took(self.alloc, &self.used, message, &mut self.scratch)?;
        if let Took::Settled { id, ok } = &took {
            let answered = answered_in(self.alloc, message.content(), &mut self.scratch)?;
            settle(
                &mut self.used,
                &mut self.outstanding,
                id.as_str(),
                answered,
                *ok,
            );
        }
        Ok(took)
    }

    /// The note of a task that was watched when it settled.
    pub fn noted(&self, id: &Text) -> Option<Noted>
        ensures { result ≡ noted self.now.used id.now }
    {
        match stand_in(&self.used, id.as_str()) {
            Some(Stand::Settled(noted)) => noted,
            Some(Stand::Unsettled { watched: _ }) | None => None,
        }
    }

    /// Whether this client used an id.
    pub fn is_used(&self, id: &Text) -> bool
        ensures { result ≡ is_used self.now.used id.now }
    {
        stand_in(&self.used, id.as_str()).is_some()
    }

    /// How many tasks of this client aren't settled.
    pub fn outstanding(&self) -> usize
        ensures { result ≡ unsettled self.now.used }
    {
        self.outstanding
    }
}

impl Client {
    /// Keeps a closure for a task that is outstanding, until the task settles. The closure notes each answer and flag.
    pub fn watch(&mut self, id: &Text, done: Done) -> Result<(), WatchRefusal>
        requires callable { (answered : _) (ok : _) → Done.pre done answered ok }
        requires right { (answered : _) (ok : _) (noted : _) → Done.post done answered ok noted → noted ≡ note_of answered ok }
        ensures ok { OnOk result (self.new ≡ record self.old { used = with_stand self.old.used id.now (Unsettled true) }) }
        ensures not_outstanding { (result ≡ Err (WatchRefusal.NotOutstanding done)) ↔ (is_outstanding self.old.used id.now ≡ false) }
        ensures watched { (result ≡ Err (WatchRefusal.Watched done)) ↔ (is_watched self.old.used id.now ≡ true) }
        ensures err { IfErr result (λ e. (e ≡ WatchRefusal.NotOutstanding done) ⊎ (e ≡ WatchRefusal.Watched done)) }
        ensures same { OnErr result (self.new ≡ self.old) }
    {
        match stand_in(&self.used, id.as_str()) {
            Some(Stand::Unsettled { watched: false }) => {
                keep(&mut self.used, id.as_str(), Watcher::new(done));
                Ok(())
            }
            Some(Stand::Unsettled { watched: true }) => Err(WatchRefusal::Watched(done)),
            Some(Stand::Settled(_)) | None => Err(WatchRefusal::NotOutstanding(done)),
        }
    }
}
