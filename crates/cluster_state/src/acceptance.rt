//! Requests for tasks: which are accepted, and what they make.

ghost use Rattle.std.specs.Prelude.{◌≡◌, ◌+◌, ◌++◌, ◌∷◌, ◌||◌, ◌&&◌, not, [], map, filter, length, is_none, is_some, IfOk, OnOk, Some, None, option_map, bytes_eq, take, ℕ, List, if◌then◌else◌};
ghost use Rattle.std.specs.BTreeMap.{get_by};
ghost use Rattle.std.specs.Cmp.Lexicographic.{slice_cmp};
ghost use Rattle.std.specs.Ordering.{nat_cmp};
ghost use Rattle.std.specs.Option.{option_copied};
ghost use Rattle.std.specs.List.{list_any};
ghost use Rattle.cluster_defs.specs.Words.{is_listed, same_lists, alike, begins_with};
ghost use Rattle.cluster_types.specs.declared.event.Submission.{Submission};
ghost use Rattle.cluster_defs.specs.Connections.{connection_on, peer_on};
ghost use Rattle.cluster_defs.specs.Engines.{engine_named};
ghost use Rattle.cluster_defs.specs.Requests.{targets_of, is_invalid, body_of};
ghost use Rattle.cluster_defs.specs.Acceptance.{Demand, acceptance, acceptance_new, is_same, is_accepted, accepted_as, no_dependency, request_plain, request_submit, request_direct, request_made, reserved_front};
ghost use Rattle.task_table.specs.Seen.{Seen, begun};
ghost use Rattle.cluster_state.specs.Plain.{facts_in, accepted_by};
ghost use Rattle.cluster_state.specs.Stands.{plain};

use crate::state::State;
use cluster_defs::acceptance::Acceptance;
use cluster_defs::connection::{Connection, Owner};
use cluster_defs::engine::Engine;
use cluster_defs::request::WholeRequest;
use cluster_types::event::{Dep, Submission};
use cluster_types::limits::MOST_IDS;
use cluster_types::message::{Engines, Ids};
use cluster_types::octets::Octets;
use cluster_types::shared_message::SharedMessage;
use cluster_types::text::Text;
use std::alloc::{AllocError, Global};
use std::collections::BTreeMap;
use task_table::attempts::one_more;
use task_table::task::Task;
use task_table::tasks::Tasks;

/// The live connection of a number.
pub fn connection_on(live: &[Connection], conn: u32) -> Option<&Connection>
    ensures { option_copied result ≡ connection_on live.now conn }
{
    live.iter().find(|c| c.number == conn)
}

/// Who speaks on a connection.
fn owner_on(live: &[Connection], conn: u32) -> Result<Option<Owner>, AllocError>
    ensures { IfOk result (λ o. o ≡ peer_on live.now conn) }
{
    match connection_on(live, conn) {
        Some(connection) => Ok(Some(Owner {
            channel: connection.channel,
            identity: connection.identity.clone()?,
        })),
        None => Ok(None),
    }
}

/// Whether an id is among those that the controller gives itself.
#[tactic(auto, unfolding(cluster_defs::specs::Acceptance::reserved_front))]
fn is_reserved(id: &Text) -> bool
    ensures { result ≡ begins_with reserved_front id.now }
{
    id.as_slice().starts_with(b"resubmit:")
}

fn is_listed(id: &Text, ids: &[Text]) -> bool
    ensures { result ≡ is_listed id.now ids.now }
{
    ids.iter().any(|i| i.is(id))
}

/// Whether two lists of buffers are the same.
fn same_buffers(a: &[Octets], b: &[Octets]) -> bool
    ensures { result ≡ same_lists a.now b.now }
{
    if a.len() != b.len() {
        return false;
    }
    for place in 0..a.len() {
        if !a[place].is(&b[place]) {
            return false;
        }
    }
    true
}

fn alike(a: bool, b: bool) -> bool
    ensures { result ≡ alike a b }
{
    if a { b } else { !b }
}

/// Whether a request is the one that made a task: the same kind, target, type, metadata, content and buffers.
fn is_same(direct: bool, submission: &Submission, message: &SharedMessage, task: &Task) -> bool
    ensures { result ≡ is_same (record { direct = direct; submission = submission.now }) message.now task.now.request task.now.body }
{
    let request = task.request();
    let made = &request.message;
    alike(direct, request.direct_to.is_some())
        && made.target() == message.target()
        && request.msg_type.is(&submission.msg_type)
        && made.metadata() == message.metadata()
        && made.content() == message.content()
        && same_buffers(made.buffers().as_slice(), message.buffers().as_slice())
}

/// The texts of a list as a set.
fn set_of<'a>(alloc: Global, texts: &'a [Text]) -> Result<BTreeMap<&'a str, ()>, AllocError>
    ensures { IfOk result (λ set. (q : List ℕ) → is_some (get_by (λ k. slice_cmp nat_cmp q k.now) set) ≡ is_listed q texts.now) }
{
    let mut set = BTreeMap::new(alloc);
    for text in texts {
        set.insert(text.as_str(), ())?;
    }
    Ok(set)
}

fn is_in(set: &BTreeMap<&str, ()>, text: &Text) -> bool
    ensures { result ≡ is_some (get_by (λ k. slice_cmp nat_cmp text.now k.now) set.now) }
{
    set.contains_key(text.as_str())
}

/// Puts a number at the end of a list, where it is wanted there.
fn push_if(numbers: &mut Engines, wanted: bool, number: u32) -> Result<(), AllocError>
    ensures { OnOk result (numbers.new ≡ numbers.old ++ (if wanted then number ∷ [] else [])) }
{
    if wanted {
        numbers.push(number)?;
    }
    Ok(())
}

/// The numbers of the engines whose uuid is listed. Each engine is looked up once among the uuids.
pub fn targets_of(alloc: Global, live: &[Engine], uuids: &[Text]) -> Result<Engines, AllocError>
    ensures { IfOk result (λ t. t ≡ targets_of live.now uuids.now) }
{
    let mut targets = Engines::new(alloc);
    if uuids.is_empty() {
        return Ok(targets);
    }
    let listed = set_of(alloc, uuids)?;
    for engine in live {
        push_if(&mut targets, is_in(&listed, &engine.uuid), engine.number)?;
    }
    Ok(targets)
}

/// Whether an id is known.
pub fn is_known(tasks: &Tasks, id: &Text) -> bool
    ensures { result ≡ is_listed id.now (map (λ t. t.row.id) tasks.now) }
{
    tasks.find(id).is_some()
}

/// Whether a list names an id itself, or one that isn't known.
fn names_unknown(tasks: &Tasks, id: &Text, ids: &[Text]) -> bool
    ensures { result ≡ list_any (λ i. bytes_eq i id.now || not (is_listed i (map (λ t. t.row.id) tasks.now))) ids.now }
{
    ids.iter().any(|i| i.is(id) || !is_known(tasks, i))
}

/// Whether a dependency names the task's own id, or one that isn't known.
pub fn is_invalid(tasks: &Tasks, id: &Text, after: &Dep, follow: &Dep) -> bool
    ensures { result ≡ is_invalid (map (λ t. t.row.id) tasks.now) id.now after.now follow.now }
{
    names_unknown(tasks, id, after.ids.as_slice())
        || names_unknown(tasks, id, follow.ids.as_slice())
}

/// The empty dependency.
fn no_dependency(alloc: Global) -> Dep
    ensures { result ≡ no_dependency }
{
    Dep {
        ids: Ids::new(alloc),
        all: true,
        success: true,
        failure: false,
    }
}

/// A text, shared with another one where the two are the same, so that what the requests of a session repeat is held
/// once.
fn same_or(other: &Text, text: &Text) -> Result<Text, AllocError>
    ensures { IfOk result (λ t. t ≡ text.now) }
{
    if other.is(text) {
        return other.clone();
    }
    text.clone()
}

/// The type, the session and the username of a request, shared with those of another one where they are the same.
fn words_of(other: Option<&Task>, submission: &Submission) -> Result<(Text, Text, Text), AllocError>
    ensures { IfOk result (λ w. w ≡ (submission.now.msg_type, submission.now.session, submission.now.username)) }
{
    match other {
        Some(task) => {
            let request = task.request();
            Ok((
                same_or(&request.msg_type, &submission.msg_type)?,
                same_or(&request.session, &submission.session)?,
                same_or(&request.username, &submission.username)?,
            ))
        }
        None => Ok((
            submission.msg_type.clone()?,
            submission.session.clone()?,
            submission.username.clone()?,
        )),
    }
}

impl State {
    /// Of an id that isn't known.
    fn acceptance_new(&self, direct: bool, message: &SharedMessage) -> Acceptance
        ensures { (submission : Submission) → result ≡ acceptance_new (facts_in (plain self.now)) (record { direct = direct; submission = submission }) message.now }
    {
        if direct && self.engines.named(message.target()).is_none() {
            Acceptance::NoSuchEngine
        } else if self.tasks.len() >= MOST_IDS {
            Acceptance::Full
        } else {
            Acceptance::Accepted
        }
    }

    /// The first case that fits a request for a task, direct or not.
    pub fn acceptance(
        &self,
        direct: bool,
        submission: &Submission,
        message: &SharedMessage,
    ) -> Acceptance
        ensures { result ≡ acceptance (facts_in (plain self.now)) (record { direct = direct; submission = submission.now }) message.now }
    {
        if is_reserved(&submission.id) {
            return Acceptance::Reserved;
        }
        match self.tasks.find(&submission.id) {
            Some(task) if task.row().purged => Acceptance::Purged,
            Some(task) => Acceptance::Again {
                repeat: is_same(direct, submission, message, task),
            },
            None => self.acceptance_new(direct, message),
        }
    }

    /// What both kinds of requests have.
    fn request_plain(
        &self,
        conn: u32,
        moment: u64,
        message: &SharedMessage,
        submission: &Submission,
    ) -> Result<WholeRequest, AllocError>
        ensures value { IfOk result (λ r. r.request ≡ request_plain (facts_in (plain self.now)) conn moment message.now submission.now) }
        ensures message { IfOk result (λ r. r.body ≡ body_of message.now) }
    {
        let alloc = self.allocator();
        let (msg_type, session, username) = words_of(self.tasks.as_slice().last(), submission)?;
        Ok(WholeRequest {
            owner: owner_on(&self.connections, conn)?,
            direct_to: None,
            message: message.clone()?,
            msg_type,
            session,
            username,
            after: no_dependency(alloc),
            follow: no_dependency(alloc),
            listed: Ids::new(alloc),
            targets: Engines::new(alloc),
            accepted_at: moment,
            timeout: 0,
            retries: 0,
            invalid: false,
        })
    }

    fn request_submit(
        &self,
        conn: u32,
        moment: u64,
        message: &SharedMessage,
        submission: &Submission,
    ) -> Result<WholeRequest, AllocError>
        ensures value { IfOk result (λ r. r.request ≡ request_submit (facts_in (plain self.now)) conn moment message.now submission.now) }
        ensures message { IfOk result (λ r. r.body ≡ body_of message.now) }
    {
        let mut request = self.request_plain(conn, moment, message, submission)?;
        request.after = submission.after.clone()?;
        request.follow = submission.follow.clone()?;
        request.listed = submission.targets.clone()?;
        request.targets = targets_of(
            self.allocator(),
            self.engines.as_slice(),
            submission.targets.as_slice(),
        )?;
        request.timeout = submission.timeout;
        request.retries = submission.retries;
        request.invalid = is_invalid(
            &self.tasks,
            &submission.id,
            &submission.after,
            &submission.follow,
        );
        Ok(request)
    }

    fn request_direct(
        &self,
        conn: u32,
        moment: u64,
        message: &SharedMessage,
        submission: &Submission,
    ) -> Result<WholeRequest, AllocError>
        ensures value { IfOk result (λ r. r.request ≡ request_direct (facts_in (plain self.now)) conn moment message.now submission.now) }
        ensures message { IfOk result (λ r. r.body ≡ body_of message.now) }
    {
        let mut request = self.request_plain(conn, moment, message, submission)?;
        request.direct_to = match self.engines.named(message.target()) {
            Some(engine) => Some(engine.number),
            None => None,
        };
        Ok(request)
    }

    fn request_made(
        &self,
        conn: u32,
        moment: u64,
        message: &SharedMessage,
        direct: bool,
        submission: &Submission,
    ) -> Result<WholeRequest, AllocError>
        ensures value { IfOk result (λ r. r.request ≡ request_made (facts_in (plain self.now)) conn moment message.now (record { direct = direct; submission = submission.now })) }
        ensures message { IfOk result (λ r. r.body ≡ body_of message.now) }
    {
        if direct {
            let request = self.request_direct(conn, moment, message, submission)?;
            Ok(request)
        } else {
            let request = self.request_submit(conn, moment, message, submission)?;
            Ok(request)
        }
    }

    /// Adds a task under the next number.
    pub fn begin(&mut self, id: &Text, request: WholeRequest) -> Result<(), AllocError>
        ensures { OnOk result (plain self.new ≡ record (plain self.old) { tasks = self.old.tasks ++ begun id.now (length self.old.tasks + 1) request.request request.body ∷ [] }) }
    {
        let number = one_more(self.tasks.len() as u64)?;
        let task = Task::new(self.allocator(), id, number, request)?;
        self.tasks.push(task)
    }

    /// Takes a request for a task, where it is accepted, and tells whether it is.
    pub fn take_demand(
        &mut self,
        conn: u32,
        moment: u64,
        message: &SharedMessage,
        direct: bool,
        submission: &Submission,
        accepted: bool,
    ) -> Result<bool, AllocError>
        ensures told { IfOk result (λ b. b ≡ accepted) }
        ensures after { OnOk result (plain self.new ≡ accepted_by (if accepted then Some (record { direct = direct; submission = submission.now }) else None) (request_made (facts_in (plain self.old)) conn moment message.now) (body_of message.now) (plain self.old)) }
    {
        if !accepted {
            return Ok(false);
        }
        let request = self.request_made(conn, moment, message, direct, submission)?;
        self.begin(&submission.id, request)?;
        Ok(true)
    }
}
