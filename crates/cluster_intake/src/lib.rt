//! What messages mean on the channel of their connection.
//!
//! Each part of a message is read once.
#![tactic(auto)]

ghost use Rattle.std.specs.Prelude.{◌≡◌, ◌⊎◌, ◌==◌, Ok, Err, Some, None, Result, IfOk, IfErr, length, codes};
ghost use Rattle.cluster_defs.specs.Event.{fault_field, event_of_content, request_event, hub_request, hub_event, hub_meaning, submission, submitted, task_event, direct_meta, mux_event, echo_event, replied, reply_event, is_registration, is_echo, engine_event, event_under, event_of};
ghost use Rattle.cluster_intake.specs.Intake.{taken_in};
ghost use Rattle.cluster_defs.specs.Header.{read_header, message_type};
ghost use Rattle.cluster_defs.specs.Hub.{request_of, read_content};
ghost use Rattle.cluster_defs.specs.Reply.{read_reply};
ghost use Rattle.cluster_defs.specs.Submit.{read_submit};

pub mod fault;
pub mod understood;

use cluster_defs::content::{HubContent, SubmitMeta};
use cluster_defs::fault::{Field, ReadError};
use cluster_defs::header::Header;
use cluster_defs::hub_request::RequestType;
use cluster_types::config::Channel;
use cluster_types::event::{Event, Query, Reason, Submission};
use cluster_types::octets::Octets;
use cluster_types::sequence::Sequence;
use cluster_types::shared_message::SharedMessage;
use cluster_types::text::Text;
use fault::IntakeError;
use json::Scratch;
use jupyter_header::header::read_header;
use jupyter_header::hub::read_content;
use jupyter_header::kinds::{is_db, is_leave, is_reply, is_request, request_of};
use jupyter_header::reply::read_reply;
use jupyter_header::submit::{plain_dependency, read_submit};
use std::alloc::{AllocError, Global};
use understood::Understood;

/// The field that a fault names, or the whole part that doesn't read.
fn fault_field(alloc: Global, part: &str, fault: ReadError) -> Result<Field, AllocError>
    ensures { IfOk result (λ f. f ≡ fault_field part.now fault) }
{
    match fault {
        ReadError::Missing(field) => Ok(field),
        ReadError::BadField(field) => Ok(field),
        _ => Text::new(alloc, part),
    }
}

/// What a content asks for.
fn event_of_content(content: HubContent) -> Event
    ensures { result ≡ event_of_content content }
{
    match content {
        HubContent::Connection => Event::Ask(Query::Connection),
        HubContent::History => Event::Ask(Query::History),
        HubContent::Shutdown => Event::Ask(Query::Shutdown),
        HubContent::Queue { targets, verbose } => Event::Ask(Query::Queue { targets, verbose }),
        HubContent::Result { ids, status_only } => Event::Ask(Query::Result { ids, status_only }),
        HubContent::Purge { all, ids } => Event::Purge { all, ids },
        HubContent::Resubmit { ids } => Event::Resubmit { ids },
        HubContent::Abort { ids } => Event::Abort { ids },
        HubContent::Join { uuid } => Event::Join { uuid },
        HubContent::Pong { beat } => Event::Pong { beat },
    }
}

/// What a content asks for, or that it is bad.
fn request_event(
    alloc: Global,
    request: RequestType,
    content: &[u8],
    scratch: &mut Scratch,
) -> Result<Event, AllocError>
    ensures { IfOk result (λ e. e ≡ request_event (read_content request content.now)) }
{
    match read_content(alloc, request, content, scratch) {
        Ok(content) => Ok(event_of_content(content)),
        Err(ReadError::OutOfMemory) => Err(AllocError),
        Err(fault) => {
            let field = fault_field(alloc, "content", fault)?;
            Ok(Event::Ask(Query::Bad { field }))
        }
    }
}

/// The request that the hub knows.
fn hub_request(found: Option<RequestType>) -> Option<RequestType>
    ensures { result ≡ hub_request found }
{
    match found {
        Some(RequestType::Registration | RequestType::Beat) => None,
        _ => found,
    }
}

/// What a request to the hub asks for, by the type that it names.
fn hub_event(
    alloc: Global,
    msg_type: &Text,
    content: &[u8],
    scratch: &mut Scratch,
) -> Result<Event, AllocError>
    ensures { IfOk result (λ e. e ≡ hub_event content.now (hub_request (request_of msg_type.now))) }
{
    match hub_request(request_of(msg_type.as_str())) {
        None => Ok(Event::Ask(Query::Unknown)),
        Some(request) => request_event(alloc, request, content, scratch),
    }
}

/// What a message to the hub asks for. The content of a question to the database is copied as it came, and read when it is
/// answered.
fn hub_meaning(
    alloc: Global,
    msg_type: &Text,
    content: &[u8],
    scratch: &mut Scratch,
) -> Result<Event, AllocError>
    ensures { IfOk result (λ e. e ≡ hub_meaning msg_type.now content.now) }
{
    if is_db(msg_type) {
        let content = Octets::new(alloc, content)?;
        return Ok(Event::Ask(Query::Db { content }));
    }
    let event = hub_event(alloc, msg_type, content, scratch)?;
    Ok(event)
}

/// What a header and metadata say together.
fn submission(header: Header, meta: SubmitMeta) -> Submission
    ensures { result ≡ submission header meta }
{
    Submission {
        id: header.msg_id,
        msg_type: header.msg_type,
        session: header.session,
        username: header.username,
        after: meta.after,
        follow: meta.follow,
        targets: meta.targets,
        timeout: meta.timeout,
        retries: meta.retries,
    }
}

/// The task that a request with this metadata submits, or that the metadata is bad.
fn submitted(
    alloc: Global,
    header: Header,
    metadata: &[u8],
    scratch: &mut Scratch,
) -> Result<Event, AllocError>
    ensures { IfOk result (λ e. e ≡ submitted header (read_submit metadata.now)) }
{
    match read_submit(alloc, metadata, scratch) {
        Ok(meta) => Ok(Event::Submit(submission(header, meta))),
        Err(ReadError::OutOfMemory) => Err(AllocError),
        Err(fault) => {
            let field = fault_field(alloc, "metadata", fault)?;
            Ok(Event::Ask(Query::Bad { field }))
        }
    }
}

/// What a message on the channel of tasks asks for.
fn task_event(
    alloc: Global,
    header: Header,
    metadata: &[u8],
    scratch: &mut Scratch,
) -> Result<Event, IntakeError>
    ensures ok { IfOk result (λ e. task_event header metadata.now ≡ Ok e) }
    ensures err { IfErr result (λ e. (e ≡ IntakeError.OutOfMemory) ⊎ (taken_in (task_event header metadata.now) ≡ Err e)) }
{
    if !is_request(&header.msg_type) {
        return Err(IntakeError::Junk(Reason::BadType));
    }
    let event = submitted(alloc, header, metadata, scratch)?;
    Ok(event)
}

/// The metadata of a request to one engine: it depends on nothing, and is tried once.
fn direct_meta(alloc: Global) -> Result<SubmitMeta, AllocError>
    ensures { IfOk result (λ m. m ≡ direct_meta) }
{
    Ok(SubmitMeta {
        after: plain_dependency(alloc, Sequence::new(alloc))?,
        follow: plain_dependency(alloc, Sequence::new(alloc))?,
        targets: Sequence::new(alloc),
        timeout: 0,
        retries: 0,
    })
}

/// What a message to one engine asks for.
fn mux_event(alloc: Global, header: Header, target: &[u8]) -> Result<Event, IntakeError>
    ensures ok { IfOk result (λ e. mux_event header target.now ≡ Ok e) }
    ensures err { IfErr result (λ e. (e ≡ IntakeError.OutOfMemory) ⊎ (taken_in (mux_event header target.now) ≡ Err e)) }
{
    if !is_request(&header.msg_type) {
        return Err(IntakeError::Junk(Reason::BadType));
    }
    if target.is_empty() {
        return Err(IntakeError::Junk(Reason::NoTarget));
    }
    let meta = direct_meta(alloc)?;
    Ok(Event::Direct(submission(header, meta)))
}

/// The echo of a heartbeat.
fn echo_event(alloc: Global, content: &[u8], scratch: &mut Scratch) -> Result<Event, IntakeError>
    ensures ok { IfOk result (λ e. echo_event (read_content RequestType.Beat content.now) ≡ Ok e) }
    ensures err { IfErr result (λ e. (e ≡ IntakeError.OutOfMemory) ⊎ (taken_in (echo_event (read_content RequestType.Beat content.now)) ≡ Err e)) }
{
    match read_content(alloc, RequestType::Beat, content, scratch) {
        Ok(content) => Ok(event_of_content(content)),
        Err(ReadError::OutOfMemory) => Err(IntakeError::OutOfMemory),
        Err(_) => Err(IntakeError::Junk(Reason::BadReply)),
    }
}

/// The reply to a task.
fn replied(
    alloc: Global,
    header: Header,
    message: &SharedMessage,
    scratch: &mut Scratch,
) -> Result<Event, IntakeError>
    ensures ok { IfOk result (λ e. replied header (read_reply message.now.parent message.now.metadata message.now.content) ≡ Ok e) }
    ensures err { IfErr result (λ e. (e ≡ IntakeError.OutOfMemory) ⊎ (taken_in (replied header (read_reply message.now.parent message.now.metadata message.now.content)) ≡ Err e)) }
{
    let parent = message.parent();
    let metadata = message.metadata();
    match read_reply(alloc, parent, metadata, message.content(), scratch) {
        Ok(meta) => Ok(Event::Reply {
            task: meta.task,
            header_id: header.msg_id,
            ok: meta.ok,
            declined: meta.declined,
        }),
        Err(ReadError::OutOfMemory) => Err(IntakeError::OutOfMemory),
        Err(_) => Err(IntakeError::Junk(Reason::BadReply)),
    }
}

/// A message of an engine that is neither a registration nor an echo.
fn reply_event(
    alloc: Global,
    header: Header,
    message: &SharedMessage,
    scratch: &mut Scratch,
) -> Result<Event, IntakeError>
    ensures ok { IfOk result (λ e. reply_event header message.now ≡ Ok e) }
    ensures err { IfErr result (λ e. (e ≡ IntakeError.OutOfMemory) ⊎ (taken_in (reply_event header message.now) ≡ Err e)) }
{
    if is_leave(&header.msg_type) {
        return Ok(Event::Leave);
    }
    if !is_reply(&header.msg_type) {
        return Err(IntakeError::Junk(Reason::BadType));
    }
    replied(alloc, header, message, scratch)
}

/// Whether a message registers an engine.
fn is_registration(found: Option<RequestType>) -> bool
    ensures { result ≡ is_registration found }
{
    matches!(found, Some(RequestType::Registration))
}

/// Whether a message is the echo of a heartbeat.
fn is_echo(found: Option<RequestType>) -> bool
    ensures { result ≡ is_echo found }
{
    matches!(found, Some(RequestType::Beat))
}

/// What a message of an engine says.
fn engine_event(
    alloc: Global,
    header: Header,
    message: &SharedMessage,
    scratch: &mut Scratch,
) -> Result<Event, IntakeError>
    ensures ok { IfOk result (λ e. engine_event header message.now ≡ Ok e) }
    ensures err { IfErr result (λ e. (e ≡ IntakeError.OutOfMemory) ⊎ (taken_in (engine_event header message.now) ≡ Err e)) }
{
    let request = request_of(header.msg_type.as_str());
    if is_registration(request) {
        let event = request_event(alloc, RequestType::Registration, message.content(), scratch)?;
        return Ok(event);
    }
    if is_echo(request) {
        return echo_event(alloc, message.content(), scratch);
    }
    reply_event(alloc, header, message, scratch)
}

/// What a message with this header means.
fn event_under(
    alloc: Global,
    channel: Channel,
    message: &SharedMessage,
    header: Header,
    scratch: &mut Scratch,
) -> Result<Event, IntakeError>
    ensures ok { IfOk result (λ e. event_under channel message.now (Ok header) ≡ Ok e) }
    ensures err { IfErr result (λ e. (e ≡ IntakeError.OutOfMemory) ⊎ (taken_in (event_under channel message.now (Ok header)) ≡ Err e)) }
{
    let event = match channel {
        Channel::Hub => hub_meaning(alloc, &header.msg_type, message.content(), scratch)?,
        Channel::Task => task_event(alloc, header, message.metadata(), scratch)?,
        Channel::Mux => mux_event(alloc, header, message.target())?,
        Channel::Engine => engine_event(alloc, header, message, scratch)?,
    };
    Ok(event)
}

/// What a message with this header means, and its type.
fn understood_under(
    alloc: Global,
    channel: Channel,
    message: &SharedMessage,
    header: Header,
    scratch: &mut Scratch,
) -> Result<Understood, IntakeError>
    ensures ok { IfOk result (λ u. event_under channel message.now (Ok header) ≡ Ok u.event) }
    ensures kind { IfOk result (λ u. u.msg_type ≡ header.msg_type) }
    ensures err { IfErr result (λ e. (e ≡ IntakeError.OutOfMemory) ⊎ (taken_in (event_under channel message.now (Ok header)) ≡ Err e)) }
{
    let msg_type = header.msg_type.clone()?;
    let event = event_under(alloc, channel, message, header, scratch)?;
    Ok(Understood { event, msg_type })
}

/// What a message on a channel means, and its type, or why it means nothing. The header is read once for both. Texts with escapes stand in
/// `scratch` while they are read, which is of use to keep from message to message.
#[tactic(auto, unfolding(cluster_defs::specs::Event::event_of))]
pub fn understand(
    alloc: Global,
    channel: Channel,
    message: &SharedMessage,
    scratch: &mut Scratch,
) -> Result<Understood, IntakeError>
    ensures ok { IfOk result (λ u. event_of channel message.now ≡ Ok u.event) }
    ensures kind { IfOk result (λ u. u.msg_type ≡ message_type message.now) }
    ensures err { IfErr result (λ e. (e ≡ IntakeError.OutOfMemory) ⊎ (taken_in (event_of channel message.now) ≡ Err e)) }
{
    match read_header(alloc, message.header(), scratch) {
        Ok(header) => understood_under(alloc, channel, message, header, scratch),
        Err(ReadError::OutOfMemory) => Err(IntakeError::OutOfMemory),
        Err(_) => Err(IntakeError::Junk(Reason::BadHeader)),
    }
}

/// What a message on a channel means, or why it means nothing.
pub fn event_of(
    alloc: Global,
    channel: Channel,
    message: &SharedMessage,
) -> Result<Event, IntakeError>
    ensures ok { IfOk result (λ e. event_of channel message.now ≡ Ok e) }
    ensures err { IfErr result (λ e. (e ≡ IntakeError.OutOfMemory) ⊎ (taken_in (event_of channel message.now) ≡ Err e)) }
{
    let mut scratch = Scratch::new(alloc);
    let understood = understand(alloc, channel, message, &mut scratch)?;
    Ok(understood.event)
}
