//! Requests that were accepted.

use crate::connection::Owner;
use cluster_types::event::Dep;
use cluster_types::message::{Engines, Ids};
use cluster_types::shared_message::SharedMessage;
use cluster_types::text::Text;
use std::marker::Model;

/// An accepted request, which contracts see as what it says and what it passes on unread: both lie in its message, in
/// one block.
#[derive(Clone, Debug)]
pub struct WholeRequest {
    pub owner: Option<Owner>,
    /// Of a direct request its engine, of any other none.
    pub direct_to: Option<u32>,
    /// The message that is handed out: its header is a new one in a copy that a resubmission makes.
    pub message: SharedMessage,
    pub msg_type: Text,
    pub session: Text,
    pub username: Text,
    pub after: Dep,
    pub follow: Dep,
    /// The uuids of its targets; an empty list is no restriction.
    pub listed: Ids,
    /// The engines live at acceptance whose uuid is listed.
    pub targets: Engines,
    /// The moment of the entry that accepted it, in milliseconds.
    pub accepted_at: u64,
    /// In seconds; 0 is none.
    pub timeout: u64,
    pub retries: u32,
    /// Whether a dependency lists its own id, or one that wasn't known before.
    pub invalid: bool,
}

impl Model for WholeRequest {
    ghost use Rattle.cluster_defs.specs.Requests.{WholeRequest, body_of};

    ghost Value = { WholeRequest };

    ghost view = { λ r. record { request = record { owner = r.owner; direct_to = r.direct_to; target = r.message.target; msg_type = r.msg_type; session = r.session; username = r.username; header = r.message.header; parent = r.message.parent; metadata = r.message.metadata; after = r.after; follow = r.follow; listed = r.listed; targets = r.targets; accepted_at = r.accepted_at; timeout = r.timeout; retries = r.retries; invalid = r.invalid }; body = body_of r.message } };
}

// Written out, so that what lets one go is proved over one call, and not case by case.
impl Drop for WholeRequest {
    fn drop(self) {
        let WholeRequest {
            owner,
            direct_to: _,
            message,
            msg_type,
            session,
            username,
            after,
            follow,
            listed,
            targets,
            accepted_at: _,
            timeout: _,
            retries: _,
            invalid: _,
        } = self;
        drop(owner);
        drop(message);
        drop(msg_type);
        drop(session);
        drop(username);
        drop(after);
        drop(follow);
        drop(listed);
        drop(targets);
    }
}
