//! Codes that are sent over a client.

ghost use Rattle.std.specs.Prelude.{◌≡◌, ◌⊎◌, ◌≤◌, ◌<◌, ◌+◌, ◌^◌, Ok, Err, length, IfOk, IfErr, OnOk, OnErr};
ghost use Rattle.cluster_types.specs.Limits.{last_moment};
ghost use Rattle.client_core.specs.declared.error.SubmitError.{SubmitError};
ghost use Rattle.client_core.specs.Submissions.{are_within, sent_all, after_numbers, HasFront};
ghost use Rattle.array_maps.specs.Gathering.{plain_submissions, awaited};

use crate::codes::Codes;
use crate::gathered::Gathered;
use client_core::client::Requests;
use client_core::error::{Messages, SendError};
use client_core::metadata::plain_meta;
use client_core::notes::Notes;
use client_core::submissions::{Submission, Submissions};
use cluster_types::sequence::Sequence;
use std::alloc::{AllocError, Global};

/// The tasks of codes, which ask for nothing else.
fn plain_submissions(alloc: Global, codes: &Codes) -> Result<Submissions, AllocError>
    ensures { IfOk result (λ submissions. submissions ≡ plain_submissions codes.now) }
{
    let mut submissions = Sequence::new(alloc);
    for code in codes.as_slice() {
        submissions.push(Submission {
            code: code.clone()?,
            meta: plain_meta(alloc),
        })?;
    }
    Ok(submissions)
}

/// Submits codes under the ids of numbers from a first one on, unless the client used one of these ids: the messages that
/// are to be sent, and what gathers the answers. After want of memory the client may have used the first of these ids.
pub fn send<W: Notes>(
    alloc: Global,
    client: &mut Requests<W>,
    codes: &Codes,
    first: u64,
    moment: u64,
) -> Result<(Gathered, Messages), SendError>
    requires moment { moment ≤ last_moment }
    requires numbers { first + length codes.now < 2 ^ 32 }
    ensures gathered { IfOk result (λ s. s.0 ≡ awaited first (length codes.now)) }
    ensures ok { IfOk result (λ s. sent_all client.old first moment (plain_submissions codes.now) ≡ Ok s.1) }
    ensures err { IfErr result (λ e. (e ≡ SubmitError.OutOfMemory) ⊎ (sent_all client.old first moment (plain_submissions codes.now) ≡ Err e)) }
    ensures noted { OnOk result (client.new ≡ after_numbers client.old first (length codes.now)) }
    ensures known { result ≡ Err SubmitError.KnownId → client.new ≡ client.old }
    ensures front { OnErr result (HasFront client.old first (length codes.now) client.new) }
{
    let submissions = plain_submissions(alloc, codes)?;
    let gathered = Gathered::new(alloc, first, codes.len())?;
    let messages = client.submit_all(alloc, &submissions, first, moment)?;
    Ok((gathered, messages))
}
