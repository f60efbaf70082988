//! The answer to a query.

ghost use Rattle.std.specs.Prelude.{◌≡◌, ◌⊎◌, ◌&&◌, [], true, false, Err, length, nat_lt, IfOk, IfErr, codes};
ghost use Rattle.cluster_types.specs.Limits.{body_limit};
ghost use Rattle.cluster_defs.specs.Queries.{plain, is_too_long};
ghost use Rattle.cluster_defs.specs.Event.{fault_field};
ghost use Rattle.cluster_defs.specs.Filter.{found};
ghost use Rattle.cluster_defs.specs.FilterContents.{records_content, content_for, query_content};
ghost use Rattle.db_query.specs.Found.{listed};
ghost use Rattle.db_query.specs.Limited.{is_over};

use crate::choices::lookups_of;
use crate::fault::DbError;
use crate::listing::Listing;
use crate::reading::read_query;
use cluster_defs::fault::ReadError;
use cluster_defs::filter::Asked;
use cluster_types::limits::BODY_OCTETS;
use cluster_types::octets::Octets;
use cluster_types::record::Records;
use cluster_types::sequence::Sequence;
use cluster_types::text::Text;
use json::Scratch;
use jupyter_header::contents::error_content;
use std::alloc::{AllocError, Global};

/// The answer to a query.
#[derive(Debug, Drop)]
pub struct DbAnswer {
    /// A JSON object: the records that the query finds, or why it is refused.
    pub content: Octets,
}

/// Whether so many octets pass the limit of a content.
fn passes(octets: usize) -> bool
    ensures { result ≡ nat_lt body_limit octets }
{
    octets as u64 > BODY_OCTETS
}

/// Whether an answer with a content passes the limits of a reply. Without buffers that of its content is the first.
#[tactic(auto, using(crate::proofs::Fronts::limit_of_content))]
fn is_too_long(content: &Octets) -> bool
    ensures { result ≡ is_too_long (plain content.now) }
{
    passes(content.len())
}

/// Whether a content passes the limits of a reply, where it has to keep to them.
fn is_over(is_limited: bool, content: &Octets) -> bool
    ensures { result ≡ is_over is_limited content.now }
{
    is_limited && is_too_long(content)
}

/// Whether a text with so many octets is given up: it has to keep to the limits of a reply, and passes the first of them.
fn gives_up(is_limited: bool, octets: usize) -> bool
    ensures { result ≡ (is_limited && nat_lt body_limit octets) }
{
    is_limited && passes(octets)
}

/// The answer with a content, unless that passes limits that it has to keep to.
fn within(is_limited: bool, content: Octets) -> Result<DbAnswer, DbError>
    ensures ok { IfOk result (λ a. (a.content ≡ content) × (is_over is_limited content ≡ false)) }
    ensures err { IfErr result (λ e. (e ≡ DbError.TooLong) × (is_over is_limited content ≡ true)) }
{
    if is_over(is_limited, &content) {
        return Err(DbError::TooLong);
    }
    Ok(DbAnswer { content })
}

/// The beginning of the answer, up to the last record that is found. Where it has to keep to the limits of a reply, it is given
/// up once it passes them.
fn listing_of<R: Records>(
    alloc: Global,
    table: &R,
    asked: &Asked,
    is_limited: bool,
) -> Result<Listing, DbError>
    ensures ok { IfOk result (λ l. l ≡ listed asked.now.keys (found asked.now.tests (R.records table.now))) }
    ensures err { IfErr result (λ e. (e ≡ DbError.OutOfMemory) ⊎ ((e ≡ DbError.TooLong) × (is_over is_limited (records_content asked.now.keys (found asked.now.tests (R.records table.now))) ≡ true))) }
{
    let lookups = lookups_of(alloc, &asked.tests)?;
    let mut listing = Listing::new(alloc)?;
    for place in 0..table.count() {
        listing.add_found(alloc, asked, &lookups, table.at(place))?;
        if gives_up(is_limited, listing.len()) {
            return Err(DbError::TooLong);
        }
    }
    Ok(listing)
}

/// The answer with the records that are found.
fn found_answer<R: Records>(
    alloc: Global,
    table: &R,
    asked: &Asked,
    is_limited: bool,
) -> Result<DbAnswer, DbError>
    ensures ok { IfOk result (λ a. a.content ≡ records_content asked.now.keys (found asked.now.tests (R.records table.now))) }
    ensures within { IfOk result (λ a. is_over is_limited a.content ≡ false) }
    ensures err { IfErr result (λ e. (e ≡ DbError.OutOfMemory) ⊎ ((e ≡ DbError.TooLong) × (is_over is_limited (records_content asked.now.keys (found asked.now.tests (R.records table.now))) ≡ true))) }
{
    let listing = listing_of(alloc, table, asked, is_limited)?;
    let content = Octets::from_string(listing.finish()?)?;
    within(is_limited, content)
}

/// The field that a fault names, or the whole content.
fn fault_field(alloc: Global, fault: ReadError) -> Result<Text, AllocError>
    ensures { IfOk result (λ f. f ≡ fault_field (codes "content") fault) }
{
    match fault {
        ReadError::Missing(field) => Ok(field),
        ReadError::BadField(field) => Ok(field),
        _ => Text::new(alloc, "content"),
    }
}

/// The refusal of a content that doesn't read.
fn refused(alloc: Global, fault: ReadError) -> Result<Octets, AllocError>
    ensures { IfOk result (λ o. o ≡ content_for [] (Err fault)) }
{
    let field = fault_field(alloc, fault)?;
    error_content(alloc, "BadContent", field.as_str(), &Sequence::new(alloc))
}

/// The answer to a query that came where answers may have limits, off the records of all tasks. A content that doesn't read is
/// answered too, by a refusal.
///
/// `TooLong` comes where the answer is limited and its content would pass the limits of a reply. It is written no further than
/// that, so it takes no more memory than a reply may have.
pub fn answer_within<R: Records>(
    alloc: Global,
    table: &R,
    content: &Octets,
    is_limited: bool,
) -> Result<DbAnswer, DbError>
    ensures ok { IfOk result (λ a. a.content ≡ query_content (R.records table.now) content.now) }
    ensures within { IfOk result (λ a. is_over is_limited a.content ≡ false) }
    ensures err { IfErr result (λ e. (e ≡ DbError.OutOfMemory) ⊎ ((e ≡ DbError.TooLong) × (is_over is_limited (query_content (R.records table.now) content.now) ≡ true))) }
{
    let mut scratch = Scratch::new(alloc);
    match read_query(alloc, content.as_slice(), &mut scratch) {
        Ok(asked) => found_answer(alloc, table, &asked, is_limited),
        Err(ReadError::OutOfMemory) => Err(DbError::OutOfMemory),
        Err(fault) => within(is_limited, refused(alloc, fault)?),
    }
}

/// The answer to a query, off the records of all tasks, within the limits of a reply. `TooLong` comes where its content would
/// pass them.
pub fn answer<R: Records>(alloc: Global, table: &R, content: &Octets) -> Result<DbAnswer, DbError>
    ensures ok { IfOk result (λ a. a.content ≡ query_content (R.records table.now) content.now) }
    ensures within { IfOk result (λ a. is_too_long (plain a.content) ≡ false) }
    ensures err { IfErr result (λ e. (e ≡ DbError.OutOfMemory) ⊎ ((e ≡ DbError.TooLong) × (is_too_long (plain (query_content (R.records table.now) content.now)) ≡ true))) }
{
    answer_within(alloc, table, content, true)
}
