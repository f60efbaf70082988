//! Reading the values of a record's fields, each within its list or limit.

ghost use Rattle.edges.specs.Reading.{IsRead, Gives};
ghost use Rattle.record_codec.specs.Reading.{moment_at, name_at, id_at, scheme_at, verdict_at, cause_at};

use cluster_types::config::Scheme;
use cluster_types::limits::LAST_MOMENT;
use cluster_types::text::Text;
use cluster_types::verdict::{Cause, Verdict};
use edges::reading::{number64, octet, str8};
use edges::stop::{ReadError, Stop};
use std::alloc::Global;

/// A moment.
#[tactic(auto, unfolding(crate::specs::Reading::moment_at))]
pub fn moment(octets: &[u8]) -> Result<(u64, &[u8]), Stop>
    ensures { IsRead (λ x. (x.0, x.1.now)) result (moment_at octets.now) }
{
    let (moment, rest) = number64(octets)?;
    if moment > LAST_MOMENT {
        return Err(Stop::Bad);
    }
    Ok((moment, rest))
}

/// 1 to 255 octets behind their length.
#[tactic(auto, unfolding(crate::specs::Reading::name_at))]
pub fn name(octets: &[u8]) -> Result<(&[u8], &[u8]), Stop>
    ensures { IsRead (λ x. (x.0.now, x.1.now)) result (name_at octets.now) }
{
    let (text, rest) = str8(octets)?;
    if text.len() == 0 {
        return Err(Stop::Bad);
    }
    Ok((text, rest))
}

/// A name in UTF-8.
#[tactic(auto, unfolding(crate::specs::Reading::id_at))]
pub fn id(alloc: Global, octets: &[u8]) -> Result<(Text, &[u8]), ReadError>
    ensures { Gives (λ x. (x.0, x.1.now)) result (id_at octets.now) }
{
    let (name, rest) = name(octets)?;
    match str::from_utf8(name) {
        Ok(text) => Ok((Text::new(alloc, text)?, rest)),
        Err(_) => Err(ReadError::Stop(Stop::Bad)),
    }
}

/// A scheme, by its code.
#[tactic(auto, unfolding(crate::specs::Reading::scheme_at))]
pub fn scheme(octets: &[u8]) -> Result<(Scheme, &[u8]), Stop>
    ensures { IsRead (λ x. (x.0, x.1.now)) result (scheme_at octets.now) }
{
    let (code, rest) = octet(octets)?;
    match code {
        0 => Ok((Scheme::Lru, rest)),
        1 => Ok((Scheme::LeastLoad, rest)),
        2 => Ok((Scheme::PlainRandom, rest)),
        3 => Ok((Scheme::TwoBin, rest)),
        _ => Err(Stop::Bad),
    }
}

/// A verdict, by its code.
#[tactic(auto, unfolding(crate::specs::Reading::verdict_at))]
pub fn verdict(octets: &[u8]) -> Result<(Verdict, &[u8]), Stop>
    ensures { IsRead (λ x. (x.0, x.1.now)) result (verdict_at octets.now) }
{
    let (code, rest) = octet(octets)?;
    match code {
        1 => Ok((Verdict::Completed, rest)),
        2 => Ok((Verdict::Failed, rest)),
        3 => Ok((Verdict::Aborted, rest)),
        _ => Err(Stop::Bad),
    }
}

/// A cause, by its code.
#[tactic(auto, unfolding(crate::specs::Reading::cause_at))]
pub fn cause(octets: &[u8]) -> Result<(Cause, &[u8]), Stop>
    ensures { IsRead (λ x. (x.0, x.1.now)) result (cause_at octets.now) }
{
    let (code, rest) = octet(octets)?;
    match code {
        0 => Ok((Cause::Reply, rest)),
        1 => Ok((Cause::EngineError, rest)),
        2 => Ok((Cause::ImpossibleDependency, rest)),
        3 => Ok((Cause::InvalidDependency, rest)),
        4 => Ok((Cause::TaskTimeout, rest)),
        5 => Ok((Cause::Abort, rest)),
        _ => Err(Stop::Bad),
    }
}
