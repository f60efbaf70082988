//! Heartbeats.

ghost use Rattle.std.specs.Prelude.{◌≡◌, IfOk, map};
ghost use Rattle.cluster_defs.specs.Texts.{answer_id, beat_id, beat_request, beat_content};
ghost use Rattle.cluster_defs.specs.Outs.{beat_out};

use cluster_defs::engine::Engine;
use cluster_types::message::Buffers;
use cluster_types::octets::Octets;
use cluster_types::out::{Out, Outs};
use cluster_types::text::Text;
use jupyter_header::contents::empty_object;
use std::alloc::{AllocError, Global};

/// The id of the answer to the input at a place after the last Open, where so many Opens stand.
#[tactic(auto, unfolding(cluster_defs::specs::Texts::answer_id))]
pub fn answer_id(alloc: Global, opens: u64, place: u64) -> Result<Text, AllocError>
    ensures { IfOk result (λ text. text ≡ answer_id opens place) }
{
    let opens = opens.to_string(alloc)?;
    let place = place.to_string(alloc)?;
    let mut text = String::from_str(alloc, "hub-")?;
    text.push_str(opens.as_str())?;
    text.push_str("-")?;
    text.push_str(place.as_str())?;
    Text::from_string(text)
}

/// The id of a beat to an engine.
#[tactic(auto, unfolding(cluster_defs::specs::Texts::beat_id))]
fn beat_id(alloc: Global, opens: u64, place: u64, engine: u32) -> Result<Text, AllocError>
    ensures { IfOk result (λ text. text ≡ beat_id opens place engine) }
{
    let front = answer_id(alloc, opens, place)?;
    let engine = engine.to_string(alloc)?;
    let mut text = String::from_str(alloc, front.as_str())?;
    text.push_str("-")?;
    text.push_str(engine.as_str())?;
    Text::from_string(text)
}

#[tactic(auto, unfolding(cluster_defs::specs::Texts::beat_request))]
fn beat_request(alloc: Global) -> Result<Text, AllocError>
    ensures { IfOk result (λ text. text ≡ beat_request) }
{
    Text::new(alloc, "beat_request")
}

/// The content of a beat.
#[tactic(auto, unfolding(cluster_defs::specs::Texts::beat_content))]
fn beat_content(alloc: Global, beat: u64) -> Result<Octets, AllocError>
    ensures { IfOk result (λ content. content ≡ beat_content beat) }
{
    let beat = beat.to_string(alloc)?;
    let mut text = String::from_str(alloc, "{\"beat\":")?;
    text.push_str(beat.as_str())?;
    text.push_str("}")?;
    Octets::from_string(text)
}

/// A beat of a number to an engine.
fn beat_out(
    alloc: Global,
    opens: u64,
    place: u64,
    moment: u64,
    beat: u64,
    engine: &Engine,
) -> Result<Out, AllocError>
    ensures { IfOk result (λ o. o ≡ beat_out opens place moment beat engine.now) }
{
    Ok(Out::Made {
        conn: engine.conn,
        moment,
        msg_id: beat_id(alloc, opens, place, engine.number)?,
        msg_type: beat_request(alloc)?,
        parent: Octets::from_static(empty_object()),
        content: beat_content(alloc, beat)?,
        buffers: Buffers::new(alloc),
    })
}

/// A beat of a number to each live engine.
pub fn beat_outs(
    alloc: Global,
    opens: u64,
    place: u64,
    moment: u64,
    beat: u64,
    live: &[Engine],
) -> Result<Outs, AllocError>
    ensures { IfOk result (λ outs. outs ≡ map (beat_out opens place moment beat) live.now) }
{
    let mut outs = Outs::new(alloc);
    for engine in live {
        outs.push(beat_out(alloc, opens, place, moment, beat, engine)?)?;
    }
    Ok(outs)
}
