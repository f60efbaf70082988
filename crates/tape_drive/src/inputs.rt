//! The inputs that the records of a tape stand for.

ghost use Rattle.std.specs.Prelude.{◌≡◌, ◌++◌, ◌∷◌, [], option_to_list, option_map, OnOk, take};
ghost use Rattle.std.specs.List.{flat_map};
ghost use Rattle.link_messages.specs.Identity.{up_of};
ghost use Rattle.tape_drive.specs.Inputs.{in_of, up_where, down_where, stream_inputs};

use cluster_types::config::Channel;
use cluster_types::entry::Input;
use cluster_types::octets::Octets;
use cluster_types::shared_message::SharedMessage;
use edges::frames::Frames;
use hmac_sign::Key;
use link_messages::identity::up_of;
use link_messages::message::signed;
use std::alloc::AllocError;
use zmtp_peer::fault::PeerFault;
use zmtp_peer::phase::{FramesList, PeerFed};

/// On which connection, and when, inputs come.
#[derive(Clone, Copy, Debug)]
pub struct Origin {
    pub conn: u32,
    pub moment: u64,
    pub word: u64,
}

/// Adds the input of a connection that comes up.
pub fn add_up(
    inputs: &mut Vec<Input>,
    from: Origin,
    channel: Channel,
    identity: &Octets,
) -> Result<(), AllocError>
    ensures { OnOk result (inputs.new.items ≡ inputs.old.items ++ up_of from.conn channel from.moment from.word identity.now ∷ []) }
{
    let input = up_of(
        *inputs.allocator(),
        from.conn,
        channel,
        from.moment,
        from.word,
        identity.as_slice(),
    )?;
    inputs.push(input)?;
    Ok(())
}

/// Adds the input of a connection that comes up, where its identity is there.
fn add_up_where(
    inputs: &mut Vec<Input>,
    from: Origin,
    channel: Channel,
    identity: &Option<Octets>,
) -> Result<(), AllocError>
    ensures { OnOk result (inputs.new.items ≡ inputs.old.items ++ up_where from.conn channel from.moment from.word identity.now) }
{
    match identity {
        Some(identity) => add_up(inputs, from, channel, identity),
        None => Ok(()),
    }
}

/// Adds the input of a message.
fn add_message(
    inputs: &mut Vec<Input>,
    from: Origin,
    message: Option<SharedMessage>,
) -> Result<(), AllocError>
    ensures { OnOk result (inputs.new.items ≡ inputs.old.items ++ option_to_list (option_map (λ m. Input.In from.conn from.moment from.word m) message)) }
{
    if let Some(message) = message {
        inputs.push(Input::In {
            conn: from.conn,
            moment: from.moment,
            word: from.word,
            message,
        })?;
    }
    Ok(())
}

/// Adds the input of frames that come in, where they are signed.
pub fn add_in(
    inputs: &mut Vec<Input>,
    key: &Key,
    from: Origin,
    frames: &Frames,
) -> Result<(), AllocError>
    ensures { OnOk result (inputs.new.items ≡ inputs.old.items ++ in_of key.now from.conn from.moment from.word frames.now) }
{
    let message = signed(*inputs.allocator(), key, frames)?;
    add_message(inputs, from, message)
}

/// Adds the inputs of messages.
fn add_ins(
    inputs: &mut Vec<Input>,
    key: &Key,
    from: Origin,
    messages: &[Frames],
) -> Result<(), AllocError>
    ensures { OnOk result (inputs.new.items ≡ inputs.old.items ++ flat_map (in_of key.now from.conn from.moment from.word) messages.now) }
{
    for frames in messages {
        add_in(inputs, key, from, frames)?;
    }
    Ok(())
}

/// Adds the input of a connection that goes down.
pub fn add_down(inputs: &mut Vec<Input>, from: Origin) -> Result<(), AllocError>
    ensures { OnOk result (inputs.new.items ≡ inputs.old.items ++ Input.Down from.conn from.moment from.word ∷ []) }
{
    inputs.push(Input::Down {
        conn: from.conn,
        moment: from.moment,
        word: from.word,
    })?;
    Ok(())
}

/// Adds the input of a connection that goes down, where its stream has a fault.
fn add_down_where(
    inputs: &mut Vec<Input>,
    from: Origin,
    fault: Option<PeerFault>,
) -> Result<(), AllocError>
    ensures { OnOk result (inputs.new.items ≡ inputs.old.items ++ down_where from.conn from.moment from.word fault) }
{
    match fault {
        Some(_) => add_down(inputs, from),
        None => Ok(()),
    }
}

/// Adds the inputs that octets of a stream give.
pub fn add_stream(
    inputs: &mut Vec<Input>,
    key: &Key,
    from: Origin,
    channel: Channel,
    fed: &PeerFed,
) -> Result<(), AllocError>
    ensures { OnOk result (inputs.new.items ≡ inputs.old.items ++ stream_inputs key.now from.conn from.moment from.word (Some (channel, fed.now))) }
{
    add_up_where(inputs, from, channel, &fed.ready)?;
    add_ins(inputs, key, from, fed.messages.as_slice())?;
    add_down_where(inputs, from, fed.fault)
}
