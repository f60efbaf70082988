//! Tapes all of whose connections are bare.

ghost use Rattle.std.specs.Prelude.{◌≡◌, [], IfOk};
ghost use Rattle.tape.specs.Spelling.{Fits};
ghost use Rattle.tape_drive.specs.Bare.{read_of};
ghost use Rattle.tape_drive.specs.Inputs.{inputs_of};
ghost use Rattle.tape_drive.specs.Steps.{AreTaken};

use crate::records::take_record;
use cluster_types::entry::Input;
use cluster_types::out::Out;
use cluster_types::shared_message::SharedMessage;
use hmac_sign::Key;
use link_messages::message::signed;
use link_messages::outs::out_frames;
use std::alloc::{AllocError, Global};
use tape::record::TapeRecord;

/// The inputs of a record of a tape all of whose connections are bare: what came before it doesn't matter then.
pub fn bare_inputs(alloc: Global, key: &Key, item: &TapeRecord) -> Result<Vec<Input>, AllocError>
    requires { Fits item.now }
    ensures value { IfOk result (λ inputs. inputs.items ≡ inputs_of key.now [] item.now) }
    ensures taken { IfOk result (λ inputs. AreTaken inputs.items) }
{
    let mut links = Vec::new(alloc);
    let mut inputs = Vec::new(alloc);
    let mut sent = Vec::new(alloc);
    take_record(&mut links, &mut inputs, &mut sent, key, item)?;
    Ok(inputs)
}

/// The message that the other end of a bare connection reads of an out.
pub fn read_of(alloc: Global, key: &Key, out: Out) -> Result<Option<SharedMessage>, AllocError>
    ensures { IfOk result (λ message. message ≡ read_of key.now out) }
{
    let frames = out_frames(alloc, key, out)?;
    signed(alloc, key, &frames)
}
