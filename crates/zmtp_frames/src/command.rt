//! Commands.

ghost use Rattle.std.specs.Prelude.{option_map};
ghost use Rattle.std.specs.Option.{option_copied};
ghost use Rattle.zmtp_frames.specs.Command.{Gives, command_of, command_named, ready_of, error_of, identity_of, props_with, props_of};

use crate::metadata::{Property, property_named, read_metadata};
use cluster_types::octets::Octets;
use edges::reading::str8;
use edges::stop::Stop;
use std::alloc::{AllocError, Global};

/// What READY says.
#[derive(Debug, Drop)]
pub struct Props {
    pub socket_type: Octets,
    pub identity: Option<Octets>,
}

/// A command: READY with its metadata, ERROR with its reason, or one of another name.
#[derive(Debug, Drop)]
pub enum Command {
    Ready(Props),
    Error(Octets),
    Other,
}

/// Why a body isn't read as a command.
#[derive(Clone, Copy, Debug, PartialEq, Eq)]
pub enum CommandError {
    /// A name without an octet, a part that is cut short; and in READY a property that comes twice, no `Socket-Type`,
    /// or an `Identity` of more than 255 octets.
    BadCommand,
    OutOfMemory,
}

impl From<AllocError> for CommandError {
    ghost use Rattle.std.specs.Prelude.{◌≡◌};
    ghost use Rattle.zmtp_frames.specs.declared.command.CommandError.{CommandError};

    ghost from_gives = { λ _ e. e ≡ CommandError.OutOfMemory };

    fn from(_: AllocError) -> Self {
        CommandError::OutOfMemory
    }
}

impl From<Stop> for CommandError {
    ghost use Rattle.std.specs.Prelude.{◌≡◌};
    ghost use Rattle.zmtp_frames.specs.declared.command.CommandError.{CommandError};

    ghost from_gives = { λ _ e. e ≡ CommandError.BadCommand };

    fn from(_: Stop) -> Self {
        CommandError::BadCommand
    }
}

/// The identity that a property gives, if it is there.
fn read_identity(property: Option<&Property>) -> Result<Option<Octets>, CommandError>
    ensures { Gives (λ x. x) result (identity_of (option_copied property.entry)) }
{
    match property {
        None => Ok(None),
        Some(property) => {
            if property.value.as_slice().len() > 255 {
                return Err(CommandError::BadCommand);
            }
            Ok(Some(property.value.clone()?))
        }
    }
}

/// What these two properties say.
fn props_from(socket_type: &Property, identity: Option<&Property>) -> Result<Props, CommandError>
    ensures { Gives (λ x. x) result (option_map (props_with socket_type.now) (identity_of (option_copied identity.entry))) }
{
    let identity = read_identity(identity)?;
    let socket_type = socket_type.value.clone()?;
    Ok(Props {
        socket_type,
        identity,
    })
}

/// What these properties say.
fn read_props(list: &[Property]) -> Result<Props, CommandError>
    ensures { Gives (λ x. x) result (props_of list.now) }
{
    match property_named(b"Socket-Type", list) {
        None => Err(CommandError::BadCommand),
        Some(socket_type) => {
            let props = props_from(socket_type, property_named(b"Identity", list))?;
            Ok(props)
        }
    }
}

/// The data of READY.
fn read_ready(alloc: Global, octets: &[u8]) -> Result<Props, CommandError>
    ensures { Gives (λ x. x) result (ready_of octets.now) }
{
    let list = read_metadata(alloc, octets)?;
    let props = read_props(list.as_slice())?;
    Ok(props)
}

/// The data of ERROR.
fn read_reason(alloc: Global, octets: &[u8]) -> Result<Octets, CommandError>
    ensures { Gives (λ x. x) result (error_of octets.now) }
{
    let (reason, _) = str8(octets)?;
    Ok(Octets::new(alloc, reason)?)
}

/// The command of this name with these data.
fn read_named(alloc: Global, name: &[u8], rest: &[u8]) -> Result<Command, CommandError>
    ensures { Gives (λ x. x) result (command_named name.now rest.now) }
{
    if name.is_empty() {
        return Err(CommandError::BadCommand);
    }
    if name.eq_ignore_ascii_case(b"READY") {
        return Ok(Command::Ready(read_ready(alloc, rest)?));
    }
    if name.eq_ignore_ascii_case(b"ERROR") {
        return Ok(Command::Error(read_reason(alloc, rest)?));
    }
    Ok(Command::Other)
}

/// Reads the body of a command frame. Names are compared without regard to ASCII case. What follows the reason of an
/// ERROR, and the data of a command of another name, may be anything.
pub fn read_command(alloc: Global, body: &[u8]) -> Result<Command, CommandError>
    ensures { Gives (λ x. x) result (command_of body.now) }
{
    let (name, rest) = str8(body)?;
    let command = read_named(alloc, name, rest)?;
    Ok(command)
}
