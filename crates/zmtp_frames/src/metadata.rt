//! The metadata of READY.

ghost use Rattle.std.specs.Prelude.{◌≡◌, ◌++◌, ◌∷◌, [], OnOk};
ghost use Rattle.std.specs.Option.{option_copied};
ghost use Rattle.edges.specs.Reading.{IsRead};
ghost use Rattle.zmtp_frames.specs.Command.{Gives, AreNamesOf, property_at, metadata_step, metadata, property_named};

use crate::command::CommandError;
use crate::names::Names;
use cluster_types::octets::Octets;
use cluster_types::sequence::Sequence;
use edges::reading::{blob, str8};
use edges::stop::Stop;
use std::alloc::{AllocError, Global};

/// A property of READY.
#[derive(Debug, Drop)]
pub struct Property {
    pub name: Octets,
    pub value: Octets,
}

pub type PropertyList = Sequence<Property>;

/// The name and the value of the property at the front, and the octets after it.
#[tactic(auto, unfolding(crate::specs::Command::property_at))]
fn first_property(octets: &[u8]) -> Result<((&[u8], &[u8]), &[u8]), Stop>
    ensures { IsRead (λ x. (record { name = x.0.0.now; value = x.0.1.now }, x.1.now)) result (property_at octets.now) }
{
    let (name, rest) = str8(octets)?;
    let (value, rest) = blob(rest)?;
    Ok(((name, value), rest))
}

/// Adds a property to the list.
fn push_property(
    alloc: Global,
    list: &mut PropertyList,
    name: &[u8],
    value: &[u8],
) -> Result<(), AllocError>
    ensures { OnOk result (list.new ≡ list.old ++ record { name = name.now; value = value.now } ∷ []) }
{
    let name = Octets::new(alloc, name)?;
    let value = Octets::new(alloc, value)?;
    list.push(Property { name, value })?;
    Ok(())
}

/// Adds the property at the front to the list, and gives the octets after it.
fn take_property<'a>(
    alloc: Global,
    names: &mut Names,
    list: &mut PropertyList,
    octets: &'a [u8],
) -> Result<&'a [u8], CommandError>
    requires { AreNamesOf names.old list.old }
    ensures names { OnOk result (AreNamesOf names.new list.new) }
    ensures step { Gives (λ rest. (list.new, rest.now)) result (metadata_step list.old octets.now) }
{
    let ((name, value), rest) = first_property(octets)?;
    if name.is_empty() {
        return Err(CommandError::BadCommand);
    }
    if !names.add(alloc, name)? {
        return Err(CommandError::BadCommand);
    }
    push_property(alloc, list, name, value)?;
    Ok(rest)
}

/// The properties that the data of READY are.
pub fn read_metadata(alloc: Global, octets: &[u8]) -> Result<PropertyList, CommandError>
    ensures { Gives (λ list. list) result (metadata octets.now) }
{
    let mut names = Names::new(alloc);
    let mut list = PropertyList::new(alloc);
    let mut rest = octets;
    for _ in 0..octets.len() {
        if rest.is_empty() {
            return Ok(list);
        }
        rest = take_property(alloc, &mut names, &mut list, rest)?;
    }
    if !rest.is_empty() {
        return Err(CommandError::BadCommand);
    }
    Ok(list)
}

/// The property of this name.
pub fn property_named<'a>(name: &[u8], list: &'a [Property]) -> Option<&'a Property>
    ensures { option_copied result ≡ property_named name.now list.now }
{
    list.iter()
        .find(|p| name.eq_ignore_ascii_case(p.name.as_slice()))
}
