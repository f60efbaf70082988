//! Writing frames and commands.

ghost use Rattle.std.specs.Prelude.{◌≡◌, ◌≤◌, ◌++◌, OnOk, OnErr, IfOk};
ghost use Rattle.zmtp_frames.specs.Written.{sized_head, sized_body, written, written_command, more_flag, own_ready};

use edges::writing::{put_both, put_number64};
use std::alloc::{AllocError, Global};

/// The longest body whose size is written in one octet.
const SHORT: usize = 255;

/// Flags and a size.
fn head_octets(alloc: Global, flags: u8, size: usize) -> Result<Vec<u8>, AllocError>
    requires { flags ≤ 4 }
    ensures { IfOk result (λ head. head.items ≡ sized_head flags size) }
{
    let mut head = Vec::new(alloc);
    if size <= SHORT {
        head.push(flags)?;
        head.push(size as u8)?;
    } else {
        head.push(flags + 2)?;
        put_number64(&mut head, size as u64)?;
    }
    Ok(head)
}

/// Appends a body behind its flags and its size, or nothing.
fn put_sized(into: &mut Vec<u8>, flags: u8, body: &[u8]) -> Result<(), AllocError>
    requires { flags ≤ 4 }
    ensures ok { OnOk result (into.new.items ≡ into.old.items ++ sized_body flags body.now) }
    ensures err { OnErr result (into.new.items ≡ into.old.items) }
{
    let head = head_octets(*into.allocator(), flags, body.len())?;
    put_both(into, head.as_slice(), body)
}

/// Appends a frame of a message in its one written spelling: the size has one octet up to 255, and else eight.
pub fn write_frame(into: &mut Vec<u8>, more: bool, body: &[u8]) -> Result<(), AllocError>
    ensures ok { OnOk result (into.new.items ≡ into.old.items ++ written more body.now) }
    ensures err { OnErr result (into.new.items ≡ into.old.items) }
{
    let flags = if more { 1 } else { 0 };
    put_sized(into, flags, body)?;
    Ok(())
}

/// Appends a command frame with this body.
pub fn write_command(into: &mut Vec<u8>, body: &[u8]) -> Result<(), AllocError>
    ensures ok { OnOk result (into.new.items ≡ into.old.items ++ written_command body.now) }
    ensures err { OnErr result (into.new.items ≡ into.old.items) }
{
    put_sized(into, 4, body)?;
    Ok(())
}

/// Appends the READY of a ROUTER.
#[tactic(auto, unfolding(edges::specs::Spelling::be32))]
pub fn write_ready(into: &mut Vec<u8>) -> Result<(), AllocError>
    ensures ok { OnOk result (into.new.items ≡ into.old.items ++ own_ready) }
    ensures err { OnErr result (into.new.items ≡ into.old.items) }
{
    into.extend_from_slice(b"\x04\x1c\x05READY\x0bSocket-Type\x00\x00\x00\x06ROUTER")
}
