//! The greeting.

ghost use Rattle.std.specs.Prelude.{◌≡◌, ◌≤◌, length, OnOk, IfErr, Some, None};
ghost use Rattle.zmtp_frames.specs.Greeting.{greeting_fault, null_mechanism, own_greeting};

use crate::fault::FrameFault;
use edges::difference::difference_of;

/// The first fault.
fn fault_of(octets: &[u8]) -> Option<FrameFault>
    requires { length octets.now ≡ 64 }
    ensures { result ≡ greeting_fault octets.now }
{
    if octets[0] != 0xff {
        return Some(FrameFault::BadSignature(0));
    }
    if octets[9] != 0x7f {
        return Some(FrameFault::BadSignature(9));
    }
    if octets[10] < 3 {
        return Some(FrameFault::BadVersion(10));
    }
    match difference_of(12, b"NULL\0\0\0\0\0\0\0\0\0\0\0\0\0\0\0\0", &octets[12..32]) {
        Some(place) => Some(FrameFault::BadMechanism(place)),
        None => None,
    }
}

/// Reads a whole greeting. The faults are looked for in the order of the octets. Padding, minor version, as-server and
/// filler may be anything.
pub fn read_greeting(octets: &[u8; 64]) -> Result<(), FrameFault>
    ensures ok { OnOk result (greeting_fault octets.now ≡ None) }
    ensures err { IfErr result (λ fault. greeting_fault octets.now ≡ Some fault) }
{
    match fault_of(octets.as_slice()) {
        Some(fault) => Err(fault),
        None => Ok(()),
    }
}

/// The greeting that is written: version 3.0, the mechanism NULL, and zeros else.
pub fn greeting() -> [u8; 64]
    ensures { result ≡ own_greeting }
{
    *b"\xff\0\0\0\0\0\0\0\0\x7f\x03\0NULL\0\0\0\0\0\0\0\0\0\0\0\0\0\0\0\0\0\0\0\0\0\0\0\0\0\0\0\0\0\0\0\0\0\0\0\0\0\0\0\0\0\0\0\0\0\0\0\0"
}
