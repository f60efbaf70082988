//! Gates of a journal.

ghost use Rattle.std.specs.Prelude.{◌≡◌};
ghost use Rattle.task_journal.specs.Journal.{gate_in};

/// What stands at a gate.
#[derive(Clone, Copy, Debug, PartialEq, Eq)]
pub enum GateState {
    /// The disk ends before it.
    Missing,
    Closed,
    /// An open gate without a whole pad, length and number.
    Short,
    /// An open gate, with the length of its records in octets and their number.
    Open { len: u32, count: u32 },
}

/// The gate at the front of octets.
pub fn gate_at(octets: &[u8]) -> GateState
    ensures { result ≡ gate_in octets.now }
{
    match octets {
        [] => GateState::Missing,
        [0xa7, rest @ ..] => {
            if rest.len() < 9 {
                return GateState::Short;
            }
            GateState::Open {
                len: u32::from_be_bytes([rest[1], rest[2], rest[3], rest[4]]),
                count: u32::from_be_bytes([rest[5], rest[6], rest[7], rest[8]]),
            }
        }
        [_, ..] => GateState::Closed,
    }
}
