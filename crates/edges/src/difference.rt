//! Where octets differ from those that are wanted.

ghost use Rattle.std.specs.Prelude.{◌≡◌, ◌≤◌, ◌+◌, length};
ghost use Rattle.edges.specs.Difference.{difference};

/// The place of the first octet that differs, where the first one that is wanted has the place `start`.
pub fn difference_of(start: u64, wanted: &[u8], octets: &[u8]) -> Option<u64>
    requires length { length wanted.now ≤ length octets.now }
    requires place { start + length wanted.now ≤ 18446744073709551615 }
    ensures { result ≡ difference start wanted.now octets.now }
{
    for (place, x) in wanted.iter().enumerate() {
        if *x != octets[place] {
            return Some(start + place as u64);
        }
    }
    None
}
