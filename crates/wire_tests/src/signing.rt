//! The vectors of RFC 4231, and the refusals of tags and keys.

use hmac_sign::{Key, KeyError};
use std::alloc::Global;

/// Keys, parts, and their tags.
const VECTORS: &[(&[u8], [&[u8]; 4], &[u8])] = &[
    (
        &[0x0b; 20],
        [b"Hi ", b"There", b"", b""],
        b"b0344c61d8db38535ca8afceaf0bf12b881dc200c9833da726e9376c2e32cff7",
    ),
    (
        b"Jefe",
        [b"what do ya ", b"want for ", b"nothing?", b""],
        b"5bdcc146bf60754e6a042426089575c75a003f089d2739839dec58b964ec3843",
    ),
    (
        &[0xaa; 20],
        [&[0xdd; 20], &[], &[0xdd; 30], &[]],
        b"773ea91e36800e46854db8ebd09181a72959098b3ef8c122d9635514ced565fe",
    ),
    (
        b"\x01\x02\x03\x04\x05\x06\x07\x08\x09\x0a\x0b\x0c\x0d\x0e\x0f\x10\x11\x12\x13\x14\x15\x16\x17\x18\x19",
        [&[], &[0xcd; 49], &[], &[0xcd; 1]],
        b"82558a389a443c0ea4cc819899f2083a85f0faa3e578f8077a2e3ff46729665b",
    ),
    (
        &[0xaa; 131],
        [
            b"Test Using Larger Than Block-Size Key - ",
            b"Hash Key First",
            b"",
            b"",
        ],
        b"60e431591ee0b67f0d8a26aacbf5b77f8e0bc6213728c5140546040f0ee37f54",
    ),
    (
        &[0xaa; 131],
        [
            b"This is a test using a larger than block-size key ",
            b"and a larger than block-size data. ",
            b"The key needs to be hashed before being used by the HMAC algorithm.",
            b"",
        ],
        b"9b09ffa71b942fcb27635fbcd5b0e944bfdc63644f0713938a7f51535c3a35e2",
    ),
];

/// Tags that the second vector's parts don't have: another last digit, and digits in upper case.
const WRONG: &[&[u8]] = &[
    b"5bdcc146bf60754e6a042426089575c75a003f089d2739839dec58b964ec3844",
    b"5BDCC146BF60754E6A042426089575C75A003F089D2739839DEC58B964EC3843",
];

/// Whether the tag of these parts under this key is this text, and verifies.
fn is_tag(alloc: Global, key: &[u8], parts: &[&[u8]; 4], text: &[u8]) -> Result<bool, KeyError> {
    let key = Key::new(alloc, key)?;
    let [a, b, c, d] = *parts;
    Ok(key.tag(a, b, c, d).as_slice() == text && key.verify(a, b, c, d, text))
}

#[test]
fn tags(rt: HostRuntime) {
    for (key, parts, text) in VECTORS {
        let is_so = is_tag(rt.alloc(), *key, parts, *text).expect(&rt, "a key");
        assert!(rt; is_so);
    }
    let key = Key::new(rt.alloc(), b"Jefe").expect(&rt, "a key");
    for text in WRONG {
        assert!(rt; !key.verify(b"what do ya ", b"want for ", b"nothing?", b"", *text));
    }
}

#[test]
fn key_lengths(rt: HostRuntime) {
    let octets = [7u8; 4097];
    for (count, text) in [(0, "empty"), (4096, "taken"), (4097, "too long")] {
        let told = match Key::new(rt.alloc(), &octets[..count]) {
            Ok(_) => "taken",
            Err(KeyError::EmptyKey) => "empty",
            Err(KeyError::KeyTooLong) => "too long",
            Err(KeyError::OutOfMemory) => "out of memory",
        };
        assert_eq!(rt; told, text);
    }
}
