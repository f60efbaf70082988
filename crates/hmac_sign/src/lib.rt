//! HMAC-SHA256 (RFC 2104, FIPS 180-4) over the four signed parts of a message.
#![tactic(auto)]

ghost use Rattle.std.specs.Prelude.{◌≡◌, ◌++◌, ◌↔◌, ◌≤◌, ◌<◌, List, ℕ, IsTrue, IfOk, Ok, Err, length, map, bit_xor};
ghost use Rattle.hmac_sign.specs.Hmac.{filled, key_block, with_pad, hmac, tag_of};
ghost use Rattle.hex.specs.Hex.{encode_lower};
ghost use Rattle.sha2.specs.Hashers.{Holds256};
ghost use Rattle.sha2.specs.Sha256.{sha256};

use sha2::{Digest, Sha256};
use std::alloc::{AllocError, Global};
use std::marker::Model;
use thiserror::Error;

/// What the key's octets are changed by before the inner hash.
const INNER_PAD: u8 = 0x36;

/// What the key's octets are changed by before the outer hash.
const OUTER_PAD: u8 = 0x5c;

/// The most octets of a key.
const LONGEST_KEY: usize = 4096;

/// Why a key was refused.
#[derive(Clone, Copy, Debug, PartialEq, Eq, Error)]
pub enum KeyError {
    #[error("the key is empty")]
    EmptyKey,
    #[error("the key has more than 4096 octets")]
    KeyTooLong,
    #[error("out of memory")]
    OutOfMemory,
}

impl From<AllocError> for KeyError {
    ghost use Rattle.std.specs.Prelude.{◌≡◌};
    ghost use Rattle.hmac_sign.specs.declared.KeyError.{KeyError};

    ghost from_gives = { λ _ e. e ≡ KeyError.OutOfMemory };

    fn from(_: AllocError) -> Self {
        KeyError::OutOfMemory
    }
}

/// A key of 1 to 4,096 octets. The two hashers have taken the key, changed by either pad, so that a
/// tag costs a pass over the message and two blocks more.
#[derive(Drop)]
pub struct Key {
    octets: Vec<u8>,
    inner: Sha256,
    outer: Sha256,
}

impl Model for Key {
    ghost use Rattle.std.specs.Prelude.{List, ℕ};
    ghost use Rattle.sha2.specs.Hashers.{Holds256};
    ghost use Rattle.hmac_sign.specs.Hmac.{with_pad};

    ghost Value = { List ℕ };

    ghost view = { λ k. k.octets.items };

    ghost invariant = { λ k. Holds256 k.inner (with_pad 0x36 k.octets.items) × Holds256 k.outer (with_pad 0x5c k.octets.items) };
}

impl Key {
    /// A key of these octets. `EmptyKey` for none, `KeyTooLong` for more than 4,096.
    pub fn new(alloc: Global, octets: &[u8]) -> Result<Key, KeyError>
        ensures ok { IfOk result (λ k. k ≡ octets.now) }
        ensures empty { result ≡ Err KeyError.EmptyKey ↔ (length octets.now ≡ 0) }
        ensures long { result ≡ Err KeyError.KeyTooLong ↔ (4096 < length octets.now) }
    {
        if octets.is_empty() {
            return Err(KeyError::EmptyKey);
        }
        if octets.len() > LONGEST_KEY {
            return Err(KeyError::KeyTooLong);
        }
        Ok(Key {
            inner: keyed_hasher(octets, INNER_PAD),
            outer: keyed_hasher(octets, OUTER_PAD),
            octets: Vec::from_slice(alloc, octets)?,
        })
    }

    /// The lower-case hexadecimal HMAC of the four parts in order. Takes no memory.
    pub fn tag(&self, a: &[u8], b: &[u8], c: &[u8], d: &[u8]) -> [u8; 64]
        ensures { result ≡ tag_of self.now (a.now ++ b.now ++ c.now ++ d.now) }
    {
        let inner = digest_from(&self.inner, a, b, c, d);
        let outer = digest_from(&self.outer, &inner, &[], &[], &[]);
        hex_of(&outer)
    }

    /// Whether a tag is that of the four parts. Takes no memory.
    pub fn verify(&self, a: &[u8], b: &[u8], c: &[u8], d: &[u8], tag: &[u8]) -> bool
        ensures { IsTrue result ↔ (tag.now ≡ tag_of self.now (a.now ++ b.now ++ c.now ++ d.now)) }
    {
        tag == self.tag(a, b, c, d).as_slice()
    }
}

/// At most 64 octets, filled with zeros.
fn filled(octets: &[u8]) -> [u8; 64]
    requires { length octets.now ≤ 64 }
    ensures { result ≡ filled octets.now }
{
    let mut block = [0u8; 64];
    block[..octets.len()].copy_from_slice(octets);
    block
}

/// A key as a block of the hash.
fn key_block(key: &[u8]) -> [u8; 64]
    ensures { result ≡ key_block key.now }
{
    if key.len() <= 64 {
        filled(key)
    } else {
        filled(&Sha256::digest(key))
    }
}

/// Changes each octet by the pad.
fn change(block: &mut [u8], pad: u8)
    ensures { block.new ≡ map (λ b. bit_xor b pad) block.old }
{
    for b in block.iter_mut() {
        *b ^= pad;
    }
}

/// A hasher that has taken a key, changed by a pad.
fn keyed_hasher(key: &[u8], pad: u8) -> Sha256
    ensures { Holds256 result (with_pad pad key.now) }
{
    let mut block = key_block(key);
    change(&mut block, pad);
    let mut hasher = Sha256::new();
    hasher.update(&block);
    hasher
}

/// A copy of a hasher, which takes no memory.
fn copy_of(hasher: &Sha256) -> Sha256
    ensures { result ≡ hasher.now }
{
    match hasher.clone() {
        Ok(copy) => copy,
        Err(_) => unreachable!(),
    }
}

/// The digest of what the hasher has taken and four pieces behind it.
fn digest_from(hasher: &Sha256, a: &[u8], b: &[u8], c: &[u8], d: &[u8]) -> [u8; 32]
    ensures { (taken : List ℕ) → Holds256 hasher.now taken → result ≡ sha256 (taken ++ (a.now ++ b.now ++ c.now ++ d.now)) }
{
    let mut hasher = copy_of(hasher);
    hasher.update(a);
    hasher.update(b);
    hasher.update(c);
    hasher.update(d);
    hasher.finalize()
}

/// The lower-case hexadecimal digits of a digest.
fn hex_of(digest: &[u8; 32]) -> [u8; 64]
    ensures { result ≡ encode_lower digest.now }
{
    let mut digits = [0u8; 64];
    let _ = hex::encode_to_slice(digest, &mut digits);
    digits
}
