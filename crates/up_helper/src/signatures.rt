//! Signatures for tests.
ghost use Rattle.std.specs.Prelude.{◌≡◌};
ghost use Rattle.up_helper.specs.Signatures.{signature_of, verdict_of};

use sha2::{Digest, Sha256};

/// The status for want of memory.
pub const OUT_OF_MEMORY: u8 = 4;

/// The signature of a message by a key: the SHA-256 of the two, one after the other.
pub fn signature_of(key: &[u8], message: &[u8]) -> [u8; 32]
    ensures { result ≡ signature_of key.now message.now }
{
    Sha256::new_with_prefix(key)
        .chain_update(message)
        .finalize()
}

/// Whether a signature is that of the message by the key.
pub fn is_signature(key: &[u8], message: &[u8], signature: &[u8]) -> bool
    ensures { result ≡ verdict_of key.now message.now signature.now }
{
    signature == signature_of(key, message).as_slice()
}
