//! `upspin verify`.
ghost use Rattle.std.specs.Prelude.{◌≡◌, ◌≢◌, map, IfOk, string_bytes};
ghost use Rattle.up_helper.specs.Signatures.{verdict_in, verdict_on, verify_status};

use crate::hex_words::bytes_in;
use crate::signatures::{OUT_OF_MEMORY, is_signature};
use std::alloc::{AllocError, Global};

/// Runs `upspin verify KEY MESSAGE SIGNATURE`, whose words begin with the command's own: whether the signature is that of the
/// message by the key.
///
/// It answers a status: 0 for Yes, 1 for No, 2 where the words are not so, and 4 for want of memory. It writes nothing.
pub fn verify_run(alloc: Global, words: &[String]) -> u8
    ensures answer { result ≢ 4 → result ≡ verify_status (verdict_in (map string_bytes words.now)) }
{
    match verdict_in(alloc, words) {
        Ok(Some(true)) => 0,
        Ok(Some(false)) => 1,
        Ok(None) => 2,
        Err(_) => OUT_OF_MEMORY,
    }
}

/// The verdict on the words of the command. `None` exactly where they are not so.
#[tactic(auto, unfolding(crate::specs::Signatures::verdict_in))]
fn verdict_in(alloc: Global, words: &[String]) -> Result<Option<bool>, AllocError>
    ensures { IfOk result (λ verdict. verdict ≡ verdict_in (map string_bytes words.now)) }
{
    match words {
        [command, key, message, signature] if command.as_str() == "verify" => {
            verdict_on(alloc, key, message, signature)
        }
        _ => Ok(None),
    }
}

/// The verdict on these words. `None` exactly where one of them is no word of bytes.
#[tactic(auto, unfolding(crate::specs::Signatures::verdict_on))]
fn verdict_on(
    alloc: Global,
    key: &str,
    message: &str,
    signature: &str,
) -> Result<Option<bool>, AllocError>
    ensures { IfOk result (λ verdict. verdict ≡ verdict_on key.now message.now signature.now) }
{
    let Some(key) = bytes_in(alloc, key.as_bytes())? else {
        return Ok(None);
    };
    let Some(message) = bytes_in(alloc, message.as_bytes())? else {
        return Ok(None);
    };
    let Some(signature) = bytes_in(alloc, signature.as_bytes())? else {
        return Ok(None);
    };
    Ok(Some(is_signature(key.as_slice(), message.as_slice(), signature.as_slice())))
}
