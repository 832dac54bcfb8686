//! Bytes as words of upper-case hexadecimal digits.
ghost use Rattle.std.specs.Prelude.{◌≡◌, Some, IfOk};
ghost use Rattle.std.specs.List.{list_all};
ghost use Rattle.std.specs.String.{string_bytes};
ghost use Rattle.up_refs.specs.References.{is_upper_digit};
ghost use Rattle.up_helper.specs.HelperWords.{bytes_in, hex_word};

use hex::FromHexError;
use std::alloc::{AllocError, Global};
use up_bytes::Bytes;

/// The word of some bytes: two upper-case hexadecimal digits for each, and `-` where there is none. [`bytes_in`] reads it again.
#[tactic(auto, using(crate::proofs::HexWords::word_is_read))]
pub fn hex_word(alloc: Global, bytes: &[u8]) -> Result<String, AllocError>
    ensures digits { IfOk result (λ word. string_bytes word ≡ hex_word bytes.now) }
    ensures read { IfOk result (λ word. bytes_in (string_bytes word) ≡ Some bytes.now) }
{
    if bytes.is_empty() {
        String::from_str(alloc, "-")
    } else {
        hex::encode_upper(alloc, bytes)
    }
}

/// The bytes of a word. `None` exactly where it is neither `-` nor upper-case hexadecimal digits in pairs.
#[tactic(auto, unfolding(crate::specs::HelperWords::bytes_in))]
pub fn bytes_in(alloc: Global, word: &[u8]) -> Result<Option<Bytes>, AllocError>
    ensures { IfOk result (λ bytes. bytes ≡ bytes_in word.now) }
{
    if word == b"-".as_slice() {
        return Ok(Some(Bytes::from_vec(Vec::new(alloc))));
    }
    if word.is_empty() || !is_upper_digits(word) {
        return Ok(None);
    }
    match hex::decode(alloc, word) {
        Ok(bytes) => Ok(Some(Bytes::from_vec(bytes))),
        Err(FromHexError::OutOfMemory) => Err(AllocError),
        Err(_) => Ok(None),
    }
}

fn is_upper_digits(word: &[u8]) -> bool
    ensures { result ≡ list_all is_upper_digit word.now }
{
    word.iter().all(|b| is_upper_digit(*b))
}

fn is_upper_digit(b: u8) -> bool
    ensures { result ≡ is_upper_digit b }
{
    matches!(b, b'0'..=b'9' | b'A'..=b'F')
}
