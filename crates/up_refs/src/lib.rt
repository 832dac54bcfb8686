//! References: what blocks of bytes are named by in a store.
//!
//! A reference is the SHA-256 digest of the bytes, by the definition of the kit's `sha2`. Its text is 64 upper-case hexadecimal
//! digits, and [`Reference::parse`] accepts exactly those.
#![tactic(auto)]

ghost use Rattle.std.specs.Prelude.{◌≡◌, length, is_some, IfOk, IfSome, Some};
ghost use Rattle.std.specs.String.{string_bytes};
ghost use Rattle.sha2.specs.Sha256.{sha256};
ghost use Rattle.std.specs.List.{list_all};
ghost use Rattle.up_refs.specs.References.{is_reference_text, is_upper_digit, reference_in, text_of};

use hex::FromHex;
use sha2::{Digest, Sha256};
use std::alloc::{AllocError, Global};
use std::marker::Model;

/// The reference of a block of bytes: its SHA-256 (FIPS 180-4). It is seen as the list of its 32 bytes; references are
/// equal where these are, and in the order of these.
#[derive(Clone, Copy, Debug, PartialEq, Eq, PartialOrd, Ord, Hash)]
pub struct Reference {
    digest: [u8; 32],
}

impl Model for Reference {
    ghost use Rattle.std.specs.Prelude.{List, ℕ};

    ghost Value = { List ℕ };

    ghost view = { λ reference. reference.digest };

    ghost inverse = { λ bytes. record { digest = bytes } };
}

impl Reference {
    /// The reference of these bytes.
    pub fn of(bytes: &[u8]) -> Reference
        ensures { result ≡ sha256 bytes.now }
    {
        Reference {
            digest: Sha256::digest(bytes),
        }
    }

    /// The reference that a text is of: of 64 upper-case hexadecimal digits. `None` exactly for any other text.
    #[tactic(auto, unfolding(crate::specs::References::reference_in))]
    pub fn parse(text: &[u8]) -> Option<Reference>
        ensures value { result ≡ reference_in text.now }
        ensures found { is_some result ≡ is_reference_text text.now }
        ensures spelled { IfSome result (λ reference. text_of reference ≡ text.now) }
    {
        if !is_reference_text(text) {
            return None;
        }
        let digest = <[u8; 32] as FromHex>::from_hex(text).ok()?;
        Some(Reference { digest })
    }

    /// The reference's text: 64 upper-case hexadecimal digits, which `parse` reads again.
    pub fn text(&self, alloc: Global) -> Result<String, AllocError>
        ensures digits { IfOk result (λ text. string_bytes text ≡ text_of self.now) }
        ensures read { IfOk result (λ text. reference_in (string_bytes text) ≡ Some self.now) }
    {
        text_of_digest(alloc, &self.digest)
    }

    /// The 32 bytes.
    pub fn bytes(&self) -> &[u8; 32]
        ensures value { result.now ≡ self.now }
        ensures len { length self.now ≡ 32 }
    {
        &self.digest
    }

    /// The reference with these bytes, whatever they may be the digest of.
    pub fn from_bytes(bytes: [u8; 32]) -> Reference
        ensures { result ≡ bytes }
    {
        Reference { digest: bytes }
    }
}

/// The text of a digest.
fn text_of_digest(alloc: Global, digest: &[u8; 32]) -> Result<String, AllocError>
    ensures digits { IfOk result (λ text. string_bytes text ≡ text_of digest.now) }
    ensures read { IfOk result (λ text. reference_in (string_bytes text) ≡ Some digest.now) }
{
    hex::encode_upper(alloc, digest.as_slice())
}

/// Whether a text is 64 upper-case hexadecimal digits.
fn is_reference_text(text: &[u8]) -> bool
    ensures { result ≡ is_reference_text text.now }
{
    text.len() == 64 && is_upper_digits(text)
}

fn is_upper_digits(text: &[u8]) -> bool
    ensures { result ≡ list_all is_upper_digit text.now }
{
    text.iter().all(|b| is_upper_digit(*b))
}

fn is_upper_digit(b: u8) -> bool
    ensures { result ≡ is_upper_digit b }
{
    matches!(b, b'0'..=b'9' | b'A'..=b'F')
}
