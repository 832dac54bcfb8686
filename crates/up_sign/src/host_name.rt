//! Names of hosts.
ghost use Rattle.std.specs.Prelude.{◌≡◌, IfOk};
ghost use Rattle.std.specs.List.{list_all};
ghost use Rattle.up_sign.specs.HostNames.{host_named, is_host_name, is_name_byte};

use std::alloc::{AllocError, Global};
use std::marker::Model;

/// The name of a host: 1 to 32 of `a-z 0-9`. It is seen as its text.
#[derive(Drop)]
pub struct HostName {
    text: String,
}

impl Model for HostName {
    ghost use Rattle.std.specs.String.{string_bytes};
    ghost use Rattle.up_names.specs.Texts.{Text};

    ghost Value = { Text };

    ghost view = { λ name. string_bytes name.text };
}

impl HostName {
    /// The name that a word is. It is read as it stands.
    pub fn read(alloc: Global, word: &[u8]) -> Result<Option<HostName>, AllocError>
        ensures { IfOk result (λ found. found ≡ host_named word.now) }
    {
        if !is_host_name(word) {
            return Ok(None);
        }
        Ok(Some(HostName {
            text: String::from_utf8(Vec::from_slice(alloc, word)?).unwrap(),
        }))
    }

    /// The name.
    pub fn as_str(&self) -> &str
        ensures { result.now ≡ self.now }
    {
        &self.text
    }
}

fn is_host_name(word: &[u8]) -> bool
    ensures { result ≡ is_host_name word.now }
{
    (1..=32).contains(&word.len()) && are_name_bytes(word)
}

fn are_name_bytes(word: &[u8]) -> bool
    ensures { result ≡ list_all is_name_byte word.now }
{
    word.iter().all(|b| is_name_byte(*b))
}

fn is_name_byte(byte: u8) -> bool
    ensures { result ≡ is_name_byte byte }
{
    byte.is_ascii_lowercase() || byte.is_ascii_digit()
}
