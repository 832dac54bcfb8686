//! `upspin sign`.
ghost use Rattle.std.specs.Prelude.{◌≡◌, ◌≤◌, [], ◌∷◌, None, map, IfOk, IfSome, string_bytes};
ghost use Rattle.std.specs.Io.KnownBytes.{Appends};
ghost use Rattle.up_lists.specs.Counts.{Rose};
ghost use Rattle.up_ends.specs.Writing.{WritesPart};
ghost use Rattle.std.specs.Result.{result_ok};
ghost use Rattle.up_names.specs.UserNames.{user_of};
ghost use Rattle.up_helper.specs.Signatures.{IsOneOf, signature_line, signed_for, signed_in};

use crate::hex_words::bytes_in;
use crate::signatures::{OUT_OF_MEMORY, signature_of};
use std::alloc::{AllocError, Global};
use up_bytes::Bytes;
use up_ends::{Sink, write_all};
use up_names::{NameFault, User, parse_user};
use up_refs::Reference;

/// Runs `upspin sign USER MESSAGE`, whose words begin with the command's own: writes the signature of the message by the user's
/// key, which is its name, as 64 upper-case hexadecimal digits and LF.
///
/// It answers a status: 0, 2 where the words are not so, 3 where the sink failed, and 4 for want of memory. After 2 and 4 nothing
/// was written, after 3 a front of the line.
pub fn sign_run<K: Sink>(alloc: Global, words: &[String], sink: &mut K) -> u8
    ensures statuses { IsOneOf (0 ∷ 2 ∷ 3 ∷ 4 ∷ []) result }
    ensures signed { result ≡ 0 → IfSome (signed_in (map string_bytes words.now))
        (Appends (K.held sink.old) (K.held sink.new)) }
    ensures no_words { signed_in (map string_bytes words.now) ≡ None → IsOneOf (2 ∷ 4 ∷ []) result }
    ensures no_words_only { result ≡ 2 → signed_in (map string_bytes words.now) ≡ None }
    ensures write_fault { result ≡ 3 → Rose (K.faults sink.old) (K.faults sink.new) }
    ensures part { result ≡ 3 → IfSome (signed_in (map string_bytes words.now))
        (WritesPart (K.held sink.old) (K.held sink.new)) }
    ensures untouched { IsOneOf (2 ∷ 4 ∷ []) result → sink.new ≡ sink.old }
    ensures counts { K.faults sink.old ≤ K.faults sink.new }
{
    match signed_in(alloc, words) {
        Ok(Some(line)) => written(sink, line.as_slice()),
        Ok(None) => 2,
        Err(_) => OUT_OF_MEMORY,
    }
}

/// Writes a line, and answers the status.
fn written<K: Sink>(sink: &mut K, line: &[u8]) -> u8
    ensures statuses { IsOneOf (0 ∷ 3 ∷ []) result }
    ensures whole { result ≡ 0 → Appends (K.held sink.old) (K.held sink.new) line.now }
    ensures part { WritesPart (K.held sink.old) (K.held sink.new) line.now }
    ensures cause { result ≡ 3 → Rose (K.faults sink.old) (K.faults sink.new) }
    ensures counts { K.faults sink.old ≤ K.faults sink.new }
{
    match write_all(sink, line) {
        Ok(()) => 0,
        Err(_) => 3,
    }
}

/// The line for the words of the command. `None` exactly where they are not so.
#[tactic(auto, unfolding(crate::specs::Signatures::signed_in))]
fn signed_in(alloc: Global, words: &[String]) -> Result<Option<Bytes>, AllocError>
    ensures { IfOk result (λ line. line ≡ signed_in (map string_bytes words.now)) }
{
    match words {
        [command, user, message] if command.as_str() == "sign" => signed_for(alloc, user, message),
        _ => Ok(None),
    }
}

/// The line for a user and a message. `None` exactly where one of the words is not so.
#[tactic(auto, unfolding(crate::specs::Signatures::signed_for))]
fn signed_for(alloc: Global, user: &str, message: &str) -> Result<Option<Bytes>, AllocError>
    ensures { IfOk result (λ line. line ≡ signed_for user.now message.now) }
{
    let Some(user) = user_in(alloc, user.as_bytes())? else {
        return Ok(None);
    };
    let Some(message) = bytes_in(alloc, message.as_bytes())? else {
        return Ok(None);
    };
    let signature = signature_of(user.text().as_bytes(), message.as_slice());
    Ok(Some(signature_line(alloc, signature)?))
}

/// The user that a word names, where it names one.
fn user_in(alloc: Global, word: &[u8]) -> Result<Option<User>, AllocError>
    ensures { IfOk result (λ user. user ≡ result_ok (user_of word.now)) }
{
    match parse_user(alloc, word) {
        Ok(user) => Ok(Some(user)),
        Err(NameFault::OutOfMemory) => Err(AllocError),
        Err(_) => Ok(None),
    }
}

/// The line of a signature.
fn signature_line(alloc: Global, signature: [u8; 32]) -> Result<Bytes, AllocError>
    ensures { IfOk result (λ line. line ≡ signature_line signature) }
{
    let digits = Reference::from_bytes(signature).text(alloc)?;
    let mut line = digits.into_bytes();
    line.push(b'\n')?;
    Ok(Bytes::from_vec(line))
}
