//! Signatures that another program makes.
ghost use Rattle.std.specs.Prelude.{◌≡◌, [], ◌∷◌, ◌++◌, codes, map, IfOk, OnOk, string_bytes};
ghost use Rattle.up_net.specs.Questions.{SignsOnce, asked_to_sign, signature_in, signature_of_run};

use crate::helper_verifier::give_bytes;
use crate::programs::{Printed, Programs};
use std::alloc::{AllocError, Global};
use up_bytes::Bytes;
use up_helper::bytes_in;
use up_names::User;

/// The signature of a message by a user, from a helper that is run once, as `HELPER sign USER MESSAGE`, the message in upper-case
/// hexadecimal digits. `None` where its status is not 0, or where it did not print one line of digits.
pub fn signature<P: Programs>(
    alloc: Global,
    programs: &mut P,
    helper: &str,
    user: &User,
    message: &[u8],
) -> Result<Option<Bytes>, AllocError>
    ensures { IfOk result (λ signature. SignsOnce P.runs helper.now
        (asked_to_sign user.now message.now) programs.old signature programs.new) }
{
    let mut words = Vec::new(alloc);
    give_words(alloc, &mut words, user, message)?;
    let came = programs.output(alloc, helper, words.as_slice())?;
    signature_of_run(alloc, &came)
}

/// Puts the words by which a signature is asked for behind others. For want of memory a part of them may stand there.
fn give_words(
    alloc: Global,
    words: &mut Vec<String>,
    user: &User,
    message: &[u8],
) -> Result<(), AllocError>
    ensures { OnOk result (map string_bytes words.new.items
        ≡ map string_bytes words.old.items ++ asked_to_sign user.now message.now) }
{
    words.push(String::from_str(alloc, "sign")?)?;
    words.push(String::from_str(alloc, user.text())?)?;
    give_bytes(alloc, words, message)
}

/// The signature by what a helper's run came to.
#[tactic(auto, unfolding(crate::specs::Questions::signature_of_run))]
fn signature_of_run(alloc: Global, came: &Printed) -> Result<Option<Bytes>, AllocError>
    ensures { IfOk result (λ signature.
        signature ≡ signature_of_run came.now.status came.now.bytes) }
{
    match came.status {
        Some(0) => signature_in(alloc, came.bytes.as_slice()),
        _ => Ok(None),
    }
}

/// The signature in one line of digits.
#[tactic(auto, unfolding(crate::specs::Questions::signature_in))]
fn signature_in(alloc: Global, printed: &[u8]) -> Result<Option<Bytes>, AllocError>
    ensures { IfOk result (λ signature. signature ≡ signature_in printed.now) }
{
    let size = printed.len().saturating_sub(1);
    let (line, end) = printed.split_at(size);
    if end == b"\n".as_slice() {
        bytes_in(alloc, line)
    } else {
        Ok(None)
    }
}
