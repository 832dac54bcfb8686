//! The sessions of a host's users.
use std::alloc::{AllocError, Global};
use up_case_lines::{Fault, user_of};
use up_disk::MemDisk;
use up_ends::{FixedVerifier, Verdict};
use up_host::Host;
use up_lists::Items;
use up_names::User;
use up_sign::{Session, SignOn};
use up_wire::KeyRecord;

/// The session of the user of this name, where it has a key record.
pub fn session_of(
    alloc: Global,
    host: &Host<MemDisk>,
    name: &str,
) -> Result<Option<Session>, Fault> {
    let user = user_of(alloc, name)?;
    let session = signed_on(alloc, card_of(host, &user));
    drop(user);
    Ok(session?)
}

// The record of a user, of which nothing else is known.
fn card_of<'a>(host: &'a Host<MemDisk>, user: &User) -> Option<&'a KeyRecord> {
    host.key_record(user)
}

/// The session of whoever has this record. The verifier says Yes to each signature.
pub fn signed_on(alloc: Global, card: Option<&KeyRecord>) -> Result<Option<Session>, AllocError> {
    match card {
        Some(card) => Ok(proved(alloc, begin(alloc, "h", card, [0; 32])?)),
        None => Ok(None),
    }
}

// A sign-on, of which nothing else is known.
fn begin(
    alloc: Global,
    host: &str,
    card: &KeyRecord,
    challenge: [u8; 32],
) -> Result<SignOn, AllocError> {
    SignOn::begin(alloc, host, card, challenge)
}

fn proved(alloc: Global, sign_on: SignOn) -> Option<Session> {
    let mut verifier = yes_to_all(alloc);
    let session = prove(sign_on, &mut verifier);
    drop(verifier);
    session
}

fn prove(sign_on: SignOn, verifier: &mut FixedVerifier) -> Option<Session> {
    sign_on.prove(verifier, b"").ok()
}

fn yes_to_all(alloc: Global) -> FixedVerifier {
    FixedVerifier::new(alloc, Items::new(alloc), Some(Verdict::Yes))
}
