//! Sign-on: the message of a challenge, and what comes of a signature. A line stands alone.
use crate::ends::verdict_of;
use std::alloc::Global;
use up_case_lines::{Answer, Fault, Topic, Words, bytes_of, bytes_of_digits, text_of, user_of};
use up_ends::FixedVerifier;
use up_lists::Items;
use up_sign::{SignFault, SignOn};
use up_wire::KeyRecord;

/// Lines about sign-on. They keep nothing.
#[derive(Clone, Copy)]
pub struct Signing;

impl Topic for Signing {
    fn turn(&mut self, alloc: Global, line: &str, answer: &mut Answer) -> Result<(), Fault> {
        let mut words = Words::new(line);
        match words.word()? {
            "message" => message_line(alloc, words, answer),
            "prove" => prove_line(alloc, words, answer),
            _ => Err(Fault::BadLine),
        }
    }
}

// A record of a user without endpoints.
fn record_of(alloc: Global, user: &str, key: &str) -> Result<KeyRecord, Fault> {
    let user = user_of(alloc, user)?;
    Ok(KeyRecord {
        user,
        dirs: Items::new(alloc),
        stores: Items::new(alloc),
        key: bytes_of(alloc, key)?,
    })
}

// The sign-on of a user at a host by a challenge of 64 hexadecimal digits.
fn sign_on_of(alloc: Global, mut words: Words<'_>) -> Result<SignOn, Fault> {
    let (host, user, key) = words.next_three()?;
    let challenge = challenge_of(alloc, words.one()?)?;
    begin(alloc, host, user, key, challenge)
}

fn begin(
    alloc: Global,
    host: &str,
    user: &str,
    key: &str,
    challenge: [u8; 32],
) -> Result<SignOn, Fault> {
    let card = record_of(alloc, user, key)?;
    Ok(SignOn::begin(alloc, host, &card, challenge)?)
}

fn challenge_of(alloc: Global, word: &str) -> Result<[u8; 32], Fault> {
    let bytes = bytes_of_digits(alloc, word)?;
    let challenge = bytes.as_slice().as_array::<32>().ok_or(Fault::BadLine)?;
    Ok(*challenge)
}

// `message HOST USER KEY CHALLENGE`: the message to be signed.
fn message_line(alloc: Global, words: Words<'_>, answer: &mut Answer) -> Result<(), Fault> {
    let sign_on = sign_on_of(alloc, words)?;
    answer.coded(sign_on.message().as_slice());
    Ok(())
}

// `prove VERDICT SIGNATURE HOST USER KEY CHALLENGE`: whose session there is, or why there is none, and what the verifier was
// asked. VERDICT is `yes`, `no`, or `fault` for a verifier that fails.
fn prove_line(alloc: Global, mut words: Words<'_>, answer: &mut Answer) -> Result<(), Fault> {
    let (verdict, signature) = (words.word()?, words.word()?);
    let sign_on = sign_on_of(alloc, words)?;
    prove(alloc, verdict, signature, sign_on, answer)
}

fn prove(
    alloc: Global,
    verdict: &str,
    signature: &str,
    sign_on: SignOn,
    answer: &mut Answer,
) -> Result<(), Fault> {
    let verdict = verdict_of(verdict)?;
    let signature = text_of(alloc, signature)?;
    let mut verifier = FixedVerifier::new(alloc, Items::new(alloc), verdict);
    match sign_on.prove(&mut verifier, signature.as_slice()) {
        Ok(session) => {
            answer.word("session");
            answer.coded(session.user().text().as_bytes());
        }
        Err(SignFault::No) => answer.word("no"),
        Err(SignFault::Fault) => answer.word("fault"),
    }
    add_judged(&verifier, answer);
    Ok(())
}

fn add_judged(verifier: &FixedVerifier, answer: &mut Answer) {
    for judged in verifier.judged() {
        answer.part();
        answer.coded(judged.key.as_slice());
        answer.coded(judged.message.as_slice());
        answer.coded(judged.signature.as_slice());
    }
}
