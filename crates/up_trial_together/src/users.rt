//! Who asks, and the words of what is asked.
ghost use Rattle.std.specs.Prelude.{◌≡◌, IfOk, Ok};
ghost use Rattle.up_names.specs.UserNames.{user_of};

use std::alloc::{AllocError, Global};
use up_bytes::{Bytes, copy_of};
use up_ends::{FixedVerifier, Verdict};
use up_lists::Items;
use up_names::{User, parse_user};
use up_sign::{Session, SignOn};
use up_text::read_request;
use up_wire::{KeyRecord, Request};

/// The name of the host.
pub const HOST: &str = "h";

/// The user of this name. All names here are good, so an `Err` is want of memory.
pub fn user_named(alloc: Global, who: &[u8]) -> Result<User, AllocError>
    ensures { IfOk result (λ user. user_of who.now ≡ Ok user) }
{
    match parse_user(alloc, who) {
        Ok(user) => Ok(user),
        Err(_) => Err(AllocError),
    }
}

/// A session of the user of this name, to whose sign-on the verifier says Yes.
pub fn session_of(alloc: Global, who: &str) -> Result<Session, AllocError> {
    let card = KeyRecord {
        user: user_named(alloc, who.as_bytes())?,
        dirs: Items::new(alloc),
        stores: Items::new(alloc),
        key: Bytes::new(alloc),
    };
    let begun = SignOn::begin(alloc, HOST, &card, [0; 32]);
    drop(card);
    prove(alloc, begun?)
}

fn prove(alloc: Global, begun: SignOn) -> Result<Session, AllocError> {
    let mut verifier = FixedVerifier::new(alloc, Items::new(alloc), Some(Verdict::Yes));
    let session = begun.prove(&mut verifier, b"").ok();
    drop(verifier);
    session.ok_or(AllocError)
}

/// The request that the words of a line ask for a user. All lines here are good, so an `Err` is want of memory.
pub fn request_of(alloc: Global, user: &User, line: &str) -> Result<Request, AllocError> {
    let words = words_of(alloc, line)?;
    let request = read_request(alloc, words.as_slice(), user);
    drop(words);
    match request {
        Ok(Some(request)) => Ok(request),
        Ok(None) | Err(_) => Err(AllocError),
    }
}

fn words_of(alloc: Global, line: &str) -> Result<Vec<Bytes>, AllocError> {
    let mut words = Vec::new(alloc);
    for word in line.split(' ') {
        add_word(alloc, word, &mut words)?;
    }
    Ok(words)
}

fn add_word(alloc: Global, word: &str, words: &mut Vec<Bytes>) -> Result<(), AllocError> {
    words.push(copy_of(alloc, word.as_bytes())?)?;
    Ok(())
}
