//! Who takes part in a storm signs on.
ghost use Rattle.std.specs.Prelude.{◌≡◌, IfOk, Ok};
ghost use Rattle.up_names.specs.UserNames.{user_of};

use std::alloc::{AllocError, Global};
use up_bytes::Bytes;
use up_ends::{FixedVerifier, Verdict};
use up_lists::Items;
use up_names::{User, parse_user};
use up_sign::{Session, SignOn};
use up_wire::KeyRecord;

/// The name of the host.
pub(crate) const HOST: &str = "storm";

/// A session of whoever has this name. Its sign-on is answered Yes. All names of a storm are good, so an `Err` is want of memory.
pub(crate) fn sign_on(alloc: Global, who: &[u8]) -> Result<Session, AllocError>
    ensures { IfOk result (λ session. user_of who.now ≡ Ok session.user) }
{
    let user = user_named(alloc, who)?;
    let card = card_of(alloc, user);
    let begun = SignOn::begin(alloc, HOST, &card, [0; 32]);
    drop(card);
    prove(alloc, begun?)
}

// The user of this name.
pub(crate) fn user_named(alloc: Global, who: &[u8]) -> Result<User, AllocError>
    ensures { IfOk result (λ user. user_of who.now ≡ Ok user) }
{
    match parse_user(alloc, who) {
        Ok(user) => Ok(user),
        Err(_) => Err(AllocError),
    }
}

// A key record, whose key nobody looks at.
fn card_of(alloc: Global, user: User) -> KeyRecord
    ensures { result.user ≡ user }
{
    KeyRecord {
        user,
        dirs: Items::new(alloc),
        stores: Items::new(alloc),
        key: Bytes::new(alloc),
    }
}

// The session of a sign-on, by a verifier that says Yes.
fn prove(alloc: Global, begun: SignOn) -> Result<Session, AllocError>
    ensures { IfOk result (λ session. session ≡ begun) }
{
    let mut verifier = FixedVerifier::new(alloc, Items::new(alloc), Some(Verdict::Yes));
    match begun.prove(&mut verifier, b"") {
        Ok(session) => Ok(session),
        Err(_) => Err(AllocError),
    }
}
