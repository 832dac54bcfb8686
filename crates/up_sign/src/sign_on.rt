//! A sign-on: a challenge that a user has to sign.
ghost use Rattle.std.specs.Prelude.{◌≡◌, IfOk, Err};
ghost use Rattle.up_lists.specs.Counts.{HasCause, StaysUnless};
ghost use Rattle.up_sign.specs.SigningOn.{JudgedAs, message_of};

use crate::fault::SignFault;
use crate::session::Session;
use std::alloc::{AllocError, Global};
use std::marker::Model;
use up_bytes::{Bytes, copy_of};
use up_ends::{Verdict, Verifier};
use up_names::User;
use up_refs::Reference;
use up_wire::KeyRecord;

/// A challenge to a user, by whose answer it signs on. It is seen as the user, the key of its record, and the message to be
/// signed.
#[derive(Debug, Drop)]
pub struct SignOn {
    user: User,
    key: Bytes,
    message: Bytes,
}

impl Model for SignOn {
    ghost use Rattle.up_sign.specs.SigningOn.{Signing};

    ghost Value = { Signing };

    ghost view = { λ sign_on. record {
      user = sign_on.user;
      key = sign_on.key;
      message = sign_on.message;
    } };
}

impl SignOn {
    /// Begins the sign-on of the record's user at the host with this name, by this challenge.
    pub fn begin(
        alloc: Global,
        host: &str,
        card: &KeyRecord,
        challenge: [u8; 32],
    ) -> Result<SignOn, AllocError>
        ensures user { IfOk result (λ sign_on. sign_on.user ≡ card.now.user) }
        ensures key { IfOk result (λ sign_on. sign_on.key ≡ card.now.key) }
        ensures message { IfOk result (λ sign_on.
            sign_on.message ≡ message_of host.now card.now.user challenge) }
    {
        let user = card.user.clone()?;
        let key = copy_of(alloc, card.key.as_slice())?;
        let message = message(alloc, host, &user, challenge)?;
        Ok(SignOn { user, key, message })
    }

    /// The message to be signed: `upspin 1 `, the host's name, a space, the user, a space, and the 64 upper-case hexadecimal
    /// digits of the challenge.
    pub fn message(&self) -> &Bytes
        ensures { result.now ≡ self.now.message }
    {
        &self.message
    }

    /// A session of the user, where the verifier says that the signature is that of the message by the key of the user's record.
    /// `No` comes exactly where its verdict is No, and `Fault` only where it failed. A refusal spends the sign-on. It takes no
    /// memory.
    pub fn prove<V: Verifier>(
        self,
        verifier: &mut V,
        signature: &[u8],
    ) -> Result<Session, SignFault>
        ensures session { IfOk result (λ session. session ≡ self) }
        ensures judged { JudgedAs self signature.now
            (V.judged verifier.old) (V.judged verifier.new) result }
        ensures counts { HasCause (V.faults verifier.old) (V.faults verifier.new)
            (result ≡ Err SignFault.Fault) }
        ensures quiet { StaysUnless (V.faults verifier.old) (V.faults verifier.new)
            (result ≡ Err SignFault.Fault) }
    {
        let SignOn { user, key, message } = self;
        match verifier.verdict(key.as_slice(), message.as_slice(), signature) {
            Ok(Verdict::Yes) => Ok(Session { user, key, message }),
            Ok(Verdict::No) => Err(SignFault::No),
            Err(_) => Err(SignFault::Fault),
        }
    }
}

/// The message that a user signs, to sign on at the host with this name by this challenge. Whoever dials a host takes the name from
/// its own user, never from the host: one that told the name of another host would have that host's challenge signed.
pub fn message(
    alloc: Global,
    host: &str,
    user: &User,
    challenge: [u8; 32],
) -> Result<Bytes, AllocError>
    ensures { IfOk result (λ message. message ≡ message_of host.now user.now challenge) }
{
    let digits = Reference::from_bytes(challenge).text(alloc)?;
    let mut message = Vec::new(alloc);
    message.extend_from_slice(b"upspin 1 ")?;
    message.extend_from_slice(host.as_bytes())?;
    message.push(b' ')?;
    message.extend_from_slice(user.text().as_bytes())?;
    message.push(b' ')?;
    message.extend_from_slice(digits.as_bytes())?;
    Ok(Bytes::from_vec(message))
}
