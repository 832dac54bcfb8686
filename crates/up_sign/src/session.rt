//! A session of a user.
ghost use Rattle.std.specs.Prelude.{◌≡◌};

use std::marker::Model;
use up_bytes::Bytes;
use up_names::User;

/// A session: its user has signed a challenge with the key of its record. Only [`crate::SignOn::prove`] makes one. It is seen as
/// the user, the key, and the message that was signed.
#[derive(Debug, Drop)]
pub struct Session {
    pub(crate) user: User,
    pub(crate) key: Bytes,
    pub(crate) message: Bytes,
}

impl Model for Session {
    ghost use Rattle.up_sign.specs.SigningOn.{Signing};

    ghost Value = { Signing };

    ghost view = { λ session. record {
      user = session.user;
      key = session.key;
      message = session.message;
    } };
}

impl Session {
    /// The user.
    pub fn user(&self) -> &User
        ensures { result.now ≡ self.now.user }
    {
        &self.user
    }
}
