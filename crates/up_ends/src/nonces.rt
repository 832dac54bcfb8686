//! What a source of nonces promises, and one over a list.
ghost use Rattle.std.specs.Prelude.{◌≡◌, ℕ, List, Option};
ghost use Rattle.up_ends.specs.Telling.{Coming, Gives};
ghost use Rattle.up_ends.specs.Nonces.{nonces_of};

use crate::upcoming::Upcoming;
use std::marker::Model;
use up_lists::Items;

/// Where nonces come from. That no two are equal is promised by none.
pub trait Nonces {
    /// The nonces still to come, where they are told.
    ghost coming: { Self → Option (Coming (List ℕ)) };

    /// The next nonce.
    fn next(&mut self) -> [u8; 32]
        ensures { Gives (coming self.old) result (coming self.new) };
}

/// The nonces of a list, and zeros for good after them.
#[derive(Drop)]
pub struct ListNonces {
    coming: Upcoming<[u8; 32]>,
}

impl Model for ListNonces {
    ghost use Rattle.std.specs.Prelude.{ℕ, List};
    ghost use Rattle.up_ends.specs.Telling.{Coming};

    ghost Value = { Coming (List ℕ) };

    ghost view = { λ nonces. nonces.coming };
}

impl ListNonces {
    /// These nonces, in order.
    pub fn new(first: Items<[u8; 32]>) -> Self
        ensures { result ≡ nonces_of first }
    {
        ListNonces {
            coming: Upcoming::new(first, [0; 32]),
        }
    }
}

impl Nonces for ListNonces {
    ghost use Rattle.std.specs.Prelude.{Some};

    ghost coming = { λ nonces. Some nonces };

    fn next(&mut self) -> [u8; 32] {
        let nonce = self.coming.next();
        self.coming.pass();
        nonce
    }
}
