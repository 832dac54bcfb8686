//! The words of a line, of which the keyword was read.
ghost use Rattle.std.specs.Prelude.{◌≡◌, ◌||◌, IfOk, is_some};
ghost use Rattle.up_names.specs.Texts.{UserName};
ghost use Rattle.up_text.specs.Requests.{client_line_of, request_of};

use crate::fitting::is_request;
use crate::requests::{ClientLine, LineKind, client_line_found, kind_in, request_found};
use std::alloc::{AllocError, Global};
use std::marker::Model;
use up_bytes::Bytes;
use up_lists::Items;
use up_names::User;
use up_wire::Request;

/// The words of a line that asks something of a session, those behind the session's number. Their keyword is read once, where this is
/// made. It is seen as the words.
#[derive(Drop)]
pub struct LineWords {
    kind: Option<LineKind>,
    words: Items<Bytes>,
}

impl Model for LineWords {
    ghost use Rattle.std.specs.Prelude.{◌≡◌, List};
    ghost use Rattle.up_names.specs.Texts.{Text};
    ghost use Rattle.up_text.specs.Requests.{kind_in};

    ghost Value = { List Text };

    ghost view = { λ line. line.words };

    ghost invariant = { λ line. line.kind ≡ kind_in line.words };
}

impl LineWords {
    /// These words.
    pub fn new(words: Items<Bytes>) -> LineWords
        ensures { result ≡ words }
    {
        let kind = kind_in(words.as_slice());
        LineWords { kind, words }
    }

    /// What they ask of a server, for a session of this user. `None` exactly where the line is malformed, or is one of the client.
    pub fn request(&self, alloc: Global, user: &User) -> Result<Option<Request>, AllocError>
        ensures { IfOk result (λ asked. asked ≡ request_of user.now self.now) }
    {
        request_found(alloc, self.kind, self.words.as_slice(), user)
    }

    /// What they have the client do. `None` exactly where the line is malformed, or is none of the client.
    pub fn client_line(&self, alloc: Global) -> Result<Option<ClientLine>, AllocError>
        ensures { IfOk result (λ line. line ≡ client_line_of self.now) }
    {
        client_line_found(alloc, self.kind, self.words.as_slice())
    }

    /// Whether they ask something of a server or have the client do something; for whichever user. The line is malformed exactly where
    /// they do not. It takes no memory.
    pub fn is_request(&self) -> bool
        ensures { (user : UserName) → result
            ≡ (is_some (request_of user self.now) || is_some (client_line_of self.now)) }
    {
        is_request(self.kind, self.words.as_slice())
    }
}
