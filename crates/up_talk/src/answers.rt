//! Who answers a connection.
ghost use Rattle.std.specs.Prelude.{◌≡◌, ◌≢◌, ℕ, List, IfOk};
ghost use Rattle.std.specs.declared.option.Option.{Option};
ghost use Rattle.up_ends.specs.Moments.{IsMoment};
ghost use Rattle.up_names.specs.Texts.{UserName};
ghost use Rattle.up_wire.specs.Spelling.{client};
ghost use Rattle.up_wire.specs.declared.keys.KeyRecord.{KeyRecord as Card};
ghost use Rattle.up_wire.specs.declared.messages.ClientFrame.TheVariants as clients;
ghost use Rattle.up_talk.specs.Challenges.{Meets};
ghost use Rattle.up_talk.specs.Messages.{Asks};

use std::alloc::{AllocError, Global};
use up_bytes::Fields;
use up_ends::Nonces;
use up_names::User;
use up_sign::{Session, SignOn};

/// A challenge to a user: the nonce, and what is to be signed.
#[derive(Drop)]
pub struct Challenge {
    pub nonce: [u8; 32],
    pub sign_on: SignOn,
}

/// Who answers the questions of a connection: a host, or a caller of a shared one, with who stands behind it.
///
/// What it does is a relation, since what others do to its logs is not known.
pub trait Answers {
    /// What a user may ask who has signed on.
    type Question: Drop;

    /// What it is answered.
    type Answer: Fields + Drop;

    /// The host's name.
    ghost name: { Self → List ℕ };

    /// Whether a look at a user's key record, with what was found, leads from one state to the other.
    ghost looked: { Self → UserName → Option Card → Self → Type 0 };

    /// The payload of a question, which is its one spelling.
    ghost asking: { Self.Question → List ℕ };

    /// The questions that have a spelling.
    ghost fits: { Self.Question → Type 0 };

    /// Whether a question of a user at a moment, with the answer, leads from one state to the other.
    ghost asked: { Self → UserName → Self.Question → ℕ → Self.Answer → Self → Type 0 };

    /// What every call leaves as it is: of an object that holds a borrowed host, that it is the same one.
    ghost tied: { Self → Self → Type 0 };

    /// Challenges a user with the next nonce, where the user has a key record; else no nonce is drawn.
    fn challenge<N: Nonces>(
        &mut self,
        alloc: Global,
        nonces: &mut N,
        user: &User,
    ) -> Result<Option<Challenge>, AllocError>
        ensures meets { Meets name looked N.coming user.now
            self.old nonces.old result self.new nonces.new }
        ensures tie { tied self.old self.new };

    /// The question that has this payload, or none where it is the payload of no question.
    fn read(alloc: Global, payload: &[u8]) -> Result<Option<Self::Question>, AllocError>
        ensures { IfOk result (λ found. Asks asking fits payload.now found) };

    /// Answers a question of whoever has signed on, at a moment in seconds since 1970, before the year 10000.
    fn ask(
        &mut self,
        alloc: Global,
        session: &Session,
        question: &Self::Question,
        now: u64,
    ) -> Self::Answer
        requires { IsMoment now }
        ensures asked { asked self.old session.now.user question.now now result self.new }
        ensures tie { tied self.old self.new };

    // No call at all leaves all as it is, and so do two calls, one after the other.
    ghost same: { (a : Self) → tied a a };

    ghost joined: { (a b c : Self) → tied a b → tied b c → tied a c };

    // A payload is that of one question, and not that of Bye.
    ghost one_question: { (one other : Self.Question) → fits one → fits other
        → asking one ≡ asking other → one ≡ other };

    ghost no_bye: { (question : Self.Question) → fits question
        → asking question ≢ client clients.Bye };
}
