//! A follower's connection to a host that many share.
ghost use Rattle.std.specs.Prelude.{◌≡◌, ◌<◌, ℕ, List};
ghost use Rattle.up_ends.specs.Telling.{Gives};
ghost use Rattle.up_feed.specs.Feeding.{TiedLeader, leader_among, leader_at, leader_with};
ghost use Rattle.up_feed_wire.specs.declared.ask.FeedAsk.{FeedAsk as Asked};
ghost use Rattle.up_shared.specs.Sharing.{AreSeats};
ghost use Rattle.up_talk.specs.Completing.{Completes, IsInOrder, asks_all};
ghost use Rattle.up_talk.specs.Talks.{Talks};
ghost use Rattle.up_talk.specs.Turns.{ends, world};
ghost use Rattle.up_talk.specs.declared.message.FromClient.{FromClient};
ghost use Rattle.up_together.specs.Sitting.{marks_at, marks_of};

use crate::pulling::{place_of, pull_at};
use std::alloc::{AllocError, Global};
use std::sync::Wait;
use up_disk::Disk;
use up_ends::{Clock, Nonces, Sink, Source, Verifier};
use up_feed_wire::{FeedAsk, FeedReply, read_feed_ask};
use up_names::User;
use up_shared::{Seats, Shared};
use up_sign::{Session, SignOn};
use up_talk::{Answers, Challenge, TalkEnd, talk_to};

/// A host that many share, with one caller's seats at it, for a follower's connection.
#[derive(Drop)]
struct Leading<'r, 'h, 's, D: Disk + Drop, R: Wait> {
    rt: &'r R,
    shared: &'h Shared<D>,
    seats: &'s mut Seats<D>,
    // The seats are those of the host.
    ghost sits: { marks_of seats.now ≡ marks_at shared.now seats.now },
}

/// The clock of a feed, which has no moments: an answer is the same at each.
#[derive(Drop)]
pub struct Timeless;

impl Clock for Timeless {
    ghost use Rattle.std.specs.Prelude.{None};

    ghost coming = { λ _. None };

    fn now(&mut self) -> u64 {
        0
    }
}

impl<'r, 'h, 's, D: Disk + Drop, R: Wait> Answers for Leading<'r, 'h, 's, D, R> {
    ghost use Rattle.std.proofs.Common.{refl, ◌∙◌};
    ghost use Rattle.std.specs.Prelude.{None};
    ghost use Rattle.std.specs.String.{string_bytes};
    ghost use Rattle.up_calls.specs.Routes.{OwnStays};
    ghost use Rattle.up_feed.specs.Feeding.{Feeds};
    ghost use Rattle.up_feed.specs.Asking.{ask_no_bye, one_ask};
    ghost use Rattle.up_feed_wire.specs.FeedMessages.{IsTypedAsk, feed_ask};
    ghost use Rattle.up_shared.specs.Callers.{own_same, own_trans, seats_same, seats_trans};
    ghost use Rattle.up_shared.specs.Sharing.{SeatsLater, views_of};
    ghost use Rattle.up_together.specs.Together.{LooksTogether};

    type Question = FeedAsk;

    type Answer = FeedReply;

    ghost name = { λ one. string_bytes one.shared.now.name };

    ghost looked = { λ old user found new. LooksTogether
        (leader_with old.shared.now old.seats.now) user found
        (leader_with new.shared.now new.seats.now) };

    ghost asking = { feed_ask };

    ghost fits = { IsTypedAsk };

    ghost asked = { λ old user ask moment reply new. Feeds
        (leader_with old.shared.now old.seats.now) user ask moment reply
        (leader_with new.shared.now new.seats.now) };

    ghost tied = { λ old new. (new.seats.ghost_name ≡ old.seats.ghost_name)
        × (new.shared.now ≡ old.shared.now)
        × SeatsLater old.seats.now new.seats.now
        × OwnStays None (views_of old.seats.now) (views_of new.seats.now) };

    #[tactic(auto, using(up_together::proofs::SittingLemmas::marks_by_sits))]
    fn challenge<N: Nonces>(
        &mut self,
        alloc: Global,
        nonces: &mut N,
        user: &User,
    ) -> Result<Option<Challenge>, AllocError> {
        match self.shared.key_record(self.rt, alloc, self.seats, user) {
            Ok(Some(card)) => {
                let nonce = nonces.next();
                match SignOn::begin(alloc, self.shared.name(), &card, nonce) {
                    Ok(sign_on) => Ok(Some(Challenge { nonce, sign_on })),
                    Err(failed) => Err(failed),
                }
            }
            Ok(None) => Ok(None),
            Err(failed) => {
                // The user has a record, of which there was no memory for a copy: so here too a nonce is drawn.
                let _nonce = nonces.next();
                Err(failed)
            }
        }
    }

    fn read(_alloc: Global, payload: &[u8]) -> Result<Option<FeedAsk>, AllocError> {
        Ok(read_feed_ask(payload).ok())
    }

    #[tactic(auto, using(up_together::proofs::SittingLemmas::marks_by_sits))]
    fn ask(
        &mut self,
        alloc: Global,
        session: &Session,
        question: &FeedAsk,
        _now: u64,
    ) -> FeedReply {
        let Some(place) = place_of(self.shared, session.user()) else {
            return FeedReply::NoTree;
        };
        match pull_at(
            self.rt,
            alloc,
            self.shared,
            self.seats,
            place,
            question.from,
        ) {
            Ok(records) => FeedReply::Records(records),
            Err(_) => FeedReply::OutOfMemory,
        }
    }

    ghost same = { λ a. (refl, refl, seats_same a.seats.now, own_same None (views_of a.seats.now)) };

    ghost joined = { λ a b c p q. (
      q.0 ∙ p.0,
      q.1 ∙ p.1,
      seats_trans a.seats.now b.seats.now c.seats.now p.2 q.2,
      own_trans None (views_of a.seats.now) (views_of b.seats.now) (views_of c.seats.now) p.3 q.3,
    ) };

    ghost one_question = { one_ask };

    ghost no_bye = { ask_no_bye };
}

/// One connection of a follower to a host that many share: a sign-on, and then pulls of the tree of whoever has signed on. Each is
/// answered by the next 64 records of the log that was lent, or all that are left; by that the host has no such tree, exactly where it has
/// none; or by want of memory.
///
/// It waits for the turns of the tree, and what is promised is so where it returns. How it ends, and what was written by then, is as
/// [`TalkEnd`] says.
pub fn feed_talk<D: Disk + Drop, R: Wait, S: Source, K: Sink, V: Verifier, N: Nonces>(
    rt: &R,
    alloc: Global,
    host: &Shared<D>,
    seats: &mut Seats<D>,
    source: &mut S,
    sink: &mut K,
    verifier: &mut V,
    nonces: &mut N,
) -> TalkEnd
    requires sits { AreSeats host.now seats.old }
    ensures talks { Talks (leader_among V.Verifier N.Nonces)
        (world (leader_at host.now seats.old verifier.old nonces.old)
        (ends S.Source K.Sink source.old sink.old))
        (world (leader_at host.now seats.new verifier.new nonces.new)
        (ends S.Source K.Sink source.new sink.new)) result }
    ensures complete { (text signature : List ℕ) (asks : List Asked) (last : List (FromClient Asked))
        → IsInOrder (leader_among V.Verifier N.Nonces)
        (world (leader_at host.now seats.old verifier.old nonces.old)
        (ends S.Source K.Sink source.old sink.old))
        (world (leader_at host.now seats.new verifier.new nonces.new)
        (ends S.Source K.Sink source.new sink.new)) text signature asks last
        → Completes (leader_among V.Verifier N.Nonces)
        (world (leader_at host.now seats.old verifier.old nonces.old)
        (ends S.Source K.Sink source.old sink.old))
        (world (leader_at host.now seats.new verifier.new nonces.new)
        (ends S.Source K.Sink source.new sink.new)) (asks_all text signature asks) result }
    ensures sits { AreSeats host.now seats.new }
    ensures tie { TiedLeader (leader_with host.now seats.old) (leader_with host.now seats.new) }
{
    let mut leading = Leading {
        rt,
        shared: host,
        seats,
    };
    talk_to(
        alloc,
        &mut leading,
        source,
        sink,
        verifier,
        &mut Timeless,
        nonces,
    )
}
