//! A connection to a host that many share.
ghost use Rattle.std.specs.Prelude.{◌≡◌, ℕ, List};
ghost use Rattle.up_shared.specs.Sharing.{AreSeats};
ghost use Rattle.up_talk.specs.Completing.{Completes, IsInOrder, asks_all};
ghost use Rattle.up_talk.specs.Talks.{Talks};
ghost use Rattle.up_talk.specs.Turns.{ends, world};
ghost use Rattle.up_talk.specs.declared.message.FromClient.{FromClient};
ghost use Rattle.up_together.specs.Sitting.{marks_at, marks_of};
ghost use Rattle.up_together.specs.Together.{TiedTogether, host_together, together_among, together_at};
ghost use Rattle.up_wire.specs.declared.requests.Request.{Request as Asked};

use std::alloc::{AllocError, Global};
use std::sync::Wait;
use up_disk::Disk;
use up_ends::{Clock, Nonces, Sink, Source, Verifier};
use up_names::User;
use up_peer::Loader;
use up_shared::{Seats, Shared};
use up_sign::{Session, SignOn};
use up_talk::{Answers, Challenge, TalkEnd, request_of, talk_to};
use up_wire::{Request, ServerFrame};

/// A host that many share, with one caller's seats at it and its loader, for one connection.
#[derive(Drop)]
struct Together<'r, 'h, 's, 'l, D: Disk + Drop, R: Wait, L> {
    rt: &'r R,
    shared: &'h Shared<D>,
    seats: &'s mut Seats<D>,
    loader: &'l mut L,
    // The seats are those of the host.
    ghost sits: { marks_of seats.now ≡ marks_at shared.now seats.now },
}

impl<'r, 'h, 's, 'l, D: Disk + Drop, R: Wait, L: Loader> Answers
    for Together<'r, 'h, 's, 'l, D, R, L> {
    ghost use Rattle.std.proofs.Common.{refl, ◌∙◌};
    ghost use Rattle.up_shared.specs.Callers.{seats_same, seats_trans};
    ghost use Rattle.up_shared.specs.Sharing.{SeatsLater};
    ghost use Rattle.up_talk.proofs.RequestLemmas.{one_request, request_no_bye};
    ghost use Rattle.up_talk.specs.Requests.{FitsRequest, request_payload};
    ghost use Rattle.up_together.specs.Together.{AnswersTogether, LooksTogether};
    ghost use Rattle.std.specs.String.{string_bytes};

    type Question = Request;

    type Answer = ServerFrame;

    ghost name = { λ one. string_bytes one.shared.now.name };

    ghost looked = { λ old user found new. LooksTogether
        (host_together old.shared.now old.seats.now old.loader.now) user found
        (host_together new.shared.now new.seats.now new.loader.now) };

    ghost asking = { request_payload };

    ghost fits = { FitsRequest };

    ghost asked = { λ old user request moment frame new. AnswersTogether L.Loader
        (host_together old.shared.now old.seats.now old.loader.now) user request moment frame
        (host_together new.shared.now new.seats.now new.loader.now) };

    ghost tied = { λ old new. (new.seats.ghost_name ≡ old.seats.ghost_name)
        × (new.loader.ghost_name ≡ old.loader.ghost_name)
        × (new.shared.now ≡ old.shared.now)
        × SeatsLater old.seats.now new.seats.now
        × L.tied old.loader.now new.loader.now };

    #[tactic(auto, using(crate::proofs::SittingLemmas::marks_by_sits))]
    fn challenge<N: Nonces>(
        &mut self,
        alloc: Global,
        nonces: &mut N,
        user: &User,
    ) -> Result<Option<Challenge>, AllocError> {
        match self.shared.key_record(self.rt, alloc, self.seats, user) {
            Ok(Some(card)) => {
                let nonce = nonces.next();
                match SignOn::begin(alloc, self.shared.name(), &card, nonce) {
                    Ok(sign_on) => Ok(Some(Challenge { nonce, sign_on })),
                    Err(failed) => Err(failed),
                }
            }
            Ok(None) => Ok(None),
            Err(failed) => {
                // The user has a record, of which there was no memory for a copy: so here too a nonce is drawn.
                let _nonce = nonces.next();
                Err(failed)
            }
        }
    }

    fn read(alloc: Global, payload: &[u8]) -> Result<Option<Request>, AllocError> {
        request_of(alloc, payload)
    }

    #[tactic(auto, using(crate::proofs::SittingLemmas::marks_by_sits))]
    fn ask(
        &mut self,
        alloc: Global,
        session: &Session,
        question: &Request,
        now: u64,
    ) -> ServerFrame {
        let event = self.shared.ask(
            self.rt,
            alloc,
            self.seats,
            self.loader,
            session,
            question,
            now,
        );
        ServerFrame::Answer(event.reply)
    }

    ghost same = { λ a. (refl, refl, refl, seats_same a.seats.now, L.same a.loader.now) };

    ghost joined = { λ a b c p q. (
      q.0 ∙ p.0,
      q.1 ∙ p.1,
      q.2 ∙ p.2,
      seats_trans a.seats.now b.seats.now c.seats.now p.3 q.3,
      L.joined a.loader.now b.loader.now c.loader.now p.4 q.4,
    ) };

    ghost one_question = { one_request };

    ghost no_bye = { request_no_bye };
}

/// One connection to a host that many share: a sign-on, and then the requests of its user, each answered at the moment that the clock
/// gives, by one point of its log's history that is not before anything that the seats had seen.
///
/// It waits for the turns of the logs, and what is promised is so where it returns. How it ends, and what was written by then, is as
/// [`TalkEnd`] says.
pub fn talk<
    D: Disk + Drop,
    R: Wait,
    L: Loader,
    S: Source,
    K: Sink,
    V: Verifier,
    C: Clock,
    N: Nonces,
>(
    rt: &R,
    alloc: Global,
    host: &Shared<D>,
    seats: &mut Seats<D>,
    peers: &mut L,
    source: &mut S,
    sink: &mut K,
    verifier: &mut V,
    clock: &mut C,
    nonces: &mut N,
) -> TalkEnd
    requires sits { AreSeats host.now seats.old }
    ensures talks { Talks (together_among L.Loader V.Verifier C.Clock N.Nonces)
        (world (together_at host.now seats.old peers.old verifier.old clock.old nonces.old)
        (ends S.Source K.Sink source.old sink.old))
        (world (together_at host.now seats.new peers.new verifier.new clock.new nonces.new)
        (ends S.Source K.Sink source.new sink.new)) result }
    ensures complete { (text signature : List ℕ) (requests : List Asked)
        (last : List (FromClient Asked))
        → IsInOrder (together_among L.Loader V.Verifier C.Clock N.Nonces)
        (world (together_at host.now seats.old peers.old verifier.old clock.old nonces.old)
        (ends S.Source K.Sink source.old sink.old))
        (world (together_at host.now seats.new peers.new verifier.new clock.new nonces.new)
        (ends S.Source K.Sink source.new sink.new)) text signature requests last
        → Completes (together_among L.Loader V.Verifier C.Clock N.Nonces)
        (world (together_at host.now seats.old peers.old verifier.old clock.old nonces.old)
        (ends S.Source K.Sink source.old sink.old))
        (world (together_at host.now seats.new peers.new verifier.new clock.new nonces.new)
        (ends S.Source K.Sink source.new sink.new))
        (asks_all text signature requests) result }
    ensures sits { AreSeats host.now seats.new }
    ensures tie { TiedTogether L.Loader (host_together host.now seats.old peers.old)
        (host_together host.now seats.new peers.new) }
{
    let mut together = Together {
        rt,
        shared: host,
        seats,
        loader: peers,
    };
    talk_to(alloc, &mut together, source, sink, verifier, clock, nonces)
}
