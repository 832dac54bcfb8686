//! A connection to a host that is not shared.
ghost use Rattle.std.specs.Prelude.{◌≡◌, ℕ, List, refl};
ghost use Rattle.up_alone.specs.Alone.{TiedAlone, alone_among, alone_at, host_alone};
ghost use Rattle.up_talk.specs.Completing.{Completes, IsInOrder, asks_all};
ghost use Rattle.up_talk.specs.Talks.{Talks};
ghost use Rattle.up_talk.specs.Turns.{ends, world};
ghost use Rattle.up_talk.specs.declared.message.FromClient.{FromClient};
ghost use Rattle.up_wire.specs.declared.requests.Request.{Request as Asked};

use std::alloc::{AllocError, Global};
use up_disk::Disk;
use up_ends::{Clock, Nonces, Sink, Source, Verifier};
use up_host::Host;
use up_names::User;
use up_peer::Loader;
use up_sign::{Session, SignOn};
use up_talk::{Answers, Challenge, TalkEnd, request_of, talk_to};
use up_wire::{Request, ServerFrame};

/// A host that is not shared, with its loader, for one connection.
#[derive(Drop)]
struct Alone<'a, D: Disk, L: Loader> {
    host: &'a mut Host<D>,
    loader: &'a mut L,
}

impl<'a, D: Disk, L: Loader> Answers for Alone<'a, D, L> {
    ghost use Rattle.up_alone.specs.Alone.{AnswersAlone, LooksAlone, host_alone};
    ghost use Rattle.up_alone.specs.Ties.{stays_still};
    ghost use Rattle.up_talk.specs.Requests.{FitsRequest, request_payload};
    ghost use Rattle.up_talk.proofs.RequestLemmas.{one_request, request_no_bye};

    type Question = Request;

    type Answer = ServerFrame;

    ghost name = { λ alone. alone.host.now.name };

    ghost looked = { λ old user found new. LooksAlone (host_alone old.host.now old.loader.now)
        user found (host_alone new.host.now new.loader.now) };

    ghost asking = { request_payload };

    ghost fits = { FitsRequest };

    ghost asked = { λ old user request moment frame new.
        AnswersAlone D.Disk L.Loader (host_alone old.host.now old.loader.now) user request moment
        frame (host_alone new.host.now new.loader.now) };

    ghost tied = { λ old new. (new.host.ghost_name ≡ old.host.ghost_name)
        × (new.loader.ghost_name ≡ old.loader.ghost_name)
        × (new.host.now.name ≡ old.host.now.name)
        × (new.host.now.operator ≡ old.host.now.operator)
        × L.tied old.loader.now new.loader.now };

    fn challenge<N: Nonces>(
        &mut self,
        alloc: Global,
        nonces: &mut N,
        user: &User,
    ) -> Result<Option<Challenge>, AllocError> {
        let Some(card) = self.host.key_record(user) else {
            return Ok(None);
        };
        let nonce = nonces.next();
        match SignOn::begin(alloc, self.host.name(), card, nonce) {
            Ok(sign_on) => Ok(Some(Challenge { nonce, sign_on })),
            Err(_) => Err(AllocError),
        }
    }

    fn read(alloc: Global, payload: &[u8]) -> Result<Option<Request>, AllocError> {
        request_of(alloc, payload)
    }

    fn ask(
        &mut self,
        alloc: Global,
        session: &Session,
        question: &Request,
        now: u64,
    ) -> ServerFrame {
        let event = self.host.ask(alloc, self.loader, session, question, now);
        ServerFrame::Answer(event.reply)
    }

    ghost same = { λ a. (refl, refl, refl, refl, L.same a.loader.now) };

    ghost joined = { λ a b c p q. (
      stays_still p.0 q.0,
      stays_still p.1 q.1,
      stays_still p.2 q.2,
      stays_still p.3 q.3,
      L.joined a.loader.now b.loader.now c.loader.now p.4 q.4,
    ) };

    ghost one_question = { one_request };

    ghost no_bye = { request_no_bye };
}

/// One connection to a host that is not shared: a sign-on, and then the requests of its user, each answered at the moment that the
/// clock gives, by the log at its length of that moment.
///
/// It takes no lock and returns. How it ends, and what was written by then, is as [`TalkEnd`] says.
pub fn talk_alone<D: Disk, L: Loader, S: Source, K: Sink, V: Verifier, C: Clock, N: Nonces>(
    alloc: Global,
    host: &mut Host<D>,
    peers: &mut L,
    source: &mut S,
    sink: &mut K,
    verifier: &mut V,
    clock: &mut C,
    nonces: &mut N,
) -> TalkEnd
    ensures talks { Talks (alone_among D.Disk L.Loader V.Verifier C.Clock N.Nonces)
        (world (alone_at host.old peers.old verifier.old clock.old nonces.old)
        (ends S.Source K.Sink source.old sink.old))
        (world (alone_at host.new peers.new verifier.new clock.new nonces.new)
        (ends S.Source K.Sink source.new sink.new)) result }
    ensures complete { (text signature : List ℕ) (requests : List Asked)
        (last : List (FromClient Asked))
        → IsInOrder (alone_among D.Disk L.Loader V.Verifier C.Clock N.Nonces)
        (world (alone_at host.old peers.old verifier.old clock.old nonces.old)
        (ends S.Source K.Sink source.old sink.old))
        (world (alone_at host.new peers.new verifier.new clock.new nonces.new)
        (ends S.Source K.Sink source.new sink.new)) text signature requests last
        → Completes (alone_among D.Disk L.Loader V.Verifier C.Clock N.Nonces)
        (world (alone_at host.old peers.old verifier.old clock.old nonces.old)
        (ends S.Source K.Sink source.old sink.old))
        (world (alone_at host.new peers.new verifier.new clock.new nonces.new)
        (ends S.Source K.Sink source.new sink.new))
        (asks_all text signature requests) result }
    ensures tie { TiedAlone L.Loader (host_alone host.old peers.old)
        (host_alone host.new peers.new) }
{
    let mut alone = Alone {
        host,
        loader: peers,
    };
    talk_to(alloc, &mut alone, source, sink, verifier, clock, nonces)
}
