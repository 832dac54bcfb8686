//! One frame of a client, and what it does.
ghost use Rattle.std.specs.Prelude.{◌≡◌, Err};
ghost use Rattle.up_lists.specs.Counts.{HasCause, StaysUnless};
ghost use Rattle.up_talk.specs.Turns.{AskCame, ByeCame, ChallengeCame, Handled, HelloCame, JudgeCame, ProofCame, Refuses, around, parties, standing_at};
ghost use Rattle.up_talk.specs.declared.fault.Stop.TheVariants as stop;

use crate::answers::Answers;
use crate::fault::Stop;
use crate::message::FromClient;
use crate::outgoing::Outgoing;
use crate::stage::Stage;
use std::alloc::Global;
use std::mem;
use up_bytes::Bytes;
use up_ends::{Clock, Nonces, Verifier};
use up_names::{NameFault, User, parse_user};
use up_sign::{SignFault, SignOn};
use up_wire::ServerFrame;

/// Does what a client says by a frame, and puts the frame that is made for it.
pub(crate) fn handle<A: Answers, V: Verifier, C: Clock, N: Nonces>(
    alloc: Global,
    answerer: &mut A,
    verifier: &mut V,
    clock: &mut C,
    nonces: &mut N,
    stage: &mut Stage,
    said: FromClient<A::Question>,
    out: &mut Outgoing,
) -> Result<(), Stop>
    ensures handled { Handled (parties A.Answers A.Answer.Fields V.Verifier C.Clock N.Nonces) (standing_at stage.old)
        (around answerer.old verifier.old clock.old nonces.old) said out.old result
        (standing_at stage.new) (around answerer.new verifier.new clock.new nonces.new) out.new }
    ensures counts { HasCause (V.faults verifier.old) (V.faults verifier.new)
        (result ≡ Err stop.HelperFault) }
    ensures quiet { StaysUnless (V.faults verifier.old) (V.faults verifier.new)
        (result ≡ Err stop.HelperFault) }
    ensures tie { A.tied answerer.old answerer.new }
{
    match said {
        FromClient::Hello(text) => hello(alloc, answerer, nonces, stage, &text, out),
        FromClient::Proof(signature) => proof(verifier, stage, &signature, out),
        FromClient::Ask(question) => ask(alloc, answerer, clock, stage, &question, out),
        FromClient::Bye => bye(stage),
    }
}

// A user says who it is.
fn hello<A: Answers, N: Nonces>(
    alloc: Global,
    answerer: &mut A,
    nonces: &mut N,
    stage: &mut Stage,
    text: &Bytes,
    out: &mut Outgoing,
) -> Result<(), Stop>
    ensures came { HelloCame A.name A.looked N.coming text.now stage.old answerer.old nonces.old
        out.old result stage.new answerer.new nonces.new out.new }
    ensures tie { A.tied answerer.old answerer.new }
{
    let Stage::Unsaid = stage else {
        return Err(Stop::Unfit);
    };
    match parse_user(alloc, text.as_slice()) {
        Ok(user) => challenge(alloc, answerer, nonces, stage, &user, out),
        Err(NameFault::OutOfMemory) => Err(Stop::OutOfMemory),
        Err(_) => refuse(out),
    }
}

// The user is challenged, where it has a key record.
fn challenge<A: Answers, N: Nonces>(
    alloc: Global,
    answerer: &mut A,
    nonces: &mut N,
    stage: &mut Stage,
    user: &User,
    out: &mut Outgoing,
) -> Result<(), Stop>
    ensures came { ChallengeCame A.name A.looked N.coming user.now answerer.old nonces.old
        out.old result stage.new answerer.new nonces.new out.new }
    ensures tie { A.tied answerer.old answerer.new }
{
    let Some(challenge) = answerer.challenge(alloc, nonces, user)? else {
        return refuse(out);
    };
    let nonce = challenge.nonce;
    *stage = Stage::Challenged(challenge.sign_on);
    Ok(out.put(&ServerFrame::Challenge(nonce))?)
}

// The user is told that it has not signed on.
fn refuse(out: &mut Outgoing) -> Result<(), Stop>
    ensures { Refuses out.old result out.new }
{
    out.put(&ServerFrame::NotSigned)?;
    Err(Stop::NotSigned)
}

// The user proves that it is who it says.
fn proof<V: Verifier>(
    verifier: &mut V,
    stage: &mut Stage,
    signature: &Bytes,
    out: &mut Outgoing,
) -> Result<(), Stop>
    ensures came { ProofCame V.judged signature.now stage.old verifier.old out.old result
        stage.new verifier.new out.new }
    ensures counts { HasCause (V.faults verifier.old) (V.faults verifier.new)
        (result ≡ Err stop.HelperFault) }
    ensures quiet { StaysUnless (V.faults verifier.old) (V.faults verifier.new)
        (result ≡ Err stop.HelperFault) }
{
    match mem::replace(stage, Stage::Unsaid) {
        Stage::Challenged(sign_on) => judge(verifier, stage, sign_on, signature, out),
        Stage::Unsaid | Stage::Signed(_) => Err(Stop::Unfit),
    }
}

// The signature is judged.
fn judge<V: Verifier>(
    verifier: &mut V,
    stage: &mut Stage,
    sign_on: SignOn,
    signature: &Bytes,
    out: &mut Outgoing,
) -> Result<(), Stop>
    ensures came { JudgeCame V.judged signature.now sign_on verifier.old out.old result
        stage.new verifier.new out.new }
    ensures counts { HasCause (V.faults verifier.old) (V.faults verifier.new)
        (result ≡ Err stop.HelperFault) }
    ensures quiet { StaysUnless (V.faults verifier.old) (V.faults verifier.new)
        (result ≡ Err stop.HelperFault) }
{
    match sign_on.prove(verifier, signature.as_slice()) {
        Ok(session) => {
            *stage = Stage::Signed(session);
            Ok(out.put(&ServerFrame::Welcome)?)
        }
        Err(SignFault::No) => refuse(out),
        Err(SignFault::Fault) => Err(Stop::HelperFault),
    }
}

// A question is answered.
fn ask<A: Answers, C: Clock>(
    alloc: Global,
    answerer: &mut A,
    clock: &mut C,
    stage: &Stage,
    question: &A::Question,
    out: &mut Outgoing,
) -> Result<(), Stop>
    ensures came { AskCame A.Answer.spelling A.asked C.coming question.now stage.now
        answerer.old clock.old out.old result answerer.new clock.new out.new }
    ensures tie { A.tied answerer.old answerer.new }
{
    let Stage::Signed(session) = stage else {
        return Err(Stop::Unfit);
    };
    let now = clock.now();
    let answer = answerer.ask(alloc, session, question, now);
    let put = out.put(&answer);
    drop(answer);
    Ok(put?)
}

// The user says that nothing more comes.
fn bye(stage: &Stage) -> Result<(), Stop>
    ensures { ByeCame stage.now result }
{
    match stage {
        Stage::Signed(_) => Err(Stop::Bye),
        Stage::Unsaid | Stage::Challenged(_) => Err(Stop::Unfit),
    }
}
