//! A user signs on.
ghost use Rattle.std.specs.Prelude.{◌≡◌, ◌<◌, Err, None, Ok, is_some, length, slice_set};
ghost use Rattle.up_lists.specs.Counts.{HasCause, StaysUnless};
ghost use Rattle.up_keys.specs.Records.{record_in};
ghost use Rattle.up_sessions.specs.Signing.{Challenges, IsJudged, JudgesBy, SignsOn, signed_on};
ghost use Rattle.up_sessions.specs.declared.fault.LineFault.TheVariants as fault;

use crate::fault::LineFault;
use crate::opened::Opened;
use crate::sessions::Sessions;
use std::alloc::Global;
use up_disk::Disk;
use up_ends::{Nonces, Verifier};
use up_host::Host;
use up_names::User;
use up_sign::{Session, SignFault, SignOn};
use up_wire::KeyRecord;

impl<D: Disk> Sessions<D> {
    /// Signs a user on at the host at a place, and says whether the session at the number is then open. Where the user has a key record,
    /// the next nonce is its challenge, and the verifier judges the signature; else nothing is drawn or judged. A session that was open
    /// at the number is then gone. `Fault` comes only where the verifier failed, and leaves it as it was.
    pub fn sign_on<V: Verifier, N: Nonces>(
        &mut self,
        alloc: Global,
        verifier: &mut V,
        nonces: &mut N,
        number: u64,
        place: usize,
        user: &User,
        signature: &[u8],
    ) -> Result<bool, LineFault>
        requires number { number < 100 }
        requires place { place < length self.old.hosts }
        ensures { SignsOn V.Verifier N.Nonces number place user.now signature.now
            self.old verifier.old nonces.old result self.new verifier.new nonces.new }
    {
        match judge(alloc, &self.hosts[place], verifier, nonces, user, signature) {
            Ok(session) => Ok(self.seat(number, place, session)),
            Err(why) => Err(why),
        }
    }

    // The session at the number is this one, or none, and it says which.
    fn seat(&mut self, number: u64, place: usize, session: Option<Session>) -> bool
        requires number { number < 100 }
        requires place { place < length self.old.hosts }
        ensures after { self.new ≡ signed_on number place (Ok session) self.old }
        ensures open { result ≡ is_some session }
    {
        match session {
            Some(session) => {
                self.sessions[number as usize] = Some(Opened { place, session });
                true
            }
            None => {
                close(&mut self.sessions, number as usize);
                false
            }
        }
    }
}

// No session is open at a number any more.
fn close(sessions: &mut Vec<Option<Opened>>, number: usize)
    requires { number < length sessions.old.items }
    ensures { sessions.new.items ≡ slice_set sessions.old.items number None }
{
    sessions[number] = None;
}

// The session of a user at a host, or none.
fn judge<D: Disk, V: Verifier, N: Nonces>(
    alloc: Global,
    host: &Host<D>,
    verifier: &mut V,
    nonces: &mut N,
    user: &User,
    signature: &[u8],
) -> Result<Option<Session>, LineFault>
    ensures { JudgesBy V.Verifier N.Nonces host.now.name
        (record_in host.now.keys.state.log user.now) signature.now
        verifier.old nonces.old result verifier.new nonces.new }
{
    match host.key_record(user) {
        Some(card) => challenge(alloc, host.name(), card, verifier, nonces, signature),
        None => Ok(None),
    }
}

// The session of a record's user, by the next challenge.
fn challenge<V: Verifier, N: Nonces>(
    alloc: Global,
    host: &str,
    card: &KeyRecord,
    verifier: &mut V,
    nonces: &mut N,
    signature: &[u8],
) -> Result<Option<Session>, LineFault>
    ensures { Challenges V.Verifier N.Nonces host.now card.now signature.now
        verifier.old nonces.old result verifier.new nonces.new }
{
    let challenge = nonces.next();
    match SignOn::begin(alloc, host, card, challenge) {
        Ok(sign_on) => session_of(sign_on, verifier, signature),
        Err(_) => Err(LineFault::OutOfMemory),
    }
}

// The session of a sign-on, where the verifier says Yes.
fn session_of<V: Verifier>(
    sign_on: SignOn,
    verifier: &mut V,
    signature: &[u8],
) -> Result<Option<Session>, LineFault>
    ensures judged { IsJudged V.Verifier sign_on signature.now verifier.old result verifier.new }
    ensures counts { HasCause (V.faults verifier.old) (V.faults verifier.new)
        (result ≡ Err fault.Fault) }
    ensures quiet { StaysUnless (V.faults verifier.old) (V.faults verifier.new)
        (result ≡ Err fault.Fault) }
{
    match sign_on.prove(verifier, signature) {
        Ok(session) => Ok(Some(session)),
        Err(SignFault::No) => Ok(None),
        Err(SignFault::Fault) => Err(LineFault::Fault),
    }
}
