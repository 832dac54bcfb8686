//! A host of two trees, and what it answers while it is not shared.
ghost use Rattle.std.specs.Prelude.{◌≡◌, ◌∷◌, [], codes, IfOk};

use crate::disks::{HostDisk, empty_disks};
use crate::users::{HOST, request_of, session_of, user_named};
use crate::waits::Others;
use std::alloc::{AllocError, Global};
use std::hash::RandomState;
use std::sync::atomic::AtomicU64;
use up_calls::Event;
use up_host::Host;
use up_journal::Limits;
use up_lists::Items;
use up_names::User;
use up_sign::Session;
use up_wire::{Reply, Request};

/// The moment of each request.
pub const NOW: u64 = 86_400;

// Limits to which no trial comes.
const WIDE: Limits = Limits {
    records: 1 << 20,
    device: 1 << 30,
    largest: 1 << 17,
};

/// A user, and a line that it asks.
pub type Line = (&'static str, &'static str);

/// A host of the trees of Ann and Bob that was asked these lines and answered each with Ok. The disk of Ann's tree waits in each sync
/// while the first flag is armed, the others while the second one is.
pub fn host_with<'a>(
    alloc: Global,
    random: RandomState,
    first: &'a AtomicU64,
    others: &'a AtomicU64,
    lines: &[Line],
) -> Result<Host<HostDisk<'a>>, AllocError> {
    let mut host = open_host(alloc, random, first, others)?;
    match ask_lines(alloc, &mut host, lines) {
        Ok(()) => Ok(host),
        Err(failed) => {
            drop(host);
            Err(failed)
        }
    }
}

// Asks all lines. An `Err` is a reply that is not Ok, or want of memory.
fn ask_lines(
    alloc: Global,
    host: &mut Host<HostDisk<'_>>,
    lines: &[Line],
) -> Result<(), AllocError> {
    for (who, line) in lines.iter().copied() {
        ask_line(alloc, host, who, line)?;
    }
    Ok(())
}

fn ask_line(
    alloc: Global,
    host: &mut Host<HostDisk<'_>>,
    who: &str,
    line: &str,
) -> Result<(), AllocError> {
    let session = session_of(alloc, who)?;
    let asked = ask_as(alloc, host, &session, line);
    drop(session);
    asked
}

fn ask_as(
    alloc: Global,
    host: &mut Host<HostDisk<'_>>,
    session: &Session,
    line: &str,
) -> Result<(), AllocError> {
    let request = request_of(alloc, session.user(), line)?;
    let good = is_good(alloc, host, session, &request);
    drop(request);
    if good { Ok(()) } else { Err(AllocError) }
}

fn is_good(
    alloc: Global,
    host: &mut Host<HostDisk<'_>>,
    session: &Session,
    request: &Request,
) -> bool {
    let event = ask_alone(alloc, host, session, request);
    let good = matches!(&event.reply, Reply::Ok(_));
    drop(event);
    good
}

/// What comes of a request to a host that is not shared, of which nothing else is known.
pub fn ask_alone(
    alloc: Global,
    host: &mut Host<HostDisk<'_>>,
    session: &Session,
    request: &Request,
) -> Event {
    let mut others = Others { flag: None };
    host.ask(alloc, &mut others, session, request, NOW)
}

// The host, with both trees, over empty disks. An `Err` is want of memory.
fn open_host<'a>(
    alloc: Global,
    random: RandomState,
    first: &'a AtomicU64,
    others: &'a AtomicU64,
) -> Result<Host<HostDisk<'a>>, AllocError> {
    let operator = user_named(alloc, b"op@h.example")?;
    let Ok(owners) = owners(alloc) else {
        drop(operator);
        return Err(AllocError);
    };
    let Ok(disks) = empty_disks(alloc, first, others) else {
        drop(operator);
        drop(owners);
        return Err(AllocError);
    };
    match Host::open(alloc, random, HOST, operator, owners, disks, WIDE) {
        Ok(host) => Ok(host),
        Err(_) => Err(AllocError),
    }
}

// The owners of both trees.
#[tactic(auto, using(crate::proofs::Names::first_owner, crate::proofs::Names::second_owner))]
fn owners(alloc: Global) -> Result<Items<User>, AllocError>
    ensures { IfOk result (λ owners.
        owners ≡ codes "ann@a.example" ∷ codes "bob@b.example" ∷ []) }
{
    let mut owners = Items::new(alloc);
    owners.push(user_named(alloc, b"ann@a.example")?)?;
    owners.push(user_named(alloc, b"bob@b.example")?)?;
    Ok(owners)
}
