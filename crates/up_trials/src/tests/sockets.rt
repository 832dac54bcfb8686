//! Hosts elsewhere, over connections on loopback: one that answers byte by byte, one that resets, one that never answers, one that says
//! what may not come.
use crate::tests::folder::Folder;
use crate::tests::server::{End, Plan, serve, waits};
use std::alloc::Global;
use std::io;
use std::io::ErrorKind;
use std::net::TcpListener;
use std::test::Fail;
use std::thread::{Threads, join};
use up_bytes::{Bytes, copy_of};
use up_client::Ask;
use up_names::{Path, User, parse_path, parse_user};
use up_net::{SocketAsk, SocketPeer};
use up_peer::{Peer, PeerAnswer};
use up_wire::{Reply, Request};

type FarPeer = SocketPeer<HostRuntime>;

type FarAsk = SocketAsk<HostRuntime>;

/// A server's address, as whoever dials it writes it.
fn address(alloc: Global, listener: &TcpListener) -> io::Result<String> {
    let port = listener.local_addr()?.port();
    Ok(format!(in alloc; "home@127.0.0.1:{port}")?)
}

/// Who asks, and the helper that signs for it.
fn signer(alloc: Global, folder: &Folder) -> io::Result<(User, String)> {
    match parse_user(alloc, b"one@a.example") {
        Ok(user) => Ok((user, folder.file("helper")?)),
        Err(_) => Err(io::Error::from(ErrorKind::Other)),
    }
}

fn peer_of(rt: HostRuntime, folder: &Folder, listener: &TcpListener) -> io::Result<FarPeer> {
    let address = address(rt.alloc(), listener)?;
    let (user, helper) = signer(rt.alloc(), folder)?;
    Ok(SocketPeer::new(rt.alloc(), rt, address.as_bytes(), user, helper, waits())?)
}

fn ask_of(rt: HostRuntime, folder: &Folder, listener: &TcpListener) -> io::Result<FarAsk> {
    let address = address(rt.alloc(), listener)?;
    let (user, helper) = signer(rt.alloc(), folder)?;
    Ok(SocketAsk::new(rt.alloc(), rt, address.as_bytes(), user, helper, waits())?)
}

/// Two loads by a peer: a letter for each answer, and how many failed.
fn loads(alloc: Global, mut peer: FarPeer, group: &Path) -> ([u8; 2], u64) {
    let mut letters = [b'-'; 2];
    for letter in letters.iter_mut() {
        *letter = match peer.load(alloc, group) {
            Ok(PeerAnswer::Got(text)) => {
                drop(text);
                b'g'
            }
            Ok(PeerAnswer::Nothing) => b'n',
            Ok(PeerAnswer::Failed) => b'f',
            Err(_) => b'm',
        };
    }
    (letters, peer.faults())
}

/// What two loads answer where a server keeps to these plans.
fn loaded(
    rt: HostRuntime,
    threads: &impl Threads,
    folder: &Folder,
    group: &Path,
    plans: &[Plan],
) -> io::Result<([u8; 2], u64)> {
    let listener = TcpListener::bind(&rt, "127.0.0.1:0")?;
    let peer = peer_of(rt, folder, &listener)?;
    let (served, answers) = join(
        threads,
        || serve(&listener, plans),
        || loads(rt.alloc(), peer, group),
    );
    drop(served);
    drop(listener);
    Ok(answers)
}

/// The same where the server keeps to one plan and, if it is dialled again, to one that answers.
fn loaded_by(
    rt: HostRuntime,
    threads: &impl Threads,
    folder: &Folder,
    group: &Path,
    first: Plan,
    again: bool,
) -> io::Result<([u8; 2], u64)> {
    let answers = Plan {
        letters: b"cwt",
        end: End::Closes,
    };
    if again {
        loaded(rt, threads, folder, group, &[first, answers])
    } else {
        loaded(rt, threads, folder, group, &[first])
    }
}

/// Loads where the server keeps to a plan and, behind a failure, to one that answers: the place of the first plan at which something
/// else comes than is wanted.
fn wrong_peer(
    rt: HostRuntime,
    threads: &impl Threads,
    folder: &Folder,
    group: &Path,
) -> io::Result<Option<usize>> {
    for (place, (letters, end, again, loads, faults)) in [
        (b"cwtt".as_slice(), End::Closes, false, b"gg", 0),
        (b"cw".as_slice(), End::Resets, true, b"fg", 1),
        (b"cw".as_slice(), End::Waits, true, b"fg", 1),
        (b"cww".as_slice(), End::Closes, true, b"fg", 1),
        (b"x".as_slice(), End::Closes, true, b"fg", 1),
        (b"cwbt".as_slice(), End::Closes, false, b"ng", 0),
        (b"cwit".as_slice(), End::Closes, false, b"fg", 1),
        (b"cwnt".as_slice(), End::Closes, false, b"ng", 0),
    ]
    .iter()
    .copied()
    .enumerate()
    {
        let first = Plan { letters, end };
        let came = loaded_by(rt, threads, folder, group, first, again)?;
        if came != (*loads, faults) {
            return Ok(Some(place));
        }
    }
    Ok(None)
}

#[test]
fn peers_over_connections(rt: HostRuntime) -> Result<(), Fail> {
    let folder = Folder::new(rt, "peers")?;
    let group = parse_path(rt.alloc(), b"ann@a.example/Group/friends")?;
    let wrong = wrong_peer(rt, &rt, &folder, &group)?;
    drop(group);
    folder.remove(rt)?;
    assert_eq!(rt; wrong, None);
    Ok(())
}

/// Two requests of a client, of which the first puts a block of so many bytes.
fn requests(alloc: Global, size: usize) -> io::Result<[Request; 2]> {
    let path = copy_of(alloc, b"ann@a.example/")?;
    let block = vec![in alloc; b'x'; size]?;
    Ok([
        Request::StorePut(Bytes::from_vec(block)),
        Request::Lookup(path),
    ])
}

/// The letter of a reply.
fn letter_of(reply: Reply) -> u8 {
    let is_missing = matches!(reply, Reply::NotExist);
    drop(reply);
    if is_missing { b'n' } else { b'o' }
}

/// Two requests of a client: a letter for each answer, and how many failed.
fn asks(alloc: Global, mut ask: FarAsk, requests: &[Request]) -> ([u8; 2], u64) {
    let mut letters = [b'-'; 2];
    for (letter, request) in letters.iter_mut().zip(requests) {
        *letter = match ask.ask(alloc, request) {
            Ok(reply) => letter_of(reply),
            Err(_) => b'f',
        };
    }
    (letters, ask.faults())
}

/// What these requests are answered where a server keeps to this plan.
fn asked(
    rt: HostRuntime,
    threads: &impl Threads,
    folder: &Folder,
    plan: Plan,
    requests: &[Request],
) -> io::Result<([u8; 2], u64)> {
    let listener = TcpListener::bind(&rt, "127.0.0.1:0")?;
    let ask = ask_of(rt, folder, &listener)?;
    let (served, answers) = join(
        threads,
        || serve(&listener, &[plan]),
        || asks(rt.alloc(), ask, requests),
    );
    drop(served);
    drop(listener);
    Ok(answers)
}

/// What two requests are answered, of which the first puts a block of so many bytes.
fn asked_with(
    rt: HostRuntime,
    threads: &impl Threads,
    folder: &Folder,
    plan: Plan,
    size: usize,
) -> io::Result<([u8; 2], u64)> {
    let requests = requests(rt.alloc(), size)?;
    asked(rt, threads, folder, plan, requests.as_slice())
}

/// Requests where the server keeps to a plan: the place of the first plan at which something else comes than is wanted.
fn wrong_client(
    rt: HostRuntime,
    threads: &impl Threads,
    folder: &Folder,
) -> io::Result<Option<usize>> {
    for (place, (letters, end, size, answers, faults)) in [
        (b"cwnn".as_slice(), End::Closes, 10, b"nn", 0),
        (b"cw".as_slice(), End::Resets, 10, b"ff", 2),
        (b"cw".as_slice(), End::Waits, 10, b"ff", 2),
        (b"cww".as_slice(), End::Closes, 10, b"ff", 2),
        (b"x".as_slice(), End::Closes, 10, b"ff", 2),
        (b"cwn".as_slice(), End::Closes, 2_097_152, b"fn", 1),
    ]
    .iter()
    .copied()
    .enumerate()
    {
        let plan = Plan { letters, end };
        if asked_with(rt, threads, folder, plan, size)? != (*answers, faults) {
            return Ok(Some(place));
        }
    }
    Ok(None)
}

#[test]
fn clients_over_connections(rt: HostRuntime) -> Result<(), Fail> {
    let folder = Folder::new(rt, "clients")?;
    let wrong = wrong_client(rt, &rt, &folder)?;
    folder.remove(rt)?;
    assert_eq!(rt; wrong, None);
    Ok(())
}
