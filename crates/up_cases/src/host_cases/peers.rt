//! Peers as words tell them, and what is asked of a host that has them.
use crate::host_cases::asking::ask;
use crate::host_cases::served::Served;
use crate::host_cases::words::cut;
use std::alloc::Global;
use up_bytes::Bytes;
use up_case_lines::{Answer, Fault, Words, bytes_of, number_of, user_of};
use up_case_texts::{add_calls, ask_peer_all};
use up_disk::MemDisk;
use up_host::TreePeer;
use up_lists::Items;
use up_names::User;
use up_peer::{ListPeer, Loader, Peer, PeerAnswer, Peers, RefusingPeer};

/// A peer as a word tells it.
#[derive(Drop)]
pub struct Told {
    pub has: Has,
    pub kind: Kind,
}

/// The owners whose trees a peer has, and the address whose blocks it has.
#[derive(Drop)]
pub struct Has {
    owners: Items<User>,
    address: Bytes,
}

/// What a peer is.
#[derive(Drop)]
pub enum Kind {
    List(Box<ListPeer>),
    Refuses(Box<RefusingPeer>),
    Tree(Box<TreePeer<MemDisk>>),
}

/// What a peer has, by two words: owners joined by commas, `-` for none, and an address.
pub fn has_of(alloc: Global, owners: &str, address: &str) -> Result<Has, Fault> {
    let address = bytes_of(alloc, address)?;
    match users_of(alloc, owners) {
        Ok(owners) => Ok(Has { owners, address }),
        Err(fault) => {
            drop(address);
            Err(fault)
        }
    }
}

fn users_of(alloc: Global, word: &str) -> Result<Items<User>, Fault> {
    let mut users = Items::new(alloc);
    if word == "-" {
        return Ok(users);
    }
    for name in word.split(',') {
        add_user(alloc, &mut users, name)?;
    }
    Ok(users)
}

fn add_user(alloc: Global, users: &mut Items<User>, name: &str) -> Result<(), Fault> {
    users.push(user_of(alloc, name)?)?;
    Ok(())
}

/// The peers that words tell, each `OWNERS/ADDRESS/KIND`, none of them a whole host.
pub fn told_in_memory(alloc: Global, words: &str) -> Result<Vec<Told>, Fault> {
    let mut told = Vec::new(alloc);
    for word in words.split(' ') {
        note_told(&mut told, told_one(alloc, word))?;
    }
    Ok(told)
}

fn told_one(alloc: Global, word: &str) -> Result<Told, Fault> {
    let (owners, rest) = cut(word, '/')?;
    let (address, kind) = cut(rest, '/')?;
    let has = has_of(alloc, owners, address)?;
    told_of(has, kind_of(alloc, kind))
}

/// A peer that has this, and is of this kind, where it is one.
pub fn told_of(has: Has, kind: Result<Kind, Fault>) -> Result<Told, Fault> {
    match kind {
        Ok(kind) => Ok(Told { has, kind }),
        Err(fault) => {
            drop(has);
            Err(fault)
        }
    }
}

/// Adds a peer, where it is one.
pub fn note_told(told: &mut Vec<Told>, one: Result<Told, Fault>) -> Result<(), Fault> {
    match told.push(one?) {
        Ok(()) => Ok(()),
        Err(refused) => {
            drop(refused);
            Err(Fault::OutOfMemory)
        }
    }
}

/// `refuses`, `list:ANSWERS`, or `chain:OWNER:COUNT:LAST` for so many texts, of which the one at place i, from 0, names the owner's
/// group `g` with the number i + 1, and the last is LAST.
pub fn kind_of(alloc: Global, word: &str) -> Result<Kind, Fault> {
    if word == "refuses" {
        return refusing(alloc);
    }
    match cut(word, ':')? {
        ("list", answers) => list(alloc, list_of(alloc, answers)?),
        ("chain", rest) => list(alloc, chain_of(alloc, rest)?),
        _ => Err(Fault::BadLine),
    }
}

fn refusing(alloc: Global) -> Result<Kind, Fault> {
    match Box::new(alloc, RefusingPeer::new(alloc)) {
        Ok(peer) => Ok(Kind::Refuses(peer)),
        Err(refused) => {
            drop(refused);
            Err(Fault::OutOfMemory)
        }
    }
}

fn list(alloc: Global, answers: Items<PeerAnswer>) -> Result<Kind, Fault> {
    match Box::new(alloc, ListPeer::new(alloc, answers)) {
        Ok(peer) => Ok(Kind::List(peer)),
        Err(refused) => {
            drop(refused);
            Err(Fault::OutOfMemory)
        }
    }
}

/// A peer that is a whole host.
pub fn tree(alloc: Global, peer: TreePeer<MemDisk>) -> Result<Kind, Fault> {
    match Box::new(alloc, peer) {
        Ok(peer) => Ok(Kind::Tree(peer)),
        Err(refused) => {
            drop(refused);
            Err(Fault::OutOfMemory)
        }
    }
}

// Answers joined by commas, `-` for none.
fn list_of(alloc: Global, word: &str) -> Result<Items<PeerAnswer>, Fault> {
    let mut answers = Items::new(alloc);
    if word == "-" {
        return Ok(answers);
    }
    for one in word.split(',') {
        add_answer(alloc, &mut answers, one)?;
    }
    Ok(answers)
}

fn add_answer(alloc: Global, answers: &mut Items<PeerAnswer>, word: &str) -> Result<(), Fault> {
    answers.push(answer_of(alloc, word)?)?;
    Ok(())
}

// `=TEXT`, `nothing` or `failed`.
fn answer_of(alloc: Global, word: &str) -> Result<PeerAnswer, Fault> {
    match word {
        "nothing" => Ok(PeerAnswer::Nothing),
        "failed" => Ok(PeerAnswer::Failed),
        _ => got(alloc, word.strip_prefix('=').ok_or(Fault::BadLine)?),
    }
}

fn got(alloc: Global, text: &str) -> Result<PeerAnswer, Fault> {
    Ok(PeerAnswer::Got(bytes_of(alloc, text)?))
}

fn chain_of(alloc: Global, word: &str) -> Result<Items<PeerAnswer>, Fault> {
    let (owner, rest) = cut(word, ':')?;
    let (count, last) = cut(rest, ':')?;
    links_of(alloc, owner, number_of(count)?, last)
}

fn links_of(
    alloc: Global,
    owner: &str,
    count: u64,
    last: &str,
) -> Result<Items<PeerAnswer>, Fault> {
    let mut answers = Items::new(alloc);
    for place in 1..count {
        add_link(alloc, &mut answers, owner, place)?;
    }
    add_got(alloc, &mut answers, last)?;
    Ok(answers)
}

// Adds the text that names a group of the owner.
fn add_link(
    alloc: Global,
    answers: &mut Items<PeerAnswer>,
    owner: &str,
    place: u64,
) -> Result<(), Fault> {
    let text = format!(in alloc; "{owner}/Group/g{place}")?;
    let added = add_got(alloc, answers, text.as_str());
    drop(text);
    added
}

fn add_got(alloc: Global, answers: &mut Items<PeerAnswer>, text: &str) -> Result<(), Fault> {
    answers.push(got(alloc, text)?)?;
    Ok(())
}

/// Asks a host that has these peers, one line after the other, each behind a bar but the first; at last the sum of the counts. The
/// peers are of any kind here alone, where their list ends too.
pub fn ask_with<S: Served>(
    alloc: Global,
    host: &mut S,
    told: Vec<Told>,
    asks: &str,
    answer: &mut Answer,
) -> Result<(), Fault> {
    let mut peers = Peers::new(alloc);
    let mut lost = Ok(());
    for one in told {
        let Told { has, kind } = one;
        let Has { owners, address } = has;
        let peer: Box<dyn Peer + Send> = match kind {
            Kind::List(peer) => peer,
            Kind::Refuses(peer) => peer,
            Kind::Tree(peer) => peer,
        };
        if let Err(fault) = peers.add(owners, address, peer) {
            lost = Err(fault);
        }
    }
    let asked = ask_all(alloc, host, &mut peers, asks, answer);
    add_close(peers.close(), answer);
    lost?;
    asked
}

// The sum of the counts.
fn add_close(faults: u128, answer: &mut Answer) {
    answer.part();
    answer.word("close");
    answer.number(u64::try_from(faults).unwrap_or(u64::MAX));
}

fn ask_all<S: Served, L: Loader>(
    alloc: Global,
    host: &mut S,
    peers: &mut L,
    asks: &str,
    answer: &mut Answer,
) -> Result<(), Fault> {
    for line in asks.split("; ") {
        add_bar(answer);
        ask(alloc, host, peers, Words::new(line), answer)?;
    }
    Ok(())
}

fn add_bar(answer: &mut Answer) {
    if !answer.is_empty() {
        answer.word("|");
    }
}

/// `QUESTION ..`: what a peer was asked, with its answers, and its count. A question is the name of a group, or the digits of a
/// reference.
pub fn ask_peer(
    alloc: Global,
    peer: &mut TreePeer<MemDisk>,
    words: Words<'_>,
    answer: &mut Answer,
) -> Result<(), Fault> {
    ask_peer_all(alloc, peer, words)?;
    add_calls(peer.calls(), answer);
    answer.part();
    answer.number(peer.faults());
    Ok(())
}
