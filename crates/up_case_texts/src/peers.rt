//! Peers: what is loaded and fetched of a list of them, and what those in memory keep. A line stands alone.
use crate::lists::{Part, list_of, parts_of};
use std::alloc::Global;
use up_bytes::Bytes;
use up_case_lines::{
    Answer, Fault, Topic, Words, add_members, bytes_of, path_of, text_of, user_of,
};
use up_entry::Fetch;
use up_lists::Items;
use up_names::{Path, User};
use up_peer::{ListPeer, Loader, Peer, PeerAnswer, PeerCall, PeerQuestion, Peers, RefusingPeer};
use up_policy::LoadAnswer;
use up_refs::Reference;

/// Lines about peers. They keep nothing.
#[derive(Clone, Copy)]
pub struct PeerLines;

impl Topic for PeerLines {
    fn turn(&mut self, alloc: Global, line: &str, answer: &mut Answer) -> Result<(), Fault> {
        let mut words = Words::new(line);
        match words.word()? {
            "peers" => peers_line(alloc, words, answer),
            "list" => list_line(alloc, words, answer),
            "refuses" => refuses_line(alloc, words, answer),
            _ => Err(Fault::BadLine),
        }
    }
}

// A peer as a word tells it.
#[derive(Drop)]
struct Told {
    owners: Items<User>,
    address: Bytes,
    /// The answers of a list, or `None` for a peer that refuses.
    answers: Option<Items<PeerAnswer>>,
}

// `OWNERS/ADDRESS/ANSWERS`: owners joined by commas, and answers, or `refuses`.
impl Part for Told {
    fn of_part(alloc: Global, part: &str) -> Result<Told, Fault> {
        let (owners, rest) = part.split_once('/').ok_or(Fault::BadLine)?;
        let (address, answers) = rest.split_once('/').ok_or(Fault::BadLine)?;
        told_by(alloc, owners, address, answers)
    }
}

fn told_by(alloc: Global, owners: &str, address: &str, answers: &str) -> Result<Told, Fault> {
    Ok(Told {
        owners: list_of(alloc, owners)?,
        address: bytes_of(alloc, address)?,
        answers: told_answers(alloc, answers)?,
    })
}

fn told_answers(alloc: Global, word: &str) -> Result<Option<Items<PeerAnswer>>, Fault> {
    if word == "refuses" {
        return Ok(None);
    }
    Ok(Some(list_of(alloc, word)?))
}

impl Part for PeerAnswer {
    fn of_part(alloc: Global, part: &str) -> Result<PeerAnswer, Fault> {
        told_answer(alloc, part)
    }
}

// `=TEXT`, `nothing` or `failed`.
fn told_answer(alloc: Global, word: &str) -> Result<PeerAnswer, Fault> {
    match word {
        "nothing" => Ok(PeerAnswer::Nothing),
        "failed" => Ok(PeerAnswer::Failed),
        _ => {
            let text = word.strip_prefix('=').ok_or(Fault::BadLine)?;
            Ok(PeerAnswer::Got(bytes_of(alloc, text)?))
        }
    }
}

// `peers PEER .. : QUESTION; ..`: what a list of peers gives to each question, and the sum of the counts as it is closed.
fn peers_line(alloc: Global, words: Words<'_>, answer: &mut Answer) -> Result<(), Fault> {
    let (told, questions) = words.some()?.split_once(" : ").ok_or(Fault::BadLine)?;
    let told = parts_of::<Told>(alloc, told, ' ')?;
    ask_peers(alloc, told.into_vec(), questions, answer)
}

// Makes the list of peers and asks it. The boxes are made here, where the list ends too.
fn ask_peers(
    alloc: Global,
    told: Vec<Told>,
    questions: &str,
    answer: &mut Answer,
) -> Result<(), Fault> {
    let mut peers = Peers::new(alloc);
    for one in told {
        let Told {
            owners,
            address,
            answers,
        } = one;
        let peer: Box<dyn Peer + Send> = match answers {
            Some(answers) => Box::new(alloc, ListPeer::new(alloc, answers))?,
            None => Box::new(alloc, RefusingPeer::new(alloc))?,
        };
        peers.add(owners, address, peer)?;
    }
    ask_all(alloc, &mut peers, questions, answer)?;
    add_close(peers, answer);
    Ok(())
}

fn add_close(peers: Peers, answer: &mut Answer) {
    answer.part();
    answer.word("close");
    answer.number(u64::try_from(peers.close()).unwrap_or(u64::MAX));
}

fn ask_all<L: Loader>(
    alloc: Global,
    peers: &mut L,
    questions: &str,
    answer: &mut Answer,
) -> Result<(), Fault> {
    for question in questions.split("; ") {
        answer.part();
        ask(alloc, peers, Words::new(question), answer)?;
    }
    Ok(())
}

fn ask<L: Loader>(
    alloc: Global,
    peers: &mut L,
    mut words: Words<'_>,
    answer: &mut Answer,
) -> Result<(), Fault> {
    match words.word()? {
        "load" => load(alloc, peers, words, answer),
        "fetch" => fetch(alloc, peers, words, answer),
        _ => Err(Fault::BadLine),
    }
}

// `load ASKER NAME`.
fn load<L: Loader>(
    alloc: Global,
    peers: &mut L,
    mut words: Words<'_>,
    answer: &mut Answer,
) -> Result<(), Fault> {
    let (asker, name) = words.two()?;
    let name = path_of(alloc, name)?;
    load_as(alloc, peers, asker, &name, answer)
}

fn load_as<L: Loader>(
    alloc: Global,
    peers: &mut L,
    asker: &str,
    name: &Path,
    answer: &mut Answer,
) -> Result<(), Fault> {
    let asker = user_of(alloc, asker)?;
    add_loaded(&peers.load(alloc, &asker, name)?, answer);
    Ok(())
}

// `fetch ADDRESS DIGITS`.
fn fetch<L: Loader>(
    alloc: Global,
    peers: &mut L,
    mut words: Words<'_>,
    answer: &mut Answer,
) -> Result<(), Fault> {
    let (address, digits) = words.two()?;
    let reference = Reference::parse(digits.as_bytes()).ok_or(Fault::BadLine)?;
    fetch_at(alloc, peers, address, &reference, answer)
}

fn fetch_at<L: Loader>(
    alloc: Global,
    peers: &mut L,
    address: &str,
    reference: &Reference,
    answer: &mut Answer,
) -> Result<(), Fault> {
    let address = text_of(alloc, address)?;
    add_fetched(&peers.fetch(alloc, address.as_slice(), reference)?, answer);
    Ok(())
}

fn add_loaded(loaded: &LoadAnswer, answer: &mut Answer) {
    match loaded {
        LoadAnswer::Text(text) => {
            answer.word("text");
            add_members(text, answer);
        }
        LoadAnswer::Missing => answer.word("missing"),
        LoadAnswer::BadText(line) => {
            answer.word("bad");
            answer.number(*line);
        }
        LoadAnswer::Failed => answer.word("failed"),
    }
}

fn add_fetched(fetched: &Fetch, answer: &mut Answer) {
    match fetched {
        Fetch::Got(bytes) => {
            answer.word("got");
            answer.coded(bytes.as_slice());
        }
        Fetch::Missing => answer.word("missing"),
        Fetch::Failed => answer.word("failed"),
    }
}

// `list ANSWERS QUESTION ..`: what a peer with these answers was asked, with its answers, and its count. A question is the
// name of a group, or the digits of a reference.
fn list_line(alloc: Global, mut words: Words<'_>, answer: &mut Answer) -> Result<(), Fault> {
    let answers = list_of(alloc, words.word()?)?;
    let mut peer = ListPeer::new(alloc, answers);
    ask_peer_all(alloc, &mut peer, words)?;
    add_calls(peer.calls(), answer);
    answer.part();
    answer.number(peer.faults());
    Ok(())
}

// `refuses QUESTION ..`: the same of a peer that refuses.
fn refuses_line(alloc: Global, words: Words<'_>, answer: &mut Answer) -> Result<(), Fault> {
    let mut peer = RefusingPeer::new(alloc);
    ask_peer_all(alloc, &mut peer, words)?;
    add_calls(peer.calls(), answer);
    answer.part();
    answer.number(peer.faults());
    Ok(())
}

/// Asks a peer what the words of a line say, one after the other: the name of a group, or the digits of a reference.
pub fn ask_peer_all<P: Peer>(alloc: Global, peer: &mut P, words: Words<'_>) -> Result<(), Fault> {
    for question in words.some()?.split(' ') {
        ask_peer(alloc, peer, question)?;
    }
    Ok(())
}

fn ask_peer<P: Peer>(alloc: Global, peer: &mut P, question: &str) -> Result<(), Fault> {
    match Reference::parse(question.as_bytes()) {
        Some(reference) => drop(peer.fetch(alloc, &reference)?),
        None => load_of(alloc, peer, question)?,
    }
    Ok(())
}

fn load_of<P: Peer>(alloc: Global, peer: &mut P, name: &str) -> Result<(), Fault> {
    let name = path_of(alloc, name)?;
    drop(peer.load(alloc, &name)?);
    Ok(())
}

/// What a peer was asked, with its answers.
pub fn add_calls(calls: &[PeerCall], answer: &mut Answer) {
    for call in calls {
        answer.part();
        add_question(&call.question, answer);
        add_answer(&call.answer, answer);
    }
}

fn add_question(question: &PeerQuestion, answer: &mut Answer) {
    match question {
        PeerQuestion::Group(path) => answer.coded(path.as_str().as_bytes()),
        PeerQuestion::Block(reference) => answer.digits(reference.bytes()),
    }
}

fn add_answer(told: &PeerAnswer, answer: &mut Answer) {
    match told {
        PeerAnswer::Got(bytes) => {
            answer.word("got");
            answer.coded(bytes.as_slice());
        }
        PeerAnswer::Nothing => answer.word("nothing"),
        PeerAnswer::Failed => answer.word("failed"),
    }
}
