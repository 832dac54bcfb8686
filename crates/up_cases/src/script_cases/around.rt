//! What stands around a script of `upspin script`: the clock, nonces, disks that fail, and a peer.
use std::alloc::{AllocError, Global};
use up_case_lines::{Fault, Words, bytes_of, bytes_of_digits, user_of};
use up_disk::DiskFault;
use up_ends::{END_OF_MOMENTS, FixedClock, ListNonces};
use up_lists::Items;
use up_names::User;
use up_peer::{ListPeer, PeerAnswer};

/// The clock stands here where no line says otherwise.
const MOMENT: u64 = 86_400;

/// What stands around a script.
#[derive(Drop)]
pub struct Around<'a> {
    moment: u64,
    nonces: Vec<[u8; 32]>,
    pub disk_faults: Vec<DiskFault>,
    /// The owner whose tree the peer has, and its answers.
    peer: Option<(&'a str, &'a str)>,
}

/// A peer that has the trees of some owners.
#[derive(Drop)]
pub struct ToldPeer {
    pub owners: Items<User>,
    pub peer: Box<ListPeer>,
}

impl<'a> Around<'a> {
    /// The usual: nonces of zeros, disks that do not fail, and no peer.
    pub fn new(alloc: Global) -> Around<'a> {
        Around {
            moment: MOMENT,
            nonces: Vec::new(alloc),
            disk_faults: Vec::new(alloc),
            peer: None,
        }
    }

    /// Adds what a line with this keyword says: `clock N` is the moment at which the clock stands, `nonce HEX` the next nonce, `disk PLACE
    /// CALL` a call of a disk that fails, both from 0, and `peer OWNER ANSWERS` the peer that has the owner's tree, with the answers that
    /// it gives in order, joined by commas: `=TEXT`, `nothing` or `failed`.
    pub fn add(&mut self, alloc: Global, keyword: &str, mut words: Words<'a>) -> Result<(), Fault> {
        match keyword {
            "clock" => self.set_moment(words.last_number()?),
            "nonce" => self.add_nonce(nonce_of(alloc, words.one()?)?),
            "disk" => self.add_disk_fault(words.two_numbers()?),
            "peer" => self.set_peer(words.two()?),
            _ => Err(Fault::BadLine),
        }
    }

    fn set_moment(&mut self, moment: u64) -> Result<(), Fault> {
        self.moment = moment;
        Ok(())
    }

    fn add_nonce(&mut self, nonce: [u8; 32]) -> Result<(), Fault> {
        self.nonces.push(nonce)?;
        Ok(())
    }

    fn add_disk_fault(&mut self, place: (u64, u64)) -> Result<(), Fault> {
        let (disk, call) = place;
        self.disk_faults.push(DiskFault { disk, call })?;
        Ok(())
    }

    fn set_peer(&mut self, peer: (&'a str, &'a str)) -> Result<(), Fault> {
        self.peer = Some(peer);
        Ok(())
    }

    /// The clock.
    pub fn clock(&self) -> FixedClock {
        FixedClock::new(self.moment.min(END_OF_MOMENTS - 1))
    }

    /// The nonces.
    pub fn nonces(&self, alloc: Global) -> Result<ListNonces, AllocError> {
        Ok(ListNonces::new(Items::from_vec(self.nonces.to_vec(alloc)?)))
    }

    /// The peer that was told, if one was.
    pub fn told_peer(&self, alloc: Global) -> Result<Option<ToldPeer>, Fault> {
        match self.peer {
            Some((owner, answers)) => Ok(Some(peer_of(alloc, owner, answers)?)),
            None => Ok(None),
        }
    }
}

// The nonce whose hexadecimal digits a word is.
fn nonce_of(alloc: Global, word: &str) -> Result<[u8; 32], Fault> {
    let bytes = bytes_of_digits(alloc, word)?;
    match bytes.as_slice().first_chunk::<32>() {
        Some(nonce) => Ok(*nonce),
        None => Err(Fault::BadLine),
    }
}

fn peer_of(alloc: Global, owner: &str, answers: &str) -> Result<ToldPeer, Fault> {
    let owners = owners_of(alloc, owner)?;
    match boxed(alloc, answers) {
        Ok(peer) => Ok(ToldPeer { owners, peer }),
        Err(fault) => {
            drop(owners);
            Err(fault)
        }
    }
}

fn boxed(alloc: Global, answers: &str) -> Result<Box<ListPeer>, Fault> {
    let answers = answers_of(alloc, answers)?;
    match Box::new(alloc, ListPeer::new(alloc, answers)) {
        Ok(peer) => Ok(peer),
        Err(refused) => {
            drop(refused);
            Err(Fault::OutOfMemory)
        }
    }
}

fn owners_of(alloc: Global, word: &str) -> Result<Items<User>, Fault> {
    let mut owners = Items::new(alloc);
    owners.push(user_of(alloc, word)?)?;
    Ok(owners)
}

fn answers_of(alloc: Global, word: &str) -> Result<Items<PeerAnswer>, Fault> {
    let mut answers = Items::new(alloc);
    for one in word.split(',') {
        add_answer(alloc, &mut answers, one)?;
    }
    Ok(answers)
}

fn add_answer(alloc: Global, answers: &mut Items<PeerAnswer>, word: &str) -> Result<(), Fault> {
    answers.push(answer_of(alloc, word)?)?;
    Ok(())
}

fn answer_of(alloc: Global, word: &str) -> Result<PeerAnswer, Fault> {
    match word {
        "nothing" => Ok(PeerAnswer::Nothing),
        "failed" => Ok(PeerAnswer::Failed),
        _ => {
            let text = word.strip_prefix('=').ok_or(Fault::BadLine)?;
            Ok(PeerAnswer::Got(bytes_of(alloc, text)?))
        }
    }
}
