//! The peers of a host, in order, and what they give as a loader.
ghost use Rattle.std.specs.Prelude.{◌≡◌, ◌<◌, [], ◌∷◌, ◌++◌, length, position, sum_by, Ok, OnOk, OnErr};
ghost use Rattle.std.specs.Result.{result_ok};
ghost use Rattle.up_peer.specs.Asking.{Asks, AsksAt, KeptPeer, WasAsked, has_address, has_owner};
ghost use Rattle.up_peer.specs.Loading.{FetchesFrom, LoadsAs, LoadsFrom, fault_sum, fetch_of};
ghost use Rattle.up_peer.specs.declared.answers.PeerQuestion.TheVariants as questions;

use crate::answers::PeerAnswer;
use crate::boxed::BoxedPeer;
use crate::loader::Loader;
use crate::peer::Peer;
use std::alloc::{AllocError, Global};
use std::marker::Model;
use up_bytes::Bytes;
use up_entry::Fetch;
use up_group::parse_group;
use up_lists::Items;
use up_names::{Path, TextFault, User};
use up_policy::LoadAnswer;
use up_refs::Reference;

// A peer, the owners whose trees it has, and the address whose blocks it has.
#[derive(Drop)]
struct Row<P> {
    owners: Items<User>,
    address: Bytes,
    peer: P,
}

impl<P> Model for Row<P> {
    ghost use Rattle.up_peer.specs.Asking.{KeptPeer};

    ghost Value = { KeptPeer P };

    ghost view = { λ row. record { owners = row.owners; address = row.address; peer = row.peer } };
}

impl<P> Row<P> {
    fn has_owner(&self, owner: &User) -> bool
        ensures { result ≡ has_owner owner.now self.now }
    {
        self.owners.as_slice().contains(owner)
    }

    fn has_address(&self, address: &[u8]) -> bool
        ensures { result ≡ has_address address.now self.now }
    {
        self.address.as_slice() == address
    }
}

impl<P: Peer> Row<P> {
    fn load(&mut self, alloc: Global, group: &Path) -> Result<PeerAnswer, AllocError>
        ensures { WasAsked P.asked P.fault_count self.old self.new
            (questions.Group group.now) result }
    {
        self.peer.load(alloc, group)
    }

    fn fetch(&mut self, alloc: Global, reference: &Reference) -> Result<PeerAnswer, AllocError>
        ensures { WasAsked P.asked P.fault_count self.old self.new
            (questions.Block reference.now) result }
    {
        self.peer.fetch(alloc, reference)
    }

    fn faults(&self) -> u64
        ensures { result ≡ P.fault_count self.now.peer }
    {
        self.peer.faults()
    }
}

/// Peers in order, each with the owners whose trees it has and the address whose blocks it has.
#[derive(Drop)]
pub struct PeerList<P> {
    rows: Vec<Row<P>>,
}

/// The peers of a host, of any kinds.
pub type Peers = PeerList<BoxedPeer>;

impl<P> Model for PeerList<P> {
    ghost use Rattle.std.specs.Prelude.{List};
    ghost use Rattle.up_peer.specs.Asking.{KeptPeer};

    ghost Value = { List (KeptPeer P) };

    ghost view = { λ peers. peers.rows.items };
}

impl<P> PeerList<P> {
    /// No peers. It takes no memory.
    pub fn new(alloc: Global) -> Self
        ensures { result ≡ [] }
    {
        PeerList {
            rows: Vec::new(alloc),
        }
    }
}

impl PeerList<BoxedPeer> {
    /// Adds a peer behind the others, with the owners whose trees it has and the address whose blocks it has. An `Err` has
    /// dropped the peer, and changes nothing else.
    pub fn add(
        &mut self,
        owners: Items<User>,
        address: Bytes,
        peer: Box<dyn Peer + Send>,
    ) -> Result<(), AllocError>
        ensures added { OnOk result (self.new ≡ self.old ++ (record {
          owners = owners;
          address = address;
          peer = record { peer = peer };
        }) ∷ []) }
        ensures refused { OnErr result (self.new ≡ self.old) }
    {
        self.rows.push(Row {
            owners,
            address,
            peer: BoxedPeer { peer },
        })?;
        Ok(())
    }
}

impl<P: Peer> PeerList<P> {
    /// The sum of the counts of all peers.
    pub fn faults(&self) -> u128
        ensures { result ≡ sum_by (λ kept. P.fault_count kept.peer) self.now }
    {
        sum_of(&self.rows)
    }

    /// Drops each peer, and answers the sum of their counts.
    pub fn close(self) -> u128
        ensures { result ≡ sum_by (λ kept. P.fault_count kept.peer) self }
    {
        self.faults()
    }

    // The place of the first peer that has the owner.
    fn first_with_owner(&self, owner: &User) -> Option<usize>
        ensures { result ≡ position (has_owner owner.now) self.now }
    {
        place_of_owner(&self.rows, owner)
    }

    // The place of the first peer that has the address.
    fn first_with_address(&self, address: &[u8]) -> Option<usize>
        ensures { result ≡ position (has_address address.now) self.now }
    {
        place_of_address(&self.rows, address)
    }

    // Asks the first peer that has the group's owner, and no other.
    fn ask_group(&mut self, alloc: Global, group: &Path) -> Result<PeerAnswer, AllocError>
        ensures { Asks P.asked P.fault_count (position (has_owner group.now.owner) self.old)
            self.old self.new (questions.Group group.now) result }
    {
        match self.first_with_owner(group.owner()) {
            Some(i) => self.load_at(i, alloc, group),
            None => Ok(PeerAnswer::Nothing),
        }
    }

    // Asks the first peer that has the address, and no other.
    fn ask_block(
        &mut self,
        alloc: Global,
        address: &[u8],
        reference: &Reference,
    ) -> Result<PeerAnswer, AllocError>
        ensures { Asks P.asked P.fault_count (position (has_address address.now) self.old)
            self.old self.new (questions.Block reference.now) result }
    {
        match self.first_with_address(address) {
            Some(i) => self.fetch_at(i, alloc, reference),
            None => Ok(PeerAnswer::Nothing),
        }
    }

    // Asks the peer at a place for a group.
    fn load_at(&mut self, i: usize, alloc: Global, group: &Path) -> Result<PeerAnswer, AllocError>
        requires { i < length self.old }
        ensures { AsksAt P.asked P.fault_count i
            self.old self.new (questions.Group group.now) result }
    {
        self.rows[i].load(alloc, group)
    }

    // Asks the peer at a place for a block.
    fn fetch_at(
        &mut self,
        i: usize,
        alloc: Global,
        reference: &Reference,
    ) -> Result<PeerAnswer, AllocError>
        requires { i < length self.old }
        ensures { AsksAt P.asked P.fault_count i
            self.old self.new (questions.Block reference.now) result }
    {
        self.rows[i].fetch(alloc, reference)
    }
}

fn place_of_owner<P>(rows: &[Row<P>], owner: &User) -> Option<usize>
    ensures { result ≡ position (has_owner owner.now) rows.now }
{
    rows.iter().position(|row| row.has_owner(owner))
}

fn place_of_address<P>(rows: &[Row<P>], address: &[u8]) -> Option<usize>
    ensures { result ≡ position (has_address address.now) rows.now }
{
    rows.iter().position(|row| row.has_address(address))
}

fn sum_of<P: Peer>(rows: &[Row<P>]) -> u128
    ensures { result ≡ sum_by (λ kept. P.fault_count kept.peer) rows.now }
{
    let mut sum: u128 = 0;
    for row in rows {
        sum += u128::from(row.faults());
    }
    sum
}

/// The first peer that has the owner or the address is asked, and no other; where there is none the answer is `Missing`. The
/// text of a group is read as one in its owner's tree.
impl<P: Peer> Loader for PeerList<P> {
    ghost loads = { λ old question answer new.
        LoadsFrom P.asked P.fault_count old question answer new };

    ghost fetches = { λ old question answer new.
        FetchesFrom P.asked P.fault_count old question answer new };

    ghost faults = { fault_sum P.fault_count };

    ghost tied = { λ _ _. Unit {0} };

    fn load(
        &mut self,
        alloc: Global,
        _asker: &User,
        name: &Path,
    ) -> Result<LoadAnswer, AllocError> {
        let answer = self.ask_group(alloc, name)?;
        loaded(name.owner(), answer)
    }

    fn fetch(
        &mut self,
        alloc: Global,
        address: &[u8],
        reference: &Reference,
    ) -> Result<Fetch, AllocError> {
        Ok(fetched(self.ask_block(alloc, address, reference)?))
    }

    ghost same = { λ a. tt };

    ghost joined = { λ a b c p q. tt };
}

// What is made of a peer's answer to a load: a text is read.
fn loaded(owner: &User, answer: PeerAnswer) -> Result<LoadAnswer, AllocError>
    ensures { LoadsAs owner.now answer (result_ok result) }
{
    match answer {
        PeerAnswer::Got(text) => match parse_group(owner, text.as_slice()) {
            Ok(text) => Ok(LoadAnswer::Text(text)),
            Err(TextFault::BadText(line)) => Ok(LoadAnswer::BadText(line)),
            Err(TextFault::OutOfMemory) => Err(AllocError),
        },
        PeerAnswer::Nothing => Ok(LoadAnswer::Missing),
        PeerAnswer::Failed => Ok(LoadAnswer::Failed),
    }
}

// What is made of a peer's answer to a fetch.
fn fetched(answer: PeerAnswer) -> Fetch
    ensures { result ≡ fetch_of answer }
{
    match answer {
        PeerAnswer::Got(bytes) => Fetch::Got(bytes),
        PeerAnswer::Nothing => Fetch::Missing,
        PeerAnswer::Failed => Fetch::Failed,
    }
}
