//! Hosts that are opened over disks in memory.
ghost use Rattle.std.specs.Prelude.{◌≡◌, ◌==◌, ◌+◌, false, length, IfOk};
ghost use Rattle.std.specs.List.{AllByRecursion, IsDistinct};
ghost use Rattle.std.specs.Str.{bytes_eq};
ghost use Rattle.up_policy.specs.Trees.{owns_snapshots};

use crate::host_cases::words::cut;
use std::alloc::Global;
use std::hash::RandomState;
use up_case_asks::owner_of;
use up_case_lines::{Answer, Fault, Words, number_of, user_of};
use up_case_logs::add_open_fault;
use up_disk::{Disk, Disks, MemDisk};
use up_host::{Host, HostFault};
use up_journal::Limits;
use up_lists::Items;
use up_names::User;

/// Limits to which no case comes.
const WIDE: Limits = Limits {
    records: 1 << 20,
    device: 1 << 30,
    largest: 1 << 17,
};

// Whose a host is: its operator, and the owners of its trees.
#[derive(Drop)]
struct Whose {
    operator: User,
    owners: Items<User>,
}

/// A host, or nothing where it was refused. Of the disks, as many as there are owners and two more, these calls fail.
pub fn new_host(
    alloc: Global,
    random: RandomState,
    mut words: Words<'_>,
    answer: &mut Answer,
) -> Result<Option<Host<MemDisk>>, Fault> {
    let operator = words.word()?;
    let owners = words.word()?;
    let whose = whose_of(alloc, operator, owners)?;
    match disks_for(alloc, &whose.owners, words) {
        Ok(disks) => open_over(alloc, random, whose, disks, answer),
        Err(fault) => {
            drop(whose);
            Err(fault)
        }
    }
}

/// A host of these owners, by this operator, over these disks.
pub fn host_over(
    alloc: Global,
    random: RandomState,
    disks: Disks<MemDisk>,
    words: Words<'_>,
    answer: &mut Answer,
) -> Result<Option<Host<MemDisk>>, Fault> {
    match whose_told(alloc, words) {
        Ok(whose) => open_over(alloc, random, whose, disks, answer),
        Err(fault) => {
            drop(disks);
            Err(fault)
        }
    }
}

// `OPERATOR OWNERS`.
fn whose_told(alloc: Global, mut words: Words<'_>) -> Result<Whose, Fault>
    ensures distinct { IfOk result (λ whose. IsDistinct bytes_eq whose.owners) }
    ensures plain { IfOk result (λ whose.
        AllByRecursion (λ owner. owns_snapshots owner ≡ false) whose.owners) }
{
    let (operator, owners) = words.two()?;
    whose_of(alloc, operator, owners)
}

fn open_over(
    alloc: Global,
    random: RandomState,
    whose: Whose,
    disks: Disks<MemDisk>,
    answer: &mut Answer,
) -> Result<Option<Host<MemDisk>>, Fault>
    requires distinct { IsDistinct bytes_eq whose.owners }
    requires plain { AllByRecursion (λ owner. owns_snapshots owner ≡ false) whose.owners }
{
    if are_disks_for(&disks, &whose.owners) {
        return Ok(open(alloc, random, whose, disks, answer));
    }
    drop(disks);
    drop(whose);
    Err(Fault::BadLine)
}

// `open`, or `refused`, the place and why, and the sizes of the disks that are handed back.
fn open(
    alloc: Global,
    random: RandomState,
    whose: Whose,
    disks: Disks<MemDisk>,
    answer: &mut Answer,
) -> Option<Host<MemDisk>>
    requires distinct { IsDistinct bytes_eq whose.owners }
    requires plain { AllByRecursion (λ owner. owns_snapshots owner ≡ false) whose.owners }
    requires disks { length disks.disks ≡ length whose.owners + 2 }
{
    match opened(alloc, random, whose, disks) {
        Ok(host) => {
            answer.word("open");
            Some(host)
        }
        Err(fault) => {
            add_fault(fault, answer);
            None
        }
    }
}

// A host, of which nothing else is known.
fn opened(
    alloc: Global,
    random: RandomState,
    whose: Whose,
    disks: Disks<MemDisk>,
) -> Result<Host<MemDisk>, HostFault<MemDisk>>
    requires distinct { IsDistinct bytes_eq whose.owners }
    requires plain { AllByRecursion (λ owner. owns_snapshots owner ≡ false) whose.owners }
    requires disks { length disks.disks ≡ length whose.owners + 2 }
{
    let Whose { operator, owners } = whose;
    Host::open(alloc, random, "h", operator, owners, disks, WIDE)
}

fn add_fault(fault: HostFault<MemDisk>, answer: &mut Answer) {
    let HostFault { disks, which, why } = fault;
    answer.word("refused");
    answer.number(which);
    add_open_fault(why, answer);
    answer.part();
    add_sizes(disks, answer);
}

/// Adds the sizes of disks, in their order.
pub fn add_sizes(disks: Disks<MemDisk>, answer: &mut Answer) {
    let mut left = disks;
    answer.word("sizes");
    for _disk in 0..left.len() {
        add_size(&mut left, answer);
    }
    drop(left);
}

// Takes the first disk, and adds its size.
fn add_size(left: &mut Disks<MemDisk>, answer: &mut Answer) {
    if let Some(disk) = left.take() {
        answer.number(size_of(&disk));
        drop(disk);
    }
}

fn size_of(disk: &MemDisk) -> u64 {
    disk.size()
}

// Whether there are as many disks as a host of these owners has.
fn are_disks_for(disks: &Disks<MemDisk>, owners: &Items<User>) -> bool
    ensures { result ≡ (length disks.now.disks == length owners.now + 2) }
{
    let (disks, owners) = (disks.len(), owners.len());
    disks >= 2 && disks - 2 == owners
}

fn whose_of(alloc: Global, operator: &str, owners: &str) -> Result<Whose, Fault>
    ensures distinct { IfOk result (λ whose. IsDistinct bytes_eq whose.owners) }
    ensures plain { IfOk result (λ whose.
        AllByRecursion (λ owner. owns_snapshots owner ≡ false) whose.owners) }
{
    let owners = owners_of(alloc, owners)?;
    match user_of(alloc, operator) {
        Ok(operator) => Ok(Whose { operator, owners }),
        Err(fault) => {
            drop(owners);
            Err(fault)
        }
    }
}

// Owners joined by commas, `-` for none.
fn owners_of(alloc: Global, word: &str) -> Result<Items<User>, Fault>
    ensures distinct { IfOk result (IsDistinct bytes_eq) }
    ensures plain { IfOk result (AllByRecursion (λ owner. owns_snapshots owner ≡ false)) }
{
    let mut owners = Items::new(alloc);
    if word == "-" {
        return Ok(owners);
    }
    for name in word.split(',') {
        add_owner(alloc, &mut owners, name)?;
    }
    Ok(owners)
}

// One that is there, or that of a snapshot tree, does not fit.
#[tactic(auto, using(crate::proofs::OwnerLemmas::is_plain))]
fn add_owner(alloc: Global, owners: &mut Items<User>, name: &str) -> Result<(), Fault>
    requires distinct { IsDistinct bytes_eq owners.old }
    requires plain { AllByRecursion (λ owner. owns_snapshots owner ≡ false) owners.old }
    ensures distinct { IsDistinct bytes_eq owners.new }
    ensures plain { AllByRecursion (λ owner. owns_snapshots owner ≡ false) owners.new }
{
    let owner = owner_of(alloc, name)?;
    if owners.as_slice().contains(&owner) {
        return Err(Fault::BadLine);
    }
    owners.push(owner)?;
    Ok(())
}

// The empty disks of a host of these owners. A word `PLACE:CALL,CALL` has these calls of the disk at this place fail.
fn disks_for(
    alloc: Global,
    owners: &Items<User>,
    words: Words<'_>,
) -> Result<Disks<MemDisk>, Fault> {
    let mut disks = Disks::new(alloc);
    for place in 0..owners.len().saturating_add(2) {
        add_disk(alloc, place, words, &mut disks)?;
    }
    Ok(disks)
}

fn add_disk(
    alloc: Global,
    place: u64,
    words: Words<'_>,
    disks: &mut Disks<MemDisk>,
) -> Result<(), Fault> {
    disks.push(disk_at(alloc, place, words)?)?;
    Ok(())
}

fn disk_at(alloc: Global, place: u64, words: Words<'_>) -> Result<MemDisk, Fault> {
    Ok(MemDisk::new(alloc, fails_at(alloc, place, words)?))
}

// The calls that fail of the disk at a place.
fn fails_at(alloc: Global, place: u64, words: Words<'_>) -> Result<Items<u64>, Fault> {
    let mut fails = Items::new(alloc);
    if let Some(rest) = words.rest() {
        for word in rest.split(' ') {
            add_fails(place, word, &mut fails)?;
        }
    }
    Ok(fails)
}

fn add_fails(place: u64, word: &str, fails: &mut Items<u64>) -> Result<(), Fault> {
    let (at, calls) = cut(word, ':')?;
    if number_of(at)? == place {
        add_numbers(calls, fails)?;
    }
    Ok(())
}

fn add_numbers(calls: &str, fails: &mut Items<u64>) -> Result<(), Fault> {
    for call in calls.split(',') {
        add_number(call, fails)?;
    }
    Ok(())
}

fn add_number(word: &str, numbers: &mut Items<u64>) -> Result<(), Fault> {
    numbers.push(number_of(word)?)?;
    Ok(())
}
