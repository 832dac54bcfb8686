//! The host of a storm is opened.
ghost use Rattle.std.specs.Prelude.{◌≡◌, ◌∷◌, [], length, false, codes, IfOk, Ok};
ghost use Rattle.std.specs.List.{AllByRecursion};
ghost use Rattle.up_disk.specs.Leaving.{IsBlank};
ghost use Rattle.up_storm.specs.Preparing.{IsOpened};

use crate::sign_on::{HOST, user_named};
use crate::texts::{FIRST_OWNER, SECOND_OWNER};
use std::alloc::{AllocError, Global};
use std::hash::RandomState;
use up_disk::{Disk, Disks, MemDisk};
use up_host::Host;
use up_journal::Limits;
use up_lists::Items;
use up_names::User;

/// The operator of the host.
const OPERATOR: &[u8] = b"op@storm.example";

/// The limits of the logs.
const LIMITS: Limits = Limits {
    records: 1_048_576,
    device: 1_073_741_824,
    largest: 131_072,
};

/// The host, with both trees, over empty disks. An `Err` is want of memory.
pub(crate) fn open_host(alloc: Global, random: RandomState) -> Result<Host<MemDisk>, AllocError>
    ensures { IfOk result (IsOpened ⟦<MemDisk as Disk>⟧) }
{
    let operator = user_named(alloc, OPERATOR)?;
    let Ok(owners) = owners(alloc) else {
        drop(operator);
        return Err(AllocError);
    };
    let Ok(disks) = empty_disks(alloc) else {
        drop(operator);
        drop(owners);
        return Err(AllocError);
    };
    match Host::open(alloc, random, HOST, operator, owners, disks, LIMITS) {
        Ok(host) => Ok(host),
        Err(_) => Err(AllocError),
    }
}

// The owners of both trees.
#[tactic(auto, using(crate::proofs::Names::first_owner, crate::proofs::Names::second_owner))]
fn owners(alloc: Global) -> Result<Items<User>, AllocError>
    ensures { IfOk result (λ owners.
        owners ≡ codes "a@storm.example" ∷ codes "b@storm.example" ∷ []) }
{
    let mut owners = Items::new(alloc);
    owners.push(user_named(alloc, FIRST_OWNER)?)?;
    owners.push(user_named(alloc, SECOND_OWNER)?)?;
    Ok(owners)
}

// An empty disk for each tree, for the store and for the keys.
#[tactic(auto, using(crate::proofs::OpeningLemmas::blank_more))]
fn empty_disks(alloc: Global) -> Result<Disks<MemDisk>, AllocError>
    ensures four { IfOk result (λ disks. length disks.disks ≡ 4) }
    ensures blank { IfOk result (λ disks.
        AllByRecursion (IsBlank ⟦<MemDisk as Disk>⟧) disks.disks) }
{
    let mut disks = Disks::new(alloc);
    for made in 0..4usize {
        disks.push(empty_disk(alloc))?;
    }
    Ok(disks)
}

fn empty_disk(alloc: Global) -> MemDisk
    ensures { IsBlank ⟦<MemDisk as Disk>⟧ result }
{
    MemDisk::new(alloc, Items::new(alloc))
}
