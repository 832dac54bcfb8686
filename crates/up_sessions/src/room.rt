//! Disks are taken, and put back in their places.
ghost use Rattle.std.specs.Prelude.{◌≡◌, ◌<◌, ◌≤◌, ◌+◌, ◌-◌, ◌∷◌, ◌++◌, [], length, take, drop, option_to_list, IfOk, OnErr};

use std::alloc::{AllocError, Global};
use up_disk::Disks;

/// Takes the first disks, so many. An `Err` has put all of them back in their places.
pub(crate) fn take_first<D: Drop>(
    alloc: Global,
    free: &mut Disks<D>,
    count: u64,
) -> Result<Disks<D>, AllocError>
    requires { count ≤ length free.old.disks }
    ensures taken { IfOk result (λ given. given.disks ≡ take count free.old.disks) }
    ensures left { IfOk result (λ given. free.new.disks ≡ drop count free.old.disks) }
    ensures room { IfOk result (λ given. free.new.spare ≡ free.old.spare + count) }
    ensures back { OnErr result (free.new.disks ≡ free.old.disks) }
    ensures spare { OnErr result (free.new.spare ≡ free.old.spare) }
{
    let mut given = Disks::new(alloc);
    for _taken in 0..count {
        let Some(disk) = free.take() else {
            unreachable!()
        };
        if let Err(refused) = given.push(disk) {
            put_front(free, given, Some(refused.value));
            return Err(AllocError);
        }
    }
    Ok(given)
}

/// Puts disks before the others, and perhaps one more behind them.
#[tactic(auto, using(crate::proofs::RoomLemmas::fronted, crate::proofs::RoomLemmas::as_many))]
pub(crate) fn put_front<D: Drop>(free: &mut Disks<D>, given: Disks<D>, last: Option<D>)
    requires { length given.disks + length (option_to_list last) ≤ free.old.spare }
    ensures disks { free.new.disks ≡ given.disks ++ (option_to_list last ++ free.old.disks) }
    ensures spare { free.new.spare + (length given.disks + length (option_to_list last))
        ≡ free.old.spare }
{
    let left = free.len();
    put_all(free, given);
    put_last(free, last);
    turn(free, left);
}

// Puts a disk, if there is one, behind the others.
fn put_last<D: Drop>(disks: &mut Disks<D>, last: Option<D>)
    requires { length (option_to_list last) ≤ disks.old.spare }
    ensures disks { disks.new.disks ≡ disks.old.disks ++ option_to_list last }
    ensures spare { disks.new.spare + length (option_to_list last) ≡ disks.old.spare }
{
    if let Some(disk) = last {
        put_back(disks, disk);
    }
}

/// Puts disks behind the others, in their order.
pub(crate) fn put_all<D: Drop>(disks: &mut Disks<D>, more: Disks<D>)
    requires { length more.disks ≤ disks.old.spare }
    ensures disks { disks.new.disks ≡ disks.old.disks ++ more.disks }
    ensures spare { disks.new.spare + length more.disks ≡ disks.old.spare }
{
    let mut left = more;
    loop {
        let Some(disk) = left.take() else {
            return;
        };
        put_back(disks, disk);
    }
}

// Puts a disk behind the others, for which there is room.
fn put_back<D: Drop>(disks: &mut Disks<D>, disk: D)
    requires { 0 < disks.old.spare }
    ensures disks { disks.new.disks ≡ disks.old.disks ++ disk ∷ [] }
    ensures spare { disks.new.spare ≡ disks.old.spare - 1 }
{
    let Ok(()) = disks.push(disk) else {
        unreachable!()
    };
}

/// Puts the first disks behind the others, one after the other, so many times.
#[tactic(auto, using(up_host::proofs::OpeningLemmas::turn_none, up_host::proofs::OpeningLemmas::turn_step))]
pub(crate) fn turn<D: Drop>(disks: &mut Disks<D>, times: u64)
    requires { times ≤ length disks.old.disks }
    ensures disks { disks.new.disks ≡ drop times disks.old.disks ++ take times disks.old.disks }
    ensures spare { disks.new.spare ≡ disks.old.spare }
{
    for _turn in 0..times {
        let Some(disk) = disks.take() else {
            unreachable!()
        };
        put_back(disks, disk);
    }
}
