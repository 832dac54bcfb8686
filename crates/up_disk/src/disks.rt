//! A list of disks with spare room.
ghost use Rattle.std.specs.Prelude.{◌≡◌, ◌==◌, ◌<◌, ◌+◌, ◌-◌, ◌↔◌, [], ◌∷◌, ◌++◌, length, is_ok, is_some, if◌then◌else◌, IfErr, IsOk, IsNone, option_to_list};

use std::alloc::{AllocFailed, Global};
use std::collections::VecDeque;
use std::marker::Model;

/// A list of disks that has room for so many more, so that what was taken can be put back without memory.
#[derive(Drop)]
pub struct Disks<D> {
    disks: VecDeque<D>,
    spare: usize,
}

impl<D> Model for Disks<D> {
    ghost use Rattle.std.specs.Prelude.{◌≤◌, ◌+◌};
    ghost use Rattle.std.specs.VecDeque.{deque_len, deque_capacity};
    ghost use Rattle.up_disk.specs.Spare.{Spared};

    ghost Value = { Spared D };

    ghost view = { λ list. record { disks = list.disks.items; spare = list.spare } };

    ghost invariant = { λ list. list.spare + deque_len list.disks ≤ deque_capacity list.disks };
}

impl<D> Disks<D> {
    /// The empty list, with no spare room. It takes no memory.
    pub fn new(alloc: Global) -> Disks<D>
        ensures disks { result.disks ≡ [] }
        ensures spare { result.spare ≡ 0 }
    {
        Disks {
            disks: VecDeque::new(alloc),
            spare: 0,
        }
    }

    /// Adds a disk at the end. Spare room is used first; without it, memory is asked for. An `Err` hands the disk
    /// back and leaves the list as it was.
    pub fn push(&mut self, disk: D) -> Result<(), AllocFailed<D>>
        ensures disks { self.new.disks ≡
            (if is_ok result then self.old.disks ++ disk ∷ [] else self.old.disks) }
        ensures succeeds { 0 < self.old.spare → IsOk result }
        ensures spare { self.new.spare ≡
            (if is_ok result then self.old.spare - 1 else self.old.spare) }
        ensures returned { IfErr result (λ failed. failed.value ≡ disk) }
    {
        self.disks.push_back(disk)?;
        self.spare = self.spare.saturating_sub(1);
        Ok(())
    }

    /// Takes the first disk, and adds its room to the spare. `None` exactly where the list is empty.
    pub fn take(&mut self) -> Option<D>
        ensures disks { self.old.disks ≡ option_to_list result ++ self.new.disks }
        ensures none { IsNone result ↔ (self.old.disks ≡ []) }
        ensures spare { self.new.spare ≡
            (if is_some result then self.old.spare + 1 else self.old.spare) }
    {
        let disk = self.disks.pop_front()?;
        self.spare += 1;
        Some(disk)
    }

    /// The number of disks.
    pub fn len(&self) -> u64
        ensures { result ≡ length self.now.disks }
    {
        self.disks.len() as u64
    }

    /// Whether there is no disk.
    pub fn is_empty(&self) -> bool
        ensures { result ≡ (length self.now.disks == 0) }
    {
        self.disks.is_empty()
    }
}
