//! A disk as a journal sees it, disks in memory whose calls can fail and whose crash images can be looked at,
//! and a list of disks with spare room.
//!
//! The trait [`Disk`] says what a read gives after each call, and what a crash may leave at any moment of it. A write
//! that is not synced may leave any bytes in its range and past the old end, and any size between (`crash`, `failed`);
//! a cut may have happened or not; after a sync that succeeds a crash leaves what a read gives (`durable`). What a
//! crash left at some moment since the start of a run is told by `time`; a read leaves all images as they are (`crash`,
//! `keeps`). The count of faults rose in each call that fails, and is as before in each that succeeds (`cause`, `quiet`).
//! A disk that tells nothing has no images, and what these clauses say of them is then empty.
//!
//! [`MemDisk`] is such a disk. A read fails exactly where its number is listed; a cut or a sync where it is listed, and
//! else only where the list of calls has to grow (`only_listed`); a write where it is listed, and else, as the code is written, for
//! want of memory, which each write may need and of which no clause tells. The counts after each call are exact (`called` of the
//! records in `specs/MemoryCalls.antt`).
//! A listed write leaves the front half of its bytes, or nothing where there was no memory to note it (`half`), any other
//! write that fails leaves all as it was (`unlisted`), and so does each other call that fails (`untouched`).
//! [`MemDisk::image`] is exactly the crash image by its number, and each image is possible (`image`, `possible`).
//!
//! [`HookDisk`] is a `MemDisk` that calls its hook exactly once in each sync, also in one that fails, before the disk is
//! synced and with the disk as it stands then, and in no other call (`hook`). In all else it does exactly what its
//! `MemDisk` does (`disk`).
//!
//! [`Ahead`] is any disk, read 64 KiB ahead where a read goes on where the last one ended. Its content, images, moments and count are
//! those of the disk below it, so bytes that a write or a cut made stale are never given.
//!
//! [`Disks`] is a list of disks; what was taken from it can be put back without memory (`succeeds`). [`blank_disks`] is a
//! list of 80, all empty, of which exactly the given calls are listed to fail (`blank`, `plans`).
#![tactic(auto)]

mod ahead;
mod blank;
mod call;
mod disk;
mod disks;
mod fault;
mod hook;
mod landing;
mod memory;

pub use ahead::Ahead;
pub use blank::{DiskFault, blank_disks};
pub use disk::Disk;
pub use disks::Disks;
pub use fault::Failed;
pub use hook::{Hook, HookDisk};
pub use memory::MemDisk;
