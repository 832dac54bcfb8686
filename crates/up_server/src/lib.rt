//! The server, from its words to its status: files, a listener, and connections.
//!
//! [`serve`] is `upspin serve` over the machine. What is proved of the parts is said by their crates: the words and the opening by
//! `up_serve`, one connection by `up_together`, many of them at once by `up_accept`, files and streams by `up_net`. Here they are put
//! together: words that do not fit get the usage line (`usage`, `usage_only`), no status comes but those that are listed (`statuses`), and 3
//! only where the sink failed (`write_fault`, `sink_quiet`); the disks that are opened are as many as the plan has logs, each connection has
//! seats of the one shared host, and no call can be asked what its condition refuses. What a file, a socket or a thread does is outside of
//! every proof.
//!
//! A [`ToldDisk`] says on standard error how far a long log was read while it is opened; it is seen as the disk below it, in all else.
#![tactic(auto)]

mod door;
mod ending;
mod hatch;
mod logs;
mod naming;
mod saying;
mod server;
mod told_disk;

pub use logs::ServedDisk;
pub use server::serve;
pub use told_disk::ToldDisk;
