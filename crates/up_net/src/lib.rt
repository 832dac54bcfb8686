//! The trusted edge: adapters of the machine's clock, of random bytes and of a helper program to the traits of `up_ends`, of files to
//! disks, and of connections to servers that a client or a host asks.
//!
//! What a machine's clock reads and what another program answers is outside of every proof: [`Machine`] has the few lines that
//! are trusted, behind small traits ([`Programs`], [`DayClock`], [`RandomBytes`]). Over whatever stands behind these, the adapters are
//! exact: a moment is the nearest to one reading ([`HostClock`], `reading`), a seed is exactly the bytes of one call of its source
//! ([`SeedNonces::from_random`]), and each question runs the helper once, with its words in their order, and its status is the verdict;
//! or, for want of memory for the words, not at all, and that is a fault ([`HelperVerifier`], `asked`). A verifier's call fails where
//! its count of faults rose, and nowhere else (`cause`, `quiet`). A [`signature`] is what one run of a helper printed.
//!
//! Each read, write, cut and sync of a [`FileDisk`] is one call of its file, and one more for the size after a write or a cut that failed;
//! after a sync that failed each further one fails, and the file is not asked for it (`called`, `counted`). It tells no content, so that no
//! clause says what a crash leaves. A server that is dialled ([`SocketAsk`], [`SocketPeer`]) may answer anything; its failures are counted.
#![tactic(auto)]

mod asking;
mod call_fault;
mod connection;
mod day_clock;
mod dialled;
mod far;
mod file_disk;
mod folder;
mod helper_verifier;
mod host_clock;
mod in_memory;
mod line;
mod log_file;
mod machine;
mod patient;
mod programs;
mod random_bytes;
mod seed_nonces;
mod signer;
mod socket_ask;
mod socket_peer;
mod timed;

pub use call_fault::CallFault;
pub use connection::{ServerWaits, StreamSink, StreamSource, ends};
pub use day_clock::DayClock;
pub use dialled::Dialled;
pub use file_disk::FileDisk;
pub use folder::{EnrolFile, LogDisk, open_enrol, open_logs};
pub use helper_verifier::HelperVerifier;
pub use host_clock::HostClock;
pub use in_memory::{SameBytes, SameProgram, StillClock};
pub use log_file::{LogFile, SystemFile};
pub use machine::Machine;
pub use patient::Patient;
pub use programs::{Printed, ProgramRun, Programs};
pub use random_bytes::RandomBytes;
pub use seed_nonces::SeedNonces;
pub use signer::signature;
pub use socket_ask::SocketAsk;
pub use socket_peer::SocketPeer;
pub use timed::Waits;
