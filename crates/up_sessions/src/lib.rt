//! The hosts of a script side by side, and the sessions on them.
//!
//! [`Sessions`] keeps hosts in the order in which they were opened, the sessions that are open at numbers from 0 to 99, and the disks
//! that no host has yet. Each kind of line of a script is one call, and what it does is one definition: a host is opened over the next
//! disks, or refused (`OpensNext`); a user is enrolled (`EnrolsAt`), and signs on (`SignsOn`); a session asks a request (`AsksHost`), and
//! puts and gets files (`PutsAt`, `GetsAt`). A group of an owner whom a host lacks is asked first of the other hosts in order, as the
//! asking host's operator, and then of the peers (`behind`). All disks are handed back in their places (`all_disks`).
//!
//! `specs/Lines.antt` says the same of the hosts with all that stands around them: peers, verifier, clock and nonces.
#![tactic(auto)]

mod asking;
mod behind;
mod fault;
mod handing;
mod moment;
mod opened;
mod opening;
mod room;
mod sessions;
mod signing;
mod talking;

pub use fault::LineFault;
pub use opened::Opened;
pub use sessions::Sessions;
