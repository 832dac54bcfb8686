//! A host: the trees of some owners, a store, and the keys of users, over disks.
//!
//! What a caller learns of one call is `Asked` of `specs/Calls.antt`: over what it has of the logs before and after (`Views`), an
//! [`Event`] says the reply, at which position of which log it is the answer, and what was loaded and fetched for it. What was
//! loaded is a loading of the needed groups, and what the host has itself came from its own trees and store. The loader was asked
//! exactly for the rest, in order. `specs/Alone.antt` says what a caller learns besides who alone writes to the logs: also that groups
//! are loaded in rounds (`InRounds`), and that the count of a log's disk rises only where the event shows it (`RisesAsShown`). By
//! `specs/Alike.antt` a reply tells nothing that the user does not see: any tree that agrees for the user gives the same one. By
//! `specs/Runs.antt` positions never fall in a run of calls ([`ask_all`]), and are never before an own record.
//!
//! [`Host::open`] opens the disks of all logs in their order, [`Host::into_disks`] hands them back, and a [`TreePeer`] is a whole host
//! that another one asks. [`Host::into_shared`] makes it one that many callers ask at once.
#![tactic(auto)]

mod asking;
mod fault;
mod held;
mod host;
mod logs;
mod opening;
mod peer;
mod room;
mod run;
mod sharing;
mod texts;
mod trees;
mod users;

pub use fault::HostFault;
pub use held::Held;
pub use host::Host;
pub use peer::TreePeer;
pub use run::{Call, ask_all};
pub use up_calls::{Event, Service, load_of};
pub use up_shared::{Seats, Shared, TreeCell, TreeSeat};
