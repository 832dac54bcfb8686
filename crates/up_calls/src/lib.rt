//! One call of a host, over whoever has its logs: who has them alone, or one of many callers at once.
#![tactic(auto)]

mod asked;
mod asking;
mod event;
mod events;
mod faults;
mod fetching;
mod gathering;
mod loads;
mod logs;
mod service;
mod steps;

pub use asking::ask;
pub use event::Event;
pub use gathering::BOUND;
pub use loads::{group_text_of, load_of};
pub use logs::{Logs, Turn};
pub use service::{Service, service_of};
pub use steps::{read_block, read_text, try_keys, try_store, try_tree};
