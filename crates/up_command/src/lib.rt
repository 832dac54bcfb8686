//! What all commands share: a script that is read whole, what is printed and how it is gathered, the status of a run, the usage line, and
//! words that several commands have.
//!
//! Of an object that can fail each call tells the cause: [`read_script`] answers 2 only where the source's count of faults rose and 7
//! exactly where the source gave more than 67,108,864 bytes; [`print`], [`flush`], [`finish`] and [`usage`] tell a write fault only where
//! the sink's count rose, and a front of the text was written then.
#![tactic(auto)]

mod input;
mod output;
mod saying;
mod status;
mod usage_line;
mod users;
mod words;

pub use input::read_script;
pub use output::{Stop, finish, flush, print};
pub use saying::{bad_line, say, say_count, say_fault, say_numbered, say_reply};
pub use status::Status;
pub use usage_line::usage;
pub use users::are_different;
pub use words::{call_path, is, key_named, user_named, words_of};
