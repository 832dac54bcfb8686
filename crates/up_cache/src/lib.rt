//! A client that keeps blocks, and `upspin copy`.
//!
//! [`Cached`] stands over anybody who is asked, and holds the blocks that were got last, each with its reference. What it answers is told
//! by the relation `CachedAnswers` of `specs/Caching.antt`: a request for a block that is held is answered with its bytes, nobody else is
//! asked, and the block comes to the front; any other request is passed on once, and where its reply has the bytes of the reference that
//! was asked for, these are put at the front. Over somebody who is steady with a table it is steady with the same table
//! ([`Cached::new`], `steady`), and then what is got over it is what the table says ([`what_is_got_is_plain`]).
//!
//! [`copy_run`] gets files over one such cache, and prints them.
#![tactic(auto)]

mod block_cache;
mod cached;
mod copying;
mod laws;
mod paths;
mod printing;
mod stop;
mod through;

pub use cached::Cached;
pub use copying::{copy_run, copy_user};
pub use laws::{a_table_is_steady, what_is_got_is_plain};
