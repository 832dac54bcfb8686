//! The blocks of a store, kept over a journal.
//!
//! Contracts see [`Blocks`] as the log of its records: of each block that was put its reference and size, and its bytes where the
//! disk tells them, and the reference of each block that was deleted. All else is said by the block map (`blocks_of`), a fold over
//! that log. [`Blocks::get`] gives exactly the bytes of the map where the disk tells its content (`found`), `NotExist` exactly
//! where the map lacks the reference (`missing`, `there`), and `Fault` only where the disk's count rose, which it does in no call
//! that answers anything else (`quiet`). [`Blocks::put`] of a block
//! that is held changes nothing, calls no disk and answers its reference (`held`); else, as [`Blocks::delete`] of one that is held,
//! it adds the record, is `Full` exactly at the limits, and a crash at any moment leaves the log, or it with the record in hand or
//! with the doubtful one, and after `Ok` it with the record. [`Blocks::open`] takes exactly the logs whose records decode and fit
//! (`opens`, `refuses`). At every moment each record of the log fits those before it (`fitting` of [`Blocks::position`]).
//! [`Blocks::reference`] tells the references that are held, in the order of their bytes.
//!
//! In memory stand the references and where their bytes are, never the bytes. Of a disk that tells nothing no clause says which
//! bytes a read gives: there `get` may hand out any bytes of the block's size (`size`).
#![tactic(auto)]

mod blocks;
mod fault;
mod index;
mod payload;
mod record;
mod replay;

pub use blocks::Blocks;
pub use fault::BlockWhy;
pub use record::BlockRecord;

/// How many bytes a block may have.
pub const MAX_BLOCK: u64 = 1_048_576;
