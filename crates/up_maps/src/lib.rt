//! A long ordered list, and a finite map whose entries stand in the order of their keys; both are kept in pieces, so that an
//! insert or a remove moves one piece at most.
//!
//! Contracts see [`LongList`] as the list of its items and whether the next insert takes no memory. `get` answers exactly
//! the item at a place. After an `Ok` of `reserve_one` (`ready`) the next `insert_reserved` takes no memory wherever it
//! falls, and puts exactly that item at exactly that place (`items`); `remove` takes out exactly the item at a place
//! (`item`, `items`). `find` answers a place with an item below the key before it and none below at it (`before`,
//! `here`), which is the place where the items below end, where these come first (`place`). `run_at` hands out the
//! items from a place on, a piece at a time (`items`, `some`).
//!
//! No clause says how the items are kept: up to 512 in one `Vec`, and more in pieces of at most 512, of which two
//! neighbours that have no more than 256 together become one.
//!
//! Contracts see an [`OrderedMap`] as the list of its entries in the order of their keys, and whether the next one takes no
//! memory. `get` finds exactly what stands at a key, `key_at` the key at a place, `put_reserved` and `remove` make exactly the
//! list with the entry put or taken out, and take no memory. Each costs the logarithm of the number of entries and one piece.
//!
//! `specs/Numbers.antt` is for those who keep, in place of a map's values, the numbers of the records of a log that gave them.
#![tactic(auto)]

mod below;
mod long;
mod long_list;
mod map;
mod piece;
mod places;
mod table;

pub use below::Below;
pub use long_list::LongList;
pub use map::OrderedMap;
