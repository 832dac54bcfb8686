//! A client: it gets and puts whole files over whoever answers its requests.
//!
//! What a client and a server say to one another is a conversation (`Talk` of `specs/Talks.antt`): a request is asked, and the
//! reply says how it goes on, up to what comes of it. [`get`] and [`put`] hold exactly the conversations `get_talk` and
//! `put_talk` (`talk`): which requests are asked in which order is part of them, and so is the reply that each fault comes of.
//! The replies are those of this call, one after the other, by the relation of the [`Ask`] where it tells one. `Failed` comes
//! only where its count rose (`cause`), and the count rises nowhere else (`quiet`); want of memory may come anywhere. An object that holds a borrowed one stays tied to it
//! (`tie`).
#![tactic(auto)]

mod ask;
mod blocks;
mod copying;
mod fault;
mod getting;
mod laws;
mod links;
mod putting;
mod replies;
mod table;

pub use ask::{Ask, Failed};
pub use fault::ClientFault;
pub use getting::get;
pub use laws::what_is_got_is_the_file;
pub use putting::put;
pub use table::TableAsk;
