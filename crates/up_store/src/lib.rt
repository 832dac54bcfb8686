//! What a store answers to a request.
//!
//! [`store_step`] answers exactly by the rules, in their order, with the record that is added or none (`steps`), and `Io` only
//! where the disk's count rose (`cause`), which it does at no other answer (`quiet`): a Get is answered to anybody, a Put to
//! anybody, and a Delete is the operator's.
#![tactic(auto)]

mod step;

pub use step::store_step;
