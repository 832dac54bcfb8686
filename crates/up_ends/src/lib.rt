//! The ends of a program: where its bytes come from and go to, and who tells it the time, draws its nonces and
//! judges its signatures.
//!
//! A call of a [`Source`], a [`Sink`] or a [`Verifier`] answers `Failed` only where that object's count of faults rose,
//! and counts never fall (`cause`); in each call that does not fail the count is as before (`quiet`). A read takes exactly
//! the bytes that it hands out, and a write adds exactly those that it says, as far as the object tells them (`bytes`).
//! [`read_all`] gives exactly what was left, and answers `TooLong` exactly where the source gave more than the limit
//! (`bytes`, `exact`, `long`), of which it took at most 64 KiB more than that (`beyond`); whatever it answers, the source
//! lost a front and nothing else (`front`). [`write_all`] writes the whole piece, and after a fault a front of it
//! (`whole`, `part`). Neither passes a fault over or tries a call that failed again: the count rose only where they answer
//! `Failed` (`quiet`).
//!
//! A verifier that tells what it has judged tells each question with its verdict, in order, and none that failed
//! (`judged`). A [`Clock`] answers a moment before [`END_OF_MOMENTS`] (`below`). Where clock and [`Nonces`] tell what
//! they will give, a call gives the first of the list and takes it off, or the one for good where the list is empty
//! (`gives`). A [`Gate`] promises nothing. A type that [`Grows`] tells its entries, its faults and a part that stays.
//!
//! The objects in memory do exactly what they were told. [`MemSource`] fails exactly in the listed calls (`answer`), and
//! [`MemSink`] in these and else only where it has to grow (`called`, `only_listed`); each call leaves exactly what is
//! said (`after`). [`FixedVerifier`] gives its answers in
//! turn, and then the one for good (`answer`); a `None` fails and uses up its place (`listed`), want of memory fails
//! and leaves the list (`failed`). [`FixedClock`] gives one moment for good, [`ListNonces`] its nonces and then zeros.
//! [`StdSource`] and [`StdSink`] tell what the reader or writer below them tells, and count each of its errors once
//! (`faults`); that a call is not tried again is tested.
#![tactic(auto)]

mod adapters;
mod clock;
mod ends;
mod fault;
mod fixed_verifier;
mod gate;
mod grows;
mod mem_sink;
mod mem_source;
mod nonces;
mod upcoming;
mod verifier;
mod whole;

pub use adapters::{StdSink, StdSource};
pub use clock::{Clock, END_OF_MOMENTS, FixedClock};
pub use ends::{Sink, Source};
pub use fault::Failed;
pub use fixed_verifier::FixedVerifier;
pub use gate::{Gate, OpenGate};
pub use grows::Grows;
pub use mem_sink::MemSink;
pub use mem_source::MemSource;
pub use nonces::{ListNonces, Nonces};
pub use verifier::{Judged, Verdict, Verifier};
pub use whole::{ReadFault, read_all, write_all};
