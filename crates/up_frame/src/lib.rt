//! Frames on a stream of bytes that comes in any pieces: four bytes of length, high byte first, and as many bytes.
//!
//! The frames that were fed so far and a rest are the stream, however it was cut, and it has no other reading
//! (`Frames::feed`, `Frames::next`, and the law `stream_has_one_reading`). Whoever keeps the bytes itself asks [`front_of`] what
//! stands at their front.
#![tactic(auto)]

mod cutting;
mod fault;
mod frames;
mod laws;

pub use cutting::{Front, front_of};
pub use fault::FrameFault;
pub use frames::Frames;
pub use laws::stream_has_one_reading;
