//! A person at the terminal: request lines in, reply lines out, one line after the other.
//!
//! The contract of [`client_run`] is the promise of `upspin client` from end to end, over any source, sink and whoever is asked: each line
//! that was read whole is answered once, in order, by the relation of the [`up_client::Ask`], and what is printed is the text of what the
//! lines did (`meaning`). What a line says is `line_of`, and what comes of it `LineCame`; `Ran` goes over the lines, and says how the run
//! ends. Each status has its cause: a count of faults rose exactly where the status is 2 of the source, 3 of the sink, or 11 of whoever
//! was asked (`source_cause`, `source_quiet` and their like). Good lines and no fault end with 0, or for want of memory with 4
//! (`complete`).
//!
//! The input is read piece by piece. Between two reads stands one [`LineReader::take`], after which all that the lines so far print is
//! written, and no line that is whole waits (`goes`): so what a line prints is written before anything more is read.
#![tactic(auto)]

mod answering;
mod client;
mod cutting;
mod line_run;
mod reading;
mod stop;
mod terminal_line;

pub use client::{client_run, client_user};
pub use reading::LineReader;
pub use stop::{LineStop, Stop};
pub use terminal_line::TerminalLine;
