//! The text that the programs read and write: lines, words, and the numbers that words are; and what the lines of a script ask.
//!
//! [`read_word`], [`word_text`], [`read_num`] and [`read_int`] accept exactly the words of the format, with exactly their
//! value; what [`write_word`] gives is read again as the text (`read_again`). [`next_line`], [`cut_word`] and their kin give
//! exactly the lines and words of the definitions.
//!
//! [`read_request`] gives exactly what the words of a line ask. [`LineWords`] are such words of which the keyword was read once: what
//! they ask, what they have the client do, and whether they are such a line at all, which does not depend on who asks.
//! [`reply_lines`] gives exactly the lines that tell a reply: words parted by single spaces ([`lines_are_words`]), and different
//! ones for different replies that have a spelling, but for key records that differ alone in whether an endpoint is the host's own
//! store or the address `local` ([`lines_tell_replies`]). [`push_reply`] writes them to a text, each behind a front. [`fault_lines`] gives those
//! that tell a client's fault.
#![tactic(auto)]

mod client_faults;
mod entries;
mod fault;
mod fitting;
mod laws;
mod line_words;
mod lines;
mod lists;
mod numbers;
mod replies;
mod requests;
mod words;

pub use client_faults::fault_lines;
pub use laws::{lines_are_words, lines_tell_replies};
pub use line_words::LineWords;
pub use lines::{cut_word, is_silent, next_line, one_word, three_words, two_words};
pub use numbers::{read_int, read_num};
pub use replies::{push_reply, reply_lines};
pub use requests::{ClientLine, read_request};
pub use words::{push_word, read_word, word_text, write_word};
