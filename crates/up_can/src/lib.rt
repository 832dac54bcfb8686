//! `upspin can`: a script in, verdicts out.
//!
//! The contract of [`can_run`] is the promise of `upspin can` from end to end, over any source and sink. Where the source tells
//! its bytes and the sink what it holds, what is written is the meaning of these bytes (`meaning`): the text of `run_of`, a fold
//! over the lines that knows no loop of the code, in which each question is answered by `right_test` over the files named so
//! far; whole where the status is not 2, 3 or 4, and a front of it always. For every source and sink, also those that tell
//! nothing: no other status comes (`statuses`); 2 and 3 come only where that object's count of faults rose (`read_fault`,
//! `write_fault`); 7 comes exactly where the source gave more than 67,108,864 bytes (`too_long`, `too_long_always`, for a source
//! whose count has not come to its end); 64 comes only where the words do not fit, and then 64 or 3 comes and the source is not
//! read (`usage`, `usage_only`), and the usage line was written where 64 came (`usage_written`); after 0 and 1 the source is at
//! its end (`at_end`); after 2 and 7 the sink is as it was (`untouched`, `unread`, `unwritten`).
#![tactic(auto)]

mod can;
mod can_files;
mod can_lines;
mod can_script;

pub use can::can_run;
pub use can_files::CanFiles;
pub use can_lines::CanKind;
