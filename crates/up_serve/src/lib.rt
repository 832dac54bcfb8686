//! What `upspin serve` does before it listens: its words are read, its logs opened, and users enrolled; and a log of the first format is
//! moved.
//!
//! [`serve_words`] gives exactly the plan that words say (`plan`), which is none exactly where they do not fit. [`serve_open`] does all by
//! the words, over disks in their places. What came of it is one of four cases of `Serves` (`serves`): a log did not open, and the text of
//! users was left alone; that text was not read whole; enrolling stopped at a line; or there is a host, to whose keys each line of the text
//! in turn has put its user's record where none was held. Which line it stops at, and the log of keys then, is a fold over the lines that
//! knows no loop of the code (`enrolment`). For all disks, sources and sinks, also those that tell nothing: no other status comes
//! (`statuses`); 2, 3 and 6 come only where that object's count of faults rose; 7 comes exactly where the source gave more than 67,108,864
//! bytes; with 8, 10, 12 and 64 the whole line was printed. All disks come back in their places. Where the words fit, the logs open, the
//! lines are good and find room, and no count rises, there is a host, or memory was wanting (`complete`).
//!
//! [`serve_move`] is a move of a log with statuses (`moves`): 8 exactly where the old log is damaged, 12 exactly where it is too long.
#![tactic(auto)]

mod enrol_line;
mod enrolling;
mod moving;
mod options;
mod plan;
mod serve;
mod telling;

pub use enrol_line::EnrolLine;
pub use enrolling::EnrolStop;
pub use moving::serve_move;
pub use plan::{ServePlan, serve_words};
pub use serve::{ServeFault, serve_open, serve_within};
