//! The scripts that `upspin` runs: what a line says, what a whole script prints, and the status of a run.
//!
//! The contract of [`script_run`] is the promise of `upspin script` from end to end: over any source, sink, disks, verifier, clock,
//! nonces and peers, what is written is the meaning of the bytes read (`meaning`). What a line says by itself is `line_of`; what
//! came of it among the hosts that the script has by then, with all that stands around them, is `LineCame`, one definition a kind
//! of line; `Scripted` goes over the lines, and says what is printed, how the run ends, and that lines `io` are at most as many as
//! disks and peers failed, as long as their counts have not come to their end. Each status has its cause (`read_fault`,
//! `write_fault`, `helper_fault`, `disk_fault`, `too_long`, `usage_only`), all disks come back in their places, and of each log a
//! crash leaves that log, or it with its doubtful record. [`script_within`] is the same over any peers, with any limits of the hosts.
//! [`script_ends_at_the_first`] ties each such run to the numbers that `upspin explain script` prints of its input.
#![tactic(auto)]

mod laws;
mod script;
mod stop;
mod turns;

pub use laws::script_ends_at_the_first;
pub use script::{script_run, script_within};
pub use stop::LineStop;
pub use up_can::can_run;
