//! `upspin explain script`: a script in, and out for each malformed line its number and why it is malformed.
//!
//! The contract of [`explain_script`] is the promise of the command from end to end, over any source and sink (`meaning`): a number is
//! printed exactly where `line_behind` has no hosts behind the line. That is the very definition of what a line says, `line_of`, and behind
//! it the hosts and trees that the good lines before have named. What the numbers have to do with a run is the law
//! `script_ends_at_the_first` of `up_script`.
#![tactic(auto)]

mod host_flaws;
mod hosts;
mod line_flaws;
mod request_words;
mod script;
mod script_judge;

pub use script::explain_script;
