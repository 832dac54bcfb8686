//! Patterns of Glob: an owner's name and elements, each of which matches names of a directory.
//!
//! [`parse_pattern`] accepts exactly the patterns of the definition, or names the first element that is none. `matches` is the
//! definition by cuts of the name, one for each term. The laws say that a text is read in one way, and that a literal element
//! matches exactly its text.
#![tactic(auto)]

mod classes;
mod elements;
mod fault;
pub mod laws;
mod matching;
mod patterns;
pub mod terms;
mod tokens;

pub use fault::PatternFault;
pub use patterns::{Pattern, parse_pattern};
