//! What the lines of a script of `upspin script` say, each by itself.
//!
//! [`script_line`] gives exactly what a line says, or that it is malformed whatever came before it: `line_of`, a definition with one
//! case for each kind of line. Whoever runs a script reads its lines by this, and so does whoever explains them.
#![tactic(auto)]

mod script_lines;

pub use script_lines::{NewHost, NewSession, NewUser, ScriptLine, script_line, session_named};
