//! Tests that no line of `up_cases` can make: sources and sinks over readers and writers of std that fail in mid-stream, a cell with four
//! callers, and what
//! stands at the machine: its clock, its random bytes, helper programs, files and connections.
#![tactic(auto)]

#[cfg(test)]
mod tests;
