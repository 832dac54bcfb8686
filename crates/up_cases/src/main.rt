//! Runs the stored cases of the other crates. Each file of `data/` is a document of lines: a line that asks has its answer
//! behind ` -> `, one that is empty or begins with `#` says nothing to the program, and every other one answers nothing. The
//! name of a file says, up to its first `-` or `.`, which topic its lines are about; a module named so reads them. Prints
//! each line that differs from its answer, and last how many answers were right and how many lines were not. The folder of
//! the files is the first argument, and the one it is run in where there is none.
#![tactic(auto)]

mod files;
mod follow_cases;
mod host_cases;
mod script_cases;
mod serve_cases;
mod share_cases;

use std::rt::Env;
use std::{env, io};
use up_case_lines::Tally;

fn main(rt: HostRuntime) -> io::Result<()> {
    let mut tally = Tally::new();
    let folder = folder(&rt)?;
    files::run_all(&rt, folder.as_str(), &mut tally)?;
    tally.print(&rt)
}

// The folder of the files of cases.
fn folder(rt: &(impl Env + AllocGlobal)) -> io::Result<String> {
    match env::args(rt)?.nth(1) {
        Some(folder) => Ok(folder),
        None => Ok(".".to_string(rt.alloc())?),
    }
}
