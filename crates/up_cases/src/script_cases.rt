//! Stored cases of whole scripts, through the top calls of `upspin can` and `upspin script`, over ends, disks and peers in memory.
mod around;
mod by_proof;
mod ran;
mod script;
mod scripts;

pub use script::Command;
pub use scripts::run_scripts;
