//! A disk in memory, and a journal, a store or a key server's log on it: calls that fail, crashes, and what is then opened. A line is a case of
//! its own: commands on an empty disk, parted by `; `, and so are their answers.
mod images;
mod on_disk;
mod on_journal;
mod on_keys;
mod on_store;
mod others;
mod replies;
mod stage;
mod watched;

pub use on_disk::turn as on_disk_turn;
pub use on_journal::{Running, add_appended, add_log_of, add_open_fault};
pub use stage::{Stage, limits_of, stage_turn};
use std::alloc::{AllocError, Global};
use up_bytes::Bytes;
use up_case_lines::{Answer, Fault, Topic, Words};
use up_lists::Items;
pub use watched::Watched;

/// Lines about a disk. Each begins with an empty one.
#[derive(Clone, Copy)]
pub struct Crashes;

impl Topic for Crashes {
    fn turn(&mut self, alloc: Global, line: &str, answer: &mut Answer) -> Result<(), Fault> {
        let mut stage = Stage::Disk(Watched::empty(alloc));
        for command in line.split("; ") {
            answer.part();
            stage = stage_turn(alloc, stage, Words::new(command), answer)?;
        }
        drop(stage);
        Ok(())
    }
}

/// Adds a word and a number.
pub fn add_counted(word: &str, number: u64, answer: &mut Answer) {
    answer.word(word);
    answer.number(number);
}

/// So many bytes, all alike.
fn so_many(alloc: Global, byte: u8, count: u64) -> Result<Bytes, AllocError> {
    Ok(Items::from_vec(vec![in alloc; byte; count as usize]?))
}
