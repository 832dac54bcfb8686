//! A tree over its log on a disk in memory: records that fit and that do not, what the tree then says, calls that fail, crashes, and
//! what is then opened. A line is a case of its own: commands on an empty disk, parted by `; `, and so are their answers.
mod asked;
mod disk;
mod many;
mod recs;

pub use many::put_files;
pub use recs::turn as record_turn;
use std::alloc::Global;
use std::mem;
use up_case_lines::{Answer, Fault, Topic, Words};
use up_disk::MemDisk;
use up_lists::Items;
use up_tree::TreeState;

/// Lines about a tree. Each begins with an empty disk.
#[derive(Clone, Copy)]
pub struct Trees;

impl Topic for Trees {
    fn turn(&mut self, alloc: Global, line: &str, answer: &mut Answer) -> Result<(), Fault> {
        let mut stage = Stage {
            disk: empty_disk(alloc),
            tree: None,
        };
        let told = stage.turn_each(alloc, line, answer);
        drop(stage);
        told
    }
}

fn empty_disk(alloc: Global) -> MemDisk {
    MemDisk::new(alloc, Items::new(alloc))
}

/// A disk, or a tree over its log on it. After a line that does not fit it goes.
#[derive(Drop)]
struct Stage {
    /// An empty one where the tree has the disk.
    disk: MemDisk,
    tree: Option<TreeState<MemDisk>>,
}

impl Stage {
    fn turn_each(&mut self, alloc: Global, line: &str, answer: &mut Answer) -> Result<(), Fault> {
        for command in line.split("; ") {
            answer.part();
            self.turn(alloc, Words::new(command), answer)?;
        }
        Ok(())
    }

    // Does one command, of the disk or of the tree.
    fn turn(
        &mut self,
        alloc: Global,
        mut words: Words<'_>,
        answer: &mut Answer,
    ) -> Result<(), Fault> {
        match words.word()? {
            "open" => disk::open_line(alloc, self, words, answer),
            "fail" => disk::fail_line(alloc, self.disk(), words, answer),
            "crash" => disk::crash_line(self.disk(), words, answer),
            "append" => disk::append_line(alloc, self.disk(), words, answer),
            "trees" => disk::trees_line(alloc, self.disk(), words, answer),
            "digest" => disk::digest_line(alloc, self.disk(), words, answer),
            keyword => match &mut self.tree {
                Some(tree) => asked::turn(alloc, tree, keyword, words, answer),
                None => Err(Fault::BadLine),
            },
        }
    }

    // The disk. A command of it ends the tree that stands on it.
    fn disk(&mut self) -> &mut MemDisk {
        if let Some(tree) = self.tree.take() {
            drop(mem::replace(&mut self.disk, tree.into_disk()));
        }
        &mut self.disk
    }
}
