//! Trees of many items, which would make long lines.
ghost use Rattle.std.specs.Prelude.{◌≤◌, length};

use super::recs::{add, entry_of};
use std::alloc::{AllocError, Global};
use up_case_lines::{Answer, Fault, Words, path_of};
use up_disk::MemDisk;
use up_entry::{Kind, Rec};
use up_lists::Items;
use up_names::Path;
use up_tree::TreeState;

/// The number of the first file that `grow` puts, so that all names have eight digits.
const FIRST: u64 = 10_000_000;

/// `grow DIR N`: puts N empty files into a directory, the last name first; the number of records. `nodes DIR N`: of these files, how
/// many there are. `past DIR N`: how many children the directory had after the first N records.
pub fn turn(
    alloc: Global,
    tree: &mut TreeState<MemDisk>,
    keyword: &str,
    mut words: Words<'_>,
    answer: &mut Answer,
) -> Result<(), Fault> {
    let dir = words.word()?;
    let count = words.last_number()?;
    let told = match keyword {
        "grow" => grow(alloc, tree, dir, count, answer)?,
        "past" => past(alloc, tree, dir, count)?,
        _ => nodes(alloc, tree, dir, count)?,
    };
    answer.number(told);
    Ok(())
}

fn grow(
    alloc: Global,
    tree: &mut TreeState<MemDisk>,
    dir: &str,
    count: u64,
    answer: &mut Answer,
) -> Result<u64, Fault> {
    for n in 0..count {
        put_numbered(alloc, tree, dir, count - 1 - n, answer)?;
    }
    Ok(tree.position())
}

fn put_numbered(
    alloc: Global,
    tree: &mut TreeState<MemDisk>,
    dir: &str,
    n: u64,
    answer: &mut Answer,
) -> Result<(), Fault> {
    let path = numbered(alloc, dir, n)?;
    put_file(alloc, tree, path.as_str(), answer)
}

// The path of file `n` in a directory.
fn numbered(alloc: Global, dir: &str, n: u64) -> Result<String, AllocError> {
    let number = n.saturating_add(FIRST);
    format!(in alloc; "{dir}/{number}")
}

fn nodes(alloc: Global, tree: &TreeState<MemDisk>, dir: &str, count: u64) -> Result<u64, Fault> {
    let mut found: u64 = 0;
    for n in 0..count {
        if has_numbered(alloc, tree, dir, n)? {
            found = found.saturating_add(1);
        }
    }
    Ok(found)
}

fn has_numbered(
    alloc: Global,
    tree: &TreeState<MemDisk>,
    dir: &str,
    n: u64,
) -> Result<bool, Fault> {
    let path = numbered(alloc, dir, n)?;
    let path = path_of(alloc, path.as_str())?;
    Ok(tree.node(&path).is_some())
}

fn past(alloc: Global, tree: &TreeState<MemDisk>, dir: &str, n: u64) -> Result<u64, Fault> {
    if n > tree.position() {
        return Err(Fault::BadLine);
    }
    let dir = path_of(alloc, dir)?;
    let told = children_past(tree, &dir, n);
    drop(dir);
    Ok(told?)
}

// How many children a directory had after the first `n` records: each record adds one at most.
fn children_past(tree: &TreeState<MemDisk>, dir: &Path, n: u64) -> Result<u64, AllocError>
    requires { n ≤ length tree.now.log }
{
    let old = tree.tree_at(n)?;
    let mut found: u64 = 0;
    for i in 0..n {
        if old.child(dir, i).is_some() {
            found = found.saturating_add(1);
        }
    }
    drop(old);
    Ok(found)
}

/// Puts one empty file so many times. Only a refusal is told.
pub fn put_files(
    alloc: Global,
    tree: &mut TreeState<MemDisk>,
    path: &str,
    count: u64,
    answer: &mut Answer,
) -> Result<(), Fault> {
    for _ in 0..count {
        put_file(alloc, tree, path, answer)?;
    }
    Ok(())
}

fn put_file(
    alloc: Global,
    tree: &mut TreeState<MemDisk>,
    path: &str,
    answer: &mut Answer,
) -> Result<(), Fault> {
    let sequence = tree.position().saturating_add(1);
    let entry = entry_of(alloc, path, Kind::File, sequence)?;
    let mut told = Answer::new(alloc);
    add(tree, Rec::Put(entry, Items::new(alloc)), &mut told);
    if tree.position() < sequence {
        answer.word("refused");
    }
    Ok(())
}
