//! Commands that ask what a tree says. Those that ask nothing are handed on.
use super::{many, recs};
use std::alloc::{AllocError, Global};
use up_access::{AccessText, print_access};
use up_case_lines::{Answer, Fault, Words, add_members, add_record, path_of};
use up_disk::MemDisk;
use up_entry::Kind;
use up_group::GroupText;
use up_names::Path;
use up_tree::{NodeRef, TreeState};

/// Does a command of a tree.
pub fn turn(
    alloc: Global,
    tree: &mut TreeState<MemDisk>,
    keyword: &str,
    mut words: Words<'_>,
    answer: &mut Answer,
) -> Result<(), Fault> {
    match keyword {
        "count" => answer.number(tree.position()),
        "bytes" => answer.number(tree.bytes()),
        "owner" => answer.coded(tree.owner().text().as_bytes()),
        "snaps" => add_snaps(tree, answer),
        "rec" => add_rec(alloc, tree, words.last_number()?, answer),
        "snapat" => add_place(tree.snap_at(words.last_number()?), answer),
        "before" => add_place(tree.change_before(words.last_number()?), answer),
        "node" | "children" | "access" | "group" | "nearest" | "under" | "kids" => {
            return path_line(alloc, tree, keyword, words, answer);
        }
        "grow" | "nodes" | "past" => return many::turn(alloc, tree, keyword, words, answer),
        _ => return recs::turn(alloc, tree, keyword, words, answer),
    }
    Ok(())
}

// The times of the snapshots, in order.
fn add_snaps(tree: &TreeState<MemDisk>, answer: &mut Answer) {
    answer.word("snaps");
    for i in 0..tree.position() {
        if let Some(time) = tree.snap_time(i) {
            answer.number(time);
        }
    }
}

// `rec N`: record N.
fn add_rec(alloc: Global, tree: &TreeState<MemDisk>, n: u64, answer: &mut Answer) {
    match tree.rec_at(n) {
        Some(rec) => add_record(alloc, rec, answer),
        None => answer.word("none"),
    }
}

fn add_place(found: Option<u64>, answer: &mut Answer) {
    match found {
        Some(position) => answer.number(position),
        None => answer.word("none"),
    }
}

// A command whose next word is a path, with or without a number behind.
fn path_line(
    alloc: Global,
    tree: &TreeState<MemDisk>,
    keyword: &str,
    mut words: Words<'_>,
    answer: &mut Answer,
) -> Result<(), Fault> {
    let path = path_of(alloc, words.word()?)?;
    match words.rest() {
        Some(_) => add_at(tree, keyword, &path, words.last_number()?, answer),
        None => add_now(tree, keyword, &path, answer),
    }
}

// `node PATH`, `children DIR`, `access DIR`, `group PATH`: what there is now.
fn add_now(
    tree: &TreeState<MemDisk>,
    keyword: &str,
    path: &Path,
    answer: &mut Answer,
) -> Result<(), Fault> {
    match keyword {
        "node" => add_node(tree.node(path), answer),
        "children" => add_children(tree, path, answer),
        "access" => add_access(tree.access(path), answer),
        "group" => add_group(tree.group(path), answer),
        _ => return Err(Fault::BadLine),
    }
    Ok(())
}

// `kids DIR N`: of the children 0 to N - 1 of a directory, how many there are; `under PATH N`: the positions above N of the records
// that change a path under this one; `access DIR N`, `group PATH N`, `nearest PATH N`: a text after the first N records.
fn add_at(
    tree: &TreeState<MemDisk>,
    keyword: &str,
    path: &Path,
    n: u64,
    answer: &mut Answer,
) -> Result<(), Fault> {
    match keyword {
        "kids" => answer.number(kids(tree, path, n)),
        "under" => add_under(tree, path, n, answer)?,
        _ if n > tree.position() => answer.word("no record"),
        "access" => add_access(tree.access_at(path, n), answer),
        "group" => add_group(tree.group_at(path, n), answer),
        "nearest" => add_nearest(tree.nearest_at(path, n), answer),
        _ => return Err(Fault::BadLine),
    }
    Ok(())
}

fn kids(tree: &TreeState<MemDisk>, dir: &Path, count: u64) -> u64 {
    let mut found: u64 = 0;
    for i in 0..count {
        if tree.child(dir, i).is_some() {
            found = found.saturating_add(1);
        }
    }
    found
}

fn add_under(
    tree: &TreeState<MemDisk>,
    path: &Path,
    n: u64,
    answer: &mut Answer,
) -> Result<(), AllocError> {
    answer.word("under");
    let found = tree.changes_under(path, n)?;
    for position in found.as_slice() {
        answer.number(*position);
    }
    Ok(())
}

fn add_access(found: Option<&AccessText>, answer: &mut Answer) {
    match found {
        Some(text) => add_rules(text, answer),
        None => answer.word("none"),
    }
}

fn add_rules(text: &AccessText, answer: &mut Answer) {
    match print_access(text) {
        Ok(printed) => answer.coded(printed.as_slice()),
        Err(_) => answer.word("out of memory"),
    }
}

fn add_group(found: Option<&GroupText>, answer: &mut Answer) {
    match found {
        Some(text) => add_members(text, answer),
        None => answer.word("none"),
    }
}

fn add_nearest(found: Option<(u64, &AccessText)>, answer: &mut Answer) {
    match found {
        Some((depth, text)) => {
            answer.number(depth);
            add_rules(text, answer);
        }
        None => answer.word("none"),
    }
}

// The kind of a node, its sequence, and its text or a link's target.
fn add_node(found: Option<NodeRef<'_>>, answer: &mut Answer) {
    let Some(node) = found else {
        return answer.word("none");
    };
    answer.word(match node.entry.attr.kind {
        Kind::File => "file",
        Kind::Directory => "dir",
        Kind::Link => "link",
    });
    answer.number(node.entry.sequence);
    match &node.entry.link {
        Some(target) => answer.coded(target.as_str().as_bytes()),
        None => answer.coded(node.text.as_slice()),
    }
}

// The children of a directory, in order.
fn add_children(tree: &TreeState<MemDisk>, dir: &Path, answer: &mut Answer) {
    answer.word("children");
    for i in 0..tree.position() {
        if let Some(path) = tree.child(dir, i) {
            answer.coded(path.as_str().as_bytes());
        }
    }
}
