//! Lines that ask what a user who looks at a tree is answered.
ghost use Rattle.std.specs.Prelude.{◌≡◌, IfOk};

use std::alloc::Global;
use up_case_asks::path_in;
use up_case_lines::{Answer, Fault, Words, path_of, text_of};
use up_disk::MemDisk;
use up_entry::Entry;
use up_list::{Onlooker, TreeLook, TreeView, first_link, glob, lookup, which_access};
use up_names::{Path, User};
use up_pattern::{Pattern, parse_pattern};
use up_policy::{Loaded, can};
use up_rights::Right;
use up_tree::TreeState;
use up_wire::{Done, Reply, Row};

/// `glob USER PATTERN`, `lookup USER PATH`, `which USER PATH`: the reply to Glob, to Lookup, or to WhichAccess.
pub fn look_line(
    alloc: Global,
    tree: &TreeState<MemDisk>,
    loaded: &Loaded,
    user: &User,
    keyword: &str,
    mut words: Words<'_>,
    answer: &mut Answer,
) -> Result<(), Fault> {
    let asked = words.one()?;
    let reply = if keyword == "glob" {
        glob_reply(alloc, tree, loaded, user, asked)?
    } else {
        let look = TreeLook::new(tree.memory(), loaded, user);
        path_reply(alloc, &look, keyword == "lookup", asked)?
    };
    add_seen(&reply, answer);
    drop(reply);
    Ok(())
}

fn glob_reply(
    alloc: Global,
    tree: &TreeState<MemDisk>,
    loaded: &Loaded,
    user: &User,
    asked: &str,
) -> Result<Reply, Fault> {
    let pattern = pattern_in(alloc, tree.owner(), asked)?;
    Ok(glob(alloc, tree, loaded, user, &pattern))
}

// The reply to Lookup, or else to WhichAccess.
fn path_reply(
    alloc: Global,
    look: &TreeLook<'_>,
    is_lookup: bool,
    asked: &str,
) -> Result<Reply, Fault> {
    let path = path_in(alloc, look.owner(), asked)?;
    let reply = if is_lookup {
        lookup(alloc, look, &path)
    } else {
        which_access(alloc, look, &path)
    };
    Ok(reply?)
}

/// `could USER RIGHT PATH N`: whether a user had a right on a path after the first N records, with what was loaded.
pub fn could_line(
    alloc: Global,
    tree: &TreeState<MemDisk>,
    loaded: &Loaded,
    user: &User,
    mut words: Words<'_>,
    answer: &mut Answer,
) -> Result<(), Fault> {
    let right = Right::from_word(words.word()?.as_bytes()).ok_or(Fault::BadLine)?;
    let asked = words.word()?;
    let n = words.last_number()?;
    let had = could(alloc, tree, loaded, user, right, asked, n)?;
    answer.word(if had { "yes" } else { "no" });
    Ok(())
}

#[tactic(auto, unfolding(up_log_tree::specs::Rights::facts_of))]
fn could(
    alloc: Global,
    tree: &TreeState<MemDisk>,
    loaded: &Loaded,
    user: &User,
    right: Right,
    asked: &str,
    n: u64,
) -> Result<bool, Fault> {
    if n > tree.position() {
        return Err(Fault::BadLine);
    }
    let path = path_in(alloc, tree.owner(), asked)?;
    let had = can(alloc, &TreeView::at(tree, n), loaded, user, right, &path);
    drop(path);
    Ok(had?)
}

/// `met PATH`, `above PATH`: the link on the way to a path, the path itself included, or else not.
pub fn met_line(
    alloc: Global,
    tree: &TreeState<MemDisk>,
    keyword: &str,
    mut words: Words<'_>,
    answer: &mut Answer,
) -> Result<(), Fault> {
    let path = path_of(alloc, words.one()?)?;
    let found = first_link(alloc, tree, &path, keyword == "met")?;
    add_link(&found, answer);
    drop(found);
    Ok(())
}

fn add_link(found: &Option<Path>, answer: &mut Answer) {
    match found {
        Some(link) => answer.coded(link.as_str().as_bytes()),
        None => answer.word("none"),
    }
}

// The pattern that a word spells, of paths in the tree of this owner.
fn pattern_in(alloc: Global, owner: &User, word: &str) -> Result<Pattern, Fault>
    ensures { IfOk result (λ pattern. pattern.owner ≡ owner.now) }
{
    let text = text_of(alloc, word)?;
    let Ok(pattern) = parse_pattern(alloc, text.as_slice()) else {
        return Err(Fault::BadLine);
    };
    if pattern.owner() != owner {
        drop(pattern);
        return Err(Fault::BadLine);
    }
    Ok(pattern)
}

// A reply: an entry as its path, with a `~` behind it where it came incomplete; behind a row `+N` where N elements remain.
fn add_seen(reply: &Reply, answer: &mut Answer) {
    match reply {
        Reply::Ok(done) => add_done(done, answer),
        Reply::FollowLink(entry) => {
            answer.word("followlink");
            add_entry(entry, answer);
        }
        Reply::Permission(right) => {
            answer.word("permission");
            answer.word(Right::word(*right));
        }
        Reply::Private => answer.word("private"),
        Reply::NotExist => answer.word("notexist"),
        Reply::NotDir => answer.word("notdir"),
        _ => answer.word("other"),
    }
}

fn add_done(done: &Done, answer: &mut Answer) {
    match done {
        Done::Entry(entry) => {
            answer.word("entry");
            add_entry(entry, answer);
        }
        Done::Access(found) => {
            answer.word("access");
            match found {
                Some(entry) => add_entry(entry, answer),
                None => answer.word("none"),
            }
        }
        Done::Rows(rows) => add_rows(rows.as_slice(), answer),
        _ => answer.word("other"),
    }
}

fn add_rows(rows: &[Row], answer: &mut Answer) {
    answer.word("rows");
    for row in rows {
        add_entry(&row.entry, answer);
        if row.rest > 0 {
            answer.word("+");
            answer.number(row.rest);
        }
    }
}

fn add_entry(entry: &Entry, answer: &mut Answer) {
    answer.coded(entry.name.as_str().as_bytes());
    if entry.attr.incomplete {
        answer.push("~");
    }
}
