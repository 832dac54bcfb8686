//! The lines of a `can` script: how one is read, and what it does.
ghost use Rattle.std.specs.Prelude.{◌≡◌, None, Some, IfOk, OnOk, if◌then◌else◌};
ghost use Rattle.std.specs.Option.{option_and_then, option_copied};
ghost use Rattle.std.specs.Result.{result_ok};
ghost use Rattle.up_access.specs.AccessTexts.{access_of};
ghost use Rattle.up_group.specs.GroupTexts.{group_of};
ghost use Rattle.up_text.specs.Lines.{words_left};
ghost use Rattle.up_text.specs.Words.{decoded};
ghost use Rattle.up_can.specs.CanLines.{access_dir, access_line, access_set, group_line, group_set, kind_of, named, path_named, reply_of, tree_after, verdict_line};
ghost use Rattle.up_command.specs.Words.{user_named};

use crate::can_files::CanFiles;
use std::alloc::{AllocError, Global};
use up_access::{AccessText, parse_access};
use up_command::is;
use up_group::{GroupText, parse_group};
use up_names::{Control, NameFault, Path, TextFault, User, parse_path};
use up_policy::{Facts, MapFacts};
use up_text::{two_words, word_text};

/// What a line prints where it is not malformed. It is no longer than a verdict.
pub type Reply = Option<&'static [u8]>;

/// What a line that prints nothing prints.
pub const NOTHING: Reply = Some(b"");

/// A kind of line.
#[derive(Clone, Copy, Debug, PartialEq, Eq)]
pub enum CanKind {
    /// `tree USER` names the tree's owner.
    Tree,
    /// `access PATH TEXT` names an Access file and its text.
    Access,
    /// `group PATH TEXT` names a Group file and its text.
    Group,
    /// `can USER RIGHT PATH` asks a question.
    Can,
}

/// The kind of line that a keyword begins.
#[tactic(auto, unfolding(crate::specs::CanLines::kind_of))]
pub fn kind_of(keyword: &[u8]) -> Option<CanKind>
    ensures { result ≡ kind_of keyword.now }
{
    if is(keyword, b"can") {
        Some(CanKind::Can)
    } else if is(keyword, b"access") {
        Some(CanKind::Access)
    } else if is(keyword, b"group") {
        Some(CanKind::Group)
    } else if is(keyword, b"tree") {
        Some(CanKind::Tree)
    } else {
        None
    }
}

// `access PATH TEXT`
#[tactic(auto, unfolding(crate::specs::CanLines::access_line))]
pub fn access_line(
    alloc: Global,
    files: &mut CanFiles,
    arguments: Option<&[u8]>,
) -> Result<Reply, AllocError>
    ensures reply { IfOk result
        (λ reply. option_copied reply
        ≡ reply_of (named (access_line files.old (words_left (option_copied arguments.entry))))) }
    ensures after { OnOk result
        (Some files.new ≡ tree_after (Some files.old)
        (named (access_line files.old (words_left (option_copied arguments.entry))))) }
{
    let Some((path, text)) = two_words(arguments) else {
        return Ok(None);
    };
    let Some(path) = path_named(alloc, path)? else {
        return Ok(None);
    };
    let Some(dir) = access_dir(&files.tree, path) else {
        return Ok(None);
    };
    set_access(alloc, files, dir, text)
}

/// Sets the text of the Access file for a directory of the tree to the one that a word stands for.
fn set_access(
    alloc: Global,
    files: &mut CanFiles,
    dir: Path,
    text: &[u8],
) -> Result<Reply, AllocError>
    ensures reply { IfOk result
        (λ reply. option_copied reply ≡ reply_of (named (access_set files.old dir text.now))) }
    ensures after { OnOk result
        (Some files.new ≡ tree_after (Some files.old) (named (access_set files.old dir text.now))) }
{
    let Some(rules) = access_text(alloc, files.tree.owner(), text)? else {
        return Ok(None);
    };
    files.tree.set_access(dir, rules)?;
    Ok(NOTHING)
}

/// The directory that an Access path of the tree's owner is for.
#[tactic(auto, unfolding(crate::specs::CanLines::access_dir))]
fn access_dir(tree: &MapFacts, path: Path) -> Option<Path>
    ensures { result ≡ access_dir tree.now path }
{
    if path.owner() != tree.owner() {
        return None;
    }
    if path.control_kind() != Control::Access {
        return None;
    }
    let mut dir = path;
    dir.drop_last();
    Some(dir)
}

/// The Access text that a word stands for, in this owner's tree.
fn access_text(alloc: Global, owner: &User, word: &[u8]) -> Result<Option<AccessText>, AllocError>
    ensures { IfOk result (λ found. found
        ≡ option_and_then (λ text. result_ok (access_of owner.now text)) (decoded word.now)) }
{
    let Some(text) = word_text(alloc, word)? else {
        return Ok(None);
    };
    match parse_access(owner, text.as_slice()) {
        Ok(rules) => Ok(Some(rules)),
        Err(TextFault::OutOfMemory) => Err(AllocError),
        Err(TextFault::BadText(_)) => Ok(None),
    }
}

// `group PATH TEXT`
#[tactic(auto, unfolding(crate::specs::CanLines::group_line))]
pub fn group_line(
    alloc: Global,
    files: &mut CanFiles,
    arguments: Option<&[u8]>,
) -> Result<Reply, AllocError>
    ensures reply { IfOk result
        (λ reply. option_copied reply
        ≡ reply_of (named (group_line files.old (words_left (option_copied arguments.entry))))) }
    ensures after { OnOk result
        (Some files.new ≡ tree_after (Some files.old)
        (named (group_line files.old (words_left (option_copied arguments.entry))))) }
{
    let Some((path, text)) = two_words(arguments) else {
        return Ok(None);
    };
    let Some(path) = path_named(alloc, path)? else {
        return Ok(None);
    };
    set_group(alloc, files, path, text)
}

/// Sets the text of a path, where that is a Group path, to the one that a word stands for.
fn set_group(
    alloc: Global,
    files: &mut CanFiles,
    path: Path,
    text: &[u8],
) -> Result<Reply, AllocError>
    ensures reply { IfOk result
        (λ reply. option_copied reply ≡ reply_of (named (group_set files.old path text.now))) }
    ensures after { OnOk result
        (Some files.new ≡ tree_after (Some files.old) (named (group_set files.old path text.now))) }
{
    let Some(items) = group_text(alloc, path.owner(), text)? else {
        return Ok(None);
    };
    if path.control_kind() != Control::Group {
        return Ok(None);
    }
    files.set_text(path, items)?;
    Ok(NOTHING)
}

/// The Group text that a word stands for, in this owner's tree.
fn group_text(alloc: Global, owner: &User, word: &[u8]) -> Result<Option<GroupText>, AllocError>
    ensures { IfOk result (λ found. found
        ≡ option_and_then (λ text. result_ok (group_of owner.now text)) (decoded word.now)) }
{
    let Some(text) = word_text(alloc, word)? else {
        return Ok(None);
    };
    match parse_group(owner, text.as_slice()) {
        Ok(items) => Ok(Some(items)),
        Err(TextFault::OutOfMemory) => Err(AllocError),
        Err(TextFault::BadText(_)) => Ok(None),
    }
}

/// The line that answers a question.
pub fn verdict_line(answer: bool) -> &'static [u8]
    ensures { result.now ≡ verdict_line answer }
{
    if answer { b"yes\n" } else { b"no\n" }
}

/// The path that a word names.
#[tactic(auto, unfolding(crate::specs::CanLines::path_named))]
fn path_named(alloc: Global, word: &[u8]) -> Result<Option<Path>, AllocError>
    ensures { IfOk result (λ found. found ≡ path_named word.now) }
{
    let Some(text) = word_text(alloc, word)? else {
        return Ok(None);
    };
    match parse_path(alloc, text.as_slice()) {
        Ok(path) => Ok(Some(path)),
        Err(NameFault::OutOfMemory) => Err(AllocError),
        Err(_) => Ok(None),
    }
}

/// Reads the user that a word names into one that is there, and answers whether it names one.
#[tactic(auto, unfolding(up_command::specs::Words::user_named))]
pub fn read_user(alloc: Global, word: &[u8], user: &mut User) -> Result<bool, AllocError>
    ensures { IfOk result (λ good. user_named word.now ≡ (if good then Some user.new else None)) }
{
    let Some(text) = word_text(alloc, word)? else {
        return Ok(false);
    };
    match user.read(text.as_slice()) {
        Ok(()) => Ok(true),
        Err(NameFault::OutOfMemory) => Err(AllocError),
        Err(_) => Ok(false),
    }
}

/// Reads the path that a word names into one that is there, and answers whether it names one.
#[tactic(auto, unfolding(crate::specs::CanLines::path_named))]
pub fn read_path(alloc: Global, word: &[u8], path: &mut Path) -> Result<bool, AllocError>
    ensures { IfOk result (λ good. path_named word.now ≡ (if good then Some path.new else None)) }
{
    let Some(text) = word_text(alloc, word)? else {
        return Ok(false);
    };
    match path.read(text.as_slice()) {
        Ok(()) => Ok(true),
        Err(NameFault::OutOfMemory) => Err(AllocError),
        Err(_) => Ok(false),
    }
}
