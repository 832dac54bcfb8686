//! The lines of `upspin can` that stand behind its `tree` line.
ghost use Rattle.std.specs.Prelude.{◌≡◌};
ghost use Rattle.std.specs.Option.{option_and_then, option_copied};
ghost use Rattle.std.specs.Result.{result_ok};
ghost use Rattle.up_can.specs.CanFiles.{bare_tree};
ghost use Rattle.up_can.specs.CanLines.{access_dir, access_line, access_set, answer_to, can_line, files_effect, group_line, group_set, kind_of};
ghost use Rattle.up_can.specs.declared.can_files.CanFiles.{CanFiles};
ghost use Rattle.up_explain_can.specs.Judging.{IsMeant, Judges};
ghost use Rattle.up_group.specs.GroupTexts.{group_of};
ghost use Rattle.up_names.specs.PathNames.{PathName};
ghost use Rattle.up_names.specs.Texts.{UserName};
ghost use Rattle.up_text.specs.Lines.{words_left};
ghost use Rattle.up_text.specs.Words.{decoded};

use crate::control_flaws::{bad_access, bad_group};
use crate::flaw::Flaw;
use crate::names::{path_named, text_named, user_named};
use crate::why::{Why, bad_word};
use std::alloc::Global;
use up_access::parse_access;
use up_can::CanKind;
use up_command::is;
use up_group::{GroupText, parse_group};
use up_names::{Control, Path, TextFault, User};
use up_rights::Right;
use up_text::{three_words, two_words};

/// The kind of line that a keyword begins.
#[tactic(auto, unfolding(up_can::specs::CanLines::kind_of))]
pub(crate) fn kind_of(keyword: &[u8]) -> Option<CanKind>
    ensures { result ≡ kind_of keyword.now }
{
    if is(keyword, b"can") {
        Some(CanKind::Can)
    } else if is(keyword, b"access") {
        Some(CanKind::Access)
    } else if is(keyword, b"group") {
        Some(CanKind::Group)
    } else if is(keyword, b"tree") {
        Some(CanKind::Tree)
    } else {
        None
    }
}

/// Judges a line of a kind once this owner's tree is named, by the words behind its keyword.
#[tactic(auto, unfolding(up_can::specs::CanLines::files_effect))]
pub(crate) fn judge_kind(
    alloc: Global,
    owner: &User,
    kind: CanKind,
    arguments: Option<&[u8]>,
) -> Result<(), Why>
    ensures { Judges result (files_effect kind (bare_tree owner.now)
        (words_left (option_copied arguments.entry))) }
{
    match kind {
        CanKind::Tree => Err(Why::Line(Flaw::SecondTree)),
        CanKind::Access => access_line(alloc, owner, arguments),
        CanKind::Group => group_line(alloc, arguments),
        CanKind::Can => can_line(alloc, owner, arguments),
    }
}

// `access PATH TEXT`
#[tactic(auto, unfolding(up_can::specs::CanLines::access_line))]
fn access_line(alloc: Global, owner: &User, arguments: Option<&[u8]>) -> Result<(), Why>
    ensures { Judges result (access_line (bare_tree owner.now)
        (words_left (option_copied arguments.entry))) }
{
    let Some((path, text)) = two_words(arguments) else {
        return Err(Why::Line(Flaw::AccessWords));
    };
    let path = path_named(alloc, path)?;
    access_at(alloc, owner, path, text)
}

// An `access` line whose path was read.
#[tactic(auto, unfolding(up_can::specs::CanLines::access_dir))]
fn access_at(alloc: Global, owner: &User, path: Path, text: &[u8]) -> Result<(), Why>
    ensures { Judges result (option_and_then (λ dir. access_set (bare_tree owner.now) dir text.now)
        (access_dir (bare_tree owner.now).tree path)) }
{
    if path.owner() != owner {
        return Err(bad_path(alloc, &path, Flaw::OtherOwner));
    }
    if path.control_kind() != Control::Access {
        return Err(bad_path(alloc, &path, Flaw::NoAccessPath));
    }
    access_text(alloc, owner, text)
}

/// A flaw of a path.
fn bad_path(alloc: Global, path: &Path, flaw: Flaw) -> Why {
    bad_word(alloc, path.as_str().as_bytes(), flaw)
}

/// Judges the text of an Access file of an owner.
fn access_text(alloc: Global, owner: &User, word: &[u8]) -> Result<(), Why>
    ensures { (dir : PathName) → Judges result (access_set (bare_tree owner.now) dir word.now) }
{
    let text = text_named(alloc, word)?;
    match parse_access(owner, text.as_slice()) {
        Ok(_) => Ok(()),
        Err(TextFault::OutOfMemory) => Err(Why::OutOfMemory),
        Err(TextFault::BadText(number)) => Err(bad_access(owner, text.as_slice(), number)),
    }
}

// `group PATH TEXT`
#[tactic(auto, unfolding(up_can::specs::CanLines::group_line))]
fn group_line(alloc: Global, arguments: Option<&[u8]>) -> Result<(), Why>
    ensures { (files : CanFiles) → Judges result (group_line files
        (words_left (option_copied arguments.entry))) }
{
    let Some((path, text)) = two_words(arguments) else {
        return Err(Why::Line(Flaw::GroupWords));
    };
    let path = path_named(alloc, path)?;
    group_at(alloc, path, text)
}

// A `group` line whose path was read.
fn group_at(alloc: Global, path: Path, text: &[u8]) -> Result<(), Why>
    ensures { (files : CanFiles) → Judges result (group_set files path text.now) }
{
    let _items = group_text(alloc, path.owner(), text)?;
    if path.control_kind() != Control::Group {
        return Err(bad_path(alloc, &path, Flaw::NoGroupPath));
    }
    Ok(())
}

/// The Group text that a word stands for, in this owner's tree.
fn group_text(alloc: Global, owner: &User, word: &[u8]) -> Result<GroupText, Why>
    ensures { IsMeant (λ items. items) result
        (option_and_then (λ text. result_ok (group_of owner.now text)) (decoded word.now)) }
{
    let text = text_named(alloc, word)?;
    match parse_group(owner, text.as_slice()) {
        Ok(items) => Ok(items),
        Err(TextFault::OutOfMemory) => Err(Why::OutOfMemory),
        Err(TextFault::BadText(number)) => Err(bad_group(owner, text.as_slice(), number)),
    }
}

// `can USER RIGHT PATH`
#[tactic(auto, unfolding(up_can::specs::CanLines::can_line))]
fn can_line(alloc: Global, owner: &User, arguments: Option<&[u8]>) -> Result<(), Why>
    ensures { Judges result (can_line (bare_tree owner.now)
        (words_left (option_copied arguments.entry))) }
{
    let Some((user, right, path)) = three_words(arguments) else {
        return Err(Why::Line(Flaw::CanWords));
    };
    let _user = user_named(alloc, user)?;
    let Some(_right) = Right::from_word(right) else {
        return Err(bad_word(alloc, right, Flaw::Right));
    };
    let path = path_named(alloc, path)?;
    asked_at(alloc, owner, &path)
}

/// Judges the path of a question about an owner's tree.
fn asked_at(alloc: Global, owner: &User, path: &Path) -> Result<(), Why>
    ensures { (user : UserName) (right : Right) → Judges result
        (answer_to (bare_tree owner.now) user right path.now) }
{
    if path.owner() != owner {
        return Err(bad_path(alloc, path, Flaw::OtherOwner));
    }
    Ok(())
}
