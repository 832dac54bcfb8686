//! What a record makes of the texts of Access and Group files.
ghost use Rattle.std.specs.Prelude.{◌≡◌, ℕ, List, Ok, None, Some, IfOk, if◌then◌else◌, true};
ghost use Rattle.up_names.specs.PathNames.{control_of};
ghost use Rattle.up_access.specs.AccessTexts.{access_of};
ghost use Rattle.up_group.specs.GroupTexts.{group_of};
ghost use Rattle.up_entry.specs.Rules.{control_fits};
ghost use Rattle.up_log_tree.specs.Fits.{TextFits, control_for};
ghost use Rattle.up_log_tree.specs.Rights.{said};
ghost use Rattle.up_log_tree.specs.Trees.{is_file};
ghost use Rattle.up_mem_tree.specs.Steps.{access_change, group_change};

use crate::history::Change;
use std::alloc::AllocError;
use up_access::{AccessText, parse_access};
use up_bytes::Bytes;
use up_entry::{Entry, Kind};
use up_group::{GroupText, parse_group};
use up_names::{Control, Path, TextFault, User};

/// What becomes of the text of an Access file, and of a Group file.
pub(crate) type TextChanges = (Option<Change<AccessText>>, Option<Change<GroupText>>);

/// What an Access text that parses stands for.
fn parsed_access(owner: &User, text: &[u8]) -> Result<AccessText, AllocError>
    requires { (rules : List _) × (access_of owner.now text.now ≡ Ok rules) }
    ensures { IfOk result (λ parsed. parsed ≡ said (access_of owner.now text.now)) }
{
    match parse_access(owner, text) {
        Ok(parsed) => Ok(parsed),
        Err(TextFault::OutOfMemory) => Err(AllocError),
        Err(TextFault::BadText(_)) => unreachable!(),
    }
}

/// What a Group text that parses stands for.
fn parsed_group(owner: &User, text: &[u8]) -> Result<GroupText, AllocError>
    requires { (items : List _) × (group_of owner.now text.now ≡ Ok items) }
    ensures { IfOk result (λ parsed. parsed ≡ said (group_of owner.now text.now)) }
{
    match parse_group(owner, text) {
        Ok(parsed) => Ok(parsed),
        Err(TextFault::OutOfMemory) => Err(AllocError),
        Err(TextFault::BadText(_)) => unreachable!(),
    }
}

/// What an entry that fits makes of the texts.
pub(crate) fn changes_by_put(
    owner: &User,
    position: u64,
    entry: &Entry,
    text: &Bytes,
) -> Result<TextChanges, AllocError>
    requires control { control_fits entry.now.attr.kind (control_of entry.now.name) ≡ true }
    requires text { TextFits owner.now (control_for entry.now.attr.kind entry.now.name) text.now }
    ensures access { IfOk result (λ changes. changes.0 ≡
        access_change owner.now entry.now.name
        (Some (record { entry = entry.now; text = text.now })) position) }
    ensures group { IfOk result (λ changes. changes.1 ≡
        group_change owner.now entry.now.name
        (Some (record { entry = entry.now; text = text.now })) position) }
{
    match entry.name.control_kind() {
        Control::Ordinary => Ok((None, None)),
        Control::Access => {
            let parsed = parsed_access(owner, text.as_slice())?;
            let change = Change {
                position,
                text: Some(parsed),
            };
            Ok((Some(change), None))
        }
        Control::Group => {
            let text = group_text(owner, entry.attr.kind, text)?;
            Ok((None, Some(Change { position, text })))
        }
    }
}

/// The text of what is put at a Group path, where it is a file.
fn group_text(owner: &User, kind: Kind, text: &Bytes) -> Result<Option<GroupText>, AllocError>
    requires { kind ≡ Kind.File → (items : List _) × (group_of owner.now text.now ≡ Ok items) }
    ensures { IfOk result (λ found. found
        ≡ (if is_file kind then Some (said (group_of owner.now text.now)) else None)) }
{
    if kind != Kind::File {
        return Ok(None);
    }
    Ok(Some(parsed_group(owner, text.as_slice())?))
}

/// What a deletion makes of the texts.
pub(crate) fn changes_by_delete(position: u64, path: &Path) -> TextChanges
    ensures access { (owner : List ℕ) → result.0 ≡ access_change owner path.now None position }
    ensures group { (owner : List ℕ) → result.1 ≡ group_change owner path.now None position }
{
    match path.control_kind() {
        Control::Ordinary => (None, None),
        Control::Access => {
            let change = Change {
                position,
                text: None,
            };
            (Some(change), None)
        }
        Control::Group => {
            let change = Change {
                position,
                text: None,
            };
            (None, Some(change))
        }
    }
}
