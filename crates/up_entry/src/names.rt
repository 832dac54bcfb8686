//! Paths and users as fields: each by its canonical text.

ghost use Rattle.std.specs.Prelude.{◌≡◌, ◌≢◌, if◌then◌else◌, IfOk, None, OnErr, OnOk, Some};
ghost use Rattle.std.specs.Str.{bytes_eq};
ghost use Rattle.up_bytes.specs.Reading.{FaultFirst, Gives, text_at};
ghost use Rattle.up_names.specs.PathNames.{canonical};
ghost use Rattle.up_names.specs.declared.fault.NameFault.TheVariants as name;
ghost use Rattle.up_entry.specs.Reading.{canonical_path, canonical_user, path_at, user_at};

use std::alloc::{AllocError, Global};
use up_bytes::{FieldFault, Reader};
use up_names::{NameFault, Path, User, parse_path, parse_user};

/// Takes a path from the front of the input, by its canonical text. A refused call leaves the place where it was.
#[tactic(auto, unfolding(crate::specs::Reading::path_at))]
pub fn read_path(alloc: Global, input: &mut Reader) -> Result<Path, FieldFault>
    ensures exact { Gives (λ path. (path, input.new)) result (path_at input.old) }
    ensures first { FaultFirst (text_at input.old) result }
    ensures err { OnErr result (input.new ≡ input.old) }
{
    let mut ahead = input.fork();
    let Some(path) = canonical_path(alloc, ahead.slice()?)? else {
        return Err(FieldFault::Spelling(input.place()));
    };
    *input = ahead;
    Ok(path)
}

/// The path that has this canonical text.
#[tactic(auto, unfolding(crate::specs::Reading::canonical_path))]
pub(crate) fn canonical_path(alloc: Global, text: &[u8]) -> Result<Option<Path>, AllocError>
    ensures { IfOk result (λ found. found ≡ canonical_path text.now) }
{
    match parse_path(alloc, text) {
        Ok(path) => Ok(path_if_written(path, text)),
        Err(fault) => {
            unless_memory(fault)?;
            Ok(None)
        }
    }
}

/// Takes a path from the front of the input, as [`read_path`] does, but leaves the place anywhere where it is refused. Where
/// its text is that of `like`, it is a copy of `like`, and nothing is parsed.
#[tactic(auto, unfolding(crate::specs::Reading::path_at))]
pub(crate) fn take_path_like(
    alloc: Global,
    input: &mut Reader,
    like: &Path,
) -> Result<Path, FieldFault>
    ensures exact { Gives (λ path. (path, input.new)) result (path_at input.old) }
    ensures first { FaultFirst (text_at input.old) result }
{
    let place = input.place();
    match canonical_path_like(alloc, input.slice()?, like)? {
        Some(path) => Ok(path),
        None => Err(FieldFault::Spelling(place)),
    }
}

/// The path that has this canonical text: a copy of `like` where the text is that of `like`.
#[tactic(auto, using(crate::proofs::EntryFields::path_of_its_text))]
fn canonical_path_like(alloc: Global, text: &[u8], like: &Path) -> Result<Option<Path>, AllocError>
    ensures { IfOk result (λ found. found ≡ canonical_path text.now) }
{
    if text == like.as_str().as_bytes() {
        return Ok(Some(like.clone()?));
    }
    canonical_path(alloc, text)
}

/// The path, where this is its canonical text.
fn path_if_written(path: Path, text: &[u8]) -> Option<Path>
    ensures { result ≡ (if bytes_eq (canonical path) text.now then Some path else None) }
{
    if path.as_str().as_bytes() == text {
        return Some(path);
    }
    drop(path);
    None
}

/// A fault of a name is no fault here, but for want of memory.
fn unless_memory(fault: NameFault) -> Result<(), AllocError>
    ensures { OnOk result (fault ≢ name.OutOfMemory) }
{
    match fault {
        NameFault::OutOfMemory => Err(AllocError),
        _ => Ok(()),
    }
}

/// Takes a user from the front of the input, by its canonical name. A refused call leaves the place where it was.
#[tactic(auto, unfolding(crate::specs::Reading::user_at))]
pub fn read_user(alloc: Global, input: &mut Reader) -> Result<User, FieldFault>
    ensures exact { Gives (λ user. (user, input.new)) result (user_at input.old) }
    ensures first { FaultFirst (text_at input.old) result }
    ensures err { OnErr result (input.new ≡ input.old) }
{
    let mut ahead = input.fork();
    let Some(user) = canonical_user(alloc, ahead.slice()?)? else {
        return Err(FieldFault::Spelling(input.place()));
    };
    *input = ahead;
    Ok(user)
}

/// The user that has this canonical name.
#[tactic(auto, unfolding(crate::specs::Reading::canonical_user))]
fn canonical_user(alloc: Global, text: &[u8]) -> Result<Option<User>, AllocError>
    ensures { IfOk result (λ found. found ≡ canonical_user text.now) }
{
    match parse_user(alloc, text) {
        Ok(user) => Ok(user_if_written(user, text)),
        Err(fault) => {
            unless_memory(fault)?;
            Ok(None)
        }
    }
}

/// Takes a user from the front of the input, as [`read_user`] does, but leaves the place anywhere where it is refused. Where
/// its name is that of `like`, it is a copy of `like`, and nothing is parsed.
#[tactic(auto, unfolding(crate::specs::Reading::user_at))]
pub(crate) fn take_user_like(
    alloc: Global,
    input: &mut Reader,
    like: &User,
) -> Result<User, FieldFault>
    ensures exact { Gives (λ user. (user, input.new)) result (user_at input.old) }
    ensures first { FaultFirst (text_at input.old) result }
{
    let place = input.place();
    match canonical_user_like(alloc, input.slice()?, like)? {
        Some(user) => Ok(user),
        None => Err(FieldFault::Spelling(place)),
    }
}

/// The user that has this canonical name: a copy of `like` where the name is that of `like`.
#[tactic(auto, using(crate::proofs::EntryFields::user_of_its_name))]
fn canonical_user_like(alloc: Global, text: &[u8], like: &User) -> Result<Option<User>, AllocError>
    ensures { IfOk result (λ found. found ≡ canonical_user text.now) }
{
    if text == like.text().as_bytes() {
        return Ok(Some(like.clone()?));
    }
    canonical_user(alloc, text)
}

/// The user, where this is its canonical name.
fn user_if_written(user: User, text: &[u8]) -> Option<User>
    ensures { result ≡ (if bytes_eq user text.now then Some user else None) }
{
    if user.text().as_bytes() == text {
        return Some(user);
    }
    drop(user);
    None
}
