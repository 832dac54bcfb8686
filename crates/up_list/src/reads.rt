//! The replies to Lookup, WhichAccess and GroupText.
ghost use Rattle.std.specs.Prelude.{◌≡◌, [], IfOk, Some};
ghost use Rattle.std.specs.Option.{option_map};
ghost use Rattle.up_entry.specs.Showing.{shown_as};
ghost use Rattle.up_list.specs.Entries.{entry_at};
ghost use Rattle.up_list.specs.Founds.{entry_found};
ghost use Rattle.up_list.specs.Governing.{governing_file};
ghost use Rattle.up_list.specs.Looks.{rights, shown};
ghost use Rattle.up_list.specs.Reads.{access_reply, entry_reply, group_text_reply, lookup_reply, text_reply};

use crate::checks::{check, pass};
use crate::found::Found;
use crate::onlooker::Onlooker;
use std::alloc::{AllocError, Global};
use up_bytes::Bytes;
use up_entry::Entry;
use up_names::Path;
use up_rights::{Right, RightSet};
use up_wire::{Done, Reply};

/// The reply to Lookup of a path: the entry there, as it is shown.
#[tactic(auto, unfolding(crate::specs::Reads::lookup_reply))]
pub fn lookup<O: Onlooker>(alloc: Global, onlooker: &O, path: &Path) -> Result<Reply, AllocError>
    requires { path.now.owner ≡ (O.look onlooker.now).owner }
    ensures { IfOk result (λ reply. reply ≡ lookup_reply (O.look onlooker.now) path.now) }
{
    match pass(alloc, onlooker, path, true, None)? {
        Ok(held) => entry_reply(alloc, onlooker, path, held),
        Err(refusal) => Ok(refusal),
    }
}

/// The reply to Lookup of a path that has passed.
#[tactic(auto, using(crate::proofs::ItemLemmas::reply_some, crate::proofs::ItemLemmas::reply_none))]
fn entry_reply<O: Onlooker>(
    alloc: Global,
    onlooker: &O,
    path: &Path,
    held: RightSet,
) -> Result<Reply, AllocError>
    requires { held ≡ rights (O.look onlooker.now) path.now }
    ensures { IfOk result (λ reply. reply
        ≡ entry_reply (O.look onlooker.now) (entry_at (O.look onlooker.now).tree path.now)) }
{
    match entry_shown(alloc, onlooker, path, held)? {
        Some(entry) => Ok(Reply::Ok(Done::Entry(entry))),
        None => Ok(Reply::NotExist),
    }
}

/// The entry at a path, as it is shown by the rights on that path.
pub(crate) fn entry_shown<O: Onlooker>(
    alloc: Global,
    onlooker: &O,
    path: &Path,
    held: RightSet,
) -> Result<Option<Entry>, AllocError>
    requires { held ≡ rights (O.look onlooker.now) path.now }
    ensures { IfOk result (λ entry. entry ≡ option_map (shown (O.look onlooker.now))
        (entry_at (O.look onlooker.now).tree path.now)) }
{
    match onlooker.item(alloc, path)? {
        Some(found) => shown_whole(alloc, found, held.has(Right::Read)),
        None => Ok(None),
    }
}

/// The entry of what is found, as it is shown to a user.
fn shown_whole(alloc: Global, found: Found, whole: bool) -> Result<Option<Entry>, AllocError>
    ensures { IfOk result (λ entry. entry ≡ Some (shown_as whole (entry_found found.entry))) }
{
    let entry = found.shown(alloc, whole);
    drop(found);
    Ok(Some(entry?))
}

/// The reply to WhichAccess of a path: the entry of the Access file that governs it, as it is shown.
#[tactic(auto, unfolding(crate::specs::Reads::access_reply))]
pub fn which_access<O: Onlooker>(
    alloc: Global,
    onlooker: &O,
    path: &Path,
) -> Result<Reply, AllocError>
    requires { path.now.owner ≡ (O.look onlooker.now).owner }
    ensures { IfOk result (λ reply. reply ≡ access_reply (O.look onlooker.now) path.now) }
{
    match check(alloc, onlooker, path, true, None)? {
        Some(refusal) => Ok(refusal),
        None => Ok(Reply::Ok(Done::Access(governing_shown(alloc, onlooker, path)?))),
    }
}

/// The entry of the Access file that governs a path, as it is shown.
#[tactic(auto, using(crate::proofs::ItemLemmas::governing_owned))]
fn governing_shown<O: Onlooker>(
    alloc: Global,
    onlooker: &O,
    path: &Path,
) -> Result<Option<Entry>, AllocError>
    requires { path.now.owner ≡ (O.look onlooker.now).owner }
    ensures { IfOk result (λ entry. entry ≡ option_map (shown (O.look onlooker.now))
        (governing_file (O.look onlooker.now) path.now)) }
{
    match onlooker.governing(alloc, path)? {
        Some(file) => shown_by_rights(alloc, onlooker, file),
        None => Ok(None),
    }
}

/// The entry of what is found, as it is shown by the rights on its name.
fn shown_by_rights<O: Onlooker>(
    alloc: Global,
    onlooker: &O,
    found: Found,
) -> Result<Option<Entry>, AllocError>
    requires { (entry_found found).name.owner ≡ (O.look onlooker.now).owner }
    ensures { IfOk result
        (λ entry. entry ≡ Some (shown (O.look onlooker.now) (entry_found found.entry))) }
{
    let entry = found_shown(alloc, onlooker, &found);
    drop(found);
    Ok(Some(entry?))
}

/// The same of what stays.
fn found_shown<O: Onlooker>(alloc: Global, onlooker: &O, found: &Found) -> Result<Entry, AllocError>
    requires { (entry_found found.now).name.owner ≡ (O.look onlooker.now).owner }
    ensures { IfOk result (λ entry. entry ≡ shown (O.look onlooker.now) (entry_found found.now)) }
{
    let held = onlooker.rights(alloc, &found.entry().name)?;
    found.shown(alloc, held.has(Right::Read))
}

/// The reply to GroupText of a path: the text of the file there. Nothing is loaded for it.
#[tactic(auto, unfolding(crate::specs::Reads::group_text_reply))]
pub fn group_text<O: Onlooker>(
    alloc: Global,
    onlooker: &O,
    path: &Path,
) -> Result<Reply, AllocError>
    requires owned { path.now.owner ≡ (O.look onlooker.now).owner }
    requires alone { (O.look onlooker.now).loaded ≡ [] }
    ensures { IfOk result (λ reply. reply ≡ group_text_reply (O.look onlooker.now) path.now) }
{
    match check(alloc, onlooker, path, true, Some(Right::Read))? {
        Some(refusal) => Ok(refusal),
        None => Ok(text_reply(onlooker.text(alloc, path)?)),
    }
}

/// The reply of a text, where a file has one.
fn text_reply(text: Option<Bytes>) -> Reply
    ensures { result ≡ text_reply text }
{
    match text {
        Some(text) => Reply::Ok(Done::Text(text)),
        None => Reply::NotExist,
    }
}
