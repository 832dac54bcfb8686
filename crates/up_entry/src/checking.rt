//! The rules of an entry that is handed to Put.

ghost use Rattle.std.specs.Prelude.{◌≡◌, ◌≢◌, IfOk};
ghost use Rattle.up_names.specs.declared.fault.NameFault.TheVariants as name;
ghost use Rattle.up_entry.specs.declared.fault.EntryFault.{EntryFault};
ghost use Rattle.up_entry.specs.Checking.{Gives, checked_as, checked_of, content_rules, kind_of, link_or, names_of, path_or, rest_of, rule, signed_name_of, user_or, writer_of};

use crate::attrs::attr_of;
use crate::block_rules::{blocks_fit, control_size_fits};
use crate::copying::copied_blocks;
use crate::entries::{Attr, Block, Entry, Kind};
use crate::fault::EntryFault;
use crate::kind_rules::{control_fits, packdata_fits, packing_fits, root_fits, whole_kind};
use crate::puts::{Checked, PutEntry};
use crate::what::What;
use std::alloc::{AllocError, Global};
use up_bytes::{Bytes, copy_of};
use up_lists::Items;
use up_names::{NameFault, Path, User, parse_path, parse_user};

/// The entry that a user hands to Put, or the first rule that it breaks:
///
/// Name, a path text; SignedName, a text of the same path; Writer, this user; Packing, not 0, and 1 for a directory, a link
/// and a control file; Attr, a kind without the mark; Link, a path text for a link and else empty; Blocks, none for a
/// directory or link, else each of 1 to 1,048,576 bytes at a good endpoint, the first at 0 and each where the one before
/// ends; Packdata, empty for a directory or link; Root, a directory; Control, a file at an Access path and no link at a
/// Group path; ControlSize, at most 32,768 bytes in a control file's blocks; Sequence, at least -1.
#[tactic(auto, using(crate::proofs::CheckingLemmas::names_break, crate::proofs::CheckingLemmas::rest_breaks, crate::proofs::CheckingLemmas::rules_hold))]
pub fn check_entry(alloc: Global, put: &PutEntry, user: &User) -> Result<Checked, EntryFault>
    ensures { Gives (λ checked. checked) result (checked_as put.now user.now) }
{
    let (name, signed_name, writer) = names_of(alloc, put, user)?;
    match rest_of(alloc, put, &name) {
        Ok((kind, link)) => Ok(made(alloc, put, name, signed_name, writer, kind, link)?),
        Err(fault) => {
            drop(name);
            drop(signed_name);
            drop(writer);
            Err(fault)
        }
    }
}

/// The path, that of the signed name, and the writer, by the first three rules.
#[tactic(auto, unfolding(crate::specs::Checking::names_of))]
fn names_of(alloc: Global, put: &PutEntry, user: &User) -> Result<(Path, Path, User), EntryFault>
    ensures { Gives (λ names. names) result (names_of put.now user.now) }
{
    let name = path_or(alloc, What::Name, put.name.as_slice())?;
    match signed_name_of(alloc, put, &name) {
        Ok(signed_name) => match writer_of(alloc, put, user) {
            Ok(writer) => Ok((name, signed_name, writer)),
            Err(fault) => {
                drop(name);
                drop(signed_name);
                Err(fault)
            }
        },
        Err(fault) => {
            drop(name);
            Err(fault)
        }
    }
}

/// The kind and the target, once all that is no name keeps its rules.
#[tactic(auto, unfolding(crate::specs::Checking::rest_of))]
fn rest_of(alloc: Global, put: &PutEntry, name: &Path) -> Result<(Kind, Option<Path>), EntryFault>
    ensures { Gives (λ rest. rest) result (rest_of put.now name.now) }
{
    let kind = kind_of(put, name)?;
    let link = link_or(alloc, kind, put.link.as_slice())?;
    match content_rules(put, kind, name) {
        Ok(()) => Ok((kind, link)),
        Err(fault) => {
            drop(link);
            Err(fault)
        }
    }
}

/// What was checked, with a copy of the rest of what was handed to Put.
fn made(
    alloc: Global,
    put: &PutEntry,
    name: Path,
    signed_name: Path,
    writer: User,
    kind: Kind,
    link: Option<Path>,
) -> Result<Checked, AllocError>
    ensures { IfOk result (λ checked.
        checked ≡ checked_of put.now name signed_name writer kind link) }
{
    let copied = content_of(alloc, put);
    match copied {
        Ok((blocks, packdata)) => Ok(Checked {
            entry: Entry {
                signed_name,
                packing: put.packing,
                time: put.time,
                blocks,
                packdata,
                link,
                writer,
                name,
                attr: Attr {
                    kind,
                    incomplete: false,
                },
                sequence: 0,
            },
            sequence: put.sequence,
        }),
        Err(AllocError) => {
            drop(link);
            Err(AllocError)
        }
    }
}

/// A copy of the blocks and of the pack data.
fn content_of(alloc: Global, put: &PutEntry) -> Result<(Items<Block>, Bytes), AllocError>
    ensures { IfOk result (λ copy. copy ≡ (put.now.blocks, put.now.packdata)) }
{
    let packdata = copy_of(alloc, put.packdata.as_slice())?;
    let blocks = copied_blocks(alloc, put.blocks.as_slice())?;
    Ok((blocks, packdata))
}

/// The signed name, which has to be a text of the same path as the name.
#[tactic(auto, unfolding(crate::specs::Checking::signed_name_of))]
fn signed_name_of(alloc: Global, put: &PutEntry, name: &Path) -> Result<Path, EntryFault>
    ensures { Gives (λ path. path) result (signed_name_of put.now name.now) }
{
    let signed_name = path_or_like(alloc, What::SignedName, put.signed_name.as_slice(), name)?;
    rule(What::SignedName, signed_name == *name)?;
    Ok(signed_name)
}

/// The writer, who has to be this user.
#[tactic(auto, unfolding(crate::specs::Checking::writer_of))]
fn writer_of(alloc: Global, put: &PutEntry, user: &User) -> Result<User, EntryFault>
    ensures { Gives (λ writer. writer) result (writer_of put.now user.now) }
{
    let writer = user_or_like(alloc, What::Writer, put.writer.as_slice(), user)?;
    rule(What::Writer, writer == *user)?;
    Ok(writer)
}

/// The kind of an entry whose packing is one that it may have.
#[tactic(auto, unfolding(crate::specs::Checking::kind_of))]
fn kind_of(put: &PutEntry, name: &Path) -> Result<Kind, EntryFault>
    ensures { result ≡ kind_of put.now name.now }
{
    let attr = attr_of(put.attr);
    rule(What::Packing, packing_fits(attr, name, put.packing))?;
    whole_kind(attr)
}

/// The rules of all else that an entry of this kind has, and of where it stands.
#[tactic(auto, unfolding(crate::specs::Checking::content_rules))]
fn content_rules(put: &PutEntry, kind: Kind, name: &Path) -> Result<(), EntryFault>
    ensures { result ≡ content_rules put.now kind name.now }
{
    let blocks = put.blocks.as_slice();
    rule(What::Blocks, blocks_fit(kind, blocks))?;
    rule(What::Packdata, packdata_fits(kind, &put.packdata))?;
    rule(What::Root, root_fits(kind, name))?;
    rule(What::Control, control_fits(kind, name.control_kind()))?;
    rule(What::ControlSize, control_size_fits(kind, name, blocks))?;
    rule(What::Sequence, put.sequence >= -1)
}

/// A rule that holds, or fails by its word.
fn rule(what: What, holds: bool) -> Result<(), EntryFault>
    ensures { result ≡ rule what holds }
{
    if holds {
        Ok(())
    } else {
        Err(EntryFault::Invalid(what))
    }
}

/// The path of a text that has to be a path text.
fn path_or(alloc: Global, what: What, text: &[u8]) -> Result<Path, EntryFault>
    ensures { Gives (λ path. path) result (path_or what text.now) }
{
    match parse_path(alloc, text) {
        Ok(path) => Ok(path),
        Err(fault) => Err(not_named(what, fault)),
    }
}

/// The path of a text that has to be a path text: a copy of `like` where the text is the canonical one of `like`.
#[tactic(auto, using(crate::proofs::CheckingLemmas::path_or_its_text))]
fn path_or_like(alloc: Global, what: What, text: &[u8], like: &Path) -> Result<Path, EntryFault>
    ensures { Gives (λ path. path) result (path_or what text.now) }
{
    if text == like.as_str().as_bytes() {
        return Ok(like.clone()?);
    }
    path_or(alloc, what, text)
}

/// The user of a text that has to be a user name.
fn user_or(alloc: Global, what: What, text: &[u8]) -> Result<User, EntryFault>
    ensures { Gives (λ user. user) result (user_or what text.now) }
{
    match parse_user(alloc, text) {
        Ok(user) => Ok(user),
        Err(fault) => Err(not_named(what, fault)),
    }
}

/// The user of a text that has to be a user name: a copy of `like` where the text is the canonical name of `like`.
#[tactic(auto, using(crate::proofs::CheckingLemmas::user_or_its_name))]
fn user_or_like(alloc: Global, what: What, text: &[u8], like: &User) -> Result<User, EntryFault>
    ensures { Gives (λ user. user) result (user_or what text.now) }
{
    if text == like.text().as_bytes() {
        return Ok(like.clone()?);
    }
    user_or(alloc, what, text)
}

/// What a text leads to that is not read as a name: want of memory, or this broken rule.
fn not_named(what: What, fault: NameFault) -> EntryFault
    ensures memory { result ≢ EntryFault.OutOfMemory → fault ≢ name.OutOfMemory }
    ensures broken { result ≢ EntryFault.OutOfMemory → result ≡ EntryFault.Invalid what }
{
    match fault {
        NameFault::OutOfMemory => EntryFault::OutOfMemory,
        _ => EntryFault::Invalid(what),
    }
}

/// The target of a link, whose text has to be a path text; for an entry of another kind the text has to be empty.
fn link_or(alloc: Global, kind: Kind, text: &[u8]) -> Result<Option<Path>, EntryFault>
    ensures { Gives (λ target. target) result (link_or kind text.now) }
{
    match kind {
        Kind::Link => Ok(Some(path_or(alloc, What::Link, text)?)),
        Kind::File | Kind::Directory => {
            rule(What::Link, text.is_empty())?;
            Ok(None)
        }
    }
}
