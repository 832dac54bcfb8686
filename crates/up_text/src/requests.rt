//! The lines of a script that ask something of a session.

ghost use Rattle.std.specs.Prelude.{◌≡◌, IfOk};
ghost use Rattle.up_text.specs.Meant.{IsMeant};
ghost use Rattle.up_text.specs.Numbers.{int_of};
ghost use Rattle.up_text.specs.Requests.{byte_of, client_line_of, entry_by, file_line, filled, get_line, kind_client, kind_in, kind_of, kind_request, link_line, mkdir_line, one_text, other_kind_of, plain_entry, put_line, request_of, setkey_line, watch_line};

use crate::fault::LineFault;
use crate::lists::{blocks_of, endpoints_of, text_named};
use crate::numbers::{read_int, read_num};
use std::alloc::{AllocError, Global};
use up_bytes::{Bytes, copy_of};
use up_entry::PutEntry;
use up_lists::Items;
use up_names::User;
use up_wire::{KeyCard, Request};

/// What a line does, by its keyword.
#[derive(Clone, Copy, Debug, PartialEq, Eq)]
pub(crate) enum LineKind {
    Lookup,
    Mkdir,
    Link,
    File,
    Delete,
    Glob,
    Which,
    Watch,
    Text,
    Store,
    Fetch,
    Drop,
    Key,
    SetKey,
    Put,
    Get,
}

/// What a line has the client do.
#[derive(Debug, Drop, PartialEq, Eq)]
pub enum ClientLine {
    /// To put a file at a path: the path, the time, the sequence that the item has to have, and the file's bytes.
    Put(Bytes, i64, i64, Bytes),
    /// To get the bytes of the file at a path.
    Get(Bytes),
}

/// What the words of a line ask of a server, for a session of this user; the words are those behind the session's number. `None`
/// exactly where the line is malformed, or is one of the client.
pub fn read_request(
    alloc: Global,
    words: &[Bytes],
    user: &User,
) -> Result<Option<Request>, AllocError>
    ensures { IfOk result (λ asked. asked ≡ request_of user.now words.now) }
{
    request_found(alloc, kind_in(words), words, user)
}

/// The same of words of which the kind is known.
pub(crate) fn request_found(
    alloc: Global,
    kind: Option<LineKind>,
    words: &[Bytes],
    user: &User,
) -> Result<Option<Request>, AllocError>
    requires { kind ≡ kind_in words.now }
    ensures { IfOk result (λ asked. asked ≡ request_of user.now words.now) }
{
    match request_named(alloc, kind, words, user) {
        Ok(asked) => Ok(Some(asked)),
        Err(LineFault::Malformed) => Ok(None),
        Err(LineFault::OutOfMemory) => Err(AllocError),
    }
}

/// What words have the client do, of which the kind is known.
pub(crate) fn client_line_found(
    alloc: Global,
    kind: Option<LineKind>,
    words: &[Bytes],
) -> Result<Option<ClientLine>, AllocError>
    requires { kind ≡ kind_in words.now }
    ensures { IfOk result (λ line. line ≡ client_line_of words.now) }
{
    match client_line_named(alloc, kind, words) {
        Ok(line) => Ok(Some(line)),
        Err(LineFault::Malformed) => Ok(None),
        Err(LineFault::OutOfMemory) => Err(AllocError),
    }
}

#[tactic(auto, unfolding(crate::specs::Requests::request_of))]
fn request_named(
    alloc: Global,
    kind: Option<LineKind>,
    words: &[Bytes],
    user: &User,
) -> Result<Request, LineFault>
    requires { kind ≡ kind_in words.now }
    ensures { IsMeant (λ asked. asked) result (request_of user.now words.now) }
{
    let Some((_, arguments)) = words.split_first() else {
        return Err(LineFault::Malformed);
    };
    match kind {
        Some(kind) => kind_request(alloc, kind, arguments, user),
        None => Err(LineFault::Malformed),
    }
}

#[tactic(auto, unfolding(crate::specs::Requests::client_line_of))]
fn client_line_named(
    alloc: Global,
    kind: Option<LineKind>,
    words: &[Bytes],
) -> Result<ClientLine, LineFault>
    requires { kind ≡ kind_in words.now }
    ensures { IsMeant (λ line. line) result (client_line_of words.now) }
{
    let Some((_, arguments)) = words.split_first() else {
        return Err(LineFault::Malformed);
    };
    match kind {
        Some(kind) => kind_client(alloc, kind, arguments),
        None => Err(LineFault::Malformed),
    }
}

/// The kind of line that words begin.
pub(crate) fn kind_in(words: &[Bytes]) -> Option<LineKind>
    ensures { result ≡ kind_in words.now }
{
    let (keyword, _) = words.split_first()?;
    kind_of(keyword.as_slice())
}

/// The kind of line that a keyword begins.
#[tactic(auto, unfolding(crate::specs::Requests::kind_of))]
fn kind_of(word: &[u8]) -> Option<LineKind>
    ensures { result ≡ kind_of word.now }
{
    if word == b"lookup".as_slice() {
        Some(LineKind::Lookup)
    } else if word == b"mkdir".as_slice() {
        Some(LineKind::Mkdir)
    } else if word == b"link".as_slice() {
        Some(LineKind::Link)
    } else if word == b"file".as_slice() {
        Some(LineKind::File)
    } else if word == b"delete".as_slice() {
        Some(LineKind::Delete)
    } else if word == b"glob".as_slice() {
        Some(LineKind::Glob)
    } else if word == b"which".as_slice() {
        Some(LineKind::Which)
    } else if word == b"watch".as_slice() {
        Some(LineKind::Watch)
    } else if word == b"text".as_slice() {
        Some(LineKind::Text)
    } else {
        other_kind_of(word)
    }
}

/// The same of lines that ask no directory server.
#[tactic(auto, unfolding(crate::specs::Requests::other_kind_of))]
fn other_kind_of(word: &[u8]) -> Option<LineKind>
    ensures { result ≡ other_kind_of word.now }
{
    if word == b"store".as_slice() {
        Some(LineKind::Store)
    } else if word == b"fetch".as_slice() {
        Some(LineKind::Fetch)
    } else if word == b"drop".as_slice() {
        Some(LineKind::Drop)
    } else if word == b"key".as_slice() {
        Some(LineKind::Key)
    } else if word == b"setkey".as_slice() {
        Some(LineKind::SetKey)
    } else if word == b"put".as_slice() {
        Some(LineKind::Put)
    } else if word == b"get".as_slice() {
        Some(LineKind::Get)
    } else {
        None
    }
}

/// What a line of a kind asks, by the words that it takes.
#[tactic(auto, unfolding(crate::specs::Requests::kind_request))]
fn kind_request(
    alloc: Global,
    kind: LineKind,
    words: &[Bytes],
    user: &User,
) -> Result<Request, LineFault>
    ensures { IsMeant (λ asked. asked) result (kind_request user.now kind words.now) }
{
    match kind {
        LineKind::Lookup => Ok(Request::Lookup(one_text(alloc, words)?)),
        LineKind::Mkdir => Ok(Request::Put(mkdir_line(alloc, words, user)?)),
        LineKind::Link => Ok(Request::Put(link_line(alloc, words, user)?)),
        LineKind::File => Ok(Request::Put(file_line(alloc, words, user)?)),
        LineKind::Delete => Ok(Request::Delete(one_text(alloc, words)?)),
        LineKind::Glob => Ok(Request::Glob(one_text(alloc, words)?)),
        LineKind::Which => Ok(Request::WhichAccess(one_text(alloc, words)?)),
        LineKind::Watch => watch_line(alloc, words),
        LineKind::Text => Ok(Request::GroupText(one_text(alloc, words)?)),
        LineKind::Store => Ok(Request::StorePut(one_text(alloc, words)?)),
        LineKind::Fetch => Ok(Request::Get(one_text(alloc, words)?)),
        LineKind::Drop => Ok(Request::StoreDelete(one_text(alloc, words)?)),
        LineKind::Key => Ok(Request::KeyLookup(one_text(alloc, words)?)),
        LineKind::SetKey => setkey_line(alloc, words),
        LineKind::Put | LineKind::Get => Err(LineFault::Malformed),
    }
}

/// What a line of a kind has the client do, by the words that it takes.
#[tactic(auto, unfolding(crate::specs::Requests::kind_client))]
fn kind_client(alloc: Global, kind: LineKind, words: &[Bytes]) -> Result<ClientLine, LineFault>
    ensures { IsMeant (λ line. line) result (kind_client kind words.now) }
{
    match kind {
        LineKind::Put => put_line(alloc, words),
        LineKind::Get => get_line(alloc, words),
        _ => Err(LineFault::Malformed),
    }
}

/// The text of the one word that there is.
#[tactic(auto, unfolding(crate::specs::Requests::one_text))]
fn one_text(alloc: Global, words: &[Bytes]) -> Result<Bytes, LineFault>
    ensures { IsMeant (λ text. text) result (one_text words.now) }
{
    match words {
        [word] => text_named(alloc, word.as_slice()),
        _ => Err(LineFault::Malformed),
    }
}

/// The number that a word is, which may be negative.
fn int_named(word: &Bytes) -> Result<i64, LineFault>
    ensures { IsMeant (λ number. number) result (int_of word.now) }
{
    read_int(word.as_slice()).ok_or(LineFault::Malformed)
}

/// The number below 256 that a word is.
fn byte_named(word: &Bytes) -> Result<u8, LineFault>
    ensures { IsMeant (λ number. number) result (byte_of word.now) }
{
    match read_num(word.as_slice()) {
        Some(number) => u8::try_from(number).map_err(|_| LineFault::Malformed),
        None => Err(LineFault::Malformed),
    }
}

/// `mkdir PATH TIME SEQ`.
#[tactic(auto, unfolding(crate::specs::Requests::mkdir_line))]
fn mkdir_line(alloc: Global, words: &[Bytes], user: &User) -> Result<PutEntry, LineFault>
    ensures { IsMeant (λ put. put) result (mkdir_line user.now words.now) }
{
    match words {
        [path, time, sequence] => plain_entry(alloc, user, 1, path, time, sequence),
        _ => Err(LineFault::Malformed),
    }
}

/// An entry without blocks that a user hands in, by the words of its path, its time and its sequence.
#[tactic(auto, unfolding(crate::specs::Requests::plain_entry))]
fn plain_entry(
    alloc: Global,
    user: &User,
    attr: u8,
    path: &Bytes,
    time: &Bytes,
    sequence: &Bytes,
) -> Result<PutEntry, LineFault>
    ensures { IsMeant (λ put. put) result
        (plain_entry user.now attr path.now time.now sequence.now) }
{
    let name = text_named(alloc, path.as_slice())?;
    let time = int_named(time)?;
    let sequence = int_named(sequence)?;
    Ok(entry_by(alloc, user, name, attr, time, sequence)?)
}

/// An entry without blocks that a user hands in.
fn entry_by(
    alloc: Global,
    user: &User,
    name: Bytes,
    attr: u8,
    time: i64,
    sequence: i64,
) -> Result<PutEntry, AllocError>
    ensures { IfOk result (λ put. put ≡ entry_by user.now name attr time sequence) }
{
    let signed_name = copy_of(alloc, name.as_slice())?;
    let writer = copy_of(alloc, user.text().as_bytes())?;
    Ok(PutEntry {
        signed_name,
        packing: 1,
        time,
        blocks: Items::new(alloc),
        packdata: Items::new(alloc),
        link: Items::new(alloc),
        writer,
        name,
        attr,
        sequence,
    })
}

/// `link PATH TARGET TIME SEQ`.
#[tactic(auto, unfolding(crate::specs::Requests::link_line))]
fn link_line(alloc: Global, words: &[Bytes], user: &User) -> Result<PutEntry, LineFault>
    ensures { IsMeant (λ put. put) result (link_line user.now words.now) }
{
    let [path, target, time, sequence] = words else {
        return Err(LineFault::Malformed);
    };
    let mut put = plain_entry(alloc, user, 2, path, time, sequence)?;
    put.link = text_named(alloc, target.as_slice())?;
    Ok(put)
}

/// `file PATH PACKING TIME SEQ PACKDATA BLOCKS`.
#[tactic(auto, unfolding(crate::specs::Requests::file_line))]
fn file_line(alloc: Global, words: &[Bytes], user: &User) -> Result<PutEntry, LineFault>
    ensures { IsMeant (λ put. put) result (file_line user.now words.now) }
{
    let [path, packing, time, sequence, packdata, blocks] = words else {
        return Err(LineFault::Malformed);
    };
    let mut put = plain_entry(alloc, user, 0, path, time, sequence)?;
    match fill(alloc, &mut put, packing, packdata, blocks) {
        Ok(()) => Ok(put),
        Err(fault) => {
            drop(put);
            Err(fault)
        }
    }
}

/// Gives an entry the packing, the pack data and the blocks of these words; after a fault it may have some of them.
#[tactic(auto, unfolding(crate::specs::Requests::filled))]
fn fill(
    alloc: Global,
    put: &mut PutEntry,
    packing: &Bytes,
    packdata: &Bytes,
    blocks: &Bytes,
) -> Result<(), LineFault>
    ensures { IsMeant (λ done. put.new) result (filled put.old packing.now packdata.now blocks.now) }
{
    put.packing = byte_named(packing)?;
    put.packdata = text_named(alloc, packdata.as_slice())?;
    put.blocks = blocks_of(alloc, blocks.as_slice())?;
    Ok(())
}

/// `watch PATH SEQ`.
#[tactic(auto, unfolding(crate::specs::Requests::watch_line))]
fn watch_line(alloc: Global, words: &[Bytes]) -> Result<Request, LineFault>
    ensures { IsMeant (λ asked. asked) result (watch_line words.now) }
{
    let [path, sequence] = words else {
        return Err(LineFault::Malformed);
    };
    let path = text_named(alloc, path.as_slice())?;
    let sequence = int_named(sequence)?;
    Ok(Request::Watch(path, sequence))
}

/// `setkey USER DIRS STORES KEY`.
#[tactic(auto, unfolding(crate::specs::Requests::setkey_line))]
fn setkey_line(alloc: Global, words: &[Bytes]) -> Result<Request, LineFault>
    ensures { IsMeant (λ asked. asked) result (setkey_line words.now) }
{
    let [user, dirs, stores, key] = words else {
        return Err(LineFault::Malformed);
    };
    let user = text_named(alloc, user.as_slice())?;
    let dirs = endpoints_of(alloc, dirs.as_slice())?;
    let stores = endpoints_of(alloc, stores.as_slice())?;
    let key = text_named(alloc, key.as_slice())?;
    Ok(Request::KeyPut(KeyCard {
        user,
        dirs,
        stores,
        key,
    }))
}

/// `put PATH TIME SEQ BYTES`.
#[tactic(auto, unfolding(crate::specs::Requests::put_line))]
fn put_line(alloc: Global, words: &[Bytes]) -> Result<ClientLine, LineFault>
    ensures { IsMeant (λ line. line) result (put_line words.now) }
{
    let [path, time, sequence, bytes] = words else {
        return Err(LineFault::Malformed);
    };
    let path = text_named(alloc, path.as_slice())?;
    let time = int_named(time)?;
    let sequence = int_named(sequence)?;
    let bytes = text_named(alloc, bytes.as_slice())?;
    Ok(ClientLine::Put(path, time, sequence, bytes))
}

/// `get PATH`.
#[tactic(auto, unfolding(crate::specs::Requests::get_line))]
fn get_line(alloc: Global, words: &[Bytes]) -> Result<ClientLine, LineFault>
    ensures { IsMeant (λ line. line) result (get_line words.now) }
{
    Ok(ClientLine::Get(one_text(alloc, words)?))
}
