//! What the next request comes with, and what it asks by the words of a script.
ghost use Rattle.std.specs.Prelude.{◌≡◌, ◌<◌, nat_lt, IfOk};
ghost use Rattle.up_ends.specs.Moments.{IsMoment, is_moment};

use std::alloc::{AllocError, Global};
use std::hash::RandomState;
use up_bytes::{Bytes, copy_of};
use up_case_lines::{Fault, Words, bytes_of, path_of, text_of};
use up_dir::Fetched;
use up_entry::{Block, Endpoint, Fetch, Location, PutEntry};
use up_group::parse_group;
use up_lists::Items;
use up_names::{Path, User};
use up_policy::{LoadAnswer, Loaded};
use up_refs::Reference;
use up_text::{ClientLine, LineWords};
use up_wire::Request;

/// The first moment that is none of a request.
const END_OF_TIME: u64 = 253_402_207_200;

/// What the next request comes with: what was loaded and fetched for it, and its moment.
#[derive(Drop)]
pub struct Given {
    pub loaded: Loaded,
    pub fetched: Fetched,
    /// The moment, in seconds since 1970. It may be none of a request.
    pub now: u64,
}

impl Given {
    /// Nothing is loaded or fetched, at the moment 86400. Names are hashed with these keys.
    pub fn new(alloc: Global, random: RandomState) -> Given {
        Given {
            loaded: Loaded::new(alloc, random),
            fetched: Items::new(alloc),
            now: 86_400,
        }
    }

    /// Does a line that tells what the next request comes with.
    pub fn turn(
        &mut self,
        alloc: Global,
        keyword: &str,
        mut words: Words<'_>,
    ) -> Result<(), Fault> {
        match keyword {
            "load" => load_line(alloc, &mut self.loaded, words),
            "block" => block_line(alloc, &mut self.fetched, words),
            "now" => {
                self.now = words.last_number()?;
                Ok(())
            }
            _ => Err(Fault::BadLine),
        }
    }

    /// What the words of a script ask for a user. A `put` of the client asks to put its bytes as one block, and they are what was
    /// fetched of it.
    pub fn request(
        &mut self,
        alloc: Global,
        user: &User,
        words: Words<'_>,
    ) -> Result<Request, Fault> {
        let line = LineWords::new(words_of(alloc, words.some()?)?);
        match line.request(alloc, user)? {
            Some(request) => Ok(request),
            None => self.put_request(alloc, user, &line),
        }
    }

    fn put_request(
        &mut self,
        alloc: Global,
        user: &User,
        line: &LineWords,
    ) -> Result<Request, Fault> {
        match line.client_line(alloc)? {
            Some(ClientLine::Put(path, time, sequence, bytes)) => {
                let put = put_of(alloc, user, path, time, sequence, bytes.as_slice())?;
                note(alloc, &mut self.fetched, bytes)?;
                Ok(Request::Put(put))
            }
            _ => Err(Fault::BadLine),
        }
    }
}

/// A moment, where it is one of a request.
pub fn moment(now: u64) -> Result<u64, Fault>
    ensures { IfOk result (λ now. IsMoment now) }
{
    if is_in_calendar(now) {
        return Ok(now);
    }
    Err(Fault::BadLine)
}

/// Whether a moment is one of a request.
pub fn is_in_calendar(now: u64) -> bool
    ensures { result ≡ is_moment now }
{
    now < END_OF_TIME
}

// The words of a line, each as it stands.
fn words_of(alloc: Global, rest: &str) -> Result<Items<Bytes>, AllocError> {
    let mut words = Items::new(alloc);
    for word in rest.split(' ') {
        words.push(copy_of(alloc, word.as_bytes())?)?;
    }
    Ok(words)
}

// A Put of a file, of which all bytes are one block of the host's own store.
fn put_of(
    alloc: Global,
    user: &User,
    path: Bytes,
    time: i64,
    sequence: i64,
    bytes: &[u8],
) -> Result<PutEntry, Fault> {
    Ok(PutEntry {
        signed_name: copy_of(alloc, path.as_slice())?,
        packing: 1,
        time,
        blocks: blocks_of(alloc, bytes)?,
        packdata: Items::new(alloc),
        link: Items::new(alloc),
        writer: copy_of(alloc, user.text().as_bytes())?,
        name: path,
        attr: 0,
        sequence,
    })
}

// The block that some bytes are; none for no bytes.
fn blocks_of(alloc: Global, bytes: &[u8]) -> Result<Items<Block>, Fault> {
    let mut blocks = Items::new(alloc);
    if !bytes.is_empty() {
        blocks.push(Block {
            location: own(bytes),
            offset: 0,
            size: bytes.len() as u64,
            packdata: Items::new(alloc),
        })?;
    }
    Ok(blocks)
}

// Where these bytes are in the host's own store.
fn own(bytes: &[u8]) -> Location {
    Location {
        endpoint: Endpoint::Local,
        reference: Reference::of(bytes),
    }
}

// What was fetched for these bytes are the bytes, where nothing else was told of them.
fn note(alloc: Global, fetched: &mut Fetched, bytes: Bytes) -> Result<(), Fault> {
    let location = own(bytes.as_slice());
    for pair in fetched.as_slice() {
        if pair.0 == location {
            return Ok(());
        }
    }
    fetched.push((location, Fetch::Got(bytes)))?;
    Ok(())
}

// `block TEXT failed`, `block TEXT missing`, `block TEXT got OTHER`: what is fetched from now on of the block that these bytes are.
fn block_line(alloc: Global, fetched: &mut Fetched, mut words: Words<'_>) -> Result<(), Fault> {
    let text = bytes_of(alloc, words.word()?)?;
    let fetch = match words.word()? {
        "failed" => Fetch::Failed,
        "missing" => Fetch::Missing,
        "got" => Fetch::Got(bytes_of(alloc, words.one()?)?),
        _ => return Err(Fault::BadLine),
    };
    fetched.push((own(text.as_slice()), fetch))?;
    Ok(())
}

/// `load PATH TEXT`: the text of a group is loaded, in place of what was; `load PATH`: it has none.
pub fn load_line(alloc: Global, loaded: &mut Loaded, mut words: Words<'_>) -> Result<(), Fault> {
    let name = path_of(alloc, words.word()?)?;
    let answer = match words.rest() {
        Some(word) => group_of(alloc, &name, word)?,
        None => LoadAnswer::Missing,
    };
    Ok(set(loaded, name, answer)?)
}

fn group_of(alloc: Global, name: &Path, word: &str) -> Result<LoadAnswer, Fault> {
    let text = text_of(alloc, word)?;
    Ok(LoadAnswer::Text(parse_group(name.owner(), text.as_slice())?))
}

fn set(loaded: &mut Loaded, name: Path, answer: LoadAnswer) -> Result<(), AllocError> {
    loaded.set(name, answer)
}
