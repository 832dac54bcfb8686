//! What is asked, by words.
use std::alloc::{AllocError, Global};
use up_bytes::{Bytes, copy_of};
use up_case_lines::{Fault, bytes_of};
use up_entry::{Block, Endpoint, Location};
use up_lists::Items;
use up_names::User;
use up_refs::Reference;
use up_text::read_request;
use up_wire::Request;

/// The words that tell of a file: its bytes are one block at an address, `-` for the store of the host, or none where there are none.
#[derive(Clone, Copy)]
pub struct File<'a> {
    pub path: &'a str,
    pub time: &'a str,
    pub sequence: &'a str,
    pub address: &'a str,
    pub bytes: &'a str,
}

/// The request that the words of a line ask for a user.
pub fn line_request(alloc: Global, user: &User, line: &str) -> Result<Request, Fault> {
    let words = words_of(alloc, line)?;
    let request = request_of(alloc, user, words.as_slice());
    drop(words);
    request
}

fn request_of(alloc: Global, user: &User, words: &[Bytes]) -> Result<Request, Fault> {
    match read_request(alloc, words, user) {
        Ok(Some(request)) => Ok(request),
        Ok(None) => Err(Fault::BadLine),
        Err(_) => Err(Fault::OutOfMemory),
    }
}

// The words of a line, each as it stands.
fn words_of(alloc: Global, line: &str) -> Result<Vec<Bytes>, AllocError> {
    let mut words = Vec::new(alloc);
    for word in line.split(' ') {
        add_word(alloc, word, &mut words)?;
    }
    Ok(words)
}

fn add_word(alloc: Global, word: &str, words: &mut Vec<Bytes>) -> Result<(), AllocError> {
    words.push(copy_of(alloc, word.as_bytes())?)?;
    Ok(())
}

/// The request to store the bytes of a word.
pub fn store_request(alloc: Global, word: &str) -> Result<Request, Fault> {
    Ok(Request::StorePut(bytes_of(alloc, word)?))
}

/// The request to put a file.
pub fn file_request(alloc: Global, user: &User, file: File<'_>) -> Result<Request, Fault> {
    let line = file_line(alloc, file)?;
    let request = line_request(alloc, user, line.as_str());
    drop(line);
    with_block(alloc, request?, file)
}

// The line that puts a file without a block.
fn file_line(alloc: Global, file: File<'_>) -> Result<String, AllocError> {
    let (path, time, sequence) = (file.path, file.time, file.sequence);
    format!(in alloc; "file {path} 1 {time} {sequence} - -")
}

fn with_block(alloc: Global, mut request: Request, file: File<'_>) -> Result<Request, Fault> {
    match add_block(alloc, &mut request, file) {
        Ok(()) => Ok(request),
        Err(fault) => {
            drop(request);
            Err(fault)
        }
    }
}

fn add_block(alloc: Global, request: &mut Request, file: File<'_>) -> Result<(), Fault> {
    match request {
        Request::Put(put) if file.bytes != "-" => push_block(alloc, &mut put.blocks, file),
        _ => Ok(()),
    }
}

fn push_block(alloc: Global, blocks: &mut Items<Block>, file: File<'_>) -> Result<(), Fault> {
    blocks.push(block_of(alloc, file)?)?;
    Ok(())
}

fn block_of(alloc: Global, file: File<'_>) -> Result<Block, Fault> {
    let (reference, size) = digest_of(alloc, file.bytes)?;
    let endpoint = endpoint_of(alloc, file.address)?;
    Ok(Block {
        location: Location {
            endpoint,
            reference,
        },
        offset: 0,
        size,
        packdata: Items::new(alloc),
    })
}

// The reference of the bytes that a word stands for, and how many they are.
fn digest_of(alloc: Global, word: &str) -> Result<(Reference, u64), Fault> {
    let bytes = bytes_of(alloc, word)?;
    let digest = (Reference::of(bytes.as_slice()), bytes.len());
    drop(bytes);
    Ok(digest)
}

fn endpoint_of(alloc: Global, address: &str) -> Result<Endpoint, Fault> {
    match address {
        "-" => Ok(Endpoint::Local),
        _ => Ok(Endpoint::Address(bytes_of(alloc, address)?)),
    }
}
