//! What a client sends.
use super::known::add_card;
use super::read::Message;
use std::alloc::{AllocError, Global};
use up_bytes::{Bytes, FieldFault};
use up_case_lines::{Answer, add_blocks};
use up_entry::PutEntry;
use up_wire::{ClientFrame, Request, read_client, write_client};

impl Message for ClientFrame {
    fn read(alloc: Global, bytes: &[u8]) -> Result<ClientFrame, FieldFault> {
        read_client(alloc, bytes)
    }

    fn written(&self, alloc: Global) -> Result<Bytes, AllocError> {
        write_client(alloc, self)
    }

    fn has_size(&self, _bytes: u64) -> bool {
        true
    }

    fn add(&self, alloc: Global, answer: &mut Answer) {
        add_client(alloc, self, answer);
    }
}

fn add_client(alloc: Global, frame: &ClientFrame, answer: &mut Answer) {
    match frame {
        ClientFrame::Hello(user) => add_text("hello", user, answer),
        ClientFrame::Proof(signature) => add_text("proof", signature, answer),
        ClientFrame::Bye => answer.word("bye"),
        ClientFrame::Ask(asked) => add_request(alloc, asked, answer),
    }
}

fn add_text(word: &str, text: &Bytes, answer: &mut Answer) {
    answer.word(word);
    answer.coded(text.as_slice());
}

/// Adds what is asked: a word for the request, and its fields.
pub fn add_request(alloc: Global, asked: &Request, answer: &mut Answer) {
    match asked {
        Request::Lookup(path) => add_text("lookup", path, answer),
        Request::Put(put) => add_put(alloc, put, answer),
        Request::Delete(path) => add_text("delete", path, answer),
        Request::Glob(pattern) => add_text("glob", pattern, answer),
        Request::WhichAccess(path) => add_text("which", path, answer),
        Request::Watch(path, sequence) => {
            add_text("watch", path, answer);
            answer.int(*sequence);
        }
        Request::GroupText(path) => add_text("text", path, answer),
        Request::Get(reference) => add_text("fetch", reference, answer),
        Request::StorePut(block) => add_text("store", block, answer),
        Request::StoreDelete(reference) => add_text("drop", reference, answer),
        Request::KeyLookup(user) => add_text("key", user, answer),
        Request::KeyPut(card) => {
            answer.word("setkey");
            add_card(card, answer);
        }
    }
}

// An entry that is handed in: ten words in the order of its fields, the sequence before the blocks.
fn add_put(alloc: Global, put: &PutEntry, answer: &mut Answer) {
    answer.word("put");
    answer.coded(put.name.as_slice());
    answer.coded(put.signed_name.as_slice());
    answer.number(u64::from(put.packing));
    answer.int(put.time);
    answer.coded(put.writer.as_slice());
    answer.number(u64::from(put.attr));
    answer.coded(put.link.as_slice());
    answer.coded(put.packdata.as_slice());
    answer.int(put.sequence);
    add_blocks(alloc, put.blocks.as_slice(), answer);
}
