//! What a key server keeps.
use super::read::Message;
use std::alloc::{AllocError, Global};
use up_bytes::{Bytes, FieldFault};
use up_case_lines::{Answer, add_endpoint};
use up_entry::Endpoint;
use up_wire::{KeyCard, KeyRecord, key_record_size, read_key_record, write_key_record};

impl Message for KeyRecord {
    fn read(alloc: Global, bytes: &[u8]) -> Result<KeyRecord, FieldFault> {
        read_key_record(alloc, bytes)
    }

    fn written(&self, alloc: Global) -> Result<Bytes, AllocError> {
        write_key_record(alloc, self)
    }

    fn has_size(&self, bytes: u64) -> bool {
        key_record_size(self) == bytes
    }

    fn add(&self, _alloc: Global, answer: &mut Answer) {
        add_record(self, answer);
    }
}

/// Adds a record: its user, directories, stores and key.
pub fn add_record(known: &KeyRecord, answer: &mut Answer) {
    answer.coded(known.user.text().as_bytes());
    add_endpoints(known.dirs.as_slice(), answer);
    add_endpoints(known.stores.as_slice(), answer);
    answer.coded(known.key.as_slice());
}

/// Adds what is handed in as a record.
pub fn add_card(card: &KeyCard, answer: &mut Answer) {
    answer.coded(card.user.as_slice());
    add_endpoints(card.dirs.as_slice(), answer);
    add_endpoints(card.stores.as_slice(), answer);
    answer.coded(card.key.as_slice());
}

// A word for a list of endpoints: `none`, or each behind a `@`.
fn add_endpoints(endpoints: &[Endpoint], answer: &mut Answer) {
    if endpoints.is_empty() {
        answer.word("none");
        return;
    }
    answer.begin();
    for endpoint in endpoints {
        answer.push("@");
        add_endpoint(endpoint, answer);
    }
}
