//! What a key server keeps of a user.

ghost use Rattle.std.specs.Prelude.{◌≡◌, IfOk, Ok, Err};
ghost use Rattle.up_bytes.specs.First.{IsFirst};
ghost use Rattle.up_bytes.specs.Reading.{Gives, from_start, text_at};
ghost use Rattle.up_bytes.specs.Sizes.{size_of};
ghost use Rattle.up_wire.specs.First.{logged_fails};
ghost use Rattle.up_wire.specs.Keys.{FitsKeyRecord, IsKeyCard, IsKeyRecord, IsSpelledKeyRecord, key_card, key_card_at, key_record, key_record_at, logged, logged_of};

use crate::laws::key_records_have_one_spelling;
use std::alloc::{AllocError, Global};
use up_bytes::{
    Bytes, FieldFault, Fields, Reader, Writer, list_size, read_list, text_len, write_list,
};
use up_entry::{Endpoint, read_user};
use up_lists::Items;
use up_names::User;

/// A user's record as it is handed to a key server, of which nothing is known yet.
#[derive(Debug, Drop, PartialEq, Eq)]
pub struct KeyCard {
    pub user: Bytes,
    /// Where the user's directories are, the first one first.
    pub dirs: Items<Endpoint>,
    /// Where the user's blocks are kept, the first one first.
    pub stores: Items<Endpoint>,
    /// The user's public key.
    pub key: Bytes,
}

/// A user's record.
#[derive(Debug, Drop, PartialEq, Eq)]
pub struct KeyRecord {
    pub user: User,
    /// Where the user's directories are, the first one first.
    pub dirs: Items<Endpoint>,
    /// Where the user's blocks are kept, the first one first.
    pub stores: Items<Endpoint>,
    /// The user's public key.
    pub key: Bytes,
}

impl Fields for KeyCard {
    ghost spelling = { key_card };

    ghost read_at = { key_card_at };

    ghost comes_first = { λ input fault. text_at input ≡ Err fault };

    ghost IsTyped = { IsKeyCard };

    #[tactic(auto, unfolding(crate::specs::Keys::key_card_at))]
    fn take(alloc: Global, input: &mut Reader) -> Result<KeyCard, FieldFault> {
        let user = input.text(alloc)?;
        let dirs = read_list(alloc, input)?;
        let stores = read_list(alloc, input)?;
        let key = input.text(alloc)?;
        Ok(KeyCard {
            user,
            dirs,
            stores,
            key,
        })
    }

    #[tactic(auto, unfolding(crate::specs::Keys::key_card))]
    fn append(&self, out: &mut Writer) -> Result<(), AllocError> {
        out.text(self.user.as_slice())?;
        write_list(self.dirs.as_slice(), out)?;
        write_list(self.stores.as_slice(), out)?;
        out.text(self.key.as_slice())
    }

    #[tactic(auto, unfolding(crate::specs::Keys::key_card))]
    fn size(&self) -> u64 {
        text_len(self.user.as_slice())
            .saturating_add(list_size(self.dirs.as_slice()))
            .saturating_add(list_size(self.stores.as_slice()))
            .saturating_add(text_len(self.key.as_slice()))
    }
}

impl Fields for KeyRecord {
    ghost spelling = { key_record };

    ghost read_at = { key_record_at };

    ghost comes_first = { λ input fault. text_at input ≡ Err fault };

    ghost IsTyped = { IsKeyRecord };

    #[tactic(auto, unfolding(crate::specs::Keys::key_record_at))]
    fn take(alloc: Global, input: &mut Reader) -> Result<KeyRecord, FieldFault> {
        let user = read_user(alloc, input)?;
        let dirs = read_list(alloc, input)?;
        let stores = read_list(alloc, input)?;
        let key = input.text(alloc)?;
        Ok(KeyRecord {
            user,
            dirs,
            stores,
            key,
        })
    }

    #[tactic(auto, unfolding(crate::specs::Keys::key_record))]
    fn append(&self, out: &mut Writer) -> Result<(), AllocError> {
        out.text(self.user.text().as_bytes())?;
        write_list(self.dirs.as_slice(), out)?;
        write_list(self.stores.as_slice(), out)?;
        out.text(self.key.as_slice())
    }

    #[tactic(auto, unfolding(crate::specs::Keys::key_record))]
    fn size(&self) -> u64 {
        text_len(self.user.text().as_bytes())
            .saturating_add(list_size(self.dirs.as_slice()))
            .saturating_add(list_size(self.stores.as_slice()))
            .saturating_add(text_len(self.key.as_slice()))
    }
}

/// The bytes of a record of a key server's log: 01 and its fields.
pub fn write_key_record(alloc: Global, known: &KeyRecord) -> Result<Bytes, AllocError>
    ensures written { IfOk result (λ bytes. bytes ≡ logged known.now) }

    // What is written of a record that has a spelling is read again.
    ensures again { IfOk result
        (λ bytes. IsSpelledKeyRecord known.now → logged_of bytes ≡ Ok known.now) }
{
    let mut out = Writer::with_capacity(alloc, key_record_size(known))?;
    out.byte(1)?;
    known.write(&mut out)?;
    let bytes = out.finish();
    is_read_again(known, bytes.as_slice());
    Ok(bytes)
}

/// How many bytes a record of a key server's log has, or 2^64 - 1 where there are more. It takes no memory.
pub fn key_record_size(known: &KeyRecord) -> u64
    ensures { result ≡ size_of (logged known.now) }
{
    known.size().saturating_add(1)
}

/// The record of a key server's log that is the whole of these bytes.
///
/// The fault is `Short` where the input ends within a field, else `Spelling` with the place of the first field that is no
/// spelling of a value that may stand there, or, behind the last field, of the first byte that is left.
pub fn read_key_record(alloc: Global, bytes: &[u8]) -> Result<KeyRecord, FieldFault>
    ensures exact { Gives (λ found. found) result (logged_of bytes.now) }

    // Where the tag is refused, or the user's text behind it, so is the record, however much memory there is.
    ensures first { IsFirst (logged_fails (from_start bytes.now)) result }

    // The bytes are the spelling of the record that is given.
    ensures spelled { IfOk result (λ found. bytes.now ≡ logged found) }
    ensures fits { IfOk result (λ found. FitsKeyRecord found) }
{
    let found = take_logged(alloc, bytes)?;
    is_spelled(&found, bytes);
    Ok(found)
}

/// Takes the record that is the whole of these bytes.
#[tactic(auto, unfolding(up_bytes::specs::Reading::whole_of, up_bytes::specs::Reading::tagged_at))]
fn take_logged(alloc: Global, bytes: &[u8]) -> Result<KeyRecord, FieldFault>
    ensures exact { Gives (λ found. found) result (logged_of bytes.now) }
    ensures first { IsFirst (logged_fails (from_start bytes.now)) result }
{
    let mut input = Reader::new(bytes);
    let tag = input.byte()?;
    if tag != 1 {
        return Err(FieldFault::Spelling(0));
    }
    let found = KeyRecord::take(alloc, &mut input)?;
    if !input.at_end() {
        return Err(FieldFault::Spelling(input.place()));
    }
    Ok(found)
}

/// The bytes that spell a record are read as this record.
fn is_read_again(known: &KeyRecord, bytes: &[u8])
    ensures { FitsKeyRecord known.now → bytes.now ≡ logged known.now → logged_of bytes.now
        ≡ Ok known.now }
{
    key_records_have_one_spelling();
}

/// What is read as a record has a spelling, which is what was read.
fn is_spelled(known: &KeyRecord, bytes: &[u8])
    ensures { logged_of bytes.now ≡ Ok known.now
        → FitsKeyRecord known.now × (bytes.now ≡ logged known.now) }
{
    key_records_have_one_spelling();
}
