//! The records of a tree's log.

ghost use Rattle.std.specs.Prelude.{◌≡◌, IfOk, Ok, Err};
ghost use Rattle.up_bytes.specs.Reading.{byte_at, Gives};
ghost use Rattle.up_bytes.specs.Sizes.{size_of};
ghost use Rattle.up_entry.specs.Reading.{control_text_at, put_at, rec_at, rec_of};
ghost use Rattle.up_entry.specs.Spelling as spelling;
ghost use Rattle.up_entry.specs.Spelling.{FitsRec, IsRec, IsSpelledRec};

use crate::entries::Entry;
use crate::kind_rules::is_control_file;
use crate::laws::records_have_one_spelling;
use crate::names::read_path;
use crate::reading::take_entry;
use crate::writing::{entry_size, write_entry};
use std::alloc::{AllocError, Global};
use up_bytes::{
    Bytes, FieldFault, Fields, Reader, Writer, copy_of, num_len, read_whole, text_len, write_whole,
};
use up_names::Path;

/// A record of a tree's log.
#[derive(Debug, Drop, PartialEq, Eq)]
pub enum Rec {
    /// An entry was put, with the text of a control file; the text is empty for any other entry.
    Put(Entry, Bytes),
    /// The item at a path was deleted.
    Delete(Path),
    /// A snapshot was taken, at so many seconds since 1970.
    Snap(u64),
}

impl Clone for Rec {
    ghost is_clone = { λ rec copy. copy ≡ rec };

    fn clone(&self) -> Result<Rec, AllocError> {
        match self {
            Rec::Put(entry, control) => {
                let copy = copy_of(control.allocator(), control.as_slice())?;
                Ok(Rec::Put(entry.clone()?, copy))
            }
            Rec::Delete(path) => Ok(Rec::Delete(path.clone()?)),
            Rec::Snap(time) => Ok(Rec::Snap(*time)),
        }
    }
}

/// A record is a tag and its fields: 01 and an entry with its text, 02 and a path, or 03 and a time.
impl Fields for Rec {
    ghost spelling = { spelling.rec };

    ghost read_at = { rec_at };

    ghost comes_first = { λ input fault. byte_at input ≡ Err fault };

    ghost IsTyped = { IsRec };

    #[tactic(auto, unfolding(up_bytes::specs::Reading::tagged_at))]
    fn take(alloc: Global, input: &mut Reader) -> Result<Rec, FieldFault> {
        let place = input.place();
        match input.byte()? {
            1 => take_put(alloc, input),
            2 => Ok(Rec::Delete(read_path(alloc, input)?)),
            3 => Ok(Rec::Snap(input.num()?)),
            _ => Err(FieldFault::Spelling(place)),
        }
    }

    fn append(&self, out: &mut Writer) -> Result<(), AllocError> {
        match self {
            Rec::Put(entry, control) => {
                out.byte(1)?;
                write_entry(entry, out)?;
                out.text(control.as_slice())
            }
            Rec::Delete(path) => {
                out.byte(2)?;
                out.text(path.as_str().as_bytes())
            }
            Rec::Snap(time) => {
                out.byte(3)?;
                out.num(*time)
            }
        }
    }

    fn size(&self) -> u64 {
        match self {
            Rec::Put(entry, control) => entry_size(entry)
                .saturating_add(1)
                .saturating_add(text_len(control.as_slice())),
            Rec::Delete(path) => text_len(path.as_str().as_bytes()).saturating_add(1),
            Rec::Snap(time) => num_len(*time).saturating_add(1),
        }
    }
}

/// A record's bytes, in their one spelling.
pub fn write_rec(alloc: Global, rec: &Rec) -> Result<Bytes, AllocError>
    ensures written { IfOk result (λ bytes. bytes ≡ spelling.rec rec.now) }

    // What is written of a record that has a spelling is read again.
    ensures again { IfOk result (λ bytes. IsSpelledRec rec.now → rec_of bytes ≡ Ok rec.now) }
{
    let bytes = write_whole(alloc, rec)?;
    is_read_again(rec, bytes.as_slice());
    Ok(bytes)
}

/// How many bytes a record's spelling has, or 2^64 - 1 where there are more. It takes no memory.
pub fn rec_size(rec: &Rec) -> u64
    ensures { result ≡ size_of (spelling.rec rec.now) }
{
    rec.size()
}

/// The record that is the whole of these bytes.
///
/// The fault is `Short` where the input ends within a field, else `Spelling` with the place of the first field that is no
/// spelling of a value that may stand there, or, behind the last field, of the first byte that is left.
pub fn read_rec(alloc: Global, bytes: &[u8]) -> Result<Rec, FieldFault>
    ensures exact { Gives (λ r. r) result (rec_of bytes.now) }

    // The bytes are the spelling of the record that is given.
    ensures spelled { IfOk result (λ r. bytes.now ≡ spelling.rec r) }
    ensures fits { IfOk result (λ r. FitsRec r) }
{
    let rec = read_whole(alloc, bytes)?;
    is_spelled(&rec, bytes);
    Ok(rec)
}

/// The bytes that spell a record are read as this record.
fn is_read_again(rec: &Rec, bytes: &[u8])
    ensures { FitsRec rec.now → bytes.now ≡ spelling.rec rec.now → rec_of bytes.now ≡ Ok rec.now }
{
    records_have_one_spelling();
}

/// What is read as a record has a spelling, which is what was read.
fn is_spelled(rec: &Rec, bytes: &[u8])
    ensures { rec_of bytes.now ≡ Ok rec.now → FitsRec rec.now × (bytes.now ≡ spelling.rec rec.now) }
{
    records_have_one_spelling();
}

/// Takes an entry without the incomplete mark, and the text beside it. A refused call leaves the place anywhere.
#[tactic(auto, unfolding(crate::specs::Reading::put_at))]
fn take_put(alloc: Global, input: &mut Reader) -> Result<Rec, FieldFault>
    ensures { Gives (λ r. (r, input.new)) result (put_at input.old) }
{
    let entry = take_entry(alloc, input, false)?;
    let control = take_control_text(alloc, input, &entry)?;
    Ok(Rec::Put(entry, control))
}

/// Takes the text kept beside an entry, which is empty where the entry is no control file. A refused call leaves the place
/// anywhere.
#[tactic(auto, unfolding(crate::specs::Reading::control_text_at))]
fn take_control_text(alloc: Global, input: &mut Reader, entry: &Entry) -> Result<Bytes, FieldFault>
    ensures { Gives (λ text. (text, input.new)) result (control_text_at entry.now input.old) }
{
    let place = input.place();
    let text = input.text(alloc)?;
    if !text.is_empty() && !is_control_file(entry.attr.kind, &entry.name) {
        return Err(FieldFault::Spelling(place));
    }
    Ok(text)
}
