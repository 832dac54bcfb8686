//! Raw entries as fields.

ghost use Rattle.std.specs.Prelude.{◌≡◌, IfOk, Err, take};
ghost use Rattle.up_bytes.specs.Reading.{text_at};
ghost use Rattle.up_entry.specs.RawEntries.{raw_entry, raw_entry_at, IsRawEntry};

use crate::front::Front;
use crate::puts::PutEntry;
use std::alloc::{AllocError, Global};
use up_bytes::{
    Bytes, FieldFault, Fields, Reader, Writer, copy_of, int_len, list_size, read_list, text_len,
    write_list,
};

/// A raw entry has the fields of an entry, in the same order: each name as any text, packing and attr as any byte, and the
/// sequence as a signed number.
impl Fields for PutEntry {
    ghost spelling = { raw_entry };

    ghost read_at = { raw_entry_at };

    ghost comes_first = { λ input fault. text_at input ≡ Err fault };

    ghost IsTyped = { IsRawEntry };

    #[tactic(auto, unfolding(crate::specs::RawEntries::raw_entry_at))]
    fn take(alloc: Global, input: &mut Reader) -> Result<PutEntry, FieldFault> {
        let name = input.slice()?;
        let signed_name = input.slice()?;
        let packing = input.byte()?;
        let time = input.int()?;
        let writer = input.slice()?;
        let attr = input.byte()?;
        let link = input.slice()?;
        let packdata = input.slice()?;
        let blocks = read_list(alloc, input)?;
        let sequence = match input.int() {
            Ok(sequence) => sequence,
            Err(fault) => {
                drop(blocks);
                return Err(fault);
            }
        };
        match copied(alloc, name, signed_name, writer, link, packdata) {
            Ok((name, signed_name, writer, link, packdata)) => Ok(PutEntry {
                signed_name,
                packing,
                time,
                blocks,
                packdata,
                link,
                writer,
                name,
                attr,
                sequence,
            }),
            Err(AllocError) => {
                drop(blocks);
                Err(FieldFault::OutOfMemory)
            }
        }
    }

    #[tactic(auto, unfolding(crate::specs::RawEntries::raw_entry))]
    fn append(&self, out: &mut Writer) -> Result<(), AllocError> {
        front_of(self).write(out)?;
        out.text(self.link.as_slice())?;
        out.text(self.packdata.as_slice())?;
        write_list(self.blocks.as_slice(), out)?;
        out.int(self.sequence)
    }

    #[tactic(auto, unfolding(crate::specs::RawEntries::raw_entry))]
    fn size(&self) -> u64 {
        front_of(self)
            .size()
            .saturating_add(text_len(self.link.as_slice()))
            .saturating_add(text_len(self.packdata.as_slice()))
            .saturating_add(list_size(self.blocks.as_slice()))
            .saturating_add(int_len(self.sequence))
    }
}

/// A copy of each text of a raw entry: its name, its signed name, its writer, its link and its pack data.
fn copied(
    alloc: Global,
    name: &[u8],
    signed_name: &[u8],
    writer: &[u8],
    link: &[u8],
    packdata: &[u8],
) -> Result<(Bytes, Bytes, Bytes, Bytes, Bytes), AllocError>
    ensures { IfOk result
        (λ copy. copy ≡ (name.now, signed_name.now, writer.now, link.now, packdata.now)) }
{
    let name = copy_of(alloc, name)?;
    let signed_name = copy_of(alloc, signed_name)?;
    let writer = copy_of(alloc, writer)?;
    let link = copy_of(alloc, link)?;
    let packdata = copy_of(alloc, packdata)?;
    Ok((name, signed_name, writer, link, packdata))
}

/// What stands in front of a raw entry's link.
fn front_of(put: &PutEntry) -> Front<'_>
    ensures texts { (result.name.now ≡ put.now.name) ×
        (result.signed_name.now ≡ put.now.signed_name) × (result.writer.now ≡ put.now.writer) }
    ensures others { (result.packing ≡ put.now.packing) × (result.time ≡ put.now.time) ×
        (result.attr ≡ put.now.attr) }
{
    Front {
        name: put.name.as_slice(),
        signed_name: put.signed_name.as_slice(),
        packing: put.packing,
        time: put.time,
        writer: put.writer.as_slice(),
        attr: put.attr,
    }
}
