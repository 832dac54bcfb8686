//! Entries, blocks and endpoints as fields: each is taken, appended and measured here.

ghost use Rattle.std.specs.Prelude.{◌≡◌, ◌++◌, ℕ, suc, is_ok, if◌then◌else◌, IfOk, Ok, Err, OnErr, true};
ghost use Rattle.up_bytes.specs.declared.fault.FieldFault.{FieldFault};
ghost use Rattle.up_bytes.specs.Input.{Input};
ghost use Rattle.up_bytes.specs.Reading.{FaultFirst, Gives, num_at, text_at};
ghost use Rattle.up_bytes.specs.Spelling.{list, text, IsList, IsText};
ghost use Rattle.up_entry.specs.Reading.{block_at, blocks_at, endpoint_at, endpoint_in, entry_at};
ghost use Rattle.up_entry.specs.Spelling as spelling;
ghost use Rattle.up_entry.specs.Spelling.{endpoint_text, IsBlock, IsEntry};

use crate::entries::{Block, Endpoint, Entry, Location};
use crate::reading::take_entry;
use crate::writing::{append_entry, entry_size};
use std::alloc::{AllocError, Global};
use up_bytes::{
    FieldFault, Fields, Reader, Writer, copy_of, num_len, read_list, text_len, write_list,
};
use up_lists::Items;
use up_refs::Reference;

/// An endpoint is the text of its address, which may be any; the host's own store is the empty text.
impl Fields for Endpoint {
    ghost spelling = { λ endpoint. text (endpoint_text endpoint) };

    ghost read_at = { endpoint_at };

    ghost comes_first = { λ input fault. endpoint_at input ≡ Err fault };

    ghost IsTyped = { λ endpoint. IsText (endpoint_text endpoint) };

    #[tactic(auto, unfolding(crate::specs::Reading::endpoint_at))]
    fn take(alloc: Global, input: &mut Reader) -> Result<Endpoint, FieldFault> {
        let address = input.slice()?;
        Ok(endpoint_of(alloc, address)?)
    }

    fn append(&self, out: &mut Writer) -> Result<(), AllocError> {
        out.text(endpoint_text(self))
    }

    fn size(&self) -> u64 {
        text_len(endpoint_text(self))
    }
}

/// A block is its endpoint, its reference, its offset, its size and its packdata.
impl Fields for Block {
    ghost spelling = { spelling.block };

    ghost read_at = { block_at };

    ghost comes_first = { λ input fault. block_at input ≡ Err fault };

    ghost IsTyped = { IsBlock };

    #[tactic(auto, unfolding(crate::specs::Reading::block_at, crate::specs::Reading::endpoint_at))]
    fn take(alloc: Global, input: &mut Reader) -> Result<Block, FieldFault> {
        let address = input.slice()?;
        let reference = Reference::from_bytes(input.bytes_32()?);
        let offset = input.num()?;
        let size = input.num()?;
        let packdata = input.slice()?;
        Ok(Block {
            location: Location {
                endpoint: endpoint_of(alloc, address)?,
                reference,
            },
            offset,
            size,
            packdata: copy_of(alloc, packdata)?,
        })
    }

    #[tactic(auto, unfolding(crate::specs::Spelling::block))]
    fn append(&self, out: &mut Writer) -> Result<(), AllocError> {
        out.text(endpoint_text(&self.location.endpoint))?;
        out.raw(self.location.reference.bytes())?;
        out.num(self.offset)?;
        out.num(self.size)?;
        out.text(self.packdata.as_slice())
    }

    #[tactic(auto, unfolding(crate::specs::Spelling::block))]
    fn size(&self) -> u64 {
        text_len(endpoint_text(&self.location.endpoint))
            .saturating_add(self.location.reference.bytes().len() as u64)
            .saturating_add(num_len(self.offset))
            .saturating_add(num_len(self.size))
            .saturating_add(text_len(self.packdata.as_slice()))
    }
}

/// An entry, whole or with the incomplete mark.
impl Fields for Entry {
    ghost spelling = { spelling.entry };

    ghost read_at = { entry_at true };

    ghost comes_first = { λ input fault. text_at input ≡ Err fault };

    ghost IsTyped = { IsEntry };

    fn take(alloc: Global, input: &mut Reader) -> Result<Entry, FieldFault> {
        take_entry(alloc, input, true)
    }

    fn append(&self, out: &mut Writer) -> Result<(), AllocError> {
        append_entry(self, out)
    }

    fn size(&self) -> u64 {
        entry_size(self)
    }
}

/// The endpoint of this address, which is the host's own store where there is none.
fn endpoint_of(alloc: Global, address: &[u8]) -> Result<Endpoint, AllocError>
    ensures { IfOk result (λ endpoint. endpoint ≡ endpoint_in address.now) }
{
    if address.is_empty() {
        Ok(Endpoint::Local)
    } else {
        Ok(Endpoint::Address(copy_of(alloc, address)?))
    }
}

/// The text of an endpoint's address, empty for the host's own store.
fn endpoint_text(endpoint: &Endpoint) -> &[u8]
    ensures { result.now ≡ endpoint_text endpoint.now }
{
    match endpoint {
        Endpoint::Local => &[],
        Endpoint::Address(address) => address.as_slice(),
    }
}

/// Takes an endpoint from the front of the input: the host's own store for the empty text, else the address, which may be
/// any. A refused call leaves the place where it was.
pub fn read_endpoint(alloc: Global, input: &mut Reader) -> Result<Endpoint, FieldFault>
    ensures exact { Gives (λ endpoint. (endpoint, input.new)) result (endpoint_at input.old) }
    ensures first { FaultFirst (endpoint_at input.old) result }
    ensures err { OnErr result (input.new ≡ input.old) }
{
    Endpoint::read(alloc, input)
}

/// Appends an endpoint, in its one spelling: the address as a text, which is empty for the host's own store. A call that
/// finds no memory appends nothing.
pub fn write_endpoint(endpoint: &Endpoint, out: &mut Writer) -> Result<(), AllocError>
    ensures written { out.new ≡
        (if is_ok result then out.old ++ text (endpoint_text endpoint.now) else out.old) }
    ensures typed { IfOk result (λ _. IsText (endpoint_text endpoint.now)) }
{
    endpoint.write(out)
}

/// Takes a number of blocks and the blocks from the front of the input. The number reserves nothing before they are there.
/// A refused call leaves the place where it was.
pub fn read_blocks(alloc: Global, input: &mut Reader) -> Result<Items<Block>, FieldFault>
    ensures exact { Gives (λ blocks. (blocks, input.new)) result (blocks_at input.old) }

    // Where the number or the first block is refused, so are the blocks, before any memory is asked for.
    ensures number { FaultFirst (num_at input.old) result }
    ensures first { (n : ℕ) (rest : Input) (fault : FieldFault) →
        num_at input.old ≡ Ok (suc n, rest) → block_at rest ≡ Err fault → result ≡ Err fault }
    ensures err { OnErr result (input.new ≡ input.old) }
{
    read_list(alloc, input)
}

/// Appends the number of blocks and the blocks, in their one spelling. A call that finds no memory appends nothing.
pub fn write_blocks(blocks: &Items<Block>, out: &mut Writer) -> Result<(), AllocError>
    ensures written { out.new ≡
        (if is_ok result then out.old ++ list spelling.block blocks.now else out.old) }

    // With addresses as they have to be, they are blocks that are read again, by the law `parts_have_one_spelling`.
    ensures typed { IfOk result (λ _. IsList IsBlock blocks.now) }
{
    write_list(blocks.as_slice(), out)
}
