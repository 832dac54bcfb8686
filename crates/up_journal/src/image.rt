//! The image of the second format that is made of the log of the first.
ghost use Rattle.std.specs.Prelude.{◌≡◌, ◌≤◌, ◌<◌, ◌+◌, ◌^◌, ◌++◌, ◌∷◌, [], length, take, IfErr, IfOk, IfSome, IsErrOf, OnOk};
ghost use Rattle.std.specs.List.{AllByRecursion};
ghost use Rattle.up_refs.specs.Sha256.{sha256};
ghost use Rattle.up_disk.specs.Disk.{part};
ghost use Rattle.up_lists.specs.Counts.{HasCause, StaysUnless};
ghost use Rattle.up_journal.specs.Cells.{OnlyRead};
ghost use Rattle.up_journal.specs.Format2.{format2, head_size};
ghost use Rattle.up_journal.specs.Gates.{first_gate, record_bytes};
ghost use Rattle.up_journal.specs.Images.{image_of};
ghost use Rattle.up_journal.specs.Journal.{AreLimits, bytes_of};
ghost use Rattle.up_journal.specs.Kept.{EndsBy, payloads_at, sizes_of};
ghost use Rattle.up_journal.specs.Moving.{IsTooLong, KeepUpTo};

use crate::fault::ReadWhy;
use crate::format::{CLOSED, FIRST_GATE, FIRST_LINK, HEAD, NAME, add_record};
use crate::limits::{Limits, Span, is_full};
use crate::read::read_record;
use std::alloc::{AllocError, Global};
use up_disk::Disk;
use up_refs::Reference;

/// The bytes of the image; or how many records keep the limits, where the next would pass them.
pub fn image_size(limits: Limits, spans: &[Span]) -> Result<u64, u64>
    requires { AreLimits limits }
    ensures kept { OnOk result (KeepUpTo limits (sizes_of spans.now) (length spans.now)) }
    ensures size { IfOk result (λ size. size ≡ bytes_of (sizes_of spans.now)) }
    ensures small { IfOk result (λ size. size ≤ 2 ^ 62) }
    ensures over { IfErr result (IsTooLong limits (sizes_of spans.now)) }
{
    let mut gate = FIRST_GATE;
    for (n, span) in spans.iter().enumerate() {
        if is_full(limits, n as u64, gate, span.size) {
            return Err(n as u64);
        }
        gate += HEAD + span.size;
    }
    Ok(gate + 1)
}

// The image so far, the link that the next record will carry, and room for a payload.
#[derive(Drop)]
struct Gathering {
    image: Vec<u8>,
    link: Reference,
    payload: Vec<u8>,
}

/// The image that is made of the payloads at these places.
pub fn gathered<D: Disk>(
    alloc: Global,
    disk: &mut D,
    spans: &[Span],
    size: u64,
) -> Result<Vec<u8>, ReadWhy>
    requires within { AllByRecursion (EndsBy (D.size_of disk.old)) spans.now }
    requires fitting { AllByRecursion (λ size. size < 2 ^ 32) (sizes_of spans.now) }
    requires size { size ≡ bytes_of (sizes_of spans.now) }
    ensures image { IfOk result (λ image. IfSome (D.content disk.old)
        (λ bytes. image.items ≡ image_of format2 (payloads_at spans.now bytes))) }
    ensures named { IfOk result (λ image. take first_gate image.items ≡ format2.name) }
    ensures long { IfOk result (λ image. length image.items ≡ size) }
    ensures read { OnlyRead D.Disk disk.old disk.new }
    ensures counts { HasCause (D.faults disk.old) (D.faults disk.new)
        (IsErrOf result ReadWhy.Fault) }
    ensures quiet { StaysUnless (D.faults disk.old) (D.faults disk.new)
        (IsErrOf result ReadWhy.Fault) }
{
    let mut so_far = begun(alloc, size)?;
    for span in spans {
        gather(disk, &mut so_far, *span)?;
    }
    Ok(closed(so_far)?)
}

// The image of no record, but for its last gate, with room for this many bytes.
fn begun(alloc: Global, size: u64) -> Result<Gathering, AllocError>
    ensures image { IfOk result (λ so_far. so_far.image.items ≡ format2.name) }
    ensures link { IfOk result (λ so_far. so_far.link ≡ format2.first_link) }
{
    let mut image = Vec::with_capacity(alloc, size as usize)?;
    image.extend_from_slice(&NAME)?;
    Ok(Gathering {
        image,
        link: Reference::from_bytes(FIRST_LINK),
        payload: Vec::new(alloc),
    })
}

// The image with its last gate.
fn closed(so_far: Gathering) -> Result<Vec<u8>, AllocError>
    ensures { IfOk result (λ image. image.items ≡ so_far.image.items ++ 0 ∷ []) }
{
    let mut image = so_far.image;
    image.push(CLOSED)?;
    Ok(image)
}

// Reads one payload more, and puts its record behind an open gate.
fn gather<D: Disk>(disk: &mut D, so_far: &mut Gathering, span: Span) -> Result<(), ReadWhy>
    requires within { span.at + span.size ≤ D.size_of disk.old }
    requires fits { span.size < 2 ^ 32 }
    ensures payload { OnOk result (IfSome (D.content disk.old)
        (λ bytes. so_far.new.payload.items ≡ part span.at span.size bytes)) }
    ensures image { OnOk result (so_far.new.image.items ≡ so_far.old.image.items
        ++ 1 ∷ record_bytes so_far.old.link so_far.new.payload.items) }
    ensures link { OnOk result (so_far.new.link
        ≡ sha256 (record_bytes so_far.old.link so_far.new.payload.items)) }
    ensures long { OnOk result (length so_far.new.image.items
        ≡ length so_far.old.image.items + (span.size + head_size)) }
    ensures read { OnlyRead D.Disk disk.old disk.new }
    ensures counts { HasCause (D.faults disk.old) (D.faults disk.new)
        (IsErrOf result ReadWhy.Fault) }
    ensures quiet { StaysUnless (D.faults disk.old) (D.faults disk.new)
        (IsErrOf result ReadWhy.Fault) }
{
    read_record(disk, &mut so_far.payload, span.at, span.size as usize)?;
    so_far.link = add_record(&mut so_far.image, so_far.link, &so_far.payload)?;
    Ok(())
}
