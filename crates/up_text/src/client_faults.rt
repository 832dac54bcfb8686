//! The lines that tell why a client could not get or put a file.

ghost use Rattle.std.specs.Prelude.{◌≡◌, ◌++◌, [], ◌∷◌, IfOk, OnOk, codes, decimal, map};
ghost use Rattle.up_refs.specs.References.{text_of};
ghost use Rattle.up_text.specs.ClientFaults.{fault_lines, fault_words};
ghost use Rattle.up_text.specs.Lines.{spaced};

use crate::entries::{add_num, add_reference};
use crate::replies::{add_line, add_lines, tell_counted};
use std::alloc::{AllocError, Global};
use up_bytes::Bytes;
use up_client::ClientFault;
use up_lists::Items;
use up_refs::Reference;

/// The lines that tell a client's fault, each without the session's number and its LF: of a refusal those of its reply, of
/// any other fault one. There is none where no answer came, and none for want of memory.
#[tactic(auto, unfolding(crate::specs::ClientFaults::fault_lines))]
pub fn fault_lines(alloc: Global, fault: &ClientFault) -> Result<Items<Bytes>, AllocError>
    ensures { IfOk result (λ lines. lines ≡ fault_lines fault.now) }
{
    let mut lines = Vec::new(alloc);
    add_fault(alloc, &mut lines, fault)?;
    Ok(Items::from_vec(lines))
}

/// Adds the lines of a fault.
#[tactic(auto, unfolding(crate::specs::ClientFaults::fault_words))]
fn add_fault(alloc: Global, lines: &mut Vec<Bytes>, fault: &ClientFault) -> Result<(), AllocError>
    ensures { OnOk result
        (lines.new.items ≡ lines.old.items ++ map (λ words. spaced words) (fault_words fault.now)) }
{
    match fault {
        ClientFault::Refused(reply) => add_lines(alloc, lines, reply),
        ClientFault::TooManyLinks => add_word(alloc, lines, b"toomanylinks"),
        ClientFault::TooLong => add_word(alloc, lines, b"toolong"),
        ClientFault::IsDir => add_word(alloc, lines, b"isdir"),
        ClientFault::NoRead => add_word(alloc, lines, b"noread"),
        ClientFault::Opaque(packing) => add_counted(alloc, lines, b"opaque", u64::from(*packing)),
        ClientFault::Elsewhere(i) => add_counted(alloc, lines, b"elsewhere", *i),
        ClientFault::BadSize(i, wanted, got) => add_bad_size(alloc, lines, *i, *wanted, *got),
        ClientFault::Corrupt(wanted, got) => add_corrupt(alloc, lines, wanted, got),
        ClientFault::Odd => add_word(alloc, lines, b"odd"),
        ClientFault::Failed | ClientFault::OutOfMemory => Ok(()),
    }
}

/// Adds a line of this word alone.
fn add_word(alloc: Global, lines: &mut Vec<Bytes>, word: &[u8]) -> Result<(), AllocError>
    ensures { OnOk result (lines.new.items ≡ lines.old.items ++ spaced (word.now ∷ []) ∷ []) }
{
    let line = Vec::from_slice(alloc, word)?;
    add_line(lines, line)
}

/// Adds a line of a word and a number.
fn add_counted(
    alloc: Global,
    lines: &mut Vec<Bytes>,
    word: &[u8],
    number: u64,
) -> Result<(), AllocError>
    ensures { OnOk result (lines.new.items ≡ lines.old.items
        ++ spaced (word.now ∷ decimal number ∷ []) ∷ []) }
{
    let mut line = Vec::new(alloc);
    tell_counted(&mut line, word, number)?;
    add_line(lines, line)
}

/// Adds the line of a block of another size.
fn add_bad_size(
    alloc: Global,
    lines: &mut Vec<Bytes>,
    i: u64,
    wanted: u64,
    got: u64,
) -> Result<(), AllocError>
    ensures { OnOk result (lines.new.items ≡ lines.old.items
        ++ spaced (codes "badsize" ∷ decimal i ∷ decimal wanted ∷ decimal got ∷ []) ∷ []) }
{
    let mut line = Vec::from_slice(alloc, b"badsize")?;
    add_num(&mut line, i)?;
    add_num(&mut line, wanted)?;
    add_num(&mut line, got)?;
    add_line(lines, line)
}

/// Adds the line of bytes of another reference.
fn add_corrupt(
    alloc: Global,
    lines: &mut Vec<Bytes>,
    wanted: &Reference,
    got: &Reference,
) -> Result<(), AllocError>
    ensures { OnOk result (lines.new.items ≡ lines.old.items
        ++ spaced (codes "corrupt" ∷ text_of wanted.now ∷ text_of got.now ∷ []) ∷ []) }
{
    let mut line = Vec::from_slice(alloc, b"corrupt")?;
    add_reference(&mut line, wanted)?;
    add_reference(&mut line, got)?;
    add_line(lines, line)
}
