//! The line that is printed of a log that does not open.
ghost use Rattle.std.specs.Prelude.{◌≡◌, ◌≤◌, ◌++◌, [], codes, decimal, IfOk, OnOk};
ghost use Rattle.up_command.specs.Statuses.{code_of};
ghost use Rattle.up_lists.specs.Counts.{Rose, StaysUnless};
ghost use Rattle.up_refs.specs.References.{text_of};
ghost use Rattle.up_reports.specs.Telling.{AnswersOne, IsLast, TellsLast, chain_at, damaged_at, old_format_at, refused_by, told_of};

use crate::refused::Refused;
use std::alloc::{AllocError, Global};
use up_command::{Status, say_count};
use up_ends::{Sink, write_all};
use up_journal::OpenWhy;
use up_refs::Reference;

/// A line to be printed, and the status that goes with it.
#[derive(Drop)]
pub struct Last {
    pub line: Vec<u8>,
    pub status: Status,
}

/// Prints the line of a log that does not open, and answers the status with which a report ends then: 8 where a line was printed, 6 where
/// the disk failed and 4 where memory was wanting, for which nothing is printed; or 3 where the sink failed.
#[tactic(auto, using(crate::proofs::TellLemmas::tellings))]
pub fn tell_refused<K: Sink>(alloc: Global, sink: &mut K, refused: Refused) -> u8
    ensures answers { AnswersOne (K.held sink.old) (K.held sink.new) (told_of refused) result }
    ensures cause { result ≡ 3 → Rose (K.faults sink.old) (K.faults sink.new) }
    ensures later { K.faults sink.old ≤ K.faults sink.new }
    ensures quiet { StaysUnless (K.faults sink.old) (K.faults sink.new) (result ≡ 3) }
{
    let last = refused_line(alloc, refused.which, refused.why);
    tell(sink, last)
}

/// Prints a last line, and answers its status; or 3 where the sink failed, and 4 where there was no memory for the line.
#[tactic(auto, using(crate::proofs::TellLemmas::tellings))]
pub fn tell<K: Sink>(sink: &mut K, last: Result<Last, AllocError>) -> u8
    requires { IfOk last (λ last. code_of last.status ≡ 3 → ⊥) }
    ensures tells { TellsLast (K.held sink.old) (K.held sink.new) last result }
    ensures cause { result ≡ 3 → Rose (K.faults sink.old) (K.faults sink.new) }
    ensures later { K.faults sink.old ≤ K.faults sink.new }
    ensures quiet { StaysUnless (K.faults sink.old) (K.faults sink.new) (result ≡ 3) }
{
    match last {
        Ok(last) => match write_all(sink, &last.line) {
            Ok(()) => last.status.code(),
            Err(_) => Status::WriteFault.code(),
        },
        Err(_) => Status::OutOfMemory.code(),
    }
}

// What is printed of a log that does not open.
fn refused_line(alloc: Global, which: u64, why: OpenWhy) -> Result<Last, AllocError>
    ensures { IsLast result (refused_by which why) }
{
    match why {
        OpenWhy::Damaged(gate) => damaged_line(alloc, which, gate),
        OpenWhy::Chain(gate, wanted, got) => chain_line(alloc, which, gate, &wanted, &got),
        OpenWhy::OldFormat => old_line(alloc, which),
        OpenWhy::Fault => Ok(silent(alloc, Status::DiskFault)),
        OpenWhy::OutOfMemory => Ok(silent(alloc, Status::OutOfMemory)),
    }
}

/// Nothing is printed, and this is the status.
pub fn silent(alloc: Global, status: Status) -> Last
    ensures line { result.line.items ≡ [] }
    ensures status { result.status ≡ status }
{
    Last {
        line: Vec::new(alloc),
        status,
    }
}

/// `damaged I P`: the log at place I is damaged at byte P.
pub fn damaged_line(alloc: Global, which: u64, place: u64) -> Result<Last, AllocError>
    ensures { IsLast result (damaged_at which place) }
{
    let mut line = Vec::new(alloc);
    add_number(&mut line, b"damaged ", which)?;
    add_number(&mut line, b" ", place)?;
    line.push(b'\n')?;
    Ok(Last {
        line,
        status: Status::Damaged,
    })
}

// `chain I P WANTED GOT`
fn chain_line(
    alloc: Global,
    which: u64,
    gate: u64,
    wanted: &Reference,
    got: &Reference,
) -> Result<Last, AllocError>
    ensures { IsLast result (chain_at which gate wanted.now got.now) }
{
    let mut line = Vec::new(alloc);
    add_number(&mut line, b"chain ", which)?;
    add_number(&mut line, b" ", gate)?;
    add_reference(&mut line, wanted)?;
    add_reference(&mut line, got)?;
    line.push(b'\n')?;
    Ok(Last {
        line,
        status: Status::Damaged,
    })
}

// `oldformat I`
fn old_line(alloc: Global, which: u64) -> Result<Last, AllocError>
    ensures { IsLast result (old_format_at which) }
{
    let mut line = Vec::new(alloc);
    say_count(&mut line, b"oldformat ", which)?;
    Ok(Last {
        line,
        status: Status::Damaged,
    })
}

/// Adds words and a number to a line.
pub fn add_number(line: &mut Vec<u8>, words: &[u8], number: u64) -> Result<(), AllocError>
    ensures { OnOk result (line.new.items ≡ line.old.items ++ (words.now ++ decimal number)) }
{
    let digits = number.to_string(*line.allocator())?;
    line.extend_from_slice(words)?;
    line.extend_from_slice(digits.as_bytes())
}

// Adds a space and a reference to a line.
fn add_reference(line: &mut Vec<u8>, reference: &Reference) -> Result<(), AllocError>
    ensures { OnOk result (line.new.items
        ≡ line.old.items ++ (codes " " ++ text_of reference.now)) }
{
    let text = reference.text(*line.allocator())?;
    line.push(b' ')?;
    line.extend_from_slice(text.as_bytes())
}
