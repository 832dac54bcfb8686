//! What an audit prints.
ghost use Rattle.std.specs.Prelude.{◌≡◌, ◌≤◌, ◌++◌, IfOk, IsErrOf, OnOk, decimal, length};
ghost use Rattle.std.specs.Io.KnownBytes.{Appends};
ghost use Rattle.std.specs.List.{flat_map};
ghost use Rattle.up_audit.specs.Texts.{audit_text, held_line, loose_line};
ghost use Rattle.up_ends.specs.Writing.{Going, WritesPart};
ghost use Rattle.up_lists.specs.Counts.{Rose, StaysUnless};

use crate::audit::Audit;
use std::alloc::{AllocError, Global};
use up_command::{Stop, finish, flush, say};
use up_ends::Sink;
use up_refs::Reference;

/// Prints an audit: `held H loose L`, and a line for each loose block.
#[tactic(auto, using(crate::proofs::TextLemmas::printings))]
pub(crate) fn print_audit<K: Sink>(alloc: Global, sink: &mut K, audit: &Audit) -> Result<(), Stop>
    ensures ok { OnOk result (Appends (K.held sink.old) (K.held sink.new) (audit_text audit.now)) }
    ensures part { WritesPart (K.held sink.old) (K.held sink.new) (audit_text audit.now) }
    ensures cause { IsErrOf result Stop.WriteFault → Rose (K.faults sink.old) (K.faults sink.new) }
    ensures later { K.faults sink.old ≤ K.faults sink.new }
    ensures quiet { StaysUnless (K.faults sink.old) (K.faults sink.new)
        (IsErrOf result Stop.WriteFault) }
{
    let mut gathered = first_line(alloc, audit)?;
    print_lines(sink, &mut gathered, audit.loose.as_slice())?;
    Ok(())
}

// `held H loose L`
fn first_line(alloc: Global, audit: &Audit) -> Result<Vec<u8>, AllocError>
    ensures { IfOk result (λ line. line.items
        ≡ held_line audit.now.held (length audit.now.loose)) }
{
    let mut line = Vec::new(alloc);
    add_number(&mut line, b"held ", audit.held)?;
    add_number(&mut line, b" loose ", audit.loose.len())?;
    line.push(b'\n')?;
    Ok(line)
}

// Adds words and a number to a line.
fn add_number(line: &mut Vec<u8>, words: &[u8], number: u64) -> Result<(), AllocError>
    ensures { OnOk result (line.new.items ≡ line.old.items ++ (words.now ++ decimal number)) }
{
    let digits = number.to_string(*line.allocator())?;
    line.extend_from_slice(words)?;
    line.extend_from_slice(digits.as_bytes())
}

// Adds a line for each loose block to what is gathered, and writes all of it.
#[tactic(auto, using(crate::proofs::TextLemmas::endings))]
fn print_lines<K: Sink>(
    sink: &mut K,
    gathered: &mut Vec<u8>,
    loose: &[Reference],
) -> Result<(), Stop>
    ensures ok { OnOk result (Appends (K.held sink.old) (K.held sink.new)
        (gathered.old.items ++ flat_map loose_line loose.now)) }
    ensures part { WritesPart (K.held sink.old) (K.held sink.new)
        (gathered.old.items ++ flat_map loose_line loose.now) }
    ensures cause { IsErrOf result Stop.WriteFault → Rose (K.faults sink.old) (K.faults sink.new) }
    ensures later { K.faults sink.old ≤ K.faults sink.new }
    ensures quiet { StaysUnless (K.faults sink.old) (K.faults sink.new)
        (IsErrOf result Stop.WriteFault) }
{
    for reference in loose {
        print_one(sink, gathered, reference)?;
    }
    finish(sink, gathered, b"")?;
    Ok(())
}

// Adds the line of one; what is gathered goes to the sink once it is long.
#[tactic(auto, using(crate::proofs::TextLemmas::nothing_written))]
fn print_one<K: Sink>(
    sink: &mut K,
    gathered: &mut Vec<u8>,
    reference: &Reference,
) -> Result<(), Stop>
    ensures ok { OnOk result (Going (K.held sink.old) (K.held sink.new) gathered.new.items
        (gathered.old.items ++ loose_line reference.now)) }
    ensures part { WritesPart (K.held sink.old) (K.held sink.new)
        (gathered.old.items ++ loose_line reference.now) }
    ensures cause { IsErrOf result Stop.WriteFault → Rose (K.faults sink.old) (K.faults sink.new) }
    ensures later { K.faults sink.old ≤ K.faults sink.new }
    ensures quiet { StaysUnless (K.faults sink.old) (K.faults sink.new)
        (IsErrOf result Stop.WriteFault) }
{
    let text = reference.text(*gathered.allocator())?;
    say(gathered, b"loose ", text.as_bytes())?;
    flush(sink, gathered)
}
