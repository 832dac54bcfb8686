//! What is printed, piece by piece. The bytes of a file are written from where they lie, but for the pieces of them that are coded.
ghost use Rattle.std.specs.Prelude.{◌≡◌, ◌++◌, ◌<◌, ◌≤◌, IfOk, OnOk, IsErrOf, Err, codes, decimal, length};
ghost use Rattle.std.specs.List.{flat_map, list_any};
ghost use Rattle.up_cache.specs.Copying.{counts_line, result_of_get, lines_text};
ghost use Rattle.up_cache.specs.Printing.{PrintedAs, PrintedResult};
ghost use Rattle.up_command.specs.Printed.{ended, got_lines};
ghost use Rattle.up_lists.specs.Counts.{HasCause, StaysUnless};
ghost use Rattle.up_text.specs.Words.{coded, coded_byte, is_coded};

use crate::stop::Stop;
use std::alloc::{AllocError, Global};
use up_bytes::Bytes;
use up_client::ClientFault;
use up_command::say_count;
use up_ends::{Sink, write_all};
use up_text::{fault_lines, write_word};

/// How many bytes of a file are looked at, and where one of them is coded, are coded, at a time.
const PIECE_SIZE: usize = 65_536;

/// Prints a text.
pub(crate) fn print<K: Sink>(sink: &mut K, text: &[u8]) -> Result<(), Stop>
    ensures printed { PrintedAs (K.held sink.old) (K.held sink.new) text.now result }
    ensures cause { HasCause (K.faults sink.old) (K.faults sink.new)
        (IsErrOf result Stop.WriteFault) }
    ensures quiet { StaysUnless (K.faults sink.old) (K.faults sink.new)
        (IsErrOf result Stop.WriteFault) }
{
    match write_all(sink, text) {
        Ok(()) => Ok(()),
        Err(_) => Err(Stop::WriteFault),
    }
}

/// Prints what came of getting a file.
pub(crate) fn print_got<K: Sink>(
    alloc: Global,
    got: Result<Bytes, ClientFault>,
    sink: &mut K,
) -> Result<(), Stop>
    ensures printed { PrintedResult (K.held sink.old) (K.held sink.new) (result_of_get got) result }
    ensures failed { IsErrOf result Stop.AskFault → IsErrOf got ClientFault.Failed }
    ensures unanswered { IsErrOf got ClientFault.Failed → IsErrOf result Stop.AskFault }
    ensures cause { HasCause (K.faults sink.old) (K.faults sink.new)
        (IsErrOf result Stop.WriteFault) }
    ensures quiet { StaysUnless (K.faults sink.old) (K.faults sink.new)
        (IsErrOf result Stop.WriteFault) }
{
    match got {
        Ok(bytes) => {
            let printed = print_file(alloc, bytes.as_slice(), sink);
            drop(bytes);
            printed
        }
        Err(fault) => {
            let printed = print_fault(alloc, &fault, sink);
            drop(fault);
            printed
        }
    }
}

// Prints why a file was not got.
fn print_fault<K: Sink>(alloc: Global, fault: &ClientFault, sink: &mut K) -> Result<(), Stop>
    ensures printed { PrintedResult (K.held sink.old) (K.held sink.new) (result_of_get (Err fault.now)) result }
    ensures failed { IsErrOf result Stop.AskFault → fault.now ≡ ClientFault.Failed }
    ensures unanswered { fault.now ≡ ClientFault.Failed → IsErrOf result Stop.AskFault }
    ensures cause { HasCause (K.faults sink.old) (K.faults sink.new)
        (IsErrOf result Stop.WriteFault) }
    ensures quiet { StaysUnless (K.faults sink.old) (K.faults sink.new)
        (IsErrOf result Stop.WriteFault) }
{
    match fault {
        ClientFault::Failed => Err(Stop::AskFault),
        ClientFault::OutOfMemory => Err(Stop::OutOfMemory),
        _ => print_why(alloc, fault, sink),
    }
}

// Prints the lines of a fault.
fn print_why<K: Sink>(alloc: Global, fault: &ClientFault, sink: &mut K) -> Result<(), Stop>
    ensures printed { PrintedAs (K.held sink.old) (K.held sink.new)
        (lines_text (got_lines (Err fault.now))) result }
    ensures cause { HasCause (K.faults sink.old) (K.faults sink.new)
        (IsErrOf result Stop.WriteFault) }
    ensures quiet { StaysUnless (K.faults sink.old) (K.faults sink.new)
        (IsErrOf result Stop.WriteFault) }
{
    match text_of(alloc, fault) {
        Ok(text) => print(sink, &text),
        Err(AllocError) => Err(Stop::OutOfMemory),
    }
}

// The lines of a fault, each with its LF.
fn text_of(alloc: Global, fault: &ClientFault) -> Result<Vec<u8>, AllocError>
    ensures { IfOk result (λ text. text.items ≡ lines_text (got_lines (Err fault.now))) }
{
    let lines = fault_lines(alloc, fault)?;
    joined(alloc, lines.as_slice())
}

// Lines, each with its LF.
fn joined(alloc: Global, lines: &[Bytes]) -> Result<Vec<u8>, AllocError>
    ensures { IfOk result (λ text. text.items ≡ lines_text lines.now) }
{
    let mut text = Vec::new(alloc);
    for line in lines {
        add_line(&mut text, line.as_slice())?;
    }
    Ok(text)
}

// Adds a line and its LF.
fn add_line(text: &mut Vec<u8>, line: &[u8]) -> Result<(), AllocError>
    ensures { OnOk result (text.new.items ≡ text.old.items ++ ended line.now) }
{
    text.extend_from_slice(line)?;
    text.push(b'\n')?;
    Ok(())
}

// Prints a file: the word `bytes`, and the word that stands for its bytes.
fn print_file<K: Sink>(alloc: Global, bytes: &[u8], sink: &mut K) -> Result<(), Stop>
    ensures printed { PrintedAs (K.held sink.old) (K.held sink.new)
        (codes "bytes " ++ (coded bytes.now ++ codes "\n")) result }
    ensures cause { HasCause (K.faults sink.old) (K.faults sink.new)
        (IsErrOf result Stop.WriteFault) }
    ensures quiet { StaysUnless (K.faults sink.old) (K.faults sink.new)
        (IsErrOf result Stop.WriteFault) }
{
    match print(sink, b"bytes ") {
        Ok(()) => print_rest(alloc, bytes, sink),
        Err(why) => Err(why),
    }
}

// Prints the word that stands for bytes, and an LF.
fn print_rest<K: Sink>(alloc: Global, bytes: &[u8], sink: &mut K) -> Result<(), Stop>
    ensures printed { PrintedAs (K.held sink.old) (K.held sink.new)
        (coded bytes.now ++ codes "\n") result }
    ensures cause { HasCause (K.faults sink.old) (K.faults sink.new)
        (IsErrOf result Stop.WriteFault) }
    ensures quiet { StaysUnless (K.faults sink.old) (K.faults sink.new)
        (IsErrOf result Stop.WriteFault) }
{
    match print_word(alloc, bytes, sink) {
        Ok(()) => print(sink, b"\n"),
        Err(why) => Err(why),
    }
}

// Prints the word that stands for bytes.
fn print_word<K: Sink>(alloc: Global, bytes: &[u8], sink: &mut K) -> Result<(), Stop>
    ensures printed { PrintedAs (K.held sink.old) (K.held sink.new) (coded bytes.now) result }
    ensures cause { HasCause (K.faults sink.old) (K.faults sink.new)
        (IsErrOf result Stop.WriteFault) }
    ensures quiet { StaysUnless (K.faults sink.old) (K.faults sink.new)
        (IsErrOf result Stop.WriteFault) }
{
    if bytes.len() < 2 {
        print_coded(alloc, bytes, sink)
    } else {
        print_pieces(alloc, bytes, sink)
    }
}

// Prints the word that stands for bytes, which is made first.
fn print_coded<K: Sink>(alloc: Global, bytes: &[u8], sink: &mut K) -> Result<(), Stop>
    ensures printed { PrintedAs (K.held sink.old) (K.held sink.new) (coded bytes.now) result }
    ensures cause { HasCause (K.faults sink.old) (K.faults sink.new)
        (IsErrOf result Stop.WriteFault) }
    ensures quiet { StaysUnless (K.faults sink.old) (K.faults sink.new)
        (IsErrOf result Stop.WriteFault) }
{
    match write_word(alloc, bytes) {
        Ok(word) => print(sink, word.as_slice()),
        Err(AllocError) => Err(Stop::OutOfMemory),
    }
}

// Prints bytes piece by piece, each as it is coded in output.
fn print_pieces<K: Sink>(alloc: Global, bytes: &[u8], sink: &mut K) -> Result<(), Stop>
    ensures printed { PrintedAs (K.held sink.old) (K.held sink.new)
        (flat_map coded_byte bytes.now) result }
    ensures cause { HasCause (K.faults sink.old) (K.faults sink.new)
        (IsErrOf result Stop.WriteFault) }
    ensures quiet { StaysUnless (K.faults sink.old) (K.faults sink.new)
        (IsErrOf result Stop.WriteFault) }
{
    let mut rest = bytes;
    while !rest.is_empty() {
        let (piece, behind) = first_piece(rest);
        match print_piece(alloc, piece, sink) {
            Ok(()) => rest = behind,
            Err(why) => return Err(why),
        }
    }
    Ok(())
}

// The first bytes, and what is behind them, which is less.
fn first_piece(bytes: &[u8]) -> (&[u8], &[u8])
    ensures whole { result.0.now ++ result.1.now ≡ bytes.now }
    ensures shorter { 0 < length bytes.now → length result.1.now < length bytes.now }
{
    bytes.split_at(PIECE_SIZE.min(bytes.len()))
}

// Prints a piece, each byte as it is coded in output; from where it lies, where none is.
fn print_piece<K: Sink>(alloc: Global, piece: &[u8], sink: &mut K) -> Result<(), Stop>
    ensures printed { PrintedAs (K.held sink.old) (K.held sink.new)
        (flat_map coded_byte piece.now) result }
    ensures cause { HasCause (K.faults sink.old) (K.faults sink.new)
        (IsErrOf result Stop.WriteFault) }
    ensures quiet { StaysUnless (K.faults sink.old) (K.faults sink.new)
        (IsErrOf result Stop.WriteFault) }
{
    if has_coded(piece) {
        print_coded(alloc, piece, sink)
    } else {
        print(sink, piece)
    }
}

// Whether a byte stands there that is coded in output.
fn has_coded(bytes: &[u8]) -> bool
    ensures { result ≡ list_any is_coded bytes.now }
{
    bytes.iter().any(|b| *b <= b' ' || *b == b'%' || *b == 0x7F)
}

/// Prints the last line.
pub(crate) fn print_counts<K: Sink>(
    alloc: Global,
    asked: u64,
    kept: u64,
    sink: &mut K,
) -> Result<(), Stop>
    ensures printed { PrintedAs (K.held sink.old) (K.held sink.new) (counts_line asked kept) result }
    ensures cause { HasCause (K.faults sink.old) (K.faults sink.new)
        (IsErrOf result Stop.WriteFault) }
    ensures quiet { StaysUnless (K.faults sink.old) (K.faults sink.new)
        (IsErrOf result Stop.WriteFault) }
{
    match counts_line(alloc, asked, kept) {
        Ok(line) => print(sink, &line),
        Err(AllocError) => Err(Stop::OutOfMemory),
    }
}

// How many requests for blocks were passed on, and how many were answered from the cache.
fn counts_line(alloc: Global, asked: u64, kept: u64) -> Result<Vec<u8>, AllocError>
    ensures { IfOk result (λ line. line.items ≡ counts_line asked kept) }
{
    let words = asked_words(alloc, asked)?;
    let mut line = Vec::new(alloc);
    say_count(&mut line, &words, kept)?;
    Ok(line)
}

// `asked N kept `.
fn asked_words(alloc: Global, asked: u64) -> Result<Vec<u8>, AllocError>
    ensures { IfOk result (λ words. words.items ≡ codes "asked " ++ decimal asked ++ codes " kept ") }
{
    let digits = asked.to_string(alloc)?;
    let mut words = Vec::from_slice(alloc, b"asked ")?;
    words.extend_from_slice(digits.as_bytes())?;
    words.extend_from_slice(b" kept ")?;
    Ok(words)
}
