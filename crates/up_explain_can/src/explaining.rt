//! A script is read whole, and each of its malformed lines is explained.
ghost use Rattle.std.specs.Prelude.{◌≡◌, ◌+◌, ◌-◌, ◌<◌, ◌≤◌, ◌^◌, ◌∷◌, [], IfOk, IfSome, IsErrOf, OnOk};
ghost use Rattle.std.specs.Io.KnownBytes.{IsAtEnd};
ghost use Rattle.up_lists.specs.Counts.{Rose, StaysUnless};
ghost use Rattle.up_command.specs.Statuses.{IsOneOf, code_by, code_of, input_limit};
ghost use Rattle.up_explain_can.specs.Explaining.{Explanation, ExplainsInput, TellsWhy, Told, bad_from, code_behind};
ghost use Rattle.up_text.specs.Lines.{script_lines};

use crate::judge::Judge;
use crate::saying::{say_why, words_of};
use crate::why::Why;
use std::alloc::{AllocError, Global};
use up_command::{Status, Stop, finish, flush, read_script};
use up_ends::{Sink, Source};
use up_text::next_line;

/// Reads a script to its end, and then prints why each of its malformed lines is malformed, as this judge says who has seen no line yet.
///
/// It answers a status: 0 where all lines are good and 1 where some are not, 2 and 3 where the source or the sink failed, 4 for want of
/// memory, and 7 for an input of over 67,108,864 bytes. After 2 and 7 nothing was written, after 3 and 4 a front of the text.
pub fn explain_with<J: Judge, S: Source, K: Sink>(
    alloc: Global,
    judge: &mut J,
    source: &mut S,
    sink: &mut K,
) -> u8
    // Where the source tells its bytes and the sink what it holds, what is written explains exactly the malformed lines.
    ensures meaning { IfSome (S.left source.old) (λ input.
        ExplainsInput J.step judge.old input (K.held sink.old) (K.held sink.new) result) }
    ensures statuses { IsOneOf (0 ∷ 1 ∷ 2 ∷ 3 ∷ 4 ∷ 7 ∷ []) result }
    ensures read_fault { result ≡ 2 → Rose (S.faults source.old) (S.faults source.new) }
    ensures write_fault { result ≡ 3 → Rose (K.faults sink.old) (K.faults sink.new) }
    ensures too_long { result ≡ 7 → S.given source.old + input_limit < 2 ^ 64 - 1
        → S.given source.old + input_limit < S.given source.new }
    ensures too_long_always { S.given source.old + input_limit < 2 ^ 64 - 1
        → S.given source.old + input_limit < S.given source.new → result ≡ 7 }
    ensures source_counts { S.faults source.old ≤ S.faults source.new }
    ensures source_quiet { StaysUnless (S.faults source.old) (S.faults source.new) (result ≡ 2) }
    ensures sink_counts { K.faults sink.old ≤ K.faults sink.new }
    ensures sink_quiet { StaysUnless (K.faults sink.old) (K.faults sink.new) (result ≡ 3) }
    ensures at_end { IsOneOf (0 ∷ 1 ∷ []) result → IsAtEnd (S.left source.new) }
    ensures untouched { IsOneOf (2 ∷ 7 ∷ []) result → sink.new ≡ sink.old }
{
    match read_script(alloc, source) {
        Ok(input) => explain_input(alloc, judge, &input, sink).code(),
        Err(status) => status,
    }
}

/// Explains the lines of a script that was read whole, and answers how that ended.
fn explain_input<J: Judge, K: Sink>(
    alloc: Global,
    judge: &mut J,
    input: &[u8],
    sink: &mut K,
) -> Status
    ensures explains { Explanation (bad_from J.step 1 judge.old (script_lines input.now))
        (K.held sink.old) (K.held sink.new) (code_of result) }
    ensures status { IsOneOf (0 ∷ 1 ∷ 3 ∷ 4 ∷ []) (code_of result) }
    ensures cause { code_of result ≡ 3 → Rose (K.faults sink.old) (K.faults sink.new) }
    ensures later { K.faults sink.old ≤ K.faults sink.new }
    ensures quiet { StaysUnless (K.faults sink.old) (K.faults sink.new) (code_of result ≡ 3) }
{
    match explain_lines(alloc, judge, input, sink) {
        Ok(status) => status,
        Err(Stop::WriteFault) => Status::WriteFault,
        Err(Stop::OutOfMemory) => Status::OutOfMemory,
    }
}

/// Explains the lines of a script in turn.
fn explain_lines<J: Judge, K: Sink>(
    alloc: Global,
    judge: &mut J,
    lines: &[u8],
    sink: &mut K,
) -> Result<Status, Stop>
    ensures explains { Explanation (bad_from J.step 1 judge.old (script_lines lines.now))
        (K.held sink.old) (K.held sink.new) (code_by result) }
    ensures status { IfOk result (λ status. IsOneOf (0 ∷ 1 ∷ []) (code_of status)) }
    ensures cause { IsErrOf result Stop.WriteFault → Rose (K.faults sink.old) (K.faults sink.new) }
    ensures later { K.faults sink.old ≤ K.faults sink.new }
    ensures quiet { StaysUnless (K.faults sink.old) (K.faults sink.new)
        (IsErrOf result Stop.WriteFault) }
{
    let mut gathered = Vec::new(alloc);
    let mut status = Status::Done;
    let mut number: u64 = 1;
    let mut rest = lines;
    while let Some((line, after)) = next_line(rest) {
        let good = explain_line(alloc, judge, number, line, &mut gathered)?;
        status = status_behind(status, good);
        flush(sink, &mut gathered)?;
        number += 1;
        rest = after;
    }
    finish(sink, &mut gathered, b"")?;
    Ok(status)
}

/// The status behind a line that is good or not.
fn status_behind(status: Status, good: bool) -> Status
    ensures { code_of result ≡ code_behind (code_of status) good }
{
    if good { status } else { Status::BadLine }
}

/// Judges the line with this number, adds why it is malformed where it is, and answers whether it is good.
fn explain_line<J: Judge>(
    alloc: Global,
    judge: &mut J,
    number: u64,
    line: &[u8],
    out: &mut Vec<u8>,
) -> Result<bool, AllocError>
    ensures { IfOk result (λ good. Told J.step number judge.old line.now judge.new good
        out.old.items out.new.items) }
{
    match judge.judge(alloc, line) {
        Ok(()) => Ok(true),
        Err(Why::OutOfMemory) => Err(AllocError),
        Err(why) => {
            tell_why(alloc, number, line, &why, out)?;
            Ok(false)
        }
    }
}

/// Adds why the line with this number is malformed.
fn tell_why(
    alloc: Global,
    number: u64,
    line: &[u8],
    why: &Why,
    out: &mut Vec<u8>,
) -> Result<(), AllocError>
    ensures { OnOk result (TellsWhy number out.old.items out.new.items) }
{
    let words = words_of(alloc, line, why)?;
    say_why(out, number, words.as_slice())
}
