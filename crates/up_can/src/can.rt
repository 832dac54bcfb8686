//! `upspin can`: a script in, verdicts out.
ghost use Rattle.std.specs.Prelude.{◌≡◌, None, ◌+◌, ◌-◌, ◌<◌, ◌≤◌, ◌^◌, ◌∷◌, [], ◌==◌, map, false, OnOk, IfSome, IfOk, IsErrOf, string_bytes};
ghost use Rattle.std.specs.Io.KnownBytes.{Appends, IsAtEnd};
ghost use Rattle.up_lists.specs.Counts.{Rose, StaysUnless};
ghost use Rattle.up_ends.specs.Writing.{WritesPart};
ghost use Rattle.up_can.specs.CanAnswers.{answer_of, can_answer, is_can};
ghost use Rattle.up_can.specs.CanRuns.{run_of};
ghost use Rattle.up_command.specs.Statuses.{AnswersWith, IsOneOf, code_of, input_limit, usage_line};

use crate::can_script::CanScript;
use std::alloc::Global;
use std::hash::RandomState;
use up_command::{Status, Stop, bad_line, finish, print, read_script, usage};
use up_ends::{Sink, Source};
use up_text::next_line;

/// Runs `upspin can`, whose words begin with the command's own: reads a script to its end, and then prints for each
/// question in it, in order, whether that user has that right on that path.
///
/// It answers a status: 0 at the end of the input, 1 at the first malformed line, with `bad line N` printed last, 2 and
/// 3 where the source or the sink failed, 4 for want of memory, 7 for an input of over 67,108,864 bytes, and 64 where
/// the words are not `can` alone, with the usage line printed. After 2 and 7 nothing was written, after 3 and 4 a front
/// of the text. The names that the script chooses are hashed with these keys.
pub fn can_run<S: Source, K: Sink>(
    alloc: Global,
    random: RandomState,
    words: &[String],
    source: &mut S,
    sink: &mut K,
) -> u8
    // Where the source tells its bytes and the sink what it holds, what is written is the meaning of these bytes.
    ensures meaning { IfSome (S.left source.old) (λ input.
        AnswersWith (K.held sink.old) (K.held sink.new)
        (can_answer (map string_bytes words.now) input) result) }

    // For every source and sink: the statuses that come, and the cause of each.
    ensures statuses { IsOneOf (0 ∷ 1 ∷ 2 ∷ 3 ∷ 4 ∷ 7 ∷ 64 ∷ []) result }
    ensures usage { is_can (map string_bytes words.now) ≡ false
        → IsOneOf (3 ∷ 64 ∷ []) result × (source.new ≡ source.old) }
    ensures usage_only { result ≡ 64 → is_can (map string_bytes words.now) ≡ false }
    ensures read_fault { result ≡ 2 → Rose (S.faults source.old) (S.faults source.new) }
    ensures write_fault { result ≡ 3 → Rose (K.faults sink.old) (K.faults sink.new) }
    ensures too_long { result ≡ 7 → S.given source.old + input_limit < 2 ^ 64 - 1
        → S.given source.old + input_limit < S.given source.new }
    ensures too_long_always { S.given source.old + input_limit < 2 ^ 64 - 1
        → S.given source.old + input_limit < S.given source.new → result ≡ 7 }
    ensures unread { result ≡ 2 → K.held sink.new ≡ K.held sink.old }
    ensures unwritten { result ≡ 7 → K.held sink.new ≡ K.held sink.old }
    ensures source_counts { S.faults source.old ≤ S.faults source.new }
    ensures source_quiet { StaysUnless (S.faults source.old) (S.faults source.new) (result ≡ 2) }
    ensures sink_counts { K.faults sink.old ≤ K.faults sink.new }
    ensures sink_quiet { StaysUnless (K.faults sink.old) (K.faults sink.new) (result ≡ 3) }

    // And what is left of them, also where they tell nothing.
    ensures at_end { IsOneOf (0 ∷ 1 ∷ []) result → IsAtEnd (S.left source.new) }
    ensures untouched { IsOneOf (2 ∷ 7 ∷ []) result → sink.new ≡ sink.old }
    ensures usage_written { result ≡ 64 → Appends (K.held sink.old) (K.held sink.new) usage_line }
{
    if !is_can(words) {
        return usage(sink).code();
    }
    match read_script(alloc, source) {
        Ok(input) => run_script(alloc, random, &input, sink).code(),
        Err(status) => status,
    }
}

/// Whether the words are those of `upspin can`.
fn is_can(words: &[String]) -> bool
    ensures { result ≡ is_can (map string_bytes words.now) }
{
    match words {
        [word] => word.as_str() == "can",
        _ => false,
    }
}

/// Runs a script that was read whole, and answers how that ended.
fn run_script<K: Sink>(alloc: Global, random: RandomState, input: &[u8], sink: &mut K) -> Status
    ensures answers { AnswersWith (K.held sink.old) (K.held sink.new)
        (answer_of (run_of input.now)) (code_of result) }
    ensures status { IsOneOf (0 ∷ 1 ∷ 3 ∷ 4 ∷ []) (code_of result) }
    ensures cause { code_of result ≡ 3 → Rose (K.faults sink.old) (K.faults sink.new) }
    ensures later { K.faults sink.old ≤ K.faults sink.new }
    ensures quiet { StaysUnless (K.faults sink.old) (K.faults sink.new) (code_of result ≡ 3) }
{
    match run_lines(alloc, random, input, sink) {
        Ok(status) => status,
        Err(Stop::WriteFault) => Status::WriteFault,
        Err(Stop::OutOfMemory) => Status::OutOfMemory,
    }
}

/// Runs a script's lines, and prints what they say.
fn run_lines<K: Sink>(
    alloc: Global,
    random: RandomState,
    lines: &[u8],
    sink: &mut K,
) -> Result<Status, Stop>
    ensures whole { OnOk result
        (Appends (K.held sink.old) (K.held sink.new) (run_of lines.now).text) }
    ensures status { IfOk result (λ status. code_of status ≡ (run_of lines.now).status) }
    ensures kind { IfOk result (λ status. IsOneOf (0 ∷ 1 ∷ []) (code_of status)) }
    ensures part { WritesPart (K.held sink.old) (K.held sink.new) (run_of lines.now).text }
    ensures cause { IsErrOf result Stop.WriteFault → Rose (K.faults sink.old) (K.faults sink.new) }
    ensures later { K.faults sink.old ≤ K.faults sink.new }
    ensures quiet { StaysUnless (K.faults sink.old) (K.faults sink.new)
        (IsErrOf result Stop.WriteFault) }
{
    let mut script = CanScript::new(alloc, random);
    let result = run_each(alloc, &mut script, lines, sink);
    drop(script);
    result
}

/// Runs a script's lines in turn from its beginning, and prints what they say.
#[tactic(auto, unfolding(crate::specs::CanRuns::run_of))]
fn run_each<K: Sink>(
    alloc: Global,
    script: &mut CanScript,
    lines: &[u8],
    sink: &mut K,
) -> Result<Status, Stop>
    requires { script.old ≡ None }
    ensures whole { OnOk result
        (Appends (K.held sink.old) (K.held sink.new) (run_of lines.now).text) }
    ensures status { IfOk result (λ status. code_of status ≡ (run_of lines.now).status) }
    ensures kind { IfOk result (λ status. IsOneOf (0 ∷ 1 ∷ []) (code_of status)) }
    ensures part { WritesPart (K.held sink.old) (K.held sink.new) (run_of lines.now).text }
    ensures cause { IsErrOf result Stop.WriteFault → Rose (K.faults sink.old) (K.faults sink.new) }
    ensures later { K.faults sink.old ≤ K.faults sink.new }
    ensures quiet { StaysUnless (K.faults sink.old) (K.faults sink.new)
        (IsErrOf result Stop.WriteFault) }
{
    let mut gathered = Vec::new(alloc);
    let mut number: u64 = 1;
    let mut rest = lines;
    while let Some((line, after)) = next_line(rest) {
        let Some(reply) = script.run_line(line)? else {
            let last = bad_line(alloc, number)?;
            finish(sink, &mut gathered, &last)?;
            return Ok(Status::BadLine);
        };
        print(sink, &mut gathered, reply)?;
        number += 1;
        rest = after;
    }
    finish(sink, &mut gathered, b"")?;
    Ok(Status::Done)
}
