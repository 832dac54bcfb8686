//! The malformed lines of a script of `upspin script`.
ghost use Rattle.std.specs.Prelude.{◌≡◌, ◌+◌, ◌-◌, ◌<◌, ◌≤◌, ◌^◌, ◌∷◌, [], IfSome};
ghost use Rattle.std.specs.Io.KnownBytes.{IsAtEnd};
ghost use Rattle.up_lists.specs.Counts.{Rose, StaysUnless};
ghost use Rattle.up_command.specs.Statuses.{IsOneOf, input_limit};
ghost use Rattle.up_explain_can.specs.Explaining.{ExplainsInput};
ghost use Rattle.up_explain_script.specs.ScriptNumbers.{line_behind};

use crate::script_judge::ScriptJudge;
use std::alloc::Global;
use up_ends::{Sink, Source};
use up_explain_can::explain_with;

/// Reads a script of `upspin script` to its end, and then prints for each malformed line of it, in order, its number and why it is
/// malformed. It answers as [`explain_with`] does.
pub fn explain_script<S: Source, K: Sink>(alloc: Global, source: &mut S, sink: &mut K) -> u8
    ensures meaning { IfSome (S.left source.old) (λ input.
        ExplainsInput line_behind [] input (K.held sink.old) (K.held sink.new) result) }
    ensures statuses { IsOneOf (0 ∷ 1 ∷ 2 ∷ 3 ∷ 4 ∷ 7 ∷ []) result }
    ensures read_fault { result ≡ 2 → Rose (S.faults source.old) (S.faults source.new) }
    ensures write_fault { result ≡ 3 → Rose (K.faults sink.old) (K.faults sink.new) }
    ensures too_long { result ≡ 7 → S.given source.old + input_limit < 2 ^ 64 - 1
        → S.given source.old + input_limit < S.given source.new }
    ensures too_long_always { S.given source.old + input_limit < 2 ^ 64 - 1
        → S.given source.old + input_limit < S.given source.new → result ≡ 7 }
    ensures source_counts { S.faults source.old ≤ S.faults source.new }
    ensures source_quiet { StaysUnless (S.faults source.old) (S.faults source.new) (result ≡ 2) }
    ensures sink_counts { K.faults sink.old ≤ K.faults sink.new }
    ensures sink_quiet { StaysUnless (K.faults sink.old) (K.faults sink.new) (result ≡ 3) }
    ensures at_end { IsOneOf (0 ∷ 1 ∷ []) result → IsAtEnd (S.left source.new) }
    ensures untouched { IsOneOf (2 ∷ 7 ∷ []) result → sink.new ≡ sink.old }
{
    let mut judge = ScriptJudge::new(alloc);
    let status = explain_with(alloc, &mut judge, source, sink);
    drop(judge);
    status
}
