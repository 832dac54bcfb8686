//! A script, read whole before anything of it is done.
ghost use Rattle.std.specs.Prelude.{◌≡◌, ◌+◌, ◌-◌, ◌^◌, ◌<◌, ◌≤◌, ◌↔◌, ◌∷◌, [], length, vec_len, Err, IfErr, IfOk, IfSome, OnOk};
ghost use Rattle.std.specs.Io.KnownBytes.{IsAtEnd};
ghost use Rattle.up_lists.specs.Counts.{Rose, StaysUnless};
ghost use Rattle.up_command.specs.Statuses.{IsOneOf, input_limit};

use crate::status::Status;
use std::alloc::Global;
use up_ends::{ReadFault, Source, read_all};

// The most bytes that a script may have.
const INPUT_LIMIT: u64 = 67_108_864;

/// All bytes of a script; or the number of the status with which a run of it ends, nothing of it done: 2 where the source failed, 4
/// for want of memory, 7 for over 67,108,864 bytes.
pub fn read_script<S: Source>(alloc: Global, source: &mut S) -> Result<Vec<u8>, u8>
    ensures bytes { IfOk result (λ input. IfSome (S.left source.old) (λ left. input.items ≡ left)) }
    ensures end { OnOk result (IsAtEnd (S.left source.new)) }
    ensures within { IfOk result (λ input. vec_len input ≤ input_limit) }
    ensures statuses { IfErr result (λ status. IsOneOf (2 ∷ 4 ∷ 7 ∷ []) status) }
    ensures fault { result ≡ Err 2 → Rose (S.faults source.old) (S.faults source.new) }
    ensures told_long { result ≡ Err 7
        → IfSome (S.left source.old) (λ left. input_limit < length left) }
    ensures long { S.given source.old + input_limit < 2 ^ 64 - 1
        → (result ≡ Err 7 ↔ (S.given source.old + input_limit < S.given source.new)) }
    ensures counts { S.faults source.old ≤ S.faults source.new }
    ensures quiet { StaysUnless (S.faults source.old) (S.faults source.new) (result ≡ Err 2) }
{
    match read_all(alloc, source, INPUT_LIMIT) {
        Ok(input) => Ok(input),
        Err(ReadFault::TooLong) => Err(Status::TooLong.code()),
        Err(ReadFault::Failed) => Err(Status::ReadFault.code()),
        Err(ReadFault::OutOfMemory) => Err(Status::OutOfMemory.code()),
    }
}
