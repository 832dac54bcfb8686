//! Reading a source to its end, and writing a piece whole.
ghost use Rattle.std.specs.Prelude.{◌≡◌, ◌+◌, ◌-◌, ◌^◌, ◌<◌, ◌≤◌, ◌↔◌, length, vec_len, IfOk, OnOk, IfSome, IsErr, IsErrOf};
ghost use Rattle.std.specs.Io.KnownBytes.{Appends, IsAtEnd};
ghost use Rattle.up_lists.specs.Counts.{count_after, HasCause, StaysUnless};
ghost use Rattle.up_ends.specs.Sources.{LosesFront};
ghost use Rattle.up_ends.specs.Writing.{WritesPart};

use crate::ends::{Sink, Source};
use crate::fault::Failed;
use std::alloc::{AllocError, Global};
use thiserror::Error;

/// How many bytes one read asks for.
const PIECE_SIZE: usize = 65_536;

/// Why a source was not read whole.
#[derive(Clone, Copy, Debug, PartialEq, Eq, Error)]
pub enum ReadFault {
    /// The source gave more bytes than the limit.
    #[error("the input is too long")]
    TooLong,
    /// A read failed, and the source's count of faults rose.
    #[error("a read failed")]
    Failed,
    /// Memory ran out.
    #[error("out of memory")]
    OutOfMemory,
}

impl From<Failed> for ReadFault {
    ghost use Rattle.std.specs.Prelude.{◌≡◌};
    ghost use Rattle.up_ends.specs.declared.whole.ReadFault.TheVariants.{Failed as ReadFailed};

    ghost from_gives = { λ _ e. e ≡ ReadFailed };

    fn from(_failed: Failed) -> ReadFault {
        ReadFault::Failed
    }
}

impl From<AllocError> for ReadFault {
    ghost use Rattle.std.specs.Prelude.{◌≡◌};
    ghost use Rattle.up_ends.specs.declared.whole.ReadFault.TheVariants.{OutOfMemory};

    ghost from_gives = { λ _ e. e ≡ OutOfMemory };

    fn from(_error: AllocError) -> ReadFault {
        ReadFault::OutOfMemory
    }
}

// Room for one read.
fn room_for(alloc: Global, size: usize) -> Result<Vec<u8>, AllocError>
    ensures { IfOk result (λ room. vec_len room ≡ size) }
{
    vec![in alloc; 0; size]
}

/// All bytes that the source has left, where these are at most `limit`.
///
/// It reads at most 64 KiB beyond the limit and asks for no more once the limit is passed. It takes time linear in the
/// bytes that it reads.
pub fn read_all<S: Source>(alloc: Global, source: &mut S, limit: u64) -> Result<Vec<u8>, ReadFault>
    // The bytes are all those that were left, and the source is at its end.
    ensures bytes { IfOk result (λ bytes. IfSome (S.left source.old) (λ left. bytes.items ≡ left)) }
    ensures end { OnOk result (IsAtEnd (S.left source.new)) }
    ensures within { IfOk result (λ bytes. vec_len bytes ≤ limit) }
    ensures given { IfOk result (λ bytes.
        S.given source.new ≡ count_after (S.given source.old) (vec_len bytes)) }

    // It is too long only where the source had more bytes than the limit, as far as it tells them, and
    // exactly where the source gave more, as far as it counts them.
    ensures long { IsErrOf result ReadFault.TooLong →
        IfSome (S.left source.old) (λ left. limit < length left) }
    ensures exact { S.given source.old + limit < 2 ^ 64 - 1 →
        (IsErrOf result ReadFault.TooLong ↔ (S.given source.old + limit < S.given source.new)) }

    ensures beyond { S.given source.new ≤ S.given source.old + limit + 65536 }

    ensures cause { HasCause (S.faults source.old) (S.faults source.new)
        (IsErrOf result ReadFault.Failed) }
    ensures quiet { StaysUnless (S.faults source.old) (S.faults source.new)
        (IsErrOf result ReadFault.Failed) }

    // Whatever the answer, the source lost what was read and nothing else.
    ensures front { LosesFront (S.left source.old) (S.left source.new) }
{
    let mut buffer = room_for(alloc, PIECE_SIZE)?;
    let room = buffer.as_mut_slice();
    let mut bytes = Vec::new(alloc);
    loop {
        let count = source.read(room)?;
        if count == 0 {
            return Ok(bytes);
        }
        if count as u64 > limit - bytes.len() as u64 {
            return Err(ReadFault::TooLong);
        }
        bytes.extend_from_slice(&room[..count])?;
    }
}

/// Writes the whole piece. After an `Err` a front of it was written.
#[tactic(auto, using(crate::proofs::Going::writing_steps))]
pub fn write_all<K: Sink>(sink: &mut K, piece: &[u8]) -> Result<(), Failed>
    ensures whole { OnOk result (Appends (K.held sink.old) (K.held sink.new) piece.now) }
    ensures part { WritesPart (K.held sink.old) (K.held sink.new) piece.now }
    ensures cause { HasCause (K.faults sink.old) (K.faults sink.new) (IsErr result) }
    ensures quiet { StaysUnless (K.faults sink.old) (K.faults sink.new) (IsErr result) }
{
    let mut rest = piece;
    while !rest.is_empty() {
        let count = sink.write(rest)?;
        rest = &rest[count..];
    }
    Ok(())
}
