//! The line that says where a server listens.
ghost use Rattle.std.specs.Prelude.{ℕ, ◌≡◌, ◌≤◌, ◌++◌, [], ◌∷◌, List, codes, IfOk};
ghost use Rattle.std.specs.Io.KnownBytes.{Appends};
ghost use Rattle.up_command.specs.Printed.{ended};
ghost use Rattle.up_command.specs.Statuses.{IsOneOf, code_of};
ghost use Rattle.up_lists.specs.Counts.{Rose, StaysUnless};

use std::alloc::{AllocError, Global};
use std::net::SocketAddr;
use up_command::{Status, say};
use up_ends::{Sink, write_all};

/// Prints `listening ADDR`, and answers 0; 3 where the sink failed, and 4 for want of memory.
pub(crate) fn say_listening<K: Sink>(alloc: Global, sink: &mut K, address: SocketAddr) -> Status
    ensures statuses { IsOneOf (0 ∷ 3 ∷ 4 ∷ []) (code_of result) }
    ensures printed { code_of result ≡ 0 → (shown : List ℕ)
        × Appends (K.held sink.old) (K.held sink.new) (ended (codes "listening " ++ shown)) }
    ensures cause { code_of result ≡ 3 → Rose (K.faults sink.old) (K.faults sink.new) }
    ensures later { K.faults sink.old ≤ K.faults sink.new }
    ensures quiet { StaysUnless (K.faults sink.old) (K.faults sink.new) (code_of result ≡ 3) }
{
    match line_of(alloc, address) {
        Ok(line) => match write_all(sink, line.as_slice()) {
            Ok(()) => Status::Done,
            Err(_) => Status::WriteFault,
        },
        Err(_) => Status::OutOfMemory,
    }
}

fn line_of(alloc: Global, address: SocketAddr) -> Result<Vec<u8>, AllocError>
    ensures { IfOk result (λ line. (shown : List ℕ)
        × (line.items ≡ ended (codes "listening " ++ shown))) }
{
    let shown = address.to_string(alloc)?;
    let mut line = Vec::new(alloc);
    say(&mut line, b"listening ", shown.as_bytes())?;
    Ok(line)
}
