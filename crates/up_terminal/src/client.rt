//! `upspin client`: request lines in, reply lines out.
ghost use Rattle.std.specs.Prelude.{◌≡◌, ◌<◌, ◌∷◌, [], None, length, map, IfOk, IfSome, string_bytes};
ghost use Rattle.std.specs.Io.KnownBytes.{Appends, IsAtEnd};
ghost use Rattle.std.specs.List.{AllByRecursion};
ghost use Rattle.up_ends.specs.Writing.{WritesPart};
ghost use Rattle.up_lists.specs.Counts.{HasCause, Rose, StaysUnless};
ghost use Rattle.up_command.specs.Statuses.{IsOneOf, usage_line};
ghost use Rattle.up_text.specs.Lines.{script_lines};
ghost use Rattle.up_terminal.specs.Lines.{IsGoodLine, client_user};
ghost use Rattle.up_terminal.specs.Runs.{Means, read_limit};

use crate::reading::run_input;
use crate::stop::code;
use std::alloc::{AllocError, Global};
use up_client::Ask;
use up_command::{Status, usage};
use up_ends::{Sink, Source};
use up_names::{NameFault, User, parse_user};

/// Runs `upspin client`, whose words are `client`, the server's address, a helper's path and a user: reads request lines as those of a
/// script, but without the number of a session, asks for each what it says, and prints the lines of its reply without that number. What a
/// line prints is written before the next line is asked, and before anything more is read. An empty line, and one that begins with `#`,
/// prints nothing; bytes behind the last LF are a line.
///
/// It answers a status: 0 at the end of the input, 1 at the first malformed line, with `bad line N` printed last, 2, 3 and 11 where the
/// source, the sink or whoever is asked failed, 4 for want of memory, here or as a reply, 7 at a line of over 67,108,864 bytes and after
/// 2^40 reads that gave a byte, and 64 where the words are others or the last one is no user, with the usage line printed. What is printed
/// is the text of all lines that were done; after 3 and 4 it is a front of it.
pub fn client_run<A: Ask, S: Source, K: Sink>(
    alloc: Global,
    words: &[String],
    source: &mut S,
    sink: &mut K,
    ask: &mut A,
) -> u8
    // Each line that was read whole is answered once, in order, and what is written is the text of that.
    ensures meaning { IfSome (client_user (map string_bytes words.now)) (λ user.
        Means A.answers user (S.left source.old) (S.left source.new)
        (S.given source.old) (S.given source.new) (K.held sink.old) (K.held sink.new)
        ask.old result ask.new) }

    // The statuses that come, and the cause of each.
    ensures statuses { IsOneOf (0 ∷ 1 ∷ 2 ∷ 3 ∷ 4 ∷ 7 ∷ 11 ∷ 64 ∷ []) result }
    ensures source_cause { HasCause (S.faults source.old) (S.faults source.new) (result ≡ 2) }
    ensures source_quiet { StaysUnless (S.faults source.old) (S.faults source.new) (result ≡ 2) }
    ensures sink_cause { HasCause (K.faults sink.old) (K.faults sink.new) (result ≡ 3) }
    ensures sink_quiet { StaysUnless (K.faults sink.old) (K.faults sink.new) (result ≡ 3) }
    ensures ask_cause { HasCause (A.faults ask.old) (A.faults ask.new) (result ≡ 11) }
    ensures ask_quiet { StaysUnless (A.faults ask.old) (A.faults ask.new) (result ≡ 11) }
    ensures tie { A.tied ask.old ask.new }

    // Words that are none of this command.
    ensures usage { client_user (map string_bytes words.now) ≡ None
        → IsOneOf (3 ∷ 4 ∷ 64 ∷ []) result × (source.new ≡ source.old) × (ask.new ≡ ask.old)
        × WritesPart (K.held sink.old) (K.held sink.new) usage_line }
    ensures usage_only { result ≡ 64 → client_user (map string_bytes words.now) ≡ None }
    ensures usage_written { result ≡ 64 → Appends (K.held sink.old) (K.held sink.new) usage_line }

    // Where all is well, all is done.
    ensures at_end { result ≡ 0 → IsAtEnd (S.left source.new) }
    ensures complete { IfSome (client_user (map string_bytes words.now)) (λ user.
        IfSome (S.left source.old) (λ text. AllByRecursion (IsGoodLine user) (script_lines text)
        → length text < read_limit → (Rose (S.faults source.old) (S.faults source.new) → ⊥)
        → (Rose (K.faults sink.old) (K.faults sink.new) → ⊥)
        → (Rose (A.faults ask.old) (A.faults ask.new) → ⊥) → IsOneOf (0 ∷ 4 ∷ []) result)) }
{
    match client_user(alloc, words) {
        Ok(Some(user)) => {
            let ended = run_input(alloc, &user, source, ask, sink);
            drop(user);
            code(ended)
        }
        Ok(None) => usage(sink).code(),
        Err(AllocError) => Status::OutOfMemory.code(),
    }
}

/// The user of the words `client`, an address, a helper's path and that user. `None` where the words are others, or the last one is no
/// user.
pub fn client_user(alloc: Global, words: &[String]) -> Result<Option<User>, AllocError>
    ensures { IfOk result (λ found. found ≡ client_user (map string_bytes words.now)) }
{
    let [command, _address, _helper, user] = words else {
        return Ok(None);
    };
    if command.as_str() != "client" {
        return Ok(None);
    }
    match parse_user(alloc, user.as_bytes()) {
        Ok(user) => Ok(Some(user)),
        Err(NameFault::OutOfMemory) => Err(AllocError),
        Err(_) => Ok(None),
    }
}
