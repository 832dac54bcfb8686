//! `upspin copy`: files are got over one cache of blocks, and printed.
ghost use Rattle.std.specs.Prelude.{◌≡◌, ◌∷◌, [], List, None, IfOk, IfSome, IsErrOf, drop, map, string_bytes};
ghost use Rattle.std.specs.Io.KnownBytes.{Appends};
ghost use Rattle.up_cache.specs.Copying.{Copied, CopiedOver, PlainlyCopied, copy_paths, copy_user};
ghost use Rattle.up_cache.specs.Printing.{code_by};
ghost use Rattle.up_cache.specs.Steady.{IsSteady};
ghost use Rattle.up_cache.specs.Ties.{IsSame, seen};
ghost use Rattle.up_command.specs.Statuses.{IsOneOf, usage_line};
ghost use Rattle.up_ends.specs.Writing.{WritesPart};
ghost use Rattle.up_lists.specs.Counts.{HasCause, Rose, StaysUnless};
ghost use Rattle.up_wire.specs.declared.requests.Request.{Request as Requests};
ghost use Rattle.up_wire.specs.declared.replies.Reply.{Reply as Replies};

use crate::block_cache::BlockCache;
use crate::paths::copy_paths;
use crate::printing::print_counts;
use crate::stop::{Stop, code};
use crate::through::Through;
use std::alloc::{AllocError, Global};
use up_client::Ask;
use up_command::{Status, usage};
use up_ends::Sink;
use up_names::{NameFault, User, parse_user};

/// How many blocks are held.
const CAPACITY: u64 = 64;

/// How many of the words stand before those for paths.
const BEFORE_PATHS: usize = 4;

/// How many words for paths there may be behind the first one.
const MORE_PATHS: usize = 999;

/// Runs `upspin copy`, whose words are `copy`, the server's address, a helper's path, a user, and 1 to 1,000 for paths: gets the file at
/// each path over a client that holds the 64 blocks that it got last, and prints a line for it before the next one is asked for: `bytes`
/// and its bytes as a word, or why it was not got; `invalid name` for a word that names no path. Last it prints `asked N kept M`: how many
/// requests for blocks were asked, and how many were answered from the blocks that were held.
///
/// It answers a status: 0 where all was done and written, 3 where the sink failed, 4 for want of memory, here or as a reply, 11 where no
/// answer came, and 64 where the words are others or the fourth is no user, with the usage line printed. After 3 and 4 a front of the text
/// was written, after 11 the lines of the paths before.
pub fn copy_run<A: Ask, K: Sink>(alloc: Global, words: &[String], ask: &mut A, sink: &mut K) -> u8
    // Each path is done once, in order, over one new cache, and what is written is the text of that.
    ensures meaning { IfSome (copy_user (map string_bytes words.now)) (λ user.
        CopiedOver A.answers (K.held sink.old) (K.held sink.new) ask.old
        (copy_paths (map string_bytes words.now)) result ask.new) }

    // Over somebody who is steady with a table, what is written is what the table says.
    ensures steady { IfSome (copy_user (map string_bytes words.now)) (λ user.
        (rows : List (Requests × Replies)) → IsSteady A.answers rows ask.old → result ≡ 0
        → PlainlyCopied rows (K.held sink.old) (K.held sink.new)
        (copy_paths (map string_bytes words.now))) }

    // The statuses that come, and the cause of each.
    ensures statuses { IsOneOf (0 ∷ 3 ∷ 4 ∷ 11 ∷ 64 ∷ []) result }
    ensures sink_cause { HasCause (K.faults sink.old) (K.faults sink.new) (result ≡ 3) }
    ensures sink_quiet { StaysUnless (K.faults sink.old) (K.faults sink.new) (result ≡ 3) }
    ensures ask_cause { HasCause (A.faults ask.old) (A.faults ask.new) (result ≡ 11) }
    ensures ask_quiet { StaysUnless (A.faults ask.old) (A.faults ask.new) (result ≡ 11) }
    ensures tie { A.tied ask.old ask.new }

    // Words that are none of this command.
    ensures usage { copy_user (map string_bytes words.now) ≡ None
        → IsOneOf (3 ∷ 4 ∷ 64 ∷ []) result × (ask.new ≡ ask.old)
        × WritesPart (K.held sink.old) (K.held sink.new) usage_line }
    ensures usage_only { result ≡ 64 → copy_user (map string_bytes words.now) ≡ None }
    ensures usage_written { result ≡ 64 → Appends (K.held sink.old) (K.held sink.new) usage_line }

    // Where nothing failed, all is done.
    ensures complete { IfSome (copy_user (map string_bytes words.now)) (λ user.
        (Rose (K.faults sink.old) (K.faults sink.new) → ⊥)
        → (Rose (A.faults ask.old) (A.faults ask.new) → ⊥) → IsOneOf (0 ∷ 4 ∷ []) result) }
{
    match copy_user(alloc, words) {
        Ok(Some(user)) => {
            drop(user);
            code(copy_all(alloc, paths_of(words), ask, sink))
        }
        Ok(None) => usage(sink).code(),
        Err(AllocError) => Status::OutOfMemory.code(),
    }
}

/// The user of the words `copy`, an address, a helper's path, that user, and 1 to 1,000 words for paths. `None` where the words are others,
/// or the fourth is no user.
pub fn copy_user(alloc: Global, words: &[String]) -> Result<Option<User>, AllocError>
    ensures { IfOk result (λ found. found ≡ copy_user (map string_bytes words.now)) }
{
    let [command, _address, _helper, user, _path, more @ ..] = words else {
        return Ok(None);
    };
    if command.as_str() != "copy" || more.len() > MORE_PATHS {
        return Ok(None);
    }
    match parse_user(alloc, user.as_bytes()) {
        Ok(user) => Ok(Some(user)),
        Err(NameFault::OutOfMemory) => Err(AllocError),
        Err(_) => Ok(None),
    }
}

// The words for paths.
fn paths_of(words: &[String]) -> &[String]
    ensures { map string_bytes result.now ≡ copy_paths (map string_bytes words.now) }
{
    words.split_at(BEFORE_PATHS.min(words.len())).1
}

// Does all paths over one new cache.
fn copy_all<A: Ask, K: Sink>(
    alloc: Global,
    words: &[String],
    ask: &mut A,
    sink: &mut K,
) -> Result<(), Stop>
    ensures copied { CopiedOver A.answers (K.held sink.old) (K.held sink.new) ask.old
        (map string_bytes words.now) (code_by result) ask.new }
    ensures sink_cause { HasCause (K.faults sink.old) (K.faults sink.new)
        (IsErrOf result Stop.WriteFault) }
    ensures sink_quiet { StaysUnless (K.faults sink.old) (K.faults sink.new)
        (IsErrOf result Stop.WriteFault) }
    ensures ask_cause { HasCause (A.faults ask.old) (A.faults ask.new)
        (IsErrOf result Stop.AskFault) }
    ensures ask_quiet { StaysUnless (A.faults ask.old) (A.faults ask.new)
        (IsErrOf result Stop.AskFault) }
    ensures tie { A.tied ask.old ask.new }
{
    match BlockCache::new(alloc, CAPACITY) {
        Ok(mut cache) => {
            let mut through = Through {
                ask,
                cache: &mut cache,
                asked: 0,
                kept: 0,
            };
            copy_over(alloc, words, &mut through, sink)
        }
        Err(AllocError) => Err(Stop::OutOfMemory),
    }
}

// Does all paths over a cache, and prints its counts.
fn copy_over<A: Ask, K: Sink>(
    alloc: Global,
    words: &[String],
    through: &mut Through<'_, A>,
    sink: &mut K,
) -> Result<(), Stop>
    ensures copied { Copied A.answers (K.held sink.old) (K.held sink.new) (seen through.old)
        (map string_bytes words.now) (code_by result) (seen through.new) }
    ensures sink_cause { HasCause (K.faults sink.old) (K.faults sink.new)
        (IsErrOf result Stop.WriteFault) }
    ensures sink_quiet { StaysUnless (K.faults sink.old) (K.faults sink.new)
        (IsErrOf result Stop.WriteFault) }
    ensures ask_cause { HasCause (A.faults through.old.ask.now) (A.faults through.new.ask.now)
        (IsErrOf result Stop.AskFault) }
    ensures ask_quiet { StaysUnless (A.faults through.old.ask.now) (A.faults through.new.ask.now)
        (IsErrOf result Stop.AskFault) }
    ensures same { IsSame through.old through.new }
    ensures tie { A.tied through.old.ask.now through.new.ask.now }
{
    match copy_paths(alloc, words, through, sink) {
        Ok(()) => print_counts(alloc, through.asked, through.kept, sink),
        Err(why) => Err(why),
    }
}
