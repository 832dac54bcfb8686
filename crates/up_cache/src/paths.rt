//! The paths of a run, one after the other.
ghost use Rattle.std.specs.Prelude.{◌≡◌, IfOk, IsErrOf, map, string_bytes};
ghost use Rattle.std.specs.Result.{result_ok};
ghost use Rattle.up_cache.specs.Caching.{CachedAnswers};
ghost use Rattle.up_cache.specs.Copying.{result_of_get};
ghost use Rattle.up_cache.specs.Printing.{FileCopied, WordCopied, WordsCopied};
ghost use Rattle.up_client.specs.Getting.{get_talk};
ghost use Rattle.up_client.specs.Talks.{Held};
ghost use Rattle.up_names.specs.PathNames.{path_of};
ghost use Rattle.up_lists.specs.Counts.{HasCause, StaysUnless};

use crate::printing::{print, print_got};
use crate::stop::Stop;
use std::alloc::{AllocError, Global};
use up_client::{Ask, get};
use up_ends::Sink;
use up_names::{NameFault, Path, parse_path};

/// Gets the file at each path, and prints it before the next one is asked for.
pub(crate) fn copy_paths<A: Ask, K: Sink>(
    alloc: Global,
    words: &[String],
    ask: &mut A,
    sink: &mut K,
) -> Result<(), Stop>
    ensures copied { WordsCopied A.answers (K.held sink.old) (K.held sink.new) ask.old
        (map string_bytes words.now) result ask.new }
    ensures ask_cause { HasCause (A.faults ask.old) (A.faults ask.new)
        (IsErrOf result Stop.AskFault) }
    ensures ask_quiet { StaysUnless (A.faults ask.old) (A.faults ask.new)
        (IsErrOf result Stop.AskFault) }
    ensures tie { A.tied ask.old ask.new }
    ensures sink_cause { HasCause (K.faults sink.old) (K.faults sink.new)
        (IsErrOf result Stop.WriteFault) }
    ensures sink_quiet { StaysUnless (K.faults sink.old) (K.faults sink.new)
        (IsErrOf result Stop.WriteFault) }
{
    for word in words {
        match copy_path(alloc, word, ask, sink) {
            Ok(()) => {}
            Err(why) => return Err(why),
        }
    }
    Ok(())
}

// Gets the file at the path that a word names, and prints it.
fn copy_path<A: Ask, K: Sink>(
    alloc: Global,
    word: &str,
    ask: &mut A,
    sink: &mut K,
) -> Result<(), Stop>
    ensures copied { WordCopied A.answers (K.held sink.old) (K.held sink.new) ask.old
        word.now result ask.new }
    ensures ask_cause { HasCause (A.faults ask.old) (A.faults ask.new)
        (IsErrOf result Stop.AskFault) }
    ensures ask_quiet { StaysUnless (A.faults ask.old) (A.faults ask.new)
        (IsErrOf result Stop.AskFault) }
    ensures tie { A.tied ask.old ask.new }
    ensures sink_cause { HasCause (K.faults sink.old) (K.faults sink.new)
        (IsErrOf result Stop.WriteFault) }
    ensures sink_quiet { StaysUnless (K.faults sink.old) (K.faults sink.new)
        (IsErrOf result Stop.WriteFault) }
{
    match path_named(alloc, word) {
        Ok(Some(path)) => copy_file(alloc, &path, ask, sink),
        Ok(None) => print(sink, b"invalid name\n"),
        Err(AllocError) => Err(Stop::OutOfMemory),
    }
}

// The path that a word names. `None` where it names none.
fn path_named(alloc: Global, word: &str) -> Result<Option<Path>, AllocError>
    ensures { IfOk result (λ found. found ≡ result_ok (path_of word.now)) }
{
    match parse_path(alloc, word.as_bytes()) {
        Ok(path) => Ok(Some(path)),
        Err(NameFault::OutOfMemory) => Err(AllocError),
        Err(_) => Ok(None),
    }
}

// Gets the file at a path, and prints it.
fn copy_file<A: Ask, K: Sink>(
    alloc: Global,
    path: &Path,
    ask: &mut A,
    sink: &mut K,
) -> Result<(), Stop>
    ensures copied { FileCopied A.answers (K.held sink.old) (K.held sink.new) ask.old
        path.now result ask.new }
    ensures ask_cause { HasCause (A.faults ask.old) (A.faults ask.new)
        (IsErrOf result Stop.AskFault) }
    ensures ask_quiet { StaysUnless (A.faults ask.old) (A.faults ask.new)
        (IsErrOf result Stop.AskFault) }
    ensures tie { A.tied ask.old ask.new }
    ensures sink_cause { HasCause (K.faults sink.old) (K.faults sink.new)
        (IsErrOf result Stop.WriteFault) }
    ensures sink_quiet { StaysUnless (K.faults sink.old) (K.faults sink.new)
        (IsErrOf result Stop.WriteFault) }
{
    let got = get(alloc, ask, path);
    print_got(alloc, got, sink)
}
