//! `upspin script`: a script in, replies out.
ghost use Rattle.std.specs.Prelude.{◌≡◌, ◌≢◌, ◌⊎◌, ◌+◌, ◌-◌, ◌<◌, ◌≤◌, ◌^◌, ◌↔◌, [], ◌∷◌, ◌++◌, false, true, length, map, IfOk, IfSome, IsErrOf, OnOk, Some, string_bytes};
ghost use Rattle.std.specs.List.{AllByRecursion, sum_by};
ghost use Rattle.std.specs.Io.KnownBytes.{Appends, IsAtEnd};
ghost use Rattle.up_lists.specs.Counts.{Rose, StaysUnless};
ghost use Rattle.up_ends.specs.Writing.{WritesPart};
ghost use Rattle.up_sessions.specs.Fitting.{IsFit};
ghost use Rattle.up_disk.specs.Leaving.{IsBlank};
ghost use Rattle.up_text.specs.Lines.{script_lines};
ghost use Rattle.up_script.specs.ScriptAnswers.{Means, is_script};
ghost use Rattle.up_script.specs.ScriptRuns.{Scripted, stop_code, stop_text};
ghost use Rattle.up_script.specs.Standing.{AreHostLimits, around, parties, script_limits, world};
ghost use Rattle.up_script.specs.WholeRuns.{EndsWhole, IsGoodScript, NoFault};
ghost use Rattle.up_command.specs.Statuses.{IsOneOf, code_by, code_of, input_limit, usage_line};

use crate::stop::LineStop;
use crate::turns::run_line;
use std::alloc::{AllocError, Global};
use std::hash::RandomState;
use std::mem;
use up_command::{Status, Stop, bad_line, finish, flush, read_script, usage};
use up_disk::{Disk, Disks};
use up_ends::{Clock, Nonces, Sink, Source, Verifier};
use up_journal::Limits;
use up_peer::{Loader, Peers};
use up_sessions::Sessions;
use up_text::next_line;

/// The limits of the trees and keys of a script's hosts.
const LIMITS: Limits = Limits {
    records: 1_048_576,
    device: 1_073_741_824,
    largest: 131_072,
};

/// Runs `upspin script`, whose words begin with the command's own: reads a script to its end, and then does what its lines say, in order:
/// it opens hosts over these disks, of which there are 80, empty and with nothing pending, enrols users, signs them on, and prints the
/// reply to each request.
///
/// It answers a status: 0 at the end of the input, 1 at the first malformed line, with `bad line N` printed last, 2 and 3 where the source
/// or the sink failed, 4 for want of memory, 5 where the verifier failed at an `open` line, 6 where a disk failed at a `host` or `enrol`
/// line, 7 for an input of over 67,108,864 bytes, and 64 where the words are not `script` and one more, with the usage line printed. After
/// 2 and 7 nothing was written, after 3 and 4 a front of the text, after 5 and 6 the text of the lines before. Where no line is malformed
/// and nothing fails it is 0, and the whole text was written, or 4. All disks are back in their places, whatever the status; those that no
/// host has are blank, or have no record where a `host` line took them at which the run ended. The names that the script chooses are
/// hashed with these keys.
pub fn script_run<D: Disk + Drop, S: Source, K: Sink, V: Verifier, C: Clock, N: Nonces>(
    alloc: Global,
    random: RandomState,
    words: &[String],
    source: &mut S,
    sink: &mut K,
    disks: &mut Disks<D>,
    verifier: &mut V,
    clock: &mut C,
    nonces: &mut N,
    peers: &mut Peers,
) -> u8
    requires eighty { length disks.old.disks ≡ 80 }
    requires blank { AllByRecursion (IsBlank D.Disk) disks.old.disks }

    // What is written is the meaning of the bytes of the source, and so is what is left of the disks.
    ensures meaning { is_script (map string_bytes words.now) ≡ true
        → IsOneOf (0 ∷ 1 ∷ 3 ∷ 4 ∷ 5 ∷ 6 ∷ []) result
        → Means (parties D.Disk ⟦<Peers as Loader>⟧ V.Verifier C.Clock N.Nonces) script_limits
        (S.left source.old) (K.held sink.old) (K.held sink.new) disks.old.disks disks.new.disks
        (around peers.old verifier.old clock.old nonces.old)
        (around peers.new verifier.new clock.new nonces.new) result }

    // A script with which nothing is wrong and under which nothing fails is run whole, or memory is wanting.
    ensures complete { is_script (map string_bytes words.now) ≡ true
        → NoFault (S.faults source.old) (S.faults source.new)
        → NoFault (K.faults sink.old) (K.faults sink.new)
        → NoFault (V.faults verifier.old) (V.faults verifier.new)
        → NoFault (sum_by D.faults disks.old.disks) (sum_by D.faults disks.new.disks)
        → IfSome (S.left source.old) (λ input. IsGoodScript input → EndsWhole
        (parties D.Disk ⟦<Peers as Loader>⟧ V.Verifier C.Clock N.Nonces) script_limits
        input (K.held sink.old) (K.held sink.new) disks.old.disks disks.new.disks
        (around peers.old verifier.old clock.old nonces.old)
        (around peers.new verifier.new clock.new nonces.new) result) }

    // For all sources, sinks, verifiers and disks: the statuses that come, and the cause of each.
    ensures statuses { IsOneOf (0 ∷ 1 ∷ 2 ∷ 3 ∷ 4 ∷ 5 ∷ 6 ∷ 7 ∷ 64 ∷ []) result }
    ensures usage { is_script (map string_bytes words.now) ≡ false
        → IsOneOf (3 ∷ 64 ∷ []) result × (source.new ≡ source.old) × (disks.new ≡ disks.old)
        × (around peers.new verifier.new clock.new nonces.new
        ≡ around peers.old verifier.old clock.old nonces.old) }
    ensures usage_part { is_script (map string_bytes words.now) ≡ false
        → WritesPart (K.held sink.old) (K.held sink.new) usage_line }
    ensures usage_only { result ≡ 64 → is_script (map string_bytes words.now) ≡ false }
    ensures read_fault { result ≡ 2 → Rose (S.faults source.old) (S.faults source.new) }
    ensures write_fault { result ≡ 3 → Rose (K.faults sink.old) (K.faults sink.new) }
    ensures helper_fault { result ≡ 5 → Rose (V.faults verifier.old) (V.faults verifier.new) }
    ensures disk_fault { result ≡ 6
        → Rose (sum_by D.faults disks.old.disks) (sum_by D.faults disks.new.disks) }
    ensures too_long { result ≡ 7 → S.given source.old + input_limit < 2 ^ 64 - 1
        → S.given source.old + input_limit < S.given source.new }
    ensures too_long_always { S.given source.old + input_limit < 2 ^ 64 - 1
        → S.given source.old + input_limit < S.given source.new → result ≡ 7 }
    ensures source_counts { S.faults source.old ≤ S.faults source.new }
    ensures source_quiet { StaysUnless (S.faults source.old) (S.faults source.new) (result ≡ 2) }
    ensures sink_counts { K.faults sink.old ≤ K.faults sink.new }
    ensures sink_quiet { StaysUnless (K.faults sink.old) (K.faults sink.new) (result ≡ 3) }

    ensures told_long { result ≡ 7
        → IfSome (S.left source.old) (λ bytes. input_limit < length bytes) }
    ensures told_short { IsOneOf (0 ∷ 1 ∷ 5 ∷ 6 ∷ []) result
        → IfSome (S.left source.old) (λ bytes. length bytes ≤ input_limit) }

    // And what is left of them.
    ensures at_end { IsOneOf (0 ∷ 1 ∷ 5 ∷ 6 ∷ []) result → IsAtEnd (S.left source.new) }
    ensures read_first { is_script (map string_bytes words.now) ≡ true → result ≡ 3
        → IsAtEnd (S.left source.new)
        × IfSome (S.left source.old) (λ bytes. length bytes ≤ input_limit) }
    ensures unread { result ≡ 4 → IsAtEnd (S.left source.new)
        ⊎ ((sink.new ≡ sink.old) × (disks.new ≡ disks.old)
        × (around peers.new verifier.new clock.new nonces.new
        ≡ around peers.old verifier.old clock.old nonces.old)) }
    ensures untouched { IsOneOf (2 ∷ 7 ∷ []) result → sink.new ≡ sink.old }
    ensures unused { IsOneOf (2 ∷ 7 ∷ 64 ∷ []) result → disks.new ≡ disks.old }
    ensures alone { IsOneOf (2 ∷ 7 ∷ 64 ∷ []) result
        → around peers.new verifier.new clock.new nonces.new
        ≡ around peers.old verifier.old clock.old nonces.old }
    ensures usage_written { result ≡ 64 → Appends (K.held sink.old) (K.held sink.new) usage_line }
{
    if !is_script(words) {
        return usage(sink).code();
    }
    script_within(
        alloc, random, LIMITS, source, sink, disks, verifier, clock, nonces, peers,
    )
}

/// Whether the words are those of `upspin script`: the word `script`, and a helper's path.
fn is_script(words: &[String]) -> bool
    ensures { result ≡ is_script (map string_bytes words.now) }
{
    match words {
        [command, _helper] => command.as_str() == "script",
        _ => false,
    }
}

/// Runs a script as [`script_run`] does, whatever the words of the program: its hosts have these limits, and the peers may be of any kind.
/// It answers 0 to 7, as [`script_run`] does.
pub fn script_within<
    D: Disk + Drop,
    P: Loader,
    S: Source,
    K: Sink,
    V: Verifier,
    C: Clock,
    N: Nonces,
>(
    alloc: Global,
    random: RandomState,
    limits: Limits,
    source: &mut S,
    sink: &mut K,
    disks: &mut Disks<D>,
    verifier: &mut V,
    clock: &mut C,
    nonces: &mut N,
    peers: &mut P,
) -> u8
    requires limits { AreHostLimits limits }
    requires eighty { length disks.old.disks ≡ 80 }
    requires blank { AllByRecursion (IsBlank D.Disk) disks.old.disks }
    ensures statuses { IsOneOf (0 ∷ 1 ∷ 2 ∷ 3 ∷ 4 ∷ 5 ∷ 6 ∷ 7 ∷ []) result }
    ensures means { IsOneOf (0 ∷ 1 ∷ 3 ∷ 4 ∷ 5 ∷ 6 ∷ []) result
        → Means (parties D.Disk P.Loader V.Verifier C.Clock N.Nonces) limits
        (S.left source.old) (K.held sink.old) (K.held sink.new) disks.old.disks disks.new.disks
        (around peers.old verifier.old clock.old nonces.old)
        (around peers.new verifier.new clock.new nonces.new) result }
    ensures complete { NoFault (S.faults source.old) (S.faults source.new)
        → NoFault (K.faults sink.old) (K.faults sink.new)
        → NoFault (V.faults verifier.old) (V.faults verifier.new)
        → NoFault (sum_by D.faults disks.old.disks) (sum_by D.faults disks.new.disks)
        → IfSome (S.left source.old) (λ input. IsGoodScript input → EndsWhole
        (parties D.Disk P.Loader V.Verifier C.Clock N.Nonces) limits
        input (K.held sink.old) (K.held sink.new) disks.old.disks disks.new.disks
        (around peers.old verifier.old clock.old nonces.old)
        (around peers.new verifier.new clock.new nonces.new) result) }
    ensures whole { IsOneOf (0 ∷ 1 ∷ 3 ∷ 5 ∷ 6 ∷ []) result → IsAtEnd (S.left source.new)
        × IfSome (S.left source.old) (λ bytes. length bytes ≤ input_limit) }
    ensures unread { result ≡ 4 → IsAtEnd (S.left source.new)
        ⊎ ((sink.new ≡ sink.old) × (disks.new ≡ disks.old)
        × (around peers.new verifier.new clock.new nonces.new
        ≡ around peers.old verifier.old clock.old nonces.old)) }
    ensures untouched { IsOneOf (2 ∷ 7 ∷ []) result
        → (sink.new ≡ sink.old) × (disks.new ≡ disks.old)
        × (around peers.new verifier.new clock.new nonces.new
        ≡ around peers.old verifier.old clock.old nonces.old) }
    ensures read_fault { result ≡ 2 → Rose (S.faults source.old) (S.faults source.new) }
    ensures write_fault { result ≡ 3 → Rose (K.faults sink.old) (K.faults sink.new) }
    ensures helper_fault { result ≡ 5 → Rose (V.faults verifier.old) (V.faults verifier.new) }
    ensures disk_fault { result ≡ 6
        → Rose (sum_by D.faults disks.old.disks) (sum_by D.faults disks.new.disks) }
    ensures long { S.given source.old + input_limit < 2 ^ 64 - 1
        → (result ≡ 7 ↔ (S.given source.old + input_limit < S.given source.new)) }
    ensures told_long { result ≡ 7
        → IfSome (S.left source.old) (λ bytes. input_limit < length bytes) }
    ensures source_counts { S.faults source.old ≤ S.faults source.new }
    ensures source_quiet { StaysUnless (S.faults source.old) (S.faults source.new) (result ≡ 2) }
    ensures sink_counts { K.faults sink.old ≤ K.faults sink.new }
    ensures sink_quiet { StaysUnless (K.faults sink.old) (K.faults sink.new) (result ≡ 3) }
{
    match read_script(alloc, source) {
        Ok(input) => run_script(
            alloc, random, limits, &input, sink, disks, peers, verifier, clock, nonces,
        ),
        Err(status) => status,
    }
}

/// Runs a script that was read whole, and answers the status with which that ended. All disks are back in their places then.
fn run_script<D: Disk + Drop, P: Loader, K: Sink, V: Verifier, C: Clock, N: Nonces>(
    alloc: Global,
    random: RandomState,
    limits: Limits,
    input: &[u8],
    sink: &mut K,
    disks: &mut Disks<D>,
    peers: &mut P,
    verifier: &mut V,
    clock: &mut C,
    nonces: &mut N,
) -> u8
    requires limits { AreHostLimits limits }
    requires eighty { length disks.old.disks ≡ 80 }
    requires blank { AllByRecursion (IsBlank D.Disk) disks.old.disks }
    ensures means { Means (parties D.Disk P.Loader V.Verifier C.Clock N.Nonces) limits
        (Some input.now) (K.held sink.old) (K.held sink.new) disks.old.disks disks.new.disks
        (around peers.old verifier.old clock.old nonces.old)
        (around peers.new verifier.new clock.new nonces.new) result }
    ensures status { IsOneOf (0 ∷ 1 ∷ 3 ∷ 4 ∷ 5 ∷ 6 ∷ []) result }
    ensures cause { result ≡ 3 → Rose (K.faults sink.old) (K.faults sink.new) }
    ensures later { K.faults sink.old ≤ K.faults sink.new }
    ensures quiet { StaysUnless (K.faults sink.old) (K.faults sink.new) (result ≡ 3) }
{
    let given = mem::replace(disks, Disks::new(alloc));
    match Sessions::new(alloc, random, given) {
        Ok(sessions) => {
            let mut sessions = sessions;
            let status = run_lines(
                alloc,
                limits,
                &mut sessions,
                peers,
                verifier,
                clock,
                nonces,
                input,
                sink,
            );
            drop(mem::replace(disks, sessions.into_disks()));
            status
        }
        Err(given) => {
            drop(mem::replace(disks, given));
            Status::OutOfMemory.code()
        }
    }
}

/// Does what a script's lines say, one after the other, prints what they print, and answers the status with which that ended.
fn run_lines<D: Disk + Drop, P: Loader, K: Sink, V: Verifier, C: Clock, N: Nonces>(
    alloc: Global,
    limits: Limits,
    sessions: &mut Sessions<D>,
    peers: &mut P,
    verifier: &mut V,
    clock: &mut C,
    nonces: &mut N,
    lines: &[u8],
    sink: &mut K,
) -> u8
    requires limits { AreHostLimits limits }
    requires fit { IsFit D.Disk sessions.old }
    ensures scripted { Scripted (parties D.Disk P.Loader V.Verifier C.Clock N.Nonces) limits
        (K.held sink.old) (K.held sink.new)
        (world sessions.old peers.old verifier.old clock.old nonces.old) (script_lines lines.now)
        result (world sessions.new peers.new verifier.new clock.new nonces.new) }
    ensures status { IsOneOf (0 ∷ 1 ∷ 3 ∷ 4 ∷ 5 ∷ 6 ∷ []) result }
    ensures cause { result ≡ 3 → Rose (K.faults sink.old) (K.faults sink.new) }
    ensures later { K.faults sink.old ≤ K.faults sink.new }
    ensures quiet { StaysUnless (K.faults sink.old) (K.faults sink.new) (result ≡ 3) }
{
    match run_each(
        alloc, limits, sessions, peers, verifier, clock, nonces, lines, sink,
    ) {
        Ok(status) => status.code(),
        Err(Stop::WriteFault) => Status::WriteFault.code(),
        Err(Stop::OutOfMemory) => Status::OutOfMemory.code(),
    }
}

fn run_each<D: Disk + Drop, P: Loader, K: Sink, V: Verifier, C: Clock, N: Nonces>(
    alloc: Global,
    limits: Limits,
    sessions: &mut Sessions<D>,
    peers: &mut P,
    verifier: &mut V,
    clock: &mut C,
    nonces: &mut N,
    lines: &[u8],
    sink: &mut K,
) -> Result<Status, Stop>
    requires limits { AreHostLimits limits }
    requires fit { IsFit D.Disk sessions.old }
    ensures scripted { Scripted (parties D.Disk P.Loader V.Verifier C.Clock N.Nonces) limits
        (K.held sink.old) (K.held sink.new)
        (world sessions.old peers.old verifier.old clock.old nonces.old) (script_lines lines.now)
        (code_by result) (world sessions.new peers.new verifier.new clock.new nonces.new) }
    ensures status { IfOk result (λ status. IsOneOf (0 ∷ 1 ∷ 5 ∷ 6 ∷ []) (code_of status)) }
    ensures cause { IsErrOf result Stop.WriteFault → Rose (K.faults sink.old) (K.faults sink.new) }
    ensures later { K.faults sink.old ≤ K.faults sink.new }
    ensures quiet { StaysUnless (K.faults sink.old) (K.faults sink.new)
        (IsErrOf result Stop.WriteFault) }
{
    let mut gathered = Vec::new(alloc);
    let mut number: u64 = 1;
    let mut rest = lines;
    while let Some((line, after)) = next_line(rest) {
        match run_line(
            alloc,
            limits,
            sessions,
            peers,
            verifier,
            clock,
            nonces,
            line,
            &mut gathered,
        ) {
            Ok(()) => flush(sink, &mut gathered)?,
            Err(why) => return end(alloc, sink, &mut gathered, number, why),
        }
        number += 1;
        rest = after;
    }
    finish(sink, &mut gathered, b"")?;
    Ok(Status::Done)
}

/// Ends a run at a line that was not done, whose number this is.
fn end<K: Sink>(
    alloc: Global,
    sink: &mut K,
    gathered: &mut Vec<u8>,
    number: u64,
    why: LineStop,
) -> Result<Status, Stop>
    ensures whole { OnOk result (Appends (K.held sink.old) (K.held sink.new)
        (gathered.old.items ++ stop_text number why)) }
    ensures code { IfOk result (λ status. code_of status ≡ stop_code why) }
    ensures kind { IfOk result (λ status. IsOneOf (1 ∷ 5 ∷ 6 ∷ []) (code_of status)) }
    ensures part { WritesPart (K.held sink.old) (K.held sink.new)
        (gathered.old.items ++ stop_text number why) }
    ensures wanting { why ≡ LineStop.OutOfMemory → IsErrOf result Stop.OutOfMemory }
    ensures unwritten { why ≡ LineStop.OutOfMemory → sink.new ≡ sink.old }
    ensures cause { IsErrOf result Stop.WriteFault → Rose (K.faults sink.old) (K.faults sink.new) }
    ensures later { K.faults sink.old ≤ K.faults sink.new }
    ensures quiet { StaysUnless (K.faults sink.old) (K.faults sink.new)
        (IsErrOf result Stop.WriteFault) }
{
    let (last, status) = ending(alloc, number, why)?;
    finish(sink, gathered, &last)?;
    Ok(status)
}

/// The text that is written last where a line was not done, whose number this is, and the status.
fn ending(alloc: Global, number: u64, why: LineStop) -> Result<(Vec<u8>, Status), AllocError>
    ensures text { IfOk result (λ ending. ending.0.items ≡ stop_text number why) }
    ensures code { IfOk result (λ ending. code_of ending.1 ≡ stop_code why) }
    ensures kind { IfOk result (λ ending. IsOneOf (1 ∷ 5 ∷ 6 ∷ []) (code_of ending.1)) }
    ensures done { OnOk result (why ≢ LineStop.OutOfMemory) }
{
    match why {
        LineStop::Malformed => Ok((bad_line(alloc, number)?, Status::BadLine)),
        LineStop::HelperFault => Ok((Vec::new(alloc), Status::HelperFault)),
        LineStop::DiskFault => Ok((Vec::new(alloc), Status::DiskFault)),
        LineStop::OutOfMemory => Err(AllocError),
    }
}
