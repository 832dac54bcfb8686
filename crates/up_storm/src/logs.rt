//! The logs of a storm are read, once its sessions have ended.
ghost use Rattle.std.specs.Prelude.{◌≡◌, ◌<◌, ◌+◌, ◌^◌, ◌++◌, ◌∷◌, [], codes, decimal, length, take, IfOk, OnOk};
ghost use Rattle.up_entry.specs.declared.records.Rec.TheVariants as rec;
ghost use Rattle.up_log_tree.specs.Fits.{IsLog};
ghost use Rattle.up_log_tree.specs.Trees.{tree_of};
ghost use Rattle.up_storm.specs.Logs.{IsLogRead, ReadsLog, stood_before};
ghost use Rattle.up_storm.specs.Telling.{record_words, records_text};
ghost use Rattle.up_text.specs.Entries.{entry_words};
ghost use Rattle.up_text.specs.Lines.{behind_spaces, spaced};
ghost use Rattle.up_command.specs.Printed.{ended};

use std::alloc::{AllocError, Global};
use up_bytes::{Bytes, copy_of};
use up_cell::Job;
use up_command::{say, say_count};
use up_disk::Disk;
use up_entry::{Entry, Rec};
use up_lists::Items;
use up_names::Path;
use up_text::{push_word, reply_lines};
use up_tree::TreeState;
use up_wire::{Done, Reply};

/// What is printed of a log: how many records it has, how many items the tree that it gives, and its records, where all is printed.
#[derive(Drop)]
pub struct LogRead {
    pub records: u64,
    pub rows: u64,
    pub text: Bytes,
}

/// Reads a tree's log.
#[derive(Drop)]
pub(crate) struct ReadLog {
    pub(crate) alloc: Global,
    pub(crate) full: bool,
    pub(crate) read: Result<LogRead, AllocError>,
}

impl<D: Disk> Job<TreeState<D>> for ReadLog {
    ghost can = { λ job state. Unit {0} };

    ghost did = { λ job old after new. ReadsLog job.full old new after.read };

    fn run(&mut self, state: &mut TreeState<D>) {
        self.read = read_log(self.alloc, state, self.full);
    }
}

// What is printed of a log.
fn read_log<D: Disk>(alloc: Global, state: &TreeState<D>, full: bool) -> Result<LogRead, AllocError>
    ensures { IfOk result (IsLogRead full state.now.log) }
{
    let mut text = Vec::new(alloc);
    if full {
        say_records(alloc, &mut text, state)?;
    }
    Ok(LogRead {
        records: state.position(),
        rows: rows_of(state),
        text: Bytes::from_vec(text),
    })
}

// Adds all records of a log, each with its position.
#[tactic(auto, using(crate::proofs::Saying::records_next, crate::proofs::Saying::records_all, crate::proofs::Saying::record_there))]
fn say_records<D: Disk>(
    alloc: Global,
    out: &mut Vec<u8>,
    state: &TreeState<D>,
) -> Result<(), AllocError>
    ensures { OnOk result (out.new.items ≡ out.old.items ++ records_text 0 state.now.log) }
{
    for n in 0..state.position() {
        let Some(rec) = state.rec_at(n + 1) else {
            unreachable!()
        };
        say_record(alloc, out, n + 1, rec)?;
    }
    Ok(())
}

// Adds a record with its position.
fn say_record(alloc: Global, out: &mut Vec<u8>, n: u64, rec: &Rec) -> Result<(), AllocError>
    ensures { OnOk result (out.new.items
        ≡ out.old.items ++ ended (spaced (record_words n rec.now))) }
{
    match rec {
        Rec::Put(entry, _) => say_put(alloc, out, n, entry),
        Rec::Delete(path) => say_delete(out, n, path),
        Rec::Snap(time) => say_snap(out, n, *time),
    }
}

// Adds `POSITION put ENTRY`.
#[tactic(auto, using(crate::proofs::Saying::put_said))]
fn say_put(alloc: Global, out: &mut Vec<u8>, n: u64, entry: &Entry) -> Result<(), AllocError>
    ensures { OnOk result (out.new.items ≡ out.old.items
        ++ ended (spaced (decimal n ∷ codes "put" ∷ entry_words entry.now))) }
{
    let words = entry_words(alloc, entry)?;
    push_place(out, n)?;
    out.extend_from_slice(b"put")?;
    say(out, words.as_slice(), b"")
}

// The words of an entry, each behind a space: those behind the keyword in the reply that has it.
fn entry_words(alloc: Global, entry: &Entry) -> Result<Bytes, AllocError>
    ensures { IfOk result (λ words. words ≡ behind_spaces (entry_words entry.now)) }
{
    let lines = entry_lines(alloc, entry)?;
    let Some(line) = lines.get(0) else {
        unreachable!()
    };
    copy_of(alloc, &line.as_slice()[5..])
}

// The one line of the reply that has an entry.
#[tactic(auto, using(crate::proofs::Saying::entry_told))]
fn entry_lines(alloc: Global, entry: &Entry) -> Result<Items<Bytes>, AllocError>
    ensures { IfOk result (λ lines.
        lines ≡ (codes "entry" ++ behind_spaces (entry_words entry.now)) ∷ []) }
{
    let reply = Reply::Ok(Done::Entry(entry.clone()?));
    let lines = reply_lines(alloc, &reply);
    drop(reply);
    lines
}

// Adds `POSITION delete PATH`.
fn say_delete(out: &mut Vec<u8>, n: u64, path: &Path) -> Result<(), AllocError>
    ensures { OnOk result (out.new.items
        ≡ out.old.items ++ ended (spaced (record_words n (rec.Delete path.now)))) }
{
    push_place(out, n)?;
    out.extend_from_slice(b"delete ")?;
    push_word(out, path.as_str().as_bytes())?;
    out.push(b'\n')?;
    Ok(())
}

// Adds `POSITION snap TIME`.
fn say_snap(out: &mut Vec<u8>, n: u64, time: u64) -> Result<(), AllocError>
    ensures { OnOk result (out.new.items
        ≡ out.old.items ++ ended (spaced (record_words n (rec.Snap time)))) }
{
    push_place(out, n)?;
    say_count(out, b"snap ", time)
}

// Adds a position and a space.
fn push_place(out: &mut Vec<u8>, n: u64) -> Result<(), AllocError>
    ensures { OnOk result (out.new.items ≡ out.old.items ++ (decimal n ++ codes " ")) }
{
    let digits = n.to_string(*out.allocator())?;
    out.extend_from_slice(digits.as_bytes())?;
    out.push(b' ')?;
    Ok(())
}

// How many items the tree has that a log gives.
#[tactic(auto, using(crate::proofs::Rows::rows_none, crate::proofs::Rows::rows_all))]
fn rows_of<D: Disk>(state: &TreeState<D>) -> u64
    ensures { result ≡ length (tree_of state.now.log) }
{
    let mut rows: u64 = 0;
    for n in 0..state.position() {
        rows = rows_after(state, n, rows);
    }
    rows
}

// How many items there are after the record behind the first `n`, where so many are before it.
#[tactic(auto, using(crate::proofs::Rows::rows_stood, crate::proofs::Rows::rows_added, crate::proofs::Rows::rows_deleted, crate::proofs::Rows::rows_some, crate::proofs::Rows::rows_kept, crate::proofs::Rows::rows_few, crate::proofs::Saying::record_there))]
fn rows_after<D: Disk>(state: &TreeState<D>, n: u64, rows: u64) -> u64
    requires log { IsLog state.now.owner state.now.log }
    requires within { n < length state.now.log }
    requires small { n + 1 < 2 ^ 64 }
    requires rows { rows ≡ length (tree_of (take n state.now.log)) }
    ensures { result ≡ length (tree_of (take (n + 1) state.now.log)) }
{
    match state.rec_at(n + 1) {
        Some(Rec::Put(_, _)) => {
            if stood_before(state, n + 1) {
                rows
            } else {
                rows + 1
            }
        }
        Some(Rec::Delete(_)) => rows - 1,
        Some(Rec::Snap(_)) => rows,
        None => unreachable!(),
    }
}

// Whether something stood, before record `n`, at the path that it changes: the last change before it was a Put.
fn stood_before<D: Disk>(state: &TreeState<D>, n: u64) -> bool
    ensures { result ≡ stood_before state.now.log n }
{
    match state.change_before(n) {
        Some(m) => matches!(state.rec_at(m), Some(Rec::Put(_, _))),
        None => false,
    }
}
