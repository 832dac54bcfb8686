//! What a request asks of a directory.
ghost use Rattle.std.specs.Prelude.{◌≡◌, Some, None, if◌then◌else◌, int_le, negsuc, not};
ghost use Rattle.up_entry.specs.Checking.{Gives, path_or};
ghost use Rattle.up_entry.specs.declared.what.What.TheVariants as what;
ghost use Rattle.up_names.specs.Texts.{UserName};
ghost use Rattle.up_names.specs.declared.fault.NameFault.TheVariants as name;
ghost use Rattle.up_policy.specs.Trees.{owns_snapshots};
ghost use Rattle.up_wire.specs.declared.requests.Request.TheVariants as request;
ghost use Rattle.up_list.specs.Asking.{asked_of, owner_asked, pattern_or_fault};

use std::alloc::Global;
use up_entry::{Checked, EntryFault, What, check_entry};
use up_mem_tree::is_group;
use up_names::{NameFault, Path, User, parse_path};
use up_pattern::{Pattern, PatternFault, parse_pattern};
use up_policy::owns_snapshots;
use up_wire::Request;

/// A request to a directory whose texts were read.
#[derive(Debug, Drop)]
pub enum ReadRequest {
    Lookup(Path),
    WhichAccess(Path),
    /// Of a Group path.
    GroupText(Path),
    Delete(Path),
    /// The entry keeps all rules of entries.
    Put(Checked),
    Glob(Pattern),
    /// The path that is watched, which is of no snapshot tree, and the sequence from which on, at least -2.
    Watch(Path, i64),
}

impl ReadRequest {
    /// The owner of the path, or of the pattern, that is asked of.
    pub fn owner(&self) -> &User
        ensures { result.now ≡ owner_asked self.now }
    {
        match self {
            ReadRequest::Lookup(path)
            | ReadRequest::WhichAccess(path)
            | ReadRequest::GroupText(path)
            | ReadRequest::Delete(path)
            | ReadRequest::Watch(path, _) => path.owner(),
            ReadRequest::Put(put) => put.entry.name.owner(),
            ReadRequest::Glob(pattern) => pattern.owner(),
        }
    }
}

/// What a user's request asks of a directory, or what of it is malformed: a path is no path text; a pattern is none; an entry
/// may not be put; GroupText does not ask of a Group path; a Watch has a sequence below -2, or is of a snapshot tree. A request
/// to the store or the keys names no path.
#[tactic(auto, unfolding(crate::specs::Asking::asked_of))]
pub fn asked_of(alloc: Global, user: &User, request: &Request) -> Result<ReadRequest, EntryFault>
    ensures { Gives (λ asked. asked) result (asked_of user.now request.now) }
{
    match request {
        Request::Lookup(text) => Ok(ReadRequest::Lookup(path_asked(alloc, text.as_slice())?)),
        Request::WhichAccess(text) => Ok(ReadRequest::WhichAccess(path_asked(
            alloc,
            text.as_slice(),
        )?)),
        Request::GroupText(text) => group_asked(alloc, text.as_slice()),
        Request::Delete(text) => Ok(ReadRequest::Delete(path_asked(alloc, text.as_slice())?)),
        Request::Put(put) => Ok(ReadRequest::Put(check_entry(alloc, put, user)?)),
        Request::Glob(text) => Ok(ReadRequest::Glob(pattern_asked(alloc, text.as_slice())?)),
        Request::Watch(text, sequence) => watch_asked(alloc, text.as_slice(), sequence),
        Request::Get(_)
        | Request::StorePut(_)
        | Request::StoreDelete(_)
        | Request::KeyLookup(_)
        | Request::KeyPut(_) => Err(EntryFault::Invalid(What::Name)),
    }
}

/// What a GroupText of this text asks.
#[tactic(auto, unfolding(crate::specs::Asking::asked_of))]
fn group_asked(alloc: Global, text: &[u8]) -> Result<ReadRequest, EntryFault>
    ensures { (user : UserName)
        → Gives (λ asked. asked) result (asked_of user (request.GroupText text.now)) }
{
    let path = path_asked(alloc, text)?;
    if is_group(&path) {
        return Ok(ReadRequest::GroupText(path));
    }
    drop(path);
    Err(EntryFault::Invalid(What::GroupName))
}

/// What a Watch of this text asks.
#[tactic(auto, unfolding(crate::specs::Asking::asked_of))]
fn watch_asked(alloc: Global, text: &[u8], sequence: &i64) -> Result<ReadRequest, EntryFault>
    ensures { (user : UserName)
        → Gives (λ asked. asked) result (asked_of user (request.Watch text.now sequence.now)) }
{
    let path = path_asked(alloc, text)?;
    match broken_by_watch(&path, *sequence) {
        None => Ok(ReadRequest::Watch(path, *sequence)),
        Some(what) => {
            drop(path);
            Err(EntryFault::Invalid(what))
        }
    }
}

/// The rule that a Watch breaks, where there is one.
fn broken_by_watch(path: &Path, sequence: i64) -> Option<What>
    ensures { result ≡ (if not (int_le (negsuc 1) sequence) then Some what.Sequence
        else if owns_snapshots path.now.owner then Some what.SnapshotWatch else None) }
{
    if sequence < -2 {
        return Some(What::Sequence);
    }
    if owns_snapshots(path.owner()) {
        return Some(What::SnapshotWatch);
    }
    None
}

/// The path of a text that has to be a path text.
fn path_asked(alloc: Global, text: &[u8]) -> Result<Path, EntryFault>
    ensures { Gives (λ path. path) result (path_or What.Name text.now) }
{
    match parse_path(alloc, text) {
        Ok(path) => Ok(path),
        Err(NameFault::OutOfMemory) => Err(EntryFault::OutOfMemory),
        Err(_) => Err(EntryFault::Invalid(What::Name)),
    }
}

/// The pattern of a text that has to be one.
fn pattern_asked(alloc: Global, text: &[u8]) -> Result<Pattern, EntryFault>
    ensures { Gives (λ pattern. pattern) result (pattern_or_fault text.now) }
{
    match parse_pattern(alloc, text) {
        Ok(pattern) => Ok(pattern),
        Err(PatternFault::Name) => Err(EntryFault::Invalid(What::Name)),
        Err(PatternFault::Element(place)) => Err(EntryFault::Invalid(What::Pattern(place))),
        Err(PatternFault::OutOfMemory) => Err(EntryFault::OutOfMemory),
    }
}
