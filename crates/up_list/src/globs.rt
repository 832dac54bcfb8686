//! The reply to Glob.
ghost use Rattle.std.specs.Prelude.{◌≡◌, ◌∷◌, [], IfOk, None, OnOk, Some, length, unwrap_or};
ghost use Rattle.std.specs.List.Sorted.{IsSortedBy, IsStableBy};
ghost use Rattle.std.specs.Option.{option_map, option_or};
ghost use Rattle.up_names.specs.PathNames.{extended};
ghost use Rattle.up_log_tree.specs.Fits.{HasDirectory};
ghost use Rattle.up_rights.specs.declared.Right.TheVariants as right;
ghost use Rattle.up_list.specs.Checks.{check, ways};
ghost use Rattle.up_list.specs.Entries.{entry_at};
ghost use Rattle.up_list.specs.Founds.{entry_found};
ghost use Rattle.up_list.specs.Globs.{glob_reply, is_whole, kind_refusal, literal_path, one_row, rows, rows_reply, whole_reply};
ghost use Rattle.up_list.specs.Looks.{rights};
ghost use Rattle.up_list.specs.Places.{is_before};
ghost use Rattle.up_list.specs.Rooted.{IsRooted};

use crate::checks::{check, pass};
use crate::found::Found;
use crate::onlooker::Onlooker;
use crate::reads::entry_shown;
use crate::walk::walk_from;
use std::alloc::{AllocError, Global};
use up_entry::{Entry, Kind};
use up_lists::Items;
use up_names::Path;
use up_pattern::Pattern;
use up_rights::{Right, RightSet};
use up_wire::{Done, Reply, Row};

/// The reply to Glob of a pattern: the rows of the items that match, in order of paths.
///
/// Only those directories are looked into whose names match on the way, never the whole tree; and what was decided of rights
/// under one text is not decided again for each path that it governs.
#[tactic(auto, unfolding(crate::specs::Globs::glob_reply))]
pub fn glob_for<O: Onlooker>(
    alloc: Global,
    onlooker: &O,
    pattern: &Pattern,
) -> Result<Reply, AllocError>
    requires { pattern.now.owner ≡ (O.look onlooker.now).owner }
    ensures { IfOk result (λ reply. reply ≡ glob_reply (O.look onlooker.now) pattern.now) }
{
    let front = literal_path(alloc, pattern)?;
    if !is_whole(pattern, &front) {
        return rows_reply(alloc, onlooker, pattern, front);
    }
    let reply = one_row(alloc, onlooker, &front);
    drop(front);
    reply
}

/// The reply to a pattern that is not all literal, with the path of the literal elements in front.
#[tactic(auto, using(crate::proofs::PassLemmas::rows_or_refusal))]
fn rows_reply<O: Onlooker>(
    alloc: Global,
    onlooker: &O,
    pattern: &Pattern,
    front: Path,
) -> Result<Reply, AllocError>
    requires front { front ≡ literal_path pattern.now }
    requires owned { pattern.now.owner ≡ (O.look onlooker.now).owner }
    ensures { IfOk result (λ reply. reply ≡ unwrap_or
        (check (O.look onlooker.now) (ways front) front (Some right.List))
        (rows_reply (O.look onlooker.now) pattern.now (entry_at (O.look onlooker.now).tree front))) }
{
    match front_refusal(alloc, onlooker, &front)? {
        Some(refusal) => {
            drop(front);
            Ok(refusal)
        }
        None => {
            let rows = rows_below(alloc, onlooker, pattern, front)?;
            Ok(Reply::Ok(Done::Rows(Items::from_vec(rows))))
        }
    }
}

/// The refusal of such a pattern, by links and by list on that path, and then by what stands there.
fn front_refusal<O: Onlooker>(
    alloc: Global,
    onlooker: &O,
    front: &Path,
) -> Result<Option<Reply>, AllocError>
    requires { front.now.owner ≡ (O.look onlooker.now).owner }
    ensures refusal { IfOk result (λ refusal. refusal ≡ option_or
        (check (O.look onlooker.now) (ways front.now) front.now (Some right.List))
        (kind_refusal (entry_at (O.look onlooker.now).tree front.now))) }
    ensures rooted { IfOk result (λ refusal. refusal ≡ None
        → IsRooted (O.look onlooker.now).owner (O.look onlooker.now).tree) }
{
    match check(alloc, onlooker, front, true, Some(Right::List))? {
        Some(refusal) => Ok(Some(refusal)),
        None => Ok(kind_refusal(onlooker.item(alloc, front)?)),
    }
}

/// The refusal where nothing is found, or a file.
fn kind_refusal(found: Option<Found>) -> Option<Reply>
    ensures { result ≡ kind_refusal (option_map entry_found found.entry) }
{
    let Some(found) = found else {
        return Some(Reply::NotExist);
    };
    let kind = found.entry().attr.kind;
    drop(found);
    match kind {
        Kind::File => Some(Reply::NotDir),
        Kind::Directory | Kind::Link => None,
    }
}

/// The path of the literal elements in front of a pattern.
///
/// A pattern's text has at most 4,096 bytes, and so this path is never too long.
fn literal_path(alloc: Global, pattern: &Pattern) -> Result<Path, AllocError>
    ensures { IfOk result (λ path. path ≡ literal_path pattern.now) }
{
    let mut path = Path::root(pattern.owner().clone()?)?;
    for at in 0..pattern.len() {
        let Some(name) = pattern.literal(at) else {
            return Ok(path);
        };
        path = within(&path, name)?;
    }
    Ok(path)
}

/// The path with one element more.
#[tactic(auto, using(crate::proofs::GlobLemmas::joined_is))]
pub(crate) fn within(dir: &Path, name: &str) -> Result<Path, AllocError>
    ensures { IfOk result (λ path. path ≡ extended dir.now name.now) }
{
    match dir.join(name) {
        Ok(path) => Ok(path),
        Err(_) => Err(AllocError),
    }
}

/// Whether the path of the literal elements in front of a pattern is the whole of it.
#[tactic(auto, unfolding(crate::specs::Globs::is_whole, crate::specs::Globs::literal_path))]
fn is_whole(pattern: &Pattern, front: &Path) -> bool
    requires { front.now ≡ literal_path pattern.now }
    ensures { result ≡ is_whole pattern.now }
{
    front.len() == pattern.len()
}

/// The reply to a pattern that is all literal: as to Lookup of that path, with one row.
#[tactic(auto, unfolding(crate::specs::Globs::whole_reply))]
fn one_row<O: Onlooker>(alloc: Global, onlooker: &O, path: &Path) -> Result<Reply, AllocError>
    requires { path.now.owner ≡ (O.look onlooker.now).owner }
    ensures { IfOk result (λ reply. reply ≡ whole_reply (O.look onlooker.now) path.now) }
{
    match pass(alloc, onlooker, path, true, None)? {
        Ok(held) => row_reply(alloc, onlooker, path, held),
        Err(refusal) => Ok(refusal),
    }
}

/// The reply to such a pattern, where its path has passed.
#[tactic(auto, using(crate::proofs::ItemLemmas::row_some, crate::proofs::ItemLemmas::row_none))]
fn row_reply<O: Onlooker>(
    alloc: Global,
    onlooker: &O,
    path: &Path,
    held: RightSet,
) -> Result<Reply, AllocError>
    requires { held ≡ rights (O.look onlooker.now) path.now }
    ensures { IfOk result (λ reply. reply
        ≡ one_row (O.look onlooker.now) (entry_at (O.look onlooker.now).tree path.now)) }
{
    match entry_shown(alloc, onlooker, path, held)? {
        Some(entry) => Ok(Reply::Ok(Done::Rows(only_row(alloc, entry)?))),
        None => Ok(Reply::NotExist),
    }
}

/// The row of an entry at which a pattern ends, alone.
fn only_row(alloc: Global, entry: Entry) -> Result<Items<Row>, AllocError>
    ensures { IfOk result (λ rows. rows ≡ record { entry = entry; rest = 0 } ∷ []) }
{
    let mut rows = Items::new(alloc);
    rows.push(Row { entry, rest: 0 })?;
    Ok(rows)
}

/// The rows of a pattern, in order of paths, from the directory of the literal elements in front on.
#[tactic(auto, using(crate::proofs::SortLemmas::rows_from))]
fn rows_below<O: Onlooker>(
    alloc: Global,
    onlooker: &O,
    pattern: &Pattern,
    front: Path,
) -> Result<Vec<Row>, AllocError>
    requires front { front ≡ literal_path pattern.now }
    requires owned { pattern.now.owner ≡ (O.look onlooker.now).owner }
    requires rooted { IsRooted (O.look onlooker.now).owner (O.look onlooker.now).tree }
    requires directory { HasDirectory (O.look onlooker.now).tree front }
    ensures { IfOk result (λ found. found.items ≡ rows (O.look onlooker.now) pattern.now) }
{
    let mut rows = walk_from(alloc, onlooker, pattern, front)?;
    sort_rows(&mut rows)?;
    Ok(rows)
}

/// Sorts rows by their paths.
fn sort_rows(rows: &mut Vec<Row>) -> Result<(), AllocError>
    ensures sorted { OnOk result (IsSortedBy is_before rows.new.items) }
    ensures stable { IsStableBy is_before rows.old.items rows.new.items }
    ensures len { length rows.new.items ≡ length rows.old.items }
{
    rows.sort_by(|one, two| one.entry.name.cmp(&two.entry.name))
}
