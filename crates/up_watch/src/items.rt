//! The items under a path, as they are now.
ghost use Rattle.std.specs.Prelude.{◌≡◌, ◌++◌, IfOk, OnOk, length, map, slice_get};
ghost use Rattle.std.specs.List.{AllByRecursion, filter_map};
ghost use Rattle.std.specs.List.Sorted.{IsSortedBy, IsStableBy};
ghost use Rattle.std.specs.Option.{option_copied, option_map, option_to_list};
ghost use Rattle.up_answers.specs.Watches.{items_under};
ghost use Rattle.up_list.specs.Founds.{entry_found};
ghost use Rattle.up_list.specs.Places.{IsOwned};
ghost use Rattle.up_list.specs.Rooted.{IsRooted};
ghost use Rattle.up_watch.specs.Decided.{Remembers};
ghost use Rattle.up_watch.specs.Items.{IsClosed, entries_below};
ghost use Rattle.up_watch.specs.Watching.{is_before, item_told, now};

use crate::watcher::{Known, Reader};
use std::alloc::{AllocError, Global};
use up_list::{Found, Onlooker};
use up_names::Path;
use up_rights::Right;
use up_wire::WatchEvent;

/// The items under a path on which the user has any right, each as a Put at its sequence, in order of paths.
pub(crate) fn items_under<O: Onlooker>(
    alloc: Global,
    onlooker: &O,
    reader: &Reader,
    known: &mut Known,
    path: &Path,
) -> Result<Vec<WatchEvent>, AllocError>
    requires look { O.look onlooker.now ≡ now reader.now }
    requires known { Remembers reader.now known.old }
    ensures { IfOk result (λ events. events.items ≡ items_under (now reader.now) path.now) }
{
    let found = walk(alloc, onlooker, path)?;
    let mut events = items_told(alloc, reader, known, &found)?;
    sort_events(&mut events)?;
    Ok(events)
}

/// All items under a path: the one at it, and then, for each that is found, those in it.
fn walk<'a, O: Onlooker>(
    alloc: Global,
    onlooker: &'a O,
    path: &Path,
) -> Result<Vec<Found<'a>>, AllocError>
    ensures rooted { IfOk result
        (λ found. IsRooted (O.look onlooker.now).owner (O.look onlooker.now).tree) }
    ensures closed { IfOk result (λ found.
        IsClosed (O.look onlooker.now).tree path.now (map entry_found found.items)) }
{
    let mut found = first(alloc, onlooker.item(alloc, path)?)?;
    match add_below(alloc, onlooker, &mut found) {
        Ok(()) => Ok(found),
        Err(fault) => {
            drop(found);
            Err(fault)
        }
    }
}

/// Adds to these items those in each of them, those in each of these, and so on.
fn add_below<'a, O: Onlooker>(
    alloc: Global,
    onlooker: &'a O,
    found: &mut Vec<Found<'a>>,
) -> Result<(), AllocError>
    ensures { OnOk result (map entry_found found.new.items ≡ map entry_found found.old.items
        ++ entries_below (O.look onlooker.now).tree (map entry_found found.new.items)) }
{
    for i in 0..usize::MAX {
        let Some(item) = item_at(found, i) else {
            return Ok(());
        };
        let mut inside = onlooker.items_in(alloc, &item.entry().name)?;
        found.append(&mut inside)?;
    }
    // No memory holds so many.
    Err(AllocError)
}

/// The item at a place.
fn item_at<'a, 'b>(found: &'b [Found<'a>], i: usize) -> Option<&'b Found<'a>>
    ensures { option_copied result ≡ slice_get found.now i }
{
    found.get(i)
}

/// The list of an item, where there is one.
fn first<'a>(alloc: Global, item: Option<Found<'a>>) -> Result<Vec<Found<'a>>, AllocError>
    ensures { IfOk result (λ found. map entry_found found.items
        ≡ option_to_list (option_map entry_found item.entry)) }
{
    let mut found = Vec::new(alloc);
    if let Some(item) = item {
        found.push(item)?;
    }
    Ok(found)
}

/// The events of those items on which the user has any right, in their order.
fn items_told(
    alloc: Global,
    reader: &Reader,
    known: &mut Known,
    found: &[Found],
) -> Result<Vec<WatchEvent>, AllocError>
    requires owned { AllByRecursion (IsOwned (now reader.now)) (map entry_found found.now) }
    requires known { Remembers reader.now known.old }
    ensures { IfOk result (λ events. events.items
        ≡ filter_map (item_told (now reader.now)) (map entry_found found.now)) }
{
    let mut events = Vec::new(alloc);
    for item in found {
        tell_item(alloc, reader, known, item, &mut events)?;
    }
    Ok(events)
}

/// Adds the event of an item, where the user has any right on it.
fn tell_item(
    alloc: Global,
    reader: &Reader,
    known: &mut Known,
    item: &Found,
    events: &mut Vec<WatchEvent>,
) -> Result<(), AllocError>
    requires owned { IsOwned (now reader.now) (entry_found item.now) }
    requires known { Remembers reader.now known.old }
    ensures told { OnOk result (events.new.items
        ≡ events.old.items
        ++ option_to_list (item_told (now reader.now) (entry_found item.now))) }
    ensures known { Remembers reader.now known.new }
{
    let entry = item.entry();
    let held = known.rights_now(alloc, reader, &entry.name)?;
    if held.is_empty() {
        return Ok(());
    }
    let shown = item.shown(alloc, held.has(Right::Read))?;
    events.push(WatchEvent {
        position: entry.sequence,
        delete: false,
        entry: shown,
    })?;
    Ok(())
}

/// Sorts events by their paths.
fn sort_events(events: &mut Vec<WatchEvent>) -> Result<(), AllocError>
    ensures sorted { OnOk result (IsSortedBy is_before events.new.items) }
    ensures stable { IsStableBy is_before events.old.items events.new.items }
    ensures len { length events.new.items ≡ length events.old.items }
{
    events.sort_by(|one, two| one.entry.name.cmp(&two.entry.name))
}
