//! What one byte of a reply tells: what is malformed, which right is missing, whether there is an entry.

ghost use Rattle.std.specs.Prelude.{◌≡◌, [], MatchOption};
ghost use Rattle.up_bytes.specs.Num.{num};
ghost use Rattle.up_bytes.specs.Reading.{Answers, FaultFirst, Gives, byte_at};
ghost use Rattle.up_wire.specs.Reading.{event_kind_at, option_at, right_at, what_at};
ghost use Rattle.up_wire.specs.Spelling.{event_byte, right_byte, what_fields, what_tag, IsWhat};

use std::alloc::Global;
use up_bytes::{FieldFault, Fields, Reader};
use up_entry::{Entry, What};
use up_rights::Right;

/// The number of what is malformed.
pub(crate) fn what_number(what: What) -> u8
    ensures { result ≡ what_tag what }
{
    match what {
        What::Name => 0,
        What::SignedName => 1,
        What::Writer => 2,
        What::Packing => 3,
        What::Attr => 4,
        What::Link => 5,
        What::Blocks => 6,
        What::Packdata => 7,
        What::Root => 8,
        What::Control => 9,
        What::ControlSize => 10,
        What::Sequence => 11,
        What::Pattern(_) => 12,
        What::Reference => 13,
        What::Block => 14,
        What::Key => 15,
        What::SnapshotWatch => 16,
        What::GroupName => 17,
    }
}

/// The number of the element that is malformed, where what is malformed is one of a pattern.
pub(crate) fn element_of(what: What) -> Option<u64>
    ensures fields { MatchOption result (what_fields what ≡ [])
        (λ element. what_fields what ≡ num element) }
    ensures typed { IsWhat what }
{
    match what {
        What::Pattern(element) => Some(element),
        What::Name
        | What::SignedName
        | What::Writer
        | What::Packing
        | What::Attr
        | What::Link
        | What::Blocks
        | What::Packdata
        | What::Root
        | What::Control
        | What::ControlSize
        | What::Sequence
        | What::Reference
        | What::Block
        | What::Key
        | What::SnapshotWatch
        | What::GroupName => None,
    }
}

/// Takes what is malformed. A refused call leaves the place anywhere.
#[tactic(auto, unfolding(crate::specs::Reading::what_at, up_bytes::specs::Reading::tagged_at))]
pub(crate) fn take_what(input: &mut Reader) -> Result<What, FieldFault>
    ensures { Answers (λ what. (what, input.new)) result (what_at input.old) }
{
    let place = input.place();
    match input.byte()? {
        0 => Ok(What::Name),
        1 => Ok(What::SignedName),
        2 => Ok(What::Writer),
        3 => Ok(What::Packing),
        4 => Ok(What::Attr),
        5 => Ok(What::Link),
        6 => Ok(What::Blocks),
        7 => Ok(What::Packdata),
        8 => Ok(What::Root),
        9 => Ok(What::Control),
        10 => Ok(What::ControlSize),
        11 => Ok(What::Sequence),
        12 => Ok(What::Pattern(input.num()?)),
        13 => Ok(What::Reference),
        14 => Ok(What::Block),
        15 => Ok(What::Key),
        16 => Ok(What::SnapshotWatch),
        17 => Ok(What::GroupName),
        _ => Err(FieldFault::Spelling(place)),
    }
}

/// The byte of a right.
pub(crate) fn right_byte(right: Right) -> u8
    ensures { result ≡ right_byte right }
{
    match right {
        Right::Read => 0,
        Right::Write => 1,
        Right::List => 2,
        Right::Create => 3,
        Right::Delete => 4,
    }
}

/// Takes a right. A refused call leaves the place anywhere.
#[tactic(auto, unfolding(crate::specs::Reading::right_at, up_bytes::specs::Reading::tagged_at))]
pub(crate) fn take_right(input: &mut Reader) -> Result<Right, FieldFault>
    ensures { Answers (λ right. (right, input.new)) result (right_at input.old) }
{
    let place = input.place();
    match input.byte()? {
        0 => Ok(Right::Read),
        1 => Ok(Right::Write),
        2 => Ok(Right::List),
        3 => Ok(Right::Create),
        4 => Ok(Right::Delete),
        _ => Err(FieldFault::Spelling(place)),
    }
}

/// Takes an entry, if there is one. A refused call leaves the place anywhere.
#[tactic(auto, unfolding(crate::specs::Reading::option_at, up_bytes::specs::Reading::tagged_at))]
pub(crate) fn take_option(alloc: Global, input: &mut Reader) -> Result<Option<Entry>, FieldFault>
    ensures exact { Gives (λ found. (found, input.new)) result (option_at input.old) }
    ensures first { FaultFirst (byte_at input.old) result }
{
    let place = input.place();
    match input.byte()? {
        0 => Ok(None),
        1 => Ok(Some(Entry::take(alloc, input)?)),
        _ => Err(FieldFault::Spelling(place)),
    }
}

/// The byte that tells whether the entry of an event was deleted.
pub(crate) fn event_byte(delete: bool) -> u8
    ensures { result ≡ event_byte delete }
{
    if delete { 1 } else { 0 }
}

/// Takes whether the entry of an event was deleted. A refused call leaves the place anywhere.
#[tactic(auto, unfolding(crate::specs::Reading::event_kind_at, up_bytes::specs::Reading::tagged_at))]
pub(crate) fn take_event_kind(input: &mut Reader) -> Result<bool, FieldFault>
    ensures { Answers (λ delete. (delete, input.new)) result (event_kind_at input.old) }
{
    let place = input.place();
    match input.byte()? {
        0 => Ok(false),
        1 => Ok(true),
        _ => Err(FieldFault::Spelling(place)),
    }
}
