//! Group texts: whom a group has as members.
//!
//! [`parse_group`] gives exactly the items of a text, in order, or `BadText` with exactly the number of its first bad line.
#![tactic(auto)]

ghost use Rattle.std.specs.Prelude.{◌≡◌, length, slice_get};
ghost use Rattle.std.specs.Option.{option_copied};
ghost use Rattle.up_names.specs.Faults.{GivesText};
ghost use Rattle.up_group.specs.GroupTexts.{group_of};

use std::marker::Model;
use up_lists::Items;
use up_names::control_texts::next_control_line;
use up_names::item_lists::push_items;
use up_names::{Item, TextFault, User};

/// What a Group text stands for: the items of its lines, in order.
#[derive(Debug, Drop, PartialEq, Eq)]
pub struct GroupText {
    items: Items<Item>,
}

impl Model for GroupText {
    ghost use Rattle.std.specs.Prelude.{List};
    ghost use Rattle.up_names.specs.declared.items.Item.{Item};

    ghost Value = { List Item };

    ghost view = { λ text. text.items };

    ghost inverse = { λ items. record { items = items } };
}

impl GroupText {
    /// The number of items.
    pub fn len(&self) -> u64
        ensures { result ≡ length self.now }
    {
        self.items.len()
    }

    /// The item at place `i`, from 0, or `None` exactly where `i` is at least the length.
    pub fn item(&self, i: u64) -> Option<&Item>
        ensures { option_copied result ≡ slice_get self.now i }
    {
        self.items.get(i)
    }

    /// All items, in order.
    pub fn items(&self) -> &[Item]
        ensures { result.now ≡ self.now }
    {
        self.items.as_slice()
    }
}

/// Reads a Group text in this owner's tree: each word of a line names an item, as [`up_names::parse_item`] reads it.
///
/// A line is what stands between LFs, without one CR at its end and without all from its first `#` on. Words are
/// separated by commas, spaces and tabs; a line may have none. The fault is the number, from 1, of the first line with a
/// word that names no item. The text is read once, and not copied.
#[tactic(auto, unfolding(crate::specs::GroupTexts::group_of))]
pub fn parse_group(owner: &User, text: &[u8]) -> Result<GroupText, TextFault>
    ensures { GivesText (λ group. group) result (group_of owner.now text.now) }
{
    let mut items = Vec::new(owner.allocator());
    let mut number: u64 = 1;
    let mut rest = text;
    loop {
        let (line, after) = next_control_line(rest);
        if !push_items(owner, line, &mut items)? {
            return Err(TextFault::BadText(number));
        }
        let Some(after) = after else {
            return Ok(GroupText {
                items: Items::from_vec(items),
            });
        };
        number += 1;
        rest = after;
    }
}
