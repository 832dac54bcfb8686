//! The names that stand together in a line of an Access or Group text.
ghost use Rattle.std.specs.Prelude.{◌≡◌, ◌≢◌, ◌++◌, Some, None, Ok, true, option_map, if◌then◌else◌, take, vec_len, IfOk};
ghost use Rattle.up_names.specs.ControlTexts.{words_in};
ghost use Rattle.up_names.specs.ItemLists.{items_in};

use crate::control_texts::next_word;
use crate::items::{Item, parse_item};
use crate::users::User;
use std::alloc::AllocError;

/// Adds the items that the words of a line name in a text of this owner's tree, in order, and answers whether each word
/// names one. Where one names none, and after an `Err`, the list is as it was.
pub fn push_items(owner: &User, line: &[u8], items: &mut Vec<Item>) -> Result<bool, AllocError>
    ensures found { IfOk result
        (λ good. option_map (λ found. items.old.items ++ found)
        (items_in owner.now (words_in line.now))
        ≡ (if good then Some items.new.items else None)) }
    ensures unchanged { result ≢ Ok true → items.new.items ≡ items.old.items }
{
    let start = items.len();
    let pushed = push_each(owner, line, items);
    if pushed != Ok(true) {
        items.truncate(start);
    }
    pushed
}

/// The same, but that the items before a bad word, or before an `Err`, stay behind.
fn push_each(owner: &User, line: &[u8], items: &mut Vec<Item>) -> Result<bool, AllocError>
    ensures found { IfOk result
        (λ good. option_map (λ found. items.old.items ++ found)
        (items_in owner.now (words_in line.now))
        ≡ (if good then Some items.new.items else None)) }
    ensures kept { take (vec_len items.old) items.new.items ≡ items.old.items }
{
    let mut rest = line;
    while let Some((word, after)) = next_word(rest) {
        let Some(item) = parse_item(owner, word)? else {
            return Ok(false);
        };
        items.push(item)?;
        rest = after;
    }
    Ok(true)
}
