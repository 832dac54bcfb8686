//! How the rules of an Access text are printed.
ghost use Rattle.std.specs.Prelude.{◌≡◌, ℕ, List, Ok, ◌++◌, codes, filter, IfOk, OnOk};
ghost use Rattle.std.specs.List.{flat_map, join_by};
ghost use Rattle.up_rights.specs.RightSets.{has_right};
ghost use Rattle.up_rights.specs.Words.{letter};
ghost use Rattle.up_access.specs.AccessTexts.{access_of};
ghost use Rattle.up_access.specs.Printing.{item_text, printed, printed_items, printed_rights, printed_rule};

use crate::{AccessText, Rule};
use std::alloc::AllocError;
use up_bytes::Bytes;
use up_lists::Items;
use up_names::Item;
use up_rights::{Right, RightSet};

/// The rules as a text: a line for each, of the letters of its rights in the order `r,w,l,c,d`, `: `, and its items
/// joined by `, `. Everyone is `all`, a domain `*@` and the domain, a user its name, and a group its full path. So the
/// text means the same in any owner's tree.
pub fn print_access(text: &AccessText) -> Result<Bytes, AllocError>
    ensures text { IfOk result (λ bytes. bytes ≡ printed text.now) }
    // Read with any owner, it stands for the same rules.
    ensures again { IfOk result (λ bytes. (owner : List ℕ) → access_of owner bytes ≡ Ok text.now) }
{
    let mut out = Vec::new(text.rules.allocator());
    for rule in text.rules() {
        push_rule(&mut out, rule)?;
    }
    Ok(Items::from_vec(out))
}

#[tactic(auto, unfolding(crate::specs::Printing::printed_rule))]
fn push_rule(out: &mut Vec<u8>, rule: &Rule) -> Result<(), AllocError>
    ensures { OnOk result (out.new.items ≡ out.old.items ++ printed_rule rule.now) }
{
    push_rights(out, rule.rights)?;
    out.extend_from_slice(b": ")?;
    push_items(out, rule.items.as_slice())?;
    out.extend_from_slice(b"\n")
}

#[tactic(auto, unfolding(crate::specs::Printing::printed_rights))]
fn push_rights(out: &mut Vec<u8>, rights: RightSet) -> Result<(), AllocError>
    ensures { OnOk result (out.new.items ≡ out.old.items ++ printed_rights rights) }
{
    let order = [
        Right::Read,
        Right::Write,
        Right::List,
        Right::Create,
        Right::Delete,
    ];
    push_letters(out, rights, &order)
}

/// The letters of those of the rights that are in the set, with a comma between two.
fn push_letters(out: &mut Vec<u8>, set: RightSet, rights: &[Right]) -> Result<(), AllocError>
    ensures { OnOk result (out.new.items ≡ out.old.items
        ++ join_by letter (codes ",") (filter (has_right set) rights.now)) }
{
    let mut between = b"".as_slice();
    for right in rights {
        if set.has(*right) {
            out.extend_from_slice(between)?;
            out.extend_from_slice(letter(*right))?;
            between = b",";
        }
    }
    Ok(())
}

fn letter(right: Right) -> &'static [u8]
    ensures { result.now ≡ letter right }
{
    match right {
        Right::Read => b"r",
        Right::Write => b"w",
        Right::List => b"l",
        Right::Create => b"c",
        Right::Delete => b"d",
    }
}

#[tactic(auto, unfolding(crate::specs::Printing::printed_items))]
fn push_items(out: &mut Vec<u8>, items: &[Item]) -> Result<(), AllocError>
    ensures { OnOk result (out.new.items ≡ out.old.items ++ printed_items items.now) }
{
    let Some((first, rest)) = items.split_first() else {
        return Ok(());
    };
    push_item(out, first)?;
    push_further_items(out, rest)
}

fn push_further_items(out: &mut Vec<u8>, items: &[Item]) -> Result<(), AllocError>
    ensures { OnOk result (out.new.items ≡ out.old.items
        ++ flat_map (λ item. codes ", " ++ item_text item) items.now) }
{
    for item in items {
        out.extend_from_slice(b", ")?;
        push_item(out, item)?;
    }
    Ok(())
}

fn push_item(out: &mut Vec<u8>, item: &Item) -> Result<(), AllocError>
    ensures { OnOk result (out.new.items ≡ out.old.items ++ item_text item.now) }
{
    match item {
        Item::Everyone => out.extend_from_slice(b"all"),
        Item::Domain(domain) => {
            out.extend_from_slice(b"*@")?;
            out.extend_from_slice(domain.text().as_bytes())
        }
        Item::User(user) => out.extend_from_slice(user.text().as_bytes()),
        Item::Group(path) => out.extend_from_slice(path.as_str().as_bytes()),
    }
}
