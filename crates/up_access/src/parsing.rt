//! How an Access text is read.
ghost use Rattle.std.specs.Prelude.{◌≡◌, ◌++◌, true, Some, None, Ok, option_map, is_some, if◌then◌else◌, IfOk, IfSome, position};
ghost use Rattle.std.specs.List.{list_any, before_first, after_first};
ghost use Rattle.up_names.specs.ControlTexts.{words_in};
ghost use Rattle.up_names.specs.Faults.{GivesText};
ghost use Rattle.up_access.specs.AccessTexts.{access_of, granted_by, is_colon, rule_of, rules_in};

use crate::{AccessText, Rule};
use std::alloc::AllocError;
use up_lists::Items;
use up_names::control_texts::{next_control_line, next_word, says_nothing};
use up_names::item_lists::push_items;
use up_names::{TextFault, User};
use up_rights::{RightSet, read_right};

/// Reads an Access text in this owner's tree.
///
/// A line is what stands between LFs, without one CR at its end and without all from its first `#` on. A line of spaces
/// and tabs alone says nothing. Any other has a `:`, the first of which parts rights from names; both are separated by
/// commas, spaces and tabs. There is at least one right, as [`up_rights::read_right`] reads it, and there may be no
/// name; each names an item, as [`up_names::parse_item`] reads it. The fault is the number, from 1, of the first line
/// that does not fit. The text is read once, and not copied.
#[tactic(auto, unfolding(crate::specs::AccessTexts::access_of))]
pub fn parse_access(owner: &User, text: &[u8]) -> Result<AccessText, TextFault>
    ensures { GivesText (λ access. access) result (access_of owner.now text.now) }
{
    let mut rules = Vec::new(owner.allocator());
    let mut number: u64 = 1;
    let mut rest = text;
    loop {
        let (line, after) = next_control_line(rest);
        if !push_rules(owner, line, &mut rules)? {
            return Err(TextFault::BadText(number));
        }
        let Some(after) = after else {
            return Ok(AccessText {
                rules: Items::from_vec(rules),
            });
        };
        number += 1;
        rest = after;
    }
}

/// Adds the rule of a line, where it says one, and answers whether the line fits.
#[tactic(auto, unfolding(crate::specs::AccessTexts::rules_in))]
fn push_rules(owner: &User, line: &[u8], rules: &mut Vec<Rule>) -> Result<bool, AllocError>
    ensures { IfOk result (λ good. option_map (λ found. rules.old.items ++ found)
        (rules_in owner.now line.now) ≡ (if good then Some rules.new.items else None)) }
{
    if says_nothing(line) {
        return Ok(true);
    }
    let Some(rule) = parse_rule(owner, line)? else {
        return Ok(false);
    };
    rules.push(rule)?;
    Ok(true)
}

/// The rule that a line says, `None` exactly where it is bad.
#[tactic(auto, unfolding(crate::specs::AccessTexts::rule_of))]
fn parse_rule(owner: &User, line: &[u8]) -> Result<Option<Rule>, AllocError>
    ensures { IfOk result (λ found. found ≡ rule_of owner.now line.now) }
{
    let Some((rights, names)) = cut_at_colon(line) else {
        return Ok(None);
    };
    let Some(rights) = parse_rights(rights) else {
        return Ok(None);
    };
    let mut items = Vec::new(owner.allocator());
    if !push_items(owner, names, &mut items)? {
        return Ok(None);
    }
    Ok(Some(Rule {
        rights,
        items: Items::from_vec(items),
    }))
}

/// What stands before the first `:` of a line and behind it, `None` where there is none.
#[tactic(auto, using(crate::proofs::ColonLemmas::colons))]
fn cut_at_colon(line: &[u8]) -> Option<(&[u8], &[u8])>
    ensures found { is_some result ≡ list_any is_colon line.now }
    ensures before { IfSome result (λ parts. parts.0.now ≡ before_first is_colon line.now) }
    ensures behind { IfSome result (λ parts. parts.1.now ≡ after_first is_colon line.now) }
{
    let place = place_of_colon(line)?;
    Some((&line[..place], &line[place + 1..]))
}

fn place_of_colon(line: &[u8]) -> Option<usize>
    ensures { result ≡ position is_colon line.now }
{
    line.iter().position(|b| *b == b':')
}

/// The rights that the words of the part before the `:` stand for, `None` where there is no word, or one is no right.
fn parse_rights(part: &[u8]) -> Option<RightSet>
    ensures { result ≡ granted_by (words_in part.now) }
{
    let (word, mut rest) = next_word(part)?;
    let mut rights = read_right(word)?;
    while let Some((word, after)) = next_word(rest) {
        rights = rights.union(read_right(word)?);
        rest = after;
    }
    Some(rights)
}
