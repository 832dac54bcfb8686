//! What the words of `upspin audit` say.
ghost use Rattle.std.specs.Prelude.{◌≡◌, ◌==◌, ◌+◌, ◌++◌, ◌∷◌, [], false, if◌then◌else◌, map, option_map, string_bytes, None, Some, IfOk, IfSome};
ghost use Rattle.std.specs.List.{AllByRecursion, slice_split};
ghost use Rattle.std.specs.Option.{option_copied};
ghost use Rattle.up_audit.specs.Words.{audit_plan, owners_for, owners_named, trees_named, trees_word};
ghost use Rattle.up_command.specs.Users.{are_different};
ghost use Rattle.up_policy.specs.Trees.{owns_snapshots};
ghost use Rattle.up_reports.specs.Owners.{owner_in};
ghost use Rattle.up_text.specs.Lists.{is_comma};

use std::alloc::{AllocError, Global};
use up_command::are_different;
use up_lists::Items;
use up_names::User;
use up_reports::owner_in;

/// The owners of the trees that the words name: `audit`, a folder, and the owners joined by commas, all different and no snapshot user
/// among them; the empty word names none. `None` exactly where the words do not fit.
#[tactic(auto, unfolding(crate::specs::Words::audit_plan))]
pub fn audit_words(alloc: Global, words: &[String]) -> Result<Option<Items<User>>, AllocError>
    ensures plan { IfOk result (λ found. found ≡ audit_plan (map string_bytes words.now)) }
    ensures plain { IfOk result (λ found. IfSome found
        (AllByRecursion (λ owner. owns_snapshots owner ≡ false))) }
{
    let Some(trees) = trees_word(words) else {
        return Ok(None);
    };
    let found = trees_named(alloc, trees.as_bytes())?;
    Ok(found)
}

/// The same for so many disks: one for each tree, and one for the store.
#[tactic(auto, unfolding(crate::specs::Words::owners_for), using(crate::proofs::WordLemmas::plains))]
pub(crate) fn owners_for(
    alloc: Global,
    words: &[String],
    disks: u64,
) -> Result<Option<Items<User>>, AllocError>
    ensures plan { IfOk result (λ found. found ≡ owners_for (map string_bytes words.now) disks) }
    ensures plain { IfOk result (λ found. IfSome found
        (AllByRecursion (λ owner. owns_snapshots owner ≡ false))) }
{
    let Some(owners) = audit_words(alloc, words)? else {
        return Ok(None);
    };
    if is_one_more(owners.len(), disks) {
        Ok(Some(owners))
    } else {
        drop(owners);
        Ok(None)
    }
}

// Whether there is one disk more than trees.
#[tactic(auto, using(crate::proofs::WordLemmas::one_more))]
fn is_one_more(trees: u64, disks: u64) -> bool
    ensures { result ≡ (trees + 1 == disks) }
{
    if disks == 0 {
        return false;
    }
    disks - 1 == trees
}

// The word of the trees.
fn trees_word(words: &[String]) -> Option<&str>
    ensures { option_copied result ≡ trees_word (map string_bytes words.now) }
{
    let (command, rest) = words.split_first()?;
    let (_, rest) = rest.split_first()?;
    let (trees, rest) = rest.split_first()?;
    if command.as_str() == "audit" && rest.is_empty() {
        Some(trees.as_str())
    } else {
        None
    }
}

// The owners of trees that a word names.
#[tactic(auto, unfolding(crate::specs::Words::trees_named))]
fn trees_named(alloc: Global, word: &[u8]) -> Result<Option<Items<User>>, AllocError>
    ensures { IfOk result (λ found. found ≡ trees_named word.now) }
{
    if word.is_empty() {
        return Ok(Some(Items::new(alloc)));
    }
    let Some(owners) = owners_named(alloc, word)? else {
        return Ok(None);
    };
    if !are_different(alloc, owners.as_slice())? {
        return Ok(None);
    }
    Ok(Some(owners))
}

// The owners of a list that is cut at its commas.
fn owners_named(alloc: Global, list: &[u8]) -> Result<Option<Items<User>>, AllocError>
    ensures { IfOk result (λ found. found ≡ owners_named (slice_split is_comma list.now)) }
{
    let mut owners = Items::new(alloc);
    for word in list.split(|b| *b == b',') {
        if !add_owner(alloc, &mut owners, word)? {
            return Ok(None);
        }
    }
    Ok(Some(owners))
}

// Adds the owner that a word names, and answers whether it names one.
fn add_owner(alloc: Global, owners: &mut Items<User>, word: &[u8]) -> Result<bool, AllocError>
    ensures { IfOk result (λ good. option_map (λ owner. owners.old ++ owner ∷ []) (owner_in word.now)
        ≡ (if good then Some owners.new else None)) }
{
    let Some(owner) = owner_in(alloc, word)? else {
        return Ok(false);
    };
    owners.push(owner)?;
    Ok(true)
}
