//! The lines that ask. They leave the tree as it is.
ghost use Rattle.std.specs.Prelude.{◌≡◌};
ghost use Rattle.up_policy.specs.Files.{facts_of};

use super::tree::Tree;
use std::alloc::{AllocError, Global};
use up_case_lines::{Answer, Fault, Words, user_of};
use up_names::{Path, User};
use up_policy::LoadAnswer;
use up_rights::{Right, RightSet};

/// `can USER RIGHT PATH`: `yes` where the user has the right on the path, and else `no`.
pub fn can_line(
    alloc: Global,
    tree: &Tree,
    mut words: Words<'_>,
    answer: &mut Answer,
) -> Result<(), Fault> {
    let (user, right, path) = words.three()?;
    let right = Right::from_word(right.as_bytes()).ok_or(Fault::BadLine)?;
    let user = user_of(alloc, user)?;
    add_verdict(alloc, tree, &user, right, path, answer)
}

fn add_verdict(
    alloc: Global,
    tree: &Tree,
    user: &User,
    right: Right,
    path: &str,
    answer: &mut Answer,
) -> Result<(), Fault> {
    let path = tree.path(alloc, path)?;
    let verdict = tree.allows(alloc, user, right, &path)?;
    answer.yes(verdict);
    Ok(())
}

/// `rights USER PATH`: all rights that the user has on the path. They are asked for at once and one by one; where these
/// differ, the answer is `differ`.
pub fn rights_line(
    alloc: Global,
    tree: &Tree,
    mut words: Words<'_>,
    answer: &mut Answer,
) -> Result<(), Fault> {
    let (user, path) = words.two()?;
    let user = user_of(alloc, user)?;
    let path = tree.path(alloc, path)?;
    add_held(alloc, tree, &user, &path, answer)?;
    Ok(())
}

// Adds the rights that the user has on the path.
fn add_held(
    alloc: Global,
    tree: &Tree,
    user: &User,
    path: &Path,
    answer: &mut Answer,
) -> Result<(), AllocError>
    requires { path.now.owner ≡ (facts_of tree.now.facts).owner }
{
    let rights = tree.rights(alloc, user, path)?;
    if are_verdicts(alloc, tree, user, path, rights)? {
        add_rights(rights, answer);
    } else {
        answer.word("differ");
    }
    Ok(())
}

const RIGHTS: [Right; 5] = [
    Right::Read,
    Right::Write,
    Right::List,
    Right::Create,
    Right::Delete,
];

// Whether these are the rights that the user has on the path, asked for one by one.
fn are_verdicts(
    alloc: Global,
    tree: &Tree,
    user: &User,
    path: &Path,
    rights: RightSet,
) -> Result<bool, AllocError>
    requires { path.now.owner ≡ (facts_of tree.now.facts).owner }
{
    for right in RIGHTS {
        let verdict = tree.allows(alloc, user, right, path)?;
        if verdict != rights.has(right) {
            return Ok(false);
        }
    }
    Ok(true)
}

/// Adds the words of the rights of a set, or `none`.
pub fn add_rights(rights: RightSet, answer: &mut Answer) {
    for right in RIGHTS {
        if rights.has(right) {
            answer.word(right.word());
        }
    }
    none_if_empty(answer);
}

/// `names`: the list of names, in order.
pub fn names_line(tree: &Tree, words: Words<'_>, answer: &mut Answer) -> Result<(), Fault> {
    words.end()?;
    for i in 0..tree.needed.len() {
        if let Some(name) = tree.needed.get(i) {
            answer.word(name.as_str());
        }
    }
    none_if_empty(answer);
    Ok(())
}

/// `loadings`: the names for which something was loaded, in order, each with the kind of its answer behind it.
pub fn loadings_line(tree: &Tree, words: Words<'_>, answer: &mut Answer) -> Result<(), Fault> {
    words.end()?;
    for i in 0..tree.loaded.len() {
        if let Some(name) = tree.loaded.name(i) {
            answer.word(name.as_str());
            answer.word(kind_word(tree.loaded.answer(name)));
        }
    }
    none_if_empty(answer);
    Ok(())
}

// The word for the kind of an answer.
fn kind_word(answer: Option<&LoadAnswer>) -> &'static str {
    match answer {
        Some(LoadAnswer::Text(_)) => "text",
        Some(LoadAnswer::BadText(_)) => "badtext",
        Some(LoadAnswer::Missing) => "missing",
        Some(LoadAnswer::Failed) => "failed",
        None => "unanswered",
    }
}

// A list of no words is `none`.
fn none_if_empty(answer: &mut Answer) {
    if answer.is_empty() {
        answer.word("none");
    }
}
