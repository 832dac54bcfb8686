//! Many groups, and groups of many members, that would make long scripts.
use std::alloc::Global;
use up_case_lines::Fault;
use up_group::parse_group;
use up_names::parse_path;
use up_policy::{Facts, MapFacts};

/// Sets the groups `g1`, `g2` and so on, `count` of them: each names the next one, and the last names a user.
pub fn set_chain(alloc: Global, facts: &mut MapFacts, count: u64, user: &str) -> Result<(), Fault> {
    for i in 1..count {
        let text = format!(in alloc; "g{}", i + 1)?;
        set_numbered(alloc, facts, i, text.as_str())?;
    }
    set_numbered(alloc, facts, count, user)
}

// Sets the group `gN` for a number N.
fn set_numbered(alloc: Global, facts: &mut MapFacts, number: u64, text: &str) -> Result<(), Fault> {
    let name = format!(in alloc; "g{number}")?;
    set_named(alloc, facts, name.as_str(), text)
}

/// Sets the groups `first` and `second`, of `count` members each: users who are numbered from 1, and last the other
/// group.
pub fn set_pair(alloc: Global, facts: &mut MapFacts, count: u64) -> Result<(), Fault> {
    let first = crowd(alloc, "first", count, "second")?;
    set_named(alloc, facts, "first", first.as_str())?;
    let second = crowd(alloc, "second", count, "first")?;
    set_named(alloc, facts, "second", second.as_str())
}

// The text of a group of `count` members, the last of which is another group.
fn crowd(alloc: Global, local: &str, count: u64, group: &str) -> Result<String, Fault> {
    let mut text = String::new(alloc);
    for i in 1..count {
        let user = format!(in alloc; "{local}{i}@m.example ")?;
        text.push_str(user.as_str())?;
    }
    text.push_str(group)?;
    Ok(text)
}

// Sets a group of the tree's owner by its short name.
fn set_named(alloc: Global, facts: &mut MapFacts, name: &str, text: &str) -> Result<(), Fault> {
    let path = format!(in alloc; "{}/Group/{name}", facts.owner().text())?;
    let path = parse_path(alloc, path.as_bytes())?;
    let text = parse_group(facts.owner(), text.as_bytes())?;
    facts.set_group(path, text)?;
    Ok(())
}
