//! The members of groups in words.
use crate::answer::Answer;
use up_group::GroupText;
use up_names::Item;

/// Adds an item: `all`, `*@` and a domain, a user, or a group.
pub fn add_item(item: &Item, answer: &mut Answer) {
    match item {
        Item::Everyone => answer.word("all"),
        Item::Domain(domain) => {
            answer.word("*@");
            answer.push(domain.text());
        }
        Item::User(user) => answer.coded(user.text().as_bytes()),
        Item::Group(path) => answer.coded(path.as_str().as_bytes()),
    }
}

/// Adds how many members a group has, and each.
pub fn add_members(group: &GroupText, answer: &mut Answer) {
    answer.number(group.len());
    for i in 0..group.len() {
        if let Some(item) = group.item(i) {
            add_item(item, answer);
        }
    }
}
