//! What words say.
use std::alloc::{AllocError, Global};
use up_bytes::Bytes;
use up_case_lines::{Answer, Fault};
use up_lists::Items;
use up_names::User;
use up_serve::{ServePlan, serve_words};

/// What the words say: each field of the plan; or `none`.
pub fn add_plan(alloc: Global, words: &[String], answer: &mut Answer) -> Result<(), Fault> {
    match serve_words(alloc, words)? {
        Some(plan) => add_fields(&plan, answer),
        None => answer.word("none"),
    }
    Ok(())
}

fn add_fields(plan: &ServePlan, answer: &mut Answer) {
    answer.coded(plan.listen.as_slice());
    answer.coded(plan.host.as_slice());
    answer.coded(plan.operator.text().as_bytes());
    add_trees(plan.trees.as_slice(), answer);
    answer.coded(plan.folder.as_slice());
    answer.coded(plan.helper.as_slice());
    answer.coded(plan.enrol.as_slice());
    add_peers(&plan.peers, answer);
    answer.number(plan.connections);
    if !plan.feed.as_slice().is_empty() {
        answer.word("feed");
        answer.coded(plan.feed.as_slice());
        answer.number(plan.feeds);
    }
}

fn add_trees(trees: &[User], answer: &mut Answer) {
    answer.begin();
    answer.push("trees");
    for owner in trees {
        answer.push(",");
        answer.field(owner.text().as_bytes());
    }
}

fn add_peers(peers: &Items<(User, Bytes)>, answer: &mut Answer) {
    answer.begin();
    answer.push("peers");
    for (owner, address) in peers.as_slice() {
        answer.push(",");
        answer.field(owner.text().as_bytes());
        answer.push("=");
        answer.field(address.as_slice());
    }
}

/// Words, each as a text of its own; none of no text.
pub fn words_of(alloc: Global, text: Option<&str>) -> Result<Vec<String>, AllocError> {
    let mut words = Vec::new(alloc);
    if let Some(text) = text {
        for word in text.split(' ') {
            add_word(alloc, &mut words, word)?;
        }
    }
    Ok(words)
}

fn add_word(alloc: Global, words: &mut Vec<String>, word: &str) -> Result<(), AllocError> {
    words.push(word.to_string(alloc)?)?;
    Ok(())
}
