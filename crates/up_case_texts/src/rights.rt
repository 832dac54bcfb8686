//! Who may do what: a tree's Access and Group files, what was loaded, and what the evaluator of rights answers.
mod asked;
mod many;
mod told;
mod tree;

pub use asked::add_rights;
use std::alloc::Global;
use std::hash::RandomState;
use tree::Tree;
use up_case_lines::{Answer, Fault, Topic, Words};

/// The tree that is asked about. There is none before the first line `tree USER`, each of which begins with a new one.
#[derive(Drop)]
pub struct Rights {
    random: RandomState,
    tree: Option<Tree>,
}

impl Rights {
    /// No tree yet. Names are hashed with these keys.
    pub fn new(random: RandomState) -> Rights {
        Rights { random, tree: None }
    }
}

impl Topic for Rights {
    fn turn(&mut self, alloc: Global, line: &str, answer: &mut Answer) -> Result<(), Fault> {
        let mut words = Words::new(line);
        let keyword = words.word()?;
        if keyword == "tree" {
            let tree = told::tree_line(alloc, self.random, words)?;
            drop(self.tree.replace(tree));
            return Ok(());
        }
        match &mut self.tree {
            Some(tree) => tree_turn(alloc, tree, keyword, words, answer),
            None => Err(Fault::BadLine),
        }
    }
}

// A line about a tree.
fn tree_turn(
    alloc: Global,
    tree: &mut Tree,
    keyword: &str,
    words: Words<'_>,
    answer: &mut Answer,
) -> Result<(), Fault> {
    match keyword {
        "names" => asked::names_line(tree, words, answer),
        "loadings" => asked::loadings_line(tree, words, answer),
        "can" => asked::can_line(alloc, tree, words, answer),
        "rights" => asked::rights_line(alloc, tree, words, answer),
        _ => told_turn(alloc, tree, keyword, words),
    }
}

// A line that says something of a tree.
fn told_turn(alloc: Global, tree: &mut Tree, keyword: &str, words: Words<'_>) -> Result<(), Fault> {
    match keyword {
        "access" => told::access_line(alloc, tree, words),
        "group" => told::group_line(alloc, tree, words),
        "chain" => told::chain_line(alloc, tree, words),
        "pair" => told::pair_line(alloc, tree, words),
        "loaded" => told::loaded_line(alloc, tree, words),
        "forget" => told::forget_line(alloc, tree, words),
        "name" => told::name_line(alloc, tree, words),
        "needs" => told::needs_line(alloc, tree, words),
        _ => Err(Fault::BadLine),
    }
}
