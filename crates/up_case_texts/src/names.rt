//! Users, paths and items: what a text names. A line stands alone.
use std::alloc::{AllocError, Global};
use up_case_lines::{
    Answer, Fault, Topic, Words, add_item, number_of, path_of, string_of, text_of, user_of,
};
use up_names::{Item, NameFault, Path, User, parse_item, parse_path, parse_user};

/// Lines about names. They keep nothing.
#[derive(Clone, Copy)]
pub struct Names;

impl Topic for Names {
    fn turn(&mut self, alloc: Global, line: &str, answer: &mut Answer) -> Result<(), Fault> {
        let mut words = Words::new(line);
        match words.word()? {
            "user" => user_line(alloc, words, answer),
            "parts" => parts_line(alloc, words, answer),
            "root" => root_line(alloc, words, answer),
            "reuse" => reuse_line(alloc, words, answer),
            "path" => path_line(alloc, words, answer),
            "again" => again_line(alloc, words, answer),
            "long" => long_line(alloc, words, answer),
            "above" => above_line(alloc, words, answer),
            "join" => join_line(alloc, words, answer),
            "joins" => joins_line(alloc, words, answer),
            "compare" => compare_line(alloc, words, answer),
            "item" => item_line(alloc, words, answer),
            _ => Err(Fault::BadLine),
        }
    }
}

// `user TEXT`: the canonical name of the user, or the fault.
fn user_line(alloc: Global, mut words: Words<'_>, answer: &mut Answer) -> Result<(), Fault> {
    let text = text_of(alloc, words.one()?)?;
    match parse_user(alloc, text.as_slice()) {
        Ok(user) => answer.coded(user.text().as_bytes()),
        Err(fault) => add_fault(fault, answer),
    }
    Ok(())
}

// `parts USER`: the base user, the domain, and the suffix where there is one.
fn parts_line(alloc: Global, mut words: Words<'_>, answer: &mut Answer) -> Result<(), Fault> {
    let user = user_of(alloc, words.one()?)?;
    add_base(&user, answer)?;
    answer.coded(user.domain().as_bytes());
    answer.coded(user.suffix().unwrap_or("").as_bytes());
    Ok(())
}

fn add_base(user: &User, answer: &mut Answer) -> Result<(), AllocError> {
    let base = user.base()?;
    answer.coded(base.text().as_bytes());
    Ok(())
}

// `root USER`: the root of the user's tree.
fn root_line(alloc: Global, mut words: Words<'_>, answer: &mut Answer) -> Result<(), Fault> {
    let user = user_of(alloc, words.one()?)?;
    let root = Path::root(user)?;
    answer.coded(root.as_str().as_bytes());
    Ok(())
}

// `reuse USER TEXT`: the user of the text, read in the memory of another; or the fault, and the user that is there then.
fn reuse_line(alloc: Global, mut words: Words<'_>, answer: &mut Answer) -> Result<(), Fault> {
    let (user, text) = words.two()?;
    let text = text_of(alloc, text)?;
    let mut user = user_of(alloc, user)?;
    note(user.read(text.as_slice()), answer);
    answer.coded(user.text().as_bytes());
    Ok(())
}

// `again PATH TEXT`: the path of the text, read in the memory of another; or the fault, and the path that is there then.
fn again_line(alloc: Global, mut words: Words<'_>, answer: &mut Answer) -> Result<(), Fault> {
    let (path, text) = words.two()?;
    let text = text_of(alloc, text)?;
    let mut path = path_of(alloc, path)?;
    note(path.read(text.as_slice()), answer);
    answer.coded(path.as_str().as_bytes());
    Ok(())
}

// `path TEXT`: the canonical text of the path, or the fault.
fn path_line(alloc: Global, mut words: Words<'_>, answer: &mut Answer) -> Result<(), Fault> {
    let text = text_of(alloc, words.one()?)?;
    add_path(parse_path(alloc, text.as_slice()), answer);
    Ok(())
}

fn add_path(path: Result<Path, NameFault>, answer: &mut Answer) {
    match path {
        Ok(path) => answer.coded(path.as_str().as_bytes()),
        Err(fault) => add_fault(fault, answer),
    }
}

// The fault, where there is one.
fn note(outcome: Result<(), NameFault>, answer: &mut Answer) {
    if let Err(fault) = outcome {
        add_fault(fault, answer);
    }
}

// The word of a fault.
fn add_fault(fault: NameFault, answer: &mut Answer) {
    match fault {
        NameFault::TooLong(bytes) => add_numbered("too long", bytes, answer),
        NameFault::AtSigns(count) => add_numbered("at signs", count, answer),
        NameFault::Local => answer.word("local"),
        NameFault::Suffix => answer.word("suffix"),
        NameFault::Domain => answer.word("domain"),
        NameFault::Element(place) => add_numbered("element", place, answer),
        NameFault::OutOfMemory => answer.word("out of memory"),
    }
}

fn add_numbered(word: &str, number: u64, answer: &mut Answer) {
    answer.word(word);
    answer.number(number);
}

// `long TEXT N PIECE`: how many elements and bytes the path has that the text and N pieces behind it name, or the fault.
fn long_line(alloc: Global, mut words: Words<'_>, answer: &mut Answer) -> Result<(), Fault> {
    let (text, count, piece) = words.three()?;
    let text = repeated(alloc, text, number_of(count)?, piece)?;
    match parse_path(alloc, text.as_bytes()) {
        Ok(path) => {
            answer.number(path.len());
            answer.number(path.as_str().len() as u64);
        }
        Err(fault) => add_fault(fault, answer),
    }
    Ok(())
}

/// A text and so many pieces behind it.
pub fn repeated(alloc: Global, text: &str, count: u64, piece: &str) -> Result<String, AllocError> {
    let mut whole = text.to_string(alloc)?;
    for _ in 0..count {
        whole.push_str(piece)?;
    }
    Ok(whole)
}

// `above PATH`: the path one element shorter, or `none`.
fn above_line(alloc: Global, mut words: Words<'_>, answer: &mut Answer) -> Result<(), Fault> {
    let path = path_of(alloc, words.one()?)?;
    add_above(&path.parent()?, answer);
    Ok(())
}

fn add_above(above: &Option<Path>, answer: &mut Answer) {
    match above {
        Some(above) => answer.coded(above.as_str().as_bytes()),
        None => answer.word("none"),
    }
}

// `join PATH TEXT`: the path with this element behind it, or the fault.
fn join_line(alloc: Global, mut words: Words<'_>, answer: &mut Answer) -> Result<(), Fault> {
    let (path, element) = words.two()?;
    let path = path_of(alloc, path)?;
    let element = string_of(alloc, element)?;
    add_path(path.join(element.as_str()), answer);
    Ok(())
}

// `joins PATH N PIECE`: how many bytes the path has with an element of N pieces behind it, or the fault.
fn joins_line(alloc: Global, mut words: Words<'_>, answer: &mut Answer) -> Result<(), Fault> {
    let (path, count, piece) = words.three()?;
    let element = repeated(alloc, "", number_of(count)?, piece)?;
    let path = path_of(alloc, path)?;
    match path.join(element.as_str()) {
        Ok(longer) => answer.number(longer.as_str().len() as u64),
        Err(fault) => add_fault(fault, answer),
    }
    Ok(())
}

// `compare PATH PATH`: how the first stands to the second in the order of paths. Each is compared as a copy.
fn compare_line(alloc: Global, mut words: Words<'_>, answer: &mut Answer) -> Result<(), Fault> {
    let (first, second) = words.two()?;
    let first = copied_path(alloc, first)?;
    let second = copied_path(alloc, second)?;
    answer.order(first.cmp(&second));
    Ok(())
}

fn copied_path(alloc: Global, word: &str) -> Result<Path, Fault> {
    let path = path_of(alloc, word)?;
    Ok(path.clone()?)
}

// `item OWNER TEXT`: whom the text stands for in a text of this owner's tree, or `bad`.
fn item_line(alloc: Global, mut words: Words<'_>, answer: &mut Answer) -> Result<(), Fault> {
    let (owner, text) = words.two()?;
    let owner = user_of(alloc, owner)?;
    let text = text_of(alloc, text)?;
    match parse_item(&owner, text.as_slice())? {
        Some(item) => add_item(&item, answer),
        None => answer.word("bad"),
    }
    Ok(())
}
