//! Texts of Access and Group files, read and printed. A line stands alone.
use crate::rights::add_rights;
use std::alloc::Global;
use up_access::{AccessText, parse_access, print_access};
use up_case_lines::{Answer, Fault, Topic, Words, add_item, add_members, text_of, user_of};
use up_group::{GroupText, parse_group};
use up_names::{TextFault, User};

/// Lines about texts. They keep nothing.
#[derive(Clone, Copy)]
pub struct Texts;

impl Topic for Texts {
    fn turn(&mut self, alloc: Global, line: &str, answer: &mut Answer) -> Result<(), Fault> {
        let mut words = Words::new(line);
        let keyword = words.word()?;
        let (owner, text) = words.two()?;
        let owner = user_of(alloc, owner)?;
        text_line(alloc, keyword, &owner, text, answer)
    }
}

// A line about a text of this owner.
fn text_line(
    alloc: Global,
    keyword: &str,
    owner: &User,
    text: &str,
    answer: &mut Answer,
) -> Result<(), Fault> {
    let text = text_of(alloc, text)?;
    match keyword {
        "access" => access_line(alloc, owner, text.as_slice(), answer),
        "rules" => rules_line(owner, text.as_slice(), answer),
        "group" => group_line(owner, text.as_slice(), answer),
        _ => Err(Fault::BadLine),
    }
}

// `access OWNER TEXT`: the text as it is printed, or the number of the first bad line. A word `differ` follows where the
// printed text, read as another owner's, is not the same.
fn access_line(alloc: Global, owner: &User, text: &[u8], answer: &mut Answer) -> Result<(), Fault> {
    match parse_access(owner, text) {
        Ok(access) => add_printed(alloc, &access, answer),
        Err(fault) => add_fault(fault, answer),
    }
}

fn add_printed(alloc: Global, access: &AccessText, answer: &mut Answer) -> Result<(), Fault> {
    let printed = print_access(access)?;
    let other = user_of(alloc, "other@o.example")?;
    let again = parse_access(&other, printed.as_slice())?;
    answer.coded(printed.as_slice());
    if again != *access {
        answer.word("differ");
    }
    Ok(())
}

// `bad N`: the first line of a text that does not fit.
fn add_fault(fault: TextFault, answer: &mut Answer) -> Result<(), Fault> {
    match fault {
        TextFault::BadText(line) => {
            answer.word("bad");
            answer.number(line);
            Ok(())
        }
        TextFault::OutOfMemory => Err(Fault::OutOfMemory),
    }
}

// `rules OWNER TEXT`: how many rules the text has, and of each the rights and the number of its names.
fn rules_line(owner: &User, text: &[u8], answer: &mut Answer) -> Result<(), Fault> {
    let access = parse_access(owner, text)?;
    answer.number(access.len());
    for i in 0..access.len() {
        add_rule(&access, i, answer);
    }
    Ok(())
}

fn add_rule(access: &AccessText, i: u64, answer: &mut Answer) {
    if let Some(rule) = access.rule(i) {
        add_rights(rule.rights, answer);
        answer.number(rule.items.len());
    }
}

// `group OWNER TEXT`: how many names the text has, and whom each stands for; or the number of the first bad line.
fn group_line(owner: &User, text: &[u8], answer: &mut Answer) -> Result<(), Fault> {
    match parse_group(owner, text) {
        Ok(group) => {
            add_members(&group, answer);
            Ok(())
        }
        Err(fault) => add_fault(fault, answer),
    }
}
