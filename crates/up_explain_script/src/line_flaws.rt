//! Why a line is malformed whatever came before it. Only what is said of the line depends on this: whether it is malformed is found out by the
//! reader of lines itself.
use crate::host_flaws::judge_owners;
use crate::request_words::{Form, form_of, judge_words};
use std::alloc::Global;
use up_bytes::Bytes;
use up_command::{is, key_named, words_of};
use up_explain_can::{Flaw, Why, bad_word, text_named, user_named};
use up_lists::Items;
use up_names::User;
use up_script_lines::session_named;
use up_sign::HostName;
use up_text::{cut_word, three_words};

/// The greatest length of a key.
const LONGEST_KEY: usize = 1024;

/// Why a line that is malformed by itself is so.
pub(crate) fn why_malformed(alloc: Global, line: &[u8]) -> Why {
    let (first, words) = cut_word(line);
    match judge_line(alloc, first, words) {
        Ok(()) => bad_word(alloc, first, Flaw::RequestWords),
        Err(why) => why,
    }
}

/// Tells what is wrong with a line, if anything is, by its first word and what is behind it.
fn judge_line(alloc: Global, first: &[u8], words: Option<&[u8]>) -> Result<(), Why> {
    if is(first, b"host") {
        judge_host(alloc, words)
    } else if is(first, b"enrol") {
        judge_enrol(alloc, words)
    } else if is(first, b"open") {
        judge_open(alloc, words)
    } else {
        judge_session(alloc, first, words)
    }
}

// `host NAME OPERATOR TREES`
fn judge_host(alloc: Global, words: Option<&[u8]>) -> Result<(), Why> {
    let Some((name, operator, trees)) = three_words(words) else {
        return Err(Why::Line(Flaw::HostWords));
    };
    judge_name(alloc, name)?;
    judge_user(alloc, operator)?;
    judge_trees(alloc, trees)
}

// `enrol NAME USER KEY`
fn judge_enrol(alloc: Global, words: Option<&[u8]>) -> Result<(), Why> {
    let Some((name, user, key)) = three_words(words) else {
        return Err(Why::Line(Flaw::EnrolWords));
    };
    judge_name(alloc, name)?;
    judge_user(alloc, user)?;
    judge_key(alloc, key)
}

// `open N NAME USER PROOF`
fn judge_open(alloc: Global, words: Option<&[u8]>) -> Result<(), Why> {
    let Some(words) = words else {
        return Err(Why::Line(Flaw::OpenWords));
    };
    let (number, after) = cut_word(words);
    let Some((name, user, proof)) = three_words(after) else {
        return Err(Why::Line(Flaw::OpenWords));
    };
    if session_named(number).is_none() {
        return Err(bad_word(alloc, number, Flaw::Session));
    }
    judge_name(alloc, name)?;
    judge_user(alloc, user)?;
    judge_text(alloc, proof)
}

// `N` and the words of a request, or of a put or get of the client
fn judge_session(alloc: Global, first: &[u8], words: Option<&[u8]>) -> Result<(), Why> {
    if session_named(first).is_none() {
        return Err(bad_word(alloc, first, first_flaw(first)));
    }
    let words = words_of(alloc, words)?;
    judge_request(alloc, words.as_slice())
}

/// Tells what is wrong with words that are no request.
fn judge_request(alloc: Global, words: &[Bytes]) -> Result<(), Why> {
    let Some((keyword, arguments)) = words.split_first() else {
        return Err(Why::Line(Flaw::NoRequest));
    };
    let keyword = keyword.as_slice();
    judge_words(alloc, keyword, form_of(keyword), arguments)
}

/// What is wrong with the first word of a line that is no keyword and no number of a session.
fn first_flaw(word: &[u8]) -> Flaw {
    match word {
        [b'0'..=b'9' | b'-', ..] => Flaw::Session,
        _ if form_of(word) != Form::Unknown => Flaw::NoSession,
        _ => Flaw::ScriptKeyword,
    }
}

/// Tells what is wrong with the name of a host.
fn judge_name(alloc: Global, word: &[u8]) -> Result<(), Why> {
    match HostName::read(alloc, word)? {
        Some(name) => {
            drop(name);
            Ok(())
        }
        None => Err(bad_word(alloc, word, Flaw::HostName)),
    }
}

/// Tells what is wrong with a word that names a user.
fn judge_user(alloc: Global, word: &[u8]) -> Result<(), Why> {
    let user = user_named(alloc, word)?;
    drop(user);
    Ok(())
}

/// Tells what is wrong with a word that stands for a text.
pub(crate) fn judge_text(alloc: Global, word: &[u8]) -> Result<(), Why> {
    let text = text_named(alloc, word)?;
    drop(text);
    Ok(())
}

/// Tells what is wrong with a word that names the owners of trees.
fn judge_trees(alloc: Global, word: &[u8]) -> Result<(), Why> {
    if word == b"-".as_slice() {
        return Ok(());
    }
    let mut owners = Items::new(alloc);
    let named = add_users(alloc, &mut owners, word);
    if named.is_ok() {
        return judge_owners(alloc, owners.as_slice());
    }
    drop(owners);
    named
}

/// Adds the users of a list that is cut at its commas.
fn add_users(alloc: Global, users: &mut Items<User>, list: &[u8]) -> Result<(), Why> {
    for word in list.split(|b| *b == b',') {
        add_user(alloc, users, word)?;
    }
    Ok(())
}

/// Adds the user that a word names.
fn add_user(alloc: Global, users: &mut Items<User>, word: &[u8]) -> Result<(), Why> {
    let user = user_named(alloc, word)?;
    users.push(user)?;
    Ok(())
}

/// Tells what is wrong with a word that stands for a key.
fn judge_key(alloc: Global, word: &[u8]) -> Result<(), Why> {
    match key_named(alloc, word)? {
        Some(key) => {
            drop(key);
            Ok(())
        }
        None => Err(bad_key(alloc, word)),
    }
}

/// Why a word stands for no key.
fn bad_key(alloc: Global, word: &[u8]) -> Why {
    if word == b"-".as_slice() {
        bad_word(alloc, b"", Flaw::KeyEmpty)
    } else if word.len() > LONGEST_KEY {
        bad_word(alloc, word, Flaw::KeyLong)
    } else {
        bad_word(alloc, word, Flaw::Percent)
    }
}
