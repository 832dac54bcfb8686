//! Entries and records: an entry that is handed in, shown, written and put by a record, and bytes that are read.
mod many;
mod puts;
mod taken;
mod written;

use std::alloc::Global;
pub use taken::add_record_of;
use up_bytes::Bytes;
use up_case_lines::{Answer, Fault, Topic, Words, user_of};
use up_entry::Entry;
use up_names::User;

/// The user who puts entries. There is none before the first line `user USER`, each of which begins a new session.
#[derive(Drop)]
pub struct Records {
    session: Option<Session>,
}

impl Records {
    pub fn new() -> Records {
        Records { session: None }
    }

    /// The bytes of the record that two words stand for.
    pub fn record(&self, alloc: Global, words: Words<'_>) -> Result<Bytes, Fault> {
        match &self.session {
            Some(session) => written::bytes_of_record(alloc, session, words),
            None => Err(Fault::BadLine),
        }
    }
}

impl Topic for Records {
    fn turn(&mut self, alloc: Global, line: &str, answer: &mut Answer) -> Result<(), Fault> {
        let mut words = Words::new(line);
        let keyword = words.word()?;
        if keyword == "user" {
            drop(self.session.replace(user_line(alloc, words)?));
            return Ok(());
        }
        match &mut self.session {
            Some(session) => session_turn(alloc, session, keyword, words, answer),
            None => Err(Fault::BadLine),
        }
    }
}

/// A user's session.
#[derive(Drop)]
struct Session {
    user: User,
    /// The last entry that kept all rules, if there is one.
    entry: Option<Entry>,
}

impl Session {
    /// The current entry. A line that speaks of it does not fit where there is none.
    fn current(&self) -> Result<&Entry, Fault> {
        self.entry.as_ref().ok_or(Fault::BadLine)
    }
}

// `user USER`: a session of this user, without an entry.
fn user_line(alloc: Global, mut words: Words<'_>) -> Result<Session, Fault> {
    let user = words.one()?;
    Ok(Session {
        user: user_of(alloc, user)?,
        entry: None,
    })
}

// A line of a session.
fn session_turn(
    alloc: Global,
    session: &mut Session,
    keyword: &str,
    words: Words<'_>,
    answer: &mut Answer,
) -> Result<(), Fault> {
    match keyword {
        "put" => puts::put_line(alloc, session, words, answer),
        "position" => puts::position_line(session, words),
        "show" => puts::show_line(alloc, session, words, answer),
        "write" => written::write_line(alloc, session, words, answer),
        "record" => written::record_line(alloc, session, words, answer),
        "many" => many::many_line(alloc, session, words, answer),
        _ => taken::taken_line(alloc, keyword, words, answer),
    }
}
