//! Lines of a script that ask something of a session. A line stands alone.
use crate::lists::parts_of;
use crate::messages::add_request;
use std::alloc::{AllocError, Global};
use up_bytes::Bytes;
use up_case_lines::{Answer, Fault, Topic, Words, user_of};
use up_lists::Items;
use up_names::User;
use up_text::{ClientLine, LineWords};
use up_wire::Request;

/// Lines about the lines of a script. They keep nothing.
#[derive(Clone, Copy)]
pub struct Requests;

impl Topic for Requests {
    fn turn(&mut self, alloc: Global, line: &str, answer: &mut Answer) -> Result<(), Fault> {
        let mut words = Words::new(line);
        match words.word()? {
            "ask" => ask_line(alloc, words, answer),
            _ => Err(Fault::BadLine),
        }
    }
}

// `ask USER WORDS`: what the words ask for a session of the user, or what they have the client do, or `malformed` where
// they are said to be no line.
fn ask_line(alloc: Global, mut words: Words<'_>, answer: &mut Answer) -> Result<(), Fault> {
    let user = user_of(alloc, words.word()?)?;
    let line = LineWords::new(words_of(alloc, words.rest())?);
    add_asked(alloc, &user, &line, answer)
}

// The words of a line, each as it stands.
fn words_of(alloc: Global, rest: Option<&str>) -> Result<Items<Bytes>, Fault> {
    match rest {
        Some(rest) => parts_of(alloc, rest, ' '),
        None => Ok(Items::new(alloc)),
    }
}

fn add_asked(
    alloc: Global,
    user: &User,
    line: &LineWords,
    answer: &mut Answer,
) -> Result<(), Fault> {
    let asked = line.request(alloc, user)?;
    add_meant(alloc, &asked, line, answer)
}

fn add_meant(
    alloc: Global,
    asked: &Option<Request>,
    line: &LineWords,
    answer: &mut Answer,
) -> Result<(), Fault> {
    match asked {
        Some(asked) => add_request(alloc, asked, answer),
        None => add_client_line(alloc, line, answer)?,
    }
    if !line.is_request() {
        answer.word("malformed");
    }
    Ok(())
}

fn add_client_line(alloc: Global, line: &LineWords, answer: &mut Answer) -> Result<(), AllocError> {
    let call = line.client_line(alloc)?;
    if let Some(call) = &call {
        add_client(call, answer);
    }
    Ok(())
}

fn add_client(line: &ClientLine, answer: &mut Answer) {
    match line {
        ClientLine::Put(path, time, sequence, bytes) => {
            answer.word("client put");
            answer.coded(path.as_slice());
            answer.int(*time);
            answer.int(*sequence);
            answer.coded(bytes.as_slice());
        }
        ClientLine::Get(path) => {
            answer.word("client get");
            answer.coded(path.as_slice());
        }
    }
}
