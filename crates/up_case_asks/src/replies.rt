//! The lines of replies.
use std::alloc::Global;
use up_case_lines::{Answer, Fault};
use up_text::reply_lines;
use up_wire::Reply;

/// Adds the lines of a reply, or the first of them.
pub fn add_lines(
    alloc: Global,
    reply: &Reply,
    whole: bool,
    answer: &mut Answer,
) -> Result<(), Fault> {
    let lines = reply_lines(alloc, reply)?;
    for line in lines.as_slice() {
        if whole || answer.is_empty() {
            answer.part();
            answer.made(String::from_utf8_lossy(alloc, line.as_slice()));
        }
    }
    Ok(())
}

/// Adds the lines of a reply. Want of memory has none.
pub fn add_reply(alloc: Global, reply: &Reply, answer: &mut Answer) -> Result<(), Fault> {
    if let Reply::OutOfMemory = reply {
        answer.word("out of memory");
        return Ok(());
    }
    add_lines(alloc, reply, true, answer)
}
