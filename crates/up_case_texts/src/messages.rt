//! Messages: what a client and a server send each other, and the records of a key server's log. Each is read of its bytes,
//! shown in words, measured, and written again. A line stands alone.
mod asked;
mod given;
mod known;
mod long;
mod read;
mod timed;

pub use asked::add_request;
use read::{fronts_line, message_line};
use std::alloc::Global;
use up_case_lines::{Answer, Fault, Topic, Words};
use up_wire::{ClientFrame, KeyRecord, ServerFrame};

/// Lines about messages. They keep nothing.
#[derive(Clone, Copy)]
pub struct Messages;

impl Topic for Messages {
    fn turn(&mut self, alloc: Global, line: &str, answer: &mut Answer) -> Result<(), Fault> {
        let mut words = Words::new(line);
        let keyword = words.word()?;
        let argument = words.one()?;
        match keyword {
            // `client HEX`, `server HEX` and `known HEX`: a message, or the record of a key server's log, read of these bytes.
            "client" => message_line::<ClientFrame>(alloc, argument, answer),
            "server" => message_line::<ServerFrame>(alloc, argument, answer),
            "known" => message_line::<KeyRecord>(alloc, argument, answer),
            // The same words behind `fronts-`: how many of the bytes' fronts end within a field.
            "fronts-client" => fronts_line::<ClientFrame>(alloc, argument, answer),
            "fronts-server" => fronts_line::<ServerFrame>(alloc, argument, answer),
            "fronts-known" => fronts_line::<KeyRecord>(alloc, argument, answer),
            "long" => long::long_line(alloc, argument, answer),
            "makes" | "writes" | "reads" | "copies" => {
                timed::timed_line(alloc, keyword, argument, answer)
            }
            _ => Err(Fault::BadLine),
        }
    }
}
