//! The requests of a connection, asked of the host itself.
use crate::host_cases::served::event_of;
use crate::host_cases::sessions::session_of;
use std::alloc::{AllocError, Global};
use up_bytes::{Fields, Writer};
use up_case_lines::{Answer, Fault, Words, bytes_of_digits};
use up_disk::MemDisk;
use up_ends::{MemSink, write_all};
use up_host::Host;
use up_lists::Items;
use up_peer::Peers;
use up_sign::Session;
use up_talk::request_of;
use up_wire::{Request, ServerFrame};

/// The frames of replies that were made and not yet written, and those that were.
#[derive(Drop)]
struct Gathered {
    writer: Writer,
    sink: MemSink,
}

impl Gathered {
    fn add(&mut self, frame: &ServerFrame) -> Result<(), Fault> {
        let Ok(size) = u32::try_from(frame.size()) else {
            return Err(Fault::BadLine);
        };
        self.writer.raw(&size.to_be_bytes())?;
        frame.append(&mut self.writer)?;
        Ok(())
    }

    fn write(&mut self) -> Result<(), Fault> {
        let written = write_all(&mut self.sink, self.writer.as_slice());
        self.writer.truncate(0);
        match written {
            Ok(()) => Ok(()),
            Err(_) => Err(Fault::OutOfMemory),
        }
    }
}

/// `direct NAME USER COUNT PAYLOAD`: asks the host so many times for the request of this payload, as this user, and tells how many bytes
/// the frames of the replies have. They are written, sixteen together.
pub fn direct_line(
    alloc: Global,
    host: &mut Host<MemDisk>,
    mut words: Words<'_>,
    answer: &mut Answer,
) -> Result<(), Fault> {
    let name = words.word()?;
    let count = words.number()?;
    let digits = words.one()?;
    match session_of(alloc, host, name)? {
        Some(session) => {
            let asked = ask_often(alloc, host, &session, count, digits, answer);
            drop(session);
            asked
        }
        None => Err(Fault::BadLine),
    }
}

fn ask_often(
    alloc: Global,
    host: &mut Host<MemDisk>,
    session: &Session,
    count: u64,
    digits: &str,
    answer: &mut Answer,
) -> Result<(), Fault> {
    let request = request_in(alloc, digits)?;
    let mut gathered = Gathered {
        writer: Writer::new(alloc),
        sink: MemSink::new(alloc, Items::new(alloc)),
    };
    let asked = ask_all(alloc, host, session, &request, count, &mut gathered);
    drop(request);
    answer.number(gathered.sink.bytes().len() as u64);
    drop(gathered);
    asked
}

fn request_in(alloc: Global, digits: &str) -> Result<Request, Fault> {
    let payload = bytes_of_digits(alloc, digits)?;
    let request = request_of(alloc, payload.as_slice());
    drop(payload);
    match request {
        Ok(Some(request)) => Ok(request),
        Ok(None) => Err(Fault::BadLine),
        Err(AllocError) => Err(Fault::OutOfMemory),
    }
}

fn ask_all(
    alloc: Global,
    host: &mut Host<MemDisk>,
    session: &Session,
    request: &Request,
    count: u64,
    gathered: &mut Gathered,
) -> Result<(), Fault> {
    for n in 0..count {
        ask_once(alloc, host, session, request, gathered)?;
        if n % 16 == 15 {
            gathered.write()?;
        }
    }
    gathered.write()
}

fn ask_once(
    alloc: Global,
    host: &mut Host<MemDisk>,
    session: &Session,
    request: &Request,
    gathered: &mut Gathered,
) -> Result<(), Fault> {
    let mut nobody = Peers::new(alloc);
    let event = event_of(alloc, host, &mut nobody, session, request);
    drop(nobody);
    let frame = ServerFrame::Answer(event.reply);
    let added = gathered.add(&frame);
    drop(frame);
    added
}
