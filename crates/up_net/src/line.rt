//! Messages over a stream.
ghost use Rattle.std.specs.Prelude.{◌≤◌, IfOk};

use crate::call_fault::CallFault;
use std::alloc::Global;
use std::io::{BufReader, Read, Write};
use up_bytes::Bytes;

/// The bytes of a frame's length.
const HEAD: usize = 4;

/// The greatest payload of a frame from a server.
const MOST: usize = 67_108_864;

/// How much memory is taken for a payload before its bytes are there.
const PIECE: usize = 65_536;

/// A client's end of a stream of frames.
#[derive(Drop)]
pub(crate) struct Line<S: Read + Write + Drop> {
    alloc: Global,
    reader: BufReader<S>,
    // whether the stream stands between two messages
    at_border: bool,
}

impl<S: Read + Write + Drop> Line<S> {
    pub fn new(alloc: Global, stream: S) -> Result<Self, CallFault> {
        Ok(Line {
            alloc,
            reader: BufReader::new(alloc, stream)?,
            at_border: true,
        })
    }

    /// The stream.
    pub fn stream(&mut self) -> &mut S {
        self.reader.get_mut()
    }

    /// Whether it stands between two messages, as it does where the memory was wanting before the first byte of one or behind the last.
    pub fn is_at_border(&self) -> bool {
        self.at_border
    }

    /// Sends a payload and hears the next one.
    pub fn exchange(&mut self, payload: &[u8]) -> Result<Bytes, CallFault> {
        self.say(payload)?;
        self.hear()
    }

    /// Sends a payload, its length in front of it, in one write.
    pub fn say(&mut self, payload: &[u8]) -> Result<(), CallFault> {
        let Ok(length) = u32::try_from(payload.len()) else {
            return Err(CallFault::TooLong);
        };
        let mut bytes = Vec::new(self.alloc);
        bytes.extend_from_slice(&length.to_be_bytes())?;
        bytes.extend_from_slice(payload)?;
        self.at_border = false;
        self.reader.get_mut().write_all(bytes.as_slice())?;
        self.at_border = true;
        Ok(())
    }

    /// The payload of the server's next frame.
    pub fn hear(&mut self) -> Result<Bytes, CallFault> {
        self.at_border = false;
        let mut head = [0u8; HEAD];
        self.reader.read_exact(&mut head)?;
        let length = u32::from_be_bytes(head) as usize;
        if length == 0 || length > MOST {
            return Err(CallFault::Failed);
        }
        let payload = self.payload(length)?;
        self.at_border = true;
        Ok(Bytes::from_vec(payload))
    }

    // So many bytes. Memory is taken piece by piece, as the bytes come.
    fn payload(&mut self, length: usize) -> Result<Vec<u8>, CallFault> {
        let mut payload = Vec::new(self.alloc);
        let mut room = vec![in self.alloc; 0; PIECE]?;
        let mut left = length;
        for _ in 0..length.div_ceil(PIECE) {
            left -= read_piece(&mut self.reader, room.as_mut_slice(), left, &mut payload)?;
        }
        Ok(payload)
    }
}

// Reads so many bytes, or as many as there is room for, and puts them behind others: how many these are.
fn read_piece<S: Read + Write + Drop>(
    reader: &mut BufReader<S>,
    room: &mut [u8],
    left: usize,
    payload: &mut Vec<u8>,
) -> Result<usize, CallFault>
    ensures { IfOk result (λ count. count ≤ left) }
{
    let count = left.min(room.len());
    let piece = &mut room[..count];
    reader.read_exact(piece)?;
    payload.extend_from_slice(piece)?;
    Ok(count)
}
