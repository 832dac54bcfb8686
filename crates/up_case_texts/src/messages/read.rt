//! What is read of its bytes, shown in words, measured, and written again: the same for each kind of message.
use std::alloc::{AllocError, Global};
use up_bytes::{Bytes, FieldFault};
use up_case_lines::{Answer, Fault, add_fault, bytes_of_digits};

/// A kind of message.
pub trait Message: Sized + Drop {
    /// The message that is the whole of these bytes.
    fn read(alloc: Global, bytes: &[u8]) -> Result<Self, FieldFault>;

    /// The bytes of the message.
    fn written(&self, alloc: Global) -> Result<Bytes, AllocError>;

    /// Whether it is said to have this many bytes, where something is said of it.
    fn has_size(&self, bytes: u64) -> bool;

    /// Adds its words.
    fn add(&self, alloc: Global, answer: &mut Answer);
}

/// The message that is the whole of these bytes, in words, or the fault. A word `differ` follows where the message is not
/// written again as it stood, and `size` where it is said to have another length.
pub fn message_line<M: Message>(
    alloc: Global,
    digits: &str,
    answer: &mut Answer,
) -> Result<(), Fault> {
    let bytes = bytes_of_digits(alloc, digits)?;
    let read = M::read(alloc, bytes.as_slice());
    add_read(alloc, &read, &bytes, answer)
}

fn add_read<M: Message>(
    alloc: Global,
    read: &Result<M, FieldFault>,
    bytes: &Bytes,
    answer: &mut Answer,
) -> Result<(), Fault> {
    match read {
        Ok(message) => {
            message.add(alloc, answer);
            add_again(alloc, message, bytes, answer)
        }
        Err(fault) => add_fault(*fault, answer),
    }
}

fn add_again<M: Message>(
    alloc: Global,
    message: &M,
    bytes: &Bytes,
    answer: &mut Answer,
) -> Result<(), Fault> {
    let again = message.written(alloc)?;
    if again != *bytes {
        answer.word("differ");
    }
    if !message.has_size(bytes.len()) {
        answer.word("size");
    }
    Ok(())
}

/// How many proper fronts these bytes have, and `short` where each of them is short; else the length of the first that is not.
pub fn fronts_line<M: Message>(
    alloc: Global,
    digits: &str,
    answer: &mut Answer,
) -> Result<(), Fault> {
    let bytes = bytes_of_digits(alloc, digits)?;
    let short = short_fronts::<M>(alloc, bytes.as_slice())?;
    answer.number(short);
    if short == bytes.len() {
        answer.word("short");
    }
    Ok(())
}

// How many of the fronts are short, from the empty one on, up to the first that is not.
fn short_fronts<M: Message>(alloc: Global, bytes: &[u8]) -> Result<u64, Fault> {
    let mut short = 0u64;
    for end in 0..bytes.len() {
        if !is_short::<M>(alloc, &bytes[..end])? {
            break;
        }
        short = short.saturating_add(1);
    }
    Ok(short)
}

// Whether these bytes end within a field.
fn is_short<M: Message>(alloc: Global, bytes: &[u8]) -> Result<bool, Fault> {
    match M::read(alloc, bytes).err() {
        Some(FieldFault::OutOfMemory) => Err(Fault::OutOfMemory),
        fault => Ok(fault == Some(FieldFault::Short)),
    }
}
