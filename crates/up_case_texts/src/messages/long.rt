//! The bound on a reply.
use std::alloc::{AllocError, Global};
use up_bytes::Bytes;
use up_case_lines::{Answer, Fault, number_of};
use up_lists::Items;
use up_wire::{Done, Reply, bounded, reply_size};

/// `long N`: how many bytes the reply has that gives a block of N bytes, and `kept`, or `toolarge` and the number in the
/// reply that stands in its place.
pub fn long_line(alloc: Global, count: &str, answer: &mut Answer) -> Result<(), Fault> {
    let bytes = zeros(alloc, number_of(count)?)?;
    add_long(Reply::Ok(Done::Bytes(bytes)), answer);
    Ok(())
}

fn add_long(given: Reply, answer: &mut Answer) {
    answer.number(reply_size(&given));
    let kept = bounded(given);
    add_bounded(&kept, answer);
    drop(kept);
}

// So many bytes 0.
fn zeros(alloc: Global, count: u64) -> Result<Bytes, AllocError> {
    Ok(Items::from_vec(vec![in alloc; 0; count as usize]?))
}

fn add_bounded(given: &Reply, answer: &mut Answer) {
    match given {
        Reply::TooLarge(size) => {
            answer.word("toolarge");
            answer.number(*size);
        }
        Reply::Ok(_) => answer.word("kept"),
        _ => answer.word("another"),
    }
}
