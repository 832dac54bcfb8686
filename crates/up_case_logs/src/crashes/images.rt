//! What crashes leave.
use super::on_journal::add_log_of;
use super::on_keys::add_key_log;
use super::on_store::add_store;
use super::watched::Watched;
use std::alloc::{AllocError, Global};
use up_case_lines::{Answer, Fault};
use up_disk::{Disk, Failed, MemDisk};

/// What is looked at: the bytes of an image, or the journal, the store or the key server's log that is opened over it.
#[derive(Clone, Copy)]
pub enum Look {
    Bytes,
    Journal,
    Store,
    Keys,
}

/// Adds what so many images of a disk have, from 0 on.
pub fn add_images(
    alloc: Global,
    disk: &MemDisk,
    count: u64,
    look: Look,
    answer: &mut Answer,
) -> Result<(), Fault> {
    for choice in 0..count {
        add_image(alloc, disk.image(choice)?, look, answer)?;
    }
    Ok(())
}

/// Adds what images that were kept have.
pub fn add_noted(
    alloc: Global,
    noted: &[MemDisk],
    look: Look,
    answer: &mut Answer,
) -> Result<(), Fault> {
    for kept in noted {
        add_image(alloc, kept.image(0)?, look, answer)?;
    }
    Ok(())
}

fn add_image(alloc: Global, image: MemDisk, look: Look, answer: &mut Answer) -> Result<(), Fault> {
    let disk = Watched::new(alloc, image);
    match look {
        Look::Bytes => add_bytes(alloc, disk, answer)?,
        Look::Journal => add_log_of(alloc, disk, answer),
        Look::Store => add_store(alloc, disk, answer),
        Look::Keys => add_key_log(alloc, disk, answer)?,
    }
    Ok(())
}

fn add_bytes(alloc: Global, mut disk: Watched, answer: &mut Answer) -> Result<(), AllocError> {
    add_content(alloc, &mut disk, answer)
}

/// Adds what a read of the whole disk gives.
pub fn add_content(
    alloc: Global,
    disk: &mut Watched,
    answer: &mut Answer,
) -> Result<(), AllocError> {
    let mut bytes = vec![in alloc; 0u8; disk.size() as usize]?;
    match disk.read(0, bytes.as_mut_slice()) {
        Ok(()) => answer.coded(&bytes),
        Err(Failed) => answer.word("fault"),
    }
    Ok(())
}
