//! Bytes with calls done again, whole or as a crash leaves them.
ghost use Rattle.std.specs.Prelude.{◌≡◌, ◌≤◌, ◌+◌, ◌^◌, length, IfOk, OnOk, OnErr};
ghost use Rattle.up_disk.specs.Disk.{written};
ghost use Rattle.up_disk.specs.Pending.{content_after, done, padded, put_at};
ghost use Rattle.up_disk.specs.Image.{landed, landed_all, landed_cut, landed_write, landing_of};

use crate::call::{Call, Landing};
use std::alloc::{AllocError, Global};
use up_lists::Items;

/// The choice by its number.
pub fn landing(choice: u64) -> Landing
    ensures { result ≡ landing_of choice }
{
    match choice % 8 {
        0 => Landing::Nothing,
        1 => Landing::Everything,
        2 => Landing::FrontHalf,
        3 => Landing::BackHalf,
        4 => Landing::Filled(1),
        5 => Landing::Filled(255),
        6 => Landing::OldSize,
        _ => Landing::SizeAlone,
    }
}

/// The bytes, in a list of their own.
pub fn copy_of(alloc: Global, bytes: &[u8]) -> Result<Items<u8>, AllocError>
    ensures { IfOk result (λ copy. copy ≡ bytes.now) }
{
    Ok(Items::from_vec(bytes.to_vec(alloc)?))
}

/// Puts bytes in the place of those at `at`, and past the end. An `Err` changes nothing.
pub fn overwrite(content: &mut Vec<u8>, at: usize, bytes: &[u8]) -> Result<(), AllocError>
    requires { at ≤ length content.old.items }
    ensures ok { OnOk result (content.new.items ≡ written at bytes.now content.old.items) }
    ensures err { OnErr result (content.new.items ≡ content.old.items) }
{
    let over = bytes.len().min(content.len() - at);
    content.extend_from_slice(&bytes[over..])?;
    content[at..at + over].copy_from_slice(&bytes[..over]);
    Ok(())
}

// Puts zeros behind the bytes up to a size.
fn pad(bytes: &mut Vec<u8>, size: usize) -> Result<(), AllocError>
    ensures { OnOk result (bytes.new.items ≡ padded size bytes.old.items) }
{
    if bytes.len() < size {
        bytes.resize(size, 0)?;
    }
    Ok(())
}

// Puts bytes at a place, and zeros before it where the old ones end earlier.
fn put(image: &mut Vec<u8>, at: usize, bytes: &[u8]) -> Result<(), AllocError>
    ensures { OnOk result (image.new.items ≡ put_at at bytes.now image.old.items) }
{
    pad(image, at)?;
    overwrite(image, at, bytes)
}

// Does a call again. An `Err` leaves the bytes in between.
fn redo(bytes: &mut Vec<u8>, call: &Call) -> Result<(), AllocError>
    ensures { OnOk result (bytes.new.items ≡ done call.now bytes.old.items) }
{
    match call {
        Call::Write(write) => {
            let whole = write.bytes.as_slice();
            let landed = (write.landed as usize).min(whole.len());
            put(bytes, write.at as usize, &whole[..landed])
        }
        Call::Cut(size) => {
            bytes.truncate(*size as usize);
            Ok(())
        }
        Call::Sync => Ok(()),
    }
}

// Does all calls again. An `Err` leaves the bytes in between.
pub fn redo_all(bytes: &mut Vec<u8>, calls: &[Call]) -> Result<(), AllocError>
    ensures { OnOk result (bytes.new.items ≡ content_after bytes.old.items calls.now) }
{
    for call in calls {
        redo(bytes, call)?;
    }
    Ok(())
}

// Leaves of a write what the choice says.
fn land_write(
    image: &mut Vec<u8>,
    landing: Landing,
    at: usize,
    bytes: &[u8],
) -> Result<(), AllocError>
    requires { at + length bytes.now ≤ 2 ^ 62 }
    ensures { OnOk result (image.new.items ≡ landed_write landing at bytes.now image.old.items) }
{
    let half = bytes.len() / 2;
    match landing {
        Landing::Nothing => Ok(()),
        Landing::Everything => put(image, at, bytes),
        Landing::FrontHalf => put(image, at, &bytes[..half]),
        Landing::BackHalf => put(image, at + half, &bytes[half..]),
        Landing::Filled(byte) => {
            let filled = vec![in *image.allocator(); byte; bytes.len()]?;
            put(image, at, &filled)
        }
        Landing::OldSize => {
            let size = image.len();
            put(image, at, bytes)?;
            image.truncate(size);
            Ok(())
        }
        Landing::SizeAlone => pad(image, at + bytes.len()),
    }
}

// Leaves of a cut what the choice says.
fn land_cut(image: &mut Vec<u8>, landing: Landing, size: usize)
    ensures { image.new.items ≡ landed_cut landing size image.old.items }
{
    match landing {
        Landing::Nothing | Landing::OldSize | Landing::SizeAlone => {}
        _ => image.truncate(size),
    }
}

// Leaves of a call what the choice says.
fn land(image: &mut Vec<u8>, landing: Landing, call: &Call) -> Result<(), AllocError>
    ensures { OnOk result (image.new.items ≡ landed landing call.now image.old.items) }
{
    match call {
        Call::Write(write) => land_write(image, landing, write.at as usize, write.bytes.as_slice()),
        Call::Cut(size) => {
            land_cut(image, landing, *size as usize);
            Ok(())
        }
        Call::Sync => Ok(()),
    }
}

/// Leaves of the calls since a sync what the choice says. An `Err` leaves an image in between.
pub fn land_all(image: &mut Vec<u8>, landing: Landing, calls: &[Call]) -> Result<(), AllocError>
    ensures { OnOk result (image.new.items ≡ landed_all landing image.old.items calls.now) }
{
    for call in calls {
        land(image, landing, call)?;
    }
    Ok(())
}
