//! The line that is printed where enrolling stops, or where a log is not moved.
ghost use Rattle.up_reports.specs.Telling.{IsLast};
ghost use Rattle.up_serve.specs.Telling.{full_log_at, full_with, moved_by, stopped_by};

use crate::enrolling::EnrolStop;
use std::alloc::{AllocError, Global};
use up_command::{Status, bad_line, say_count};
use up_journal::MoveWhy;
use up_reports::{Last, add_number, damaged_line, silent};

/// What is printed of why enrolling stopped.
pub fn stopped_line(alloc: Global, why: EnrolStop) -> Result<Last, AllocError>
    ensures { IsLast result (stopped_by why) }
{
    match why {
        EnrolStop::BadLine(number) => Ok(Last {
            line: bad_line(alloc, number)?,
            status: Status::BadUser,
        }),
        EnrolStop::Full(records) => full_line(alloc, records),
        EnrolStop::DiskFault => Ok(silent(alloc, Status::DiskFault)),
        EnrolStop::OutOfMemory => Ok(silent(alloc, Status::OutOfMemory)),
    }
}

// `enrol full N`
fn full_line(alloc: Global, records: u64) -> Result<Last, AllocError>
    ensures { IsLast result (full_with records) }
{
    let mut line = Vec::new(alloc);
    say_count(&mut line, b"enrol full ", records)?;
    Ok(Last {
        line,
        status: Status::Full,
    })
}

/// What is printed of a log that was not moved, at its place among the logs.
pub fn unmoved_line(alloc: Global, which: u64, why: MoveWhy) -> Result<Last, AllocError>
    ensures { IsLast result (moved_by which why) }
{
    match why {
        MoveWhy::Old(place) => damaged_line(alloc, which, place),
        MoveWhy::Full(records) => full_log_line(alloc, which, records),
        MoveWhy::Fault => Ok(silent(alloc, Status::DiskFault)),
        MoveWhy::OutOfMemory => Ok(silent(alloc, Status::OutOfMemory)),
    }
}

// `full I N`
fn full_log_line(alloc: Global, which: u64, records: u64) -> Result<Last, AllocError>
    ensures { IsLast result (full_log_at which records) }
{
    let mut line = Vec::new(alloc);
    add_number(&mut line, b"full ", which)?;
    add_number(&mut line, b" ", records)?;
    line.push(b'\n')?;
    Ok(Last {
        line,
        status: Status::Full,
    })
}
