//! The users of a text are enrolled at a host.
ghost use Rattle.std.specs.Prelude.{◌≡◌, true};
ghost use Rattle.up_keys.specs.Records.{has_bounds};
ghost use Rattle.up_serve.specs.Enrolling.{DoesLine, EnrolsUsers, PutsUser, stop_by};

use crate::enrol_line::{EnrolLine, enrol_line};
use std::alloc::{AllocError, Global};
use up_disk::Disk;
use up_host::Host;
use up_journal::AppendWhy;
use up_text::next_line;
use up_wire::KeyRecord;

/// Why enrolling stopped.
#[derive(Clone, Copy, Debug, PartialEq, Eq)]
pub enum EnrolStop {
    /// The line of this number, from 1, is bad.
    BadLine(u64),
    /// The log of keys has so many records, and one more would pass the limits.
    Full(u64),
    /// The disk of the keys failed.
    DiskFault,
    OutOfMemory,
}

impl From<AllocError> for EnrolStop {
    ghost use Rattle.std.specs.Prelude.{◌≡◌};
    ghost use Rattle.up_serve.specs.declared.enrolling.EnrolStop.TheVariants.{OutOfMemory};

    ghost from_gives = { λ _ e. e ≡ OutOfMemory };

    fn from(_error: AllocError) -> EnrolStop {
        EnrolStop::OutOfMemory
    }
}

/// Puts the records of the users of a text to the keys of a host, line by line, where none is held. It stops at the first line that is
/// bad, or whose record the log of keys has no room for. Each `USER KEY` is in the words of a script; an empty line and a comment say
/// nothing.
#[tactic(auto, using(crate::proofs::EnrolLemmas::all_lines))]
pub fn enrol_users<D: Disk>(alloc: Global, host: &mut Host<D>, text: &[u8]) -> Result<(), EnrolStop>
    ensures { EnrolsUsers D.Disk text.now host.old host.new result }
{
    let mut number: u64 = 1;
    let mut rest = text;
    while let Some((line, after)) = next_line(rest) {
        if let Err(why) = do_line(alloc, host, number, line) {
            return Err(why);
        }
        number += 1;
        rest = after;
    }
    Ok(())
}

// Does what the line of this number says.
#[tactic(auto, using(crate::proofs::EnrolLemmas::each_line))]
fn do_line<D: Disk>(
    alloc: Global,
    host: &mut Host<D>,
    number: u64,
    line: &[u8],
) -> Result<(), EnrolStop>
    ensures { DoesLine D.Disk number line.now host.old host.new result }
{
    match enrol_line(alloc, line) {
        Ok(Some(EnrolLine::Silent)) => Ok(()),
        Ok(Some(EnrolLine::User(card))) => put_user(host, card),
        Ok(None) => Err(EnrolStop::BadLine(number)),
        Err(_) => Err(EnrolStop::OutOfMemory),
    }
}

// Puts a user's record, where none is held.
#[tactic(auto, using(crate::proofs::EnrolLemmas::users))]
fn put_user<D: Disk>(host: &mut Host<D>, card: KeyRecord) -> Result<(), EnrolStop>
    requires { has_bounds card ≡ true }
    ensures { PutsUser D.Disk card host.old host.new result }
{
    if host.key_record(&card.user).is_some() {
        return Ok(());
    }
    match host.enrol(card) {
        Ok(_position) => Ok(()),
        Err(why) => Err(stop_by(why)),
    }
}

// Why enrolling stops where a record was not put.
fn stop_by(why: AppendWhy) -> EnrolStop
    ensures { result ≡ stop_by why }
{
    match why {
        AppendWhy::Full(records) => EnrolStop::Full(records),
        AppendWhy::Fault => EnrolStop::DiskFault,
        AppendWhy::OutOfMemory => EnrolStop::OutOfMemory,
    }
}
