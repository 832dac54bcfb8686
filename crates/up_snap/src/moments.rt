//! The paths of snapshots: the UTC date of a moment, and the time of day.
ghost use Rattle.std.specs.Prelude.{◌≡◌, ◌+◌, ◌/◌, ◌%◌, ◌++◌, ◌∷◌, [], pos, IfOk, OnOk};
ghost use Rattle.up_names.specs.PathNames.{extended};
ghost use Rattle.up_answers.specs.Calendar.{clock_text, date_of, digits};
ghost use Rattle.up_ends.specs.Moments.{IsMoment};
ghost use Rattle.up_snap.specs.Shown.{shown_root};

use jiff_core::civil::Date;
use std::alloc::{AllocError, Global};
use up_names::{Path, User, element_text};

/// The date of a moment, in UTC.
fn civil_date(time: u64) -> Date
    requires { IsMoment time }
    ensures year { result.year ≡ pos (date_of (time / 86400)).year }
    ensures month { result.month ≡ (date_of (time / 86400)).month }
    ensures day { result.day ≡ (date_of (time / 86400)).day }
{
    let days = time / 86_400;
    match Date::from_unix_epoch_day(days as i64) {
        Ok(date) => date,
        Err(_) => unreachable!(),
    }
}

/// Adds a number's last decimal digit to a text.
fn push_digit(text: &mut Vec<u8>, number: u64) -> Result<(), AllocError>
    ensures { OnOk result (text.new.items ≡ text.old.items ++ (48 + number % 10) ∷ []) }
{
    text.push(b'0' + (number % 10) as u8)?;
    Ok(())
}

/// Adds a number's last two decimal digits to a text.
fn push_two(text: &mut Vec<u8>, number: u64) -> Result<(), AllocError>
    ensures { OnOk result (text.new.items ≡ text.old.items ++ digits 2 number) }
{
    push_digit(text, number / 10)?;
    push_digit(text, number)
}

/// A number's last two decimal digits.
fn two_digits(alloc: Global, number: u64) -> Result<Vec<u8>, AllocError>
    ensures { IfOk result (λ text. text.items ≡ digits 2 number) }
{
    let mut text = Vec::new(alloc);
    push_two(&mut text, number)?;
    Ok(text)
}

/// A number's last four decimal digits.
fn four_digits(alloc: Global, number: u64) -> Result<Vec<u8>, AllocError>
    ensures { IfOk result (λ text. text.items ≡ digits 4 number) }
{
    let mut text = Vec::new(alloc);
    push_two(&mut text, number / 10 / 10)?;
    push_two(&mut text, number)?;
    Ok(text)
}

/// The time of day of a moment: hour, minute and second.
fn clock_digits(alloc: Global, time: u64) -> Result<Vec<u8>, AllocError>
    ensures { IfOk result (λ text. text.items ≡ clock_text time) }
{
    let mut text = Vec::new(alloc);
    push_two(&mut text, time % 86_400 / 3600)?;
    push_two(&mut text, time % 3600 / 60)?;
    push_two(&mut text, time % 60)?;
    Ok(text)
}

/// The path with one element more.
#[tactic(auto, unfolding(up_names::specs::PathNames::joined))]
pub(crate) fn within(dir: &Path, name: &str) -> Result<Path, AllocError>
    ensures { IfOk result (λ path. path ≡ extended dir.now name.now) }
{
    match dir.join(name) {
        Ok(path) => Ok(path),
        Err(_) => Err(AllocError),
    }
}

/// The path with one element more, of these bytes.
fn joined(dir: Path, name: Vec<u8>) -> Result<Path, AllocError>
    ensures { IfOk result (λ path. path ≡ extended dir name.items) }
{
    match element_text(name.as_slice()) {
        Some(element) => within(&dir, element),
        None => Err(AllocError),
    }
}

/// The path with one element more, of a number's last two decimal digits.
fn with_two_digits(alloc: Global, dir: Path, number: u64) -> Result<Path, AllocError>
    ensures { IfOk result (λ path. path ≡ extended dir (digits 2 number)) }
{
    let name = two_digits(alloc, number)?;
    joined(dir, name)
}

/// The path with one element more, of a number's last four decimal digits.
fn with_four_digits(alloc: Global, dir: Path, number: u64) -> Result<Path, AllocError>
    ensures { IfOk result (λ path. path ≡ extended dir (digits 4 number)) }
{
    let name = four_digits(alloc, number)?;
    joined(dir, name)
}

/// The path with one element more, of the time of day of a moment.
fn with_clock(alloc: Global, dir: Path, time: u64) -> Result<Path, AllocError>
    ensures { IfOk result (λ path. path ≡ extended dir (clock_text time)) }
{
    let name = clock_digits(alloc, time)?;
    joined(dir, name)
}

/// The root of the snapshot of a moment, in the tree of this snapshot user.
#[tactic(auto, unfolding(up_answers::specs::Calendar::moment_elements))]
pub fn root_at(alloc: Global, snap_user: &User, time: u64) -> Result<Path, AllocError>
    requires { IsMoment time }
    ensures { IfOk result (λ path. path ≡ shown_root snap_user.now time) }
{
    let date = civil_date(time);
    let root = Path::root(snap_user.clone()?)?;
    let year = with_four_digits(alloc, root, date.year as u64)?;
    let month = with_two_digits(alloc, year, date.month as u64)?;
    let day = with_two_digits(alloc, month, date.day as u64)?;
    with_clock(alloc, day, time)
}
