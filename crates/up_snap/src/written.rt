//! The moment of a snapshot, read off a path.
ghost use Rattle.std.specs.Prelude.{◌≡◌, ◌<◌, ◌≤◌, ◌/◌, ◌%◌, ◌+◌, ◌*◌, ℕ, Some, [], pos, slice_index_or, true, take, length, IfSome};
ghost use Rattle.jiff_core.specs.Date.{epoch_day};
ghost use Rattle.up_names.specs.PathNames.{is_under};
ghost use Rattle.up_names.specs.Texts.{UserName};
ghost use Rattle.up_answers.specs.Calendar.{date_of, moment_elements};
ghost use Rattle.up_ends.specs.Moments.{IsMoment};
ghost use Rattle.up_snap.specs.Shown.{shown_root};
ghost use Rattle.up_snap.specs.Written.{IsRead, digit_at, two_at};

use jiff_core::civil::Date;
use up_names::Path;

/// What the digit at a place of a text stands for; of other bytes it says what it likes.
fn digit_at(text: &[u8], i: u64) -> u64
    ensures value { result ≡ digit_at text.now i }
    ensures bound { result ≤ 207 }
{
    match text.get(i as usize) {
        Some(byte) => byte.saturating_sub(48) as u64,
        None => 0,
    }
}

/// What the two digits from a place on stand for.
fn two_at(text: &[u8], i: u64) -> u64
    requires { i < 10 }
    ensures value { result ≡ two_at text.now i }
    ensures bound { result ≤ 2277 }
{
    digit_at(text, i) * 10 + digit_at(text, i + 1)
}

/// The day with these numbers, where the calendar has it, as the days since 1970. Of other numbers it may tell any day.
fn day_number(year: u64, month: u64, day: u64) -> Option<u64>
    ensures bound { IfSome result (λ days. days ≤ 2932896) }
    ensures read { (days : ℕ) → days ≤ 2932896 → year ≡ (date_of days).year
        → month ≡ (date_of days).month → day ≡ (date_of days).day → result ≡ Some days }
{
    match Date::new(
        year.min(9999) as i16,
        month.min(12) as i8,
        day.min(31) as i8,
    ) {
        Ok(date) => to_days(date),
        Err(_) => None,
    }
}

/// The days since 1970, of a date that is not before.
fn to_days(date: Date) -> Option<u64>
    ensures bound { IfSome result (λ days. days ≤ 2932896) }
    ensures days { (days : ℕ) → epoch_day date ≡ pos days → result ≡ Some days }
{
    let days = date.to_unix_epoch_day();
    if days < 0 {
        return None;
    }
    Some(days as u64)
}

/// The bytes of a path's element; none where there is no such element.
fn element_at(path: &Path, i: u64) -> &[u8]
    ensures { result.now ≡ slice_index_or path.now.elements i [] }
{
    match path.element(i) {
        Some(element) => element.as_bytes(),
        None => b"",
    }
}

/// The day of the moment whose root a path is under.
fn day_of(path: &Path) -> Option<u64>
    ensures bound { IfSome result (λ days. days ≤ 2932896) }
    ensures dated { (time : ℕ) → IsMoment time
        → take 3 path.now.elements ≡ take 3 (moment_elements time) → result ≡ Some (time / 86400) }
    ensures read { IsRead (λ time. time / 86400) path.now result }
{
    let year = element_at(path, 0);
    let month = two_at(element_at(path, 1), 0);
    let day = two_at(element_at(path, 2), 0);
    day_number(two_at(year, 0) * 100 + two_at(year, 2), month, day)
}

/// The second in its day of the moment whose root a path is under.
fn second_of(path: &Path) -> u64
    ensures bound { result ≤ 100000000 }
    ensures read { IsRead (λ time. time % 86400) path.now (Some result) }
{
    let clock = element_at(path, 3);
    two_at(clock, 0) * 3600 + two_at(clock, 2) * 60 + two_at(clock, 4)
}

/// The moment whose root a path is under. Where a path is under none, it may tell any.
pub(crate) fn moment_of(path: &Path) -> Option<u64>
    ensures moment { IfSome result IsMoment }
    ensures read { IsRead (λ time. time) path.now result }
{
    let time = day_of(path)? * 86_400 + second_of(path);
    if time >= 253_402_207_200 {
        return None;
    }
    Some(time)
}

/// Whether the root of the snapshot of a moment may be under a path: by its day, where the path is one of a day.
pub(crate) fn may_bear(path: &Path, time: u64) -> bool
    requires { IsMoment time }
    ensures { (snap_user : UserName) → is_under (shown_root snap_user time) path.now ≡ true
        → result ≡ true }
{
    if path.len() == 3 {
        is_day_of(path, time)
    } else {
        true
    }
}

/// The same of a path with three elements.
fn is_day_of(path: &Path, time: u64) -> bool
    requires moment { IsMoment time }
    requires size { length path.now.elements ≡ 3 }
    ensures { (snap_user : UserName) → is_under (shown_root snap_user time) path.now ≡ true
        → result ≡ true }
{
    match day_of(path) {
        Some(day) => day == time / 86_400,
        None => false,
    }
}
