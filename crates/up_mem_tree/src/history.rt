//! The texts that a control file had, as they changed.
ghost use Rattle.std.specs.Prelude.{◌≡◌, ◌≤◌, ℕ, None, true, IfSome, MatchOption};
ghost use Rattle.std.specs.Option.{option_copied};
ghost use Rattle.up_mem_tree.specs.Histories.{are_rising, found};

/// What a record made of a control file: its parsed text, or none once it is gone.
#[derive(Drop)]
pub(crate) struct Change<T> {
    pub(crate) position: u64,
    pub(crate) text: Option<T>,
}

/// The last change among the first `n` records: it tells the text after any number of them that is not below its position. It is found
/// by bisection.
fn last_at<T>(changes: &[Change<T>], n: u64, last: u64) -> Option<&Change<T>>
    requires { are_rising last changes.now ≡ true }
    ensures early { IfSome result (λ change. change.now.position ≤ n) }
    ensures told { (m : ℕ) → m ≤ n → MatchOption result (found m changes.now ≡ None)
        (λ change. change.now.position ≤ m → change.now.text ≡ found m changes.now) }
{
    let mut low = 0;
    let mut high = changes.len();
    while low < high {
        let middle = low + (high - low) / 2;
        if changes[middle].position <= n {
            low = middle + 1;
        } else {
            high = middle;
        }
    }
    if low == 0 {
        return None;
    }
    Some(&changes[low - 1])
}

/// The text after the first `n` records: that of the last change among them.
pub(crate) fn text_at<T>(changes: &[Change<T>], n: u64, last: u64) -> Option<&T>
    requires { are_rising last changes.now ≡ true }
    ensures { option_copied result ≡ found n changes.now }
{
    match last_at(changes, n, last) {
        Some(change) => change.text.as_ref(),
        None => None,
    }
}

/// Whether no change stands between the first `m` records and the first `n`. Then the text after both is the same.
pub(crate) fn stays<T>(changes: &[Change<T>], m: u64, n: u64, last: u64) -> bool
    requires rising { are_rising last changes.now ≡ true }
    requires order { m ≤ n }
    ensures { result ≡ true → found m changes.now ≡ found n changes.now }
{
    match last_at(changes, n, last) {
        Some(change) => change.position <= m,
        None => true,
    }
}
