//! What the rule knows of a seat.
use std::collections::LinkedList;

/// What the rule knows of a seat. No value of it is made.
pub struct View<E, F> {
    /// The entries, as far as they were seen.
    pub seen: LinkedList<E>,
    /// The count that was loaded last.
    pub floor: u64,
    /// How often the count was loaded.
    pub looks: u64,
    /// The positions of the entries that were added through this seat.
    pub own: LinkedList<u64>,
    /// By how much the state's count of faults rose in its turns.
    pub failed: u64,
    /// The number of entries when the cell was made.
    pub base: u64,
    /// The part of the state that stays, or none where the share is 0.
    pub fixed: Option<F>,
    /// The share is part / 2 ^ halvings.
    pub part: u64,
    pub halvings: u64,
    /// Whether it has the turn.
    pub turn: bool,
    /// The state's count of faults when the turn was taken.
    pub was: u64,
    /// What two seats had seen, between the two steps that join them.
    pub olds: LinkedList<LinkedList<E>>,
}
