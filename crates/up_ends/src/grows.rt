//! What every state promises that only grows.
ghost use Rattle.std.specs.Prelude.{◌≡◌, ℕ, List, length};

/// A state that only grows: a list of entries, a count of faults, and a part that stays as it was made.
///
/// Each of its calls that takes `&mut self` ensures `OnlyGrows` of `specs/Growing.antt`: the old entries begin
/// the new ones, the count of faults never falls, and the fixed part is what it was.
pub trait Grows {
    /// One entry.
    type Entry;

    /// The part that stays. Clauses see it as part of the state's value, so it is made of types whose value that is.
    type Fixed;

    /// All entries, in order.
    ghost entries: { Self → List Self.Entry };

    /// A count of faults, which never falls.
    ghost faults: { Self → ℕ };

    /// The part that stays.
    ghost fixed: { Self → Self.Fixed };

    /// The number of entries.
    fn length(&self) -> u64
        ensures { result ≡ length (entries self.now) };
}
