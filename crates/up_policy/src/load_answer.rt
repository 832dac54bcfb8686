//! What loads give.
use up_group::GroupText;

/// What the load of one group's text gave.
#[derive(Debug, Drop)]
pub enum LoadAnswer {
    /// The group's text.
    Text(GroupText),
    /// Nobody serves the group, or it was not given.
    Missing,
    /// The text does not parse: the number of its first bad line, from 1.
    BadText(u64),
    /// Whoever was asked failed.
    Failed,
}
