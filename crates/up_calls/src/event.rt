//! What came of one request.
use up_dir::Fetched;
use up_policy::Loaded;
use up_wire::Reply;

/// What came of one request: the reply; the position, which is the number of records of the log over which it is the answer; what was
/// loaded and fetched for it; and the moment that was handed in, in seconds since 1970.
///
/// A reply for which no log is looked at has position 0. One that tells of want of memory has nothing loaded or fetched, and its
/// position says nothing.
#[derive(Drop)]
pub struct Event {
    pub reply: Reply,
    pub position: u64,
    pub loaded: Loaded,
    pub fetched: Fetched,
    pub moment: u64,
}
