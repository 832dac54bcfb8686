//! A session that is open.

use up_sign::Session;

/// A session that is open: the place of its host, from 0, and who has signed on there.
#[derive(Drop)]
pub struct Opened {
    pub place: usize,
    pub session: Session,
}
