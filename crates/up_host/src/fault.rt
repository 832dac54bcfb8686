//! Why a host was not opened.
use up_disk::Disks;
use up_journal::OpenWhy;

/// A host that was not opened hands all its disks back, in their order.
#[derive(Drop)]
pub struct HostFault<D> {
    pub disks: Disks<D>,
    /// The place, from 0, of the first disk that was refused; 0 for want of memory.
    pub which: u64,
    pub why: OpenWhy,
}
