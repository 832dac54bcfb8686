//! Why hosts, and the trees of one, do not fit together. Only what is said of a line depends on this.
use crate::hosts::{has_host, has_tree};
use std::alloc::Global;
use up_explain_can::{Flaw, Why, bad_word};
use up_names::User;
use up_policy::owns_snapshots;
use up_script_lines::NewHost;

/// How many trees a host may have.
const MOST_TREES: usize = 8;

/// Why a host that is not new does not fit behind these.
pub(crate) fn host_flaw(alloc: Global, hosts: &[NewHost], host: &NewHost) -> Why {
    let name = host.name.as_str();
    if has_host(hosts, name) {
        return bad_word(alloc, name.as_bytes(), Flaw::HostKnown);
    }
    for owner in host.owners.as_slice() {
        if has_tree(hosts, owner) {
            return bad_word(alloc, owner.text().as_bytes(), Flaw::TreeKnown);
        }
    }
    Why::Line(Flaw::NinthHost)
}

/// Tells why these are not the owners of one host's trees, if they are not.
pub(crate) fn judge_owners(alloc: Global, owners: &[User]) -> Result<(), Why> {
    if owners.len() > MOST_TREES {
        return Err(Why::Line(Flaw::NinthTree));
    }
    for owner in owners {
        if owns_snapshots(owner) {
            return Err(bad_word(alloc, owner.text().as_bytes(), Flaw::SnapshotTree));
        }
    }
    match twice(owners) {
        Some(owner) => Err(bad_word(alloc, owner.text().as_bytes(), Flaw::TreeTwice)),
        None => Ok(()),
    }
}

/// The first of these users that stands again behind its place.
fn twice(users: &[User]) -> Option<&User> {
    let mut left = users;
    while let Some((first, rest)) = left.split_first() {
        if rest.contains(first) {
            return Some(first);
        }
        left = rest;
    }
    None
}
