//! What stands at a path, where it lies in memory.
ghost use Rattle.std.specs.Prelude.{◌≡◌, option_map};
ghost use Rattle.std.specs.Option.{option_copied};
ghost use Rattle.up_log_tree.specs.Changes.{record_at};
ghost use Rattle.up_mem_tree.specs.Nodes.{node_of, put_by};

use up_bytes::Bytes;
use up_entry::{Entry, Rec};

/// An item of a tree, in the record that has put it: its entry and, for a control file, its text.
#[derive(Clone, Copy)]
pub struct NodeRef<'a> {
    pub entry: &'a Entry,
    pub text: &'a Bytes,
}

/// Record `n` of a log, from 1, or `None` exactly where there is none.
pub(crate) fn record_at(log: &[Rec], n: u64) -> Option<&Rec>
    ensures { option_copied result ≡ record_at log.now n }
{
    if n == 0 {
        return None;
    }
    log.get(n as usize - 1)
}

/// The item that a record has put.
pub fn put_by(rec: Option<&Rec>) -> Option<NodeRef<'_>>
    ensures { option_map node_of result ≡ put_by (option_copied rec.entry) }
{
    match rec {
        Some(Rec::Put(entry, text)) => Some(NodeRef { entry, text }),
        Some(Rec::Delete(_)) | Some(Rec::Snap(_)) | None => None,
    }
}
