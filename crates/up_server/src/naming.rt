//! The files of a server's logs.
ghost use Rattle.std.specs.Prelude.{◌≡◌, ◌+◌, length, IfOk};

use std::alloc::{AllocError, Global};

/// A log of a server.
#[derive(Clone, Copy, Debug)]
pub(crate) enum Log {
    /// That of the tree at this place, from 0.
    Tree(u64),
    Store,
    Keys,
}

/// The format of a log, by the end of its file's name.
#[derive(Clone, Copy, Debug)]
pub(crate) enum Format {
    /// Of which logs are moved.
    First,
    /// In which logs are opened.
    Second,
}

impl Log {
    /// The log at a place, from 0, among those of a server with so many trees: theirs, that of the store, that of the keys.
    pub fn at(trees: u64, which: u64) -> Log {
        if which < trees {
            Log::Tree(which)
        } else if which == trees {
            Log::Store
        } else {
            Log::Keys
        }
    }

    /// The name of its file.
    pub fn file(self, alloc: Global, format: Format) -> Result<String, AllocError> {
        let ending = match format {
            Format::First => "log",
            Format::Second => "log2",
        };
        match self {
            Log::Tree(place) => format!(in alloc; "tree-{place}.{ending}"),
            Log::Store => format!(in alloc; "store.{ending}"),
            Log::Keys => format!(in alloc; "keys.{ending}"),
        }
    }
}

/// The files of all logs of a server with so many trees, in their order.
pub(crate) fn file_names(
    alloc: Global,
    trees: u64,
    format: Format,
) -> Result<Vec<String>, AllocError>
    ensures { IfOk result (λ names. length names.items ≡ trees + 2) }
{
    let mut names = tree_names(alloc, trees, format)?;
    names.push(Log::Store.file(alloc, format)?)?;
    names.push(Log::Keys.file(alloc, format)?)?;
    Ok(names)
}

// Those of the trees.
fn tree_names(alloc: Global, trees: u64, format: Format) -> Result<Vec<String>, AllocError>
    ensures { IfOk result (λ names. length names.items ≡ trees) }
{
    let mut names = Vec::new(alloc);
    for place in 0..trees {
        names.push(Log::Tree(place).file(alloc, format)?)?;
    }
    Ok(names)
}
