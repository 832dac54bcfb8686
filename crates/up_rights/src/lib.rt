//! The five rights that an Access file can grant, and sets of them.
//!
//! [`read_right`] gives exactly the rights that a word of an Access file stands for, and `None` exactly where it is no
//! right; [`Right::word`] and [`Right::from_word`] are exact. A [`RightSet`] has exactly what was put into it (`has`,
//! `with`, `union`, `all`, `empty`, `is_empty`).
#![tactic(auto)]

ghost use Rattle.std.specs.Prelude.{◌≡◌, ◌||◌, not};
ghost use Rattle.up_rights.specs.RightSets.{both_rights, has_any, has_right, with_right, no_rights, all_rights};
ghost use Rattle.up_rights.specs.Words.{long_word, right_named, rights_of};
ghost use Rattle.std.specs.Str.{bytes_eq, str_to_ascii_lowercase};

use std::marker::Model;

/// One of the five rights of the Upspin access control document.
#[derive(Clone, Copy, Debug, PartialEq, Eq, Hash)]
pub enum Right {
    Read,
    Write,
    List,
    Create,
    Delete,
}

impl Right {
    /// The right's long word, in lower case.
    pub fn word(self) -> &'static str
        ensures { result.now ≡ long_word self }
    {
        match self {
            Right::Read => "read",
            Right::Write => "write",
            Right::List => "list",
            Right::Create => "create",
            Right::Delete => "delete",
        }
    }

    /// The right whose long word this is, exactly: in lower case, and no letter. `None` for any other word.
    #[tactic(auto, unfolding(crate::specs::Words::right_named))]
    pub fn from_word(word: &[u8]) -> Option<Right>
        ensures { result ≡ right_named word.now }
    {
        if word == b"read".as_slice() {
            Some(Right::Read)
        } else if word == b"write".as_slice() {
            Some(Right::Write)
        } else if word == b"list".as_slice() {
            Some(Right::List)
        } else if word == b"create".as_slice() {
            Some(Right::Create)
        } else if word == b"delete".as_slice() {
            Some(Right::Delete)
        } else {
            None
        }
    }
}

/// A set of rights.
#[derive(Clone, Copy, Debug, PartialEq, Eq, Hash)]
pub struct RightSet {
    read: bool,
    write: bool,
    list: bool,
    create: bool,
    delete: bool,
}

impl Model for RightSet {
    ghost use Rattle.up_rights.specs.RightSets.{Rights};

    ghost Value = { Rights };

    ghost view = { λ s. record { read = s.read; write = s.write; list = s.list; create = s.create; delete = s.delete } };

    ghost inverse = { λ s. record { read = s.read; write = s.write; list = s.list; create = s.create; delete = s.delete } };
}

impl RightSet {
    /// The set without any right.
    pub fn empty() -> Self
        ensures { result ≡ no_rights }
    {
        RightSet {
            read: false,
            write: false,
            list: false,
            create: false,
            delete: false,
        }
    }

    /// All five rights.
    pub fn all() -> Self
        ensures { result ≡ all_rights }
    {
        RightSet {
            read: true,
            write: true,
            list: true,
            create: true,
            delete: true,
        }
    }

    /// Whether the set has the right.
    pub fn has(self, right: Right) -> bool
        ensures { result ≡ has_right self right }
    {
        match right {
            Right::Read => self.read,
            Right::Write => self.write,
            Right::List => self.list,
            Right::Create => self.create,
            Right::Delete => self.delete,
        }
    }

    /// The set with this right and those that it had.
    pub fn with(self, right: Right) -> Self
        ensures { result ≡ with_right self right }
    {
        let mut set = self;
        match right {
            Right::Read => set.read = true,
            Right::Write => set.write = true,
            Right::List => set.list = true,
            Right::Create => set.create = true,
            Right::Delete => set.delete = true,
        }
        set
    }

    /// The rights of either set.
    pub fn union(self, other: RightSet) -> Self
        ensures { result ≡ both_rights self other }
    {
        RightSet {
            read: self.read || other.read,
            write: self.write || other.write,
            list: self.list || other.list,
            create: self.create || other.create,
            delete: self.delete || other.delete,
        }
    }

    /// Whether the set has no right at all.
    pub fn is_empty(self) -> bool
        ensures { result ≡ not (has_any self) }
    {
        !(self.read || self.write || self.list || self.create || self.delete)
    }
}

/// The rights that a word of an Access file stands for: `read` or `r`, `write` or `w`, `list` or `l`, `create` or `c`,
/// `delete` or `d`, and `*` or `all` for all five, in any case. `None` exactly where the word is no right.
#[tactic(auto, unfolding(crate::specs::Words::rights_of))]
pub fn read_right(word: &[u8]) -> Option<RightSet>
    ensures { result ≡ rights_of word.now }
{
    if is_word_for(word, b"read", b"r") {
        Some(RightSet::empty().with(Right::Read))
    } else if is_word_for(word, b"write", b"w") {
        Some(RightSet::empty().with(Right::Write))
    } else if is_word_for(word, b"list", b"l") {
        Some(RightSet::empty().with(Right::List))
    } else if is_word_for(word, b"create", b"c") {
        Some(RightSet::empty().with(Right::Create))
    } else if is_word_for(word, b"delete", b"d") {
        Some(RightSet::empty().with(Right::Delete))
    } else if is_word_for(word, b"*", b"all") {
        Some(RightSet::all())
    } else {
        None
    }
}

/// Whether a word is one of two, its case ignored.
fn is_word_for(word: &[u8], first: &[u8], second: &[u8]) -> bool
    requires first_lower { str_to_ascii_lowercase first.now ≡ first.now }
    requires second_lower { str_to_ascii_lowercase second.now ≡ second.now }
    ensures { result ≡ (bytes_eq (str_to_ascii_lowercase word.now) first.now
        || bytes_eq (str_to_ascii_lowercase word.now) second.now) }
{
    word.eq_ignore_ascii_case(first) || word.eq_ignore_ascii_case(second)
}
