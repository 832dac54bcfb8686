//! Paths.
ghost use Rattle.std.specs.Prelude.{◌≡◌, ◌≤◌, ◌<◌, ◌+◌, ◌-◌, [], ◌∷◌, ◌++◌, if◌then◌else◌, true, length, nat_lt, IfOk, OnOk, OnErr, Ok, slice_get, refl};
ghost use Rattle.std.specs.Option.{option_copied};
ghost use Rattle.std.specs.String.{string_bytes, string_capacity, string_len};
ghost use Rattle.std.specs.Str.{byte};
ghost use Rattle.up_names.specs.Faults.{Gives};
ghost use Rattle.std.specs.Ordering.{as_partial_cmp};
ghost use Rattle.std.specs.Hash as fed;
ghost use Rattle.up_names.specs.PathNames.{canonical, control_of, cut, ends_in_access, extended, is_in_group, is_name, is_under, joined, parent_of, path_of};
ghost use Rattle.up_names.specs.PathOrder.{path_cmp, path_eq};
ghost use Rattle.up_names.specs.PathParts.{begin_of};
ghost use Rattle.up_names.specs.PathOrderLaws.{path_cmp_eq, path_cmp_total, path_eq_equivalence, path_eq_partial, path_hash, path_partial_order};

use crate::fault::NameFault;
use crate::path_parts::{MAX_LEN, behind_owner, is_name, parse_path, take_pieces};
use crate::users::User;
use smallvec::SmallVec;
use std::alloc::AllocError;
use std::cmp::Ordering;
use std::hash::{Hash, Hasher};
use std::marker::Model;

/// What kind of file a path is for.
#[derive(Clone, Copy, Debug, PartialEq, Eq)]
pub enum Control {
    /// Any other.
    Ordinary,
    /// An Access file: the last element is `Access`.
    Access,
    /// A Group file: no Access file, and below the root's `Group`.
    Group,
}

/// A path: its owner and its elements, in canonical form. It is kept as its canonical text, in which each element is a
/// slice.
#[derive(Debug, Drop)]
pub struct Path {
    owner: User,
    text: String,
    /// Where each element ends in the text, which is at most at 4,096; the next begins behind the slash there. Most paths have few
    /// elements: up to eight places take no memory of their own.
    ends: SmallVec<u16, 8>,
}

impl Model for Path {
    ghost use Rattle.up_names.specs.PathNames.{PathName};
    ghost use Rattle.up_names.specs.PathOrder.{coded_path};

    ghost Value = { PathName };

    ghost coded = { coded_path };

    ghost use Rattle.std.specs.String.{string_bytes};
    ghost use Rattle.up_names.specs.PathParts.{IsKept, read_off};

    ghost view = { λ path. read_off path.owner (string_bytes path.text) };

    ghost invariant = { λ path. IsKept path.owner (string_bytes path.text) path.ends.items };
}

impl Path {
    /// The root of an owner's tree.
    pub fn root(owner: User) -> Result<Path, AllocError>
        ensures { IfOk result (λ path. path ≡ record { owner = owner; elements = [] }) }
    {
        let room = owner.text().len() + 1;
        Path::with_room(owner, room)
    }

    /// The root of an owner's tree, with room for a text of that many bytes.
    pub(crate) fn with_room(owner: User, room: usize) -> Result<Path, AllocError>
        ensures { IfOk result (λ path. path ≡ record { owner = owner; elements = [] }) }
    {
        let alloc = owner.allocator();
        let mut text = String::with_capacity(alloc, room)?;
        text.push_str(owner.text())?;
        text.push('/')?;
        Ok(Path {
            owner,
            text,
            ends: SmallVec::new(alloc),
        })
    }

    /// Reads the path that a text names into this one, in the memory that it has. The fault is that of
    /// [`parse_path`](crate::parse_path).
    ///
    /// The owner is not parsed again where the text begins with the one that this path has. An `Err` leaves the root of
    /// that owner.
    pub fn read(&mut self, text: &[u8]) -> Result<(), NameFault>
        ensures read { Gives (λ _. self.new) result (path_of text.now) }
        ensures root { OnErr result (self.new ≡ cut 0 self.old) }
    {
        let read = self.try_read(text);
        if read.is_err() {
            self.drop_all();
        }
        read
    }

    /// The same, but that an `Err` leaves some path of the owner.
    #[tactic(auto, unfolding(crate::specs::PathNames::path_of))]
    fn try_read(&mut self, text: &[u8]) -> Result<(), NameFault>
        ensures read { Gives (λ _. self.new) result (path_of text.now) }
        ensures owner { OnErr result (self.new.owner ≡ self.old.owner) }
    {
        if text.len() > MAX_LEN {
            return Err(NameFault::TooLong(text.len() as u64));
        }
        match behind_owner(&self.owner, text) {
            Some(pieces) => {
                self.drop_all();
                take_pieces(self, pieces, text.len() - pieces.len())
            }
            None => self.replace(text),
        }
    }

    /// Takes the place of the path, where the text names one.
    fn replace(&mut self, text: &[u8]) -> Result<(), NameFault>
        ensures read { Gives (λ _. self.new) result (path_of text.now) }
        ensures unchanged { OnErr result (self.new ≡ self.old) }
    {
        *self = parse_path(self.owner.allocator(), text)?;
        Ok(())
    }

    /// Drops all elements, in place and without memory.
    fn drop_all(&mut self)
        ensures { self.new ≡ cut 0 self.old }
    {
        let root = self.front_len(0);
        self.text.truncate(root);
        self.ends.truncate(0);
    }

    /// The owner.
    pub fn owner(&self) -> &User
        ensures { result.now ≡ self.now.owner }
    {
        &self.owner
    }

    /// The number of elements, 0 at a root.
    pub fn len(&self) -> u64
        ensures { result ≡ length self.now.elements }
    {
        self.ends.len() as u64
    }

    /// The canonical text: the owner, `/`, and the elements joined by `/`; so a root ends with `/`.
    pub fn as_str(&self) -> &str
        ensures text { result.now ≡ canonical self.now }

        // The text parses to this path.
        ensures again { path_of (canonical self.now) ≡ Ok self.now }
    {
        self.text.as_str()
    }

    /// The canonical text, in memory of its own.
    pub fn text(&self) -> Result<String, AllocError>
        ensures text { IfOk result (λ text. string_bytes text ≡ canonical self.now) }

        // The text parses to this path.
        ensures again { path_of (canonical self.now) ≡ Ok self.now }
    {
        self.text.clone()
    }

    /// The canonical text of the first `n` elements, which is a front of the path's own; so `front(0)` is that of the root.
    pub fn front(&self, n: u64) -> &str
        requires { n ≤ length self.now.elements }
        ensures text { result.now ≡ canonical (cut n self.now) }

        // The texts parse to these paths.
        ensures again { path_of (canonical self.now) ≡ Ok self.now }
        ensures front_again { path_of (canonical (cut n self.now)) ≡ Ok (cut n self.now) }
    {
        let end = self.front_len(n as usize);
        &self.text[..end]
    }

    /// The canonical text, in the memory that the path had.
    pub fn into_text(self) -> String
        ensures text { string_bytes result ≡ canonical self }

        // The text parses to this path.
        ensures again { path_of (canonical self) ≡ Ok self }
    {
        self.text
    }

    /// The element at place `i`, from 0, or `None` exactly where `i` is at least the length.
    pub fn element(&self, i: u64) -> Option<&str>
        ensures { option_copied result ≡ slice_get self.now.elements i }
    {
        if i >= self.len() {
            return None;
        }
        let begin = self.begin_of(i as usize);
        let end = self.front_len(i as usize + 1);
        Some(&self.text[begin..end])
    }

    /// Drops the last element, in place and without memory. It answers whether there was one.
    pub fn drop_last(&mut self) -> bool
        ensures last { self.new ≡ cut (length self.old.elements - 1) self.old }
        ensures was { result ≡ nat_lt 0 (length self.old.elements) }
    {
        let len = self.ends.len();
        if len == 0 {
            return false;
        }
        let front = self.front_len(len - 1);
        self.text.truncate(front);
        self.ends.truncate(len - 1);
        true
    }

    /// Keeps the first `n` elements, in place and without memory.
    pub fn shorten(&mut self, n: u64)
        requires { n ≤ length self.old.elements }
        ensures { self.new ≡ cut n self.old }
    {
        let front = self.front_len(n as usize);
        self.text.truncate(front);
        self.ends.truncate(n as usize);
    }

    /// The path without its last element, or `None` exactly at a root.
    pub fn parent(&self) -> Result<Option<Path>, AllocError>
        ensures { IfOk result (λ parent. parent ≡ parent_of self.now) }
    {
        if self.ends.is_empty() {
            return Ok(None);
        }
        let mut parent = self.clone()?;
        parent.drop_last();
        Ok(Some(parent))
    }

    /// The path with the element at its end.
    ///
    /// The fault is `Element(0)` where the element is empty, `.`, `..` or no element, and else `TooLong`, with the
    /// length that the canonical text would have, where that passes 4,096.
    #[tactic(auto, unfolding(crate::specs::PathNames::joined))]
    pub fn join(&self, element: &str) -> Result<Path, NameFault>
        ensures { Gives (λ path. path) result (joined self.now element.now) }
    {
        if !is_name(element) {
            return Err(NameFault::Element(0));
        }
        let len = self.len_with(element);
        if len > MAX_LEN {
            return Err(NameFault::TooLong(len as u64));
        }
        let mut path = self.clone()?;
        path.add(element)?;
        Ok(path)
    }

    /// Whether the path is `other` or stands under it: their owners are the same, and the elements of `other` are the
    /// first of this path. It takes no memory.
    #[tactic(auto, using(crate::proofs::PathComparisons::under_by_texts))]
    pub fn is_under(&self, other: &Path) -> bool
        ensures { result ≡ is_under self.now other.now }
    {
        let len = other.len();
        len <= self.len() && self.front(len) == other.as_str()
    }

    /// What kind of file the path is for. It takes no memory.
    pub fn control_kind(&self) -> Control
        ensures { result ≡ control_of self.now }
    {
        if self.ends_in_access() {
            Control::Access
        } else if self.is_in_group() {
            Control::Group
        } else {
            Control::Ordinary
        }
    }

    /// Whether the last element is `Access`.
    fn ends_in_access(&self) -> bool
        ensures { result ≡ ends_in_access self.now }
    {
        let len = self.len();
        if len == 0 {
            return false;
        }
        match self.element(len - 1) {
            Some(last) => last == "Access",
            None => false,
        }
    }

    /// Whether there are at least two elements, the first of which is `Group`.
    pub(crate) fn is_in_group(&self) -> bool
        ensures { result ≡ is_in_group self.now }
    {
        if self.len() < 2 {
            return false;
        }
        match self.element(0) {
            Some(first) => first == "Group",
            None => false,
        }
    }

    /// How many bytes the canonical text of the first `n` elements has.
    fn front_len(&self, n: usize) -> usize
        requires { n ≤ length self.now.elements }
        ensures end { result ≡ length (canonical (cut n self.now)) }
        ensures short { result ≤ 4096 }
    {
        match n {
            0 => self.owner.text().len() + 1,
            _ => self.ends.as_slice()[n - 1] as usize,
        }
    }

    /// How many bytes the canonical text would have with the element at the end.
    fn len_with(&self, element: &str) -> usize
        ensures { result ≡ length (canonical (extended self.now element.now)) }
    {
        self.text.len() + usize::from(!self.ends.is_empty()) + element.len()
    }

    /// Where the element at place `i` begins in the canonical text.
    fn begin_of(&self, i: usize) -> usize
        requires { i < length self.now.elements }
        ensures { result ≡ begin_of i self.now }
    {
        match i {
            0 => self.front_len(0),
            _ => self.front_len(i) + 1,
        }
    }

    /// Adds an element at the end. An `Err` leaves the path as it was.
    pub(crate) fn add(&mut self, element: &str) -> Result<(), AllocError>
        requires named { is_name element.now ≡ true }
        requires fits { length (canonical (extended self.old element.now)) ≤ 4096 }
        ensures added { OnOk result (self.new ≡ extended self.old element.now) }
        ensures unchanged { OnErr result (self.new ≡ self.old) }
    {
        let below_root = !self.ends.is_empty();
        self.ends.reserve(1)?;
        self.text.reserve(usize::from(below_root) + element.len())?;
        push_element(&mut self.text, below_root, element);
        self.ends.push_reserved(self.text.len() as u16);
        Ok(())
    }
}

/// Adds an element to a text that has room for it, and below the root a slash before it.
fn push_element(text: &mut String, below_root: bool, element: &str)
    requires { string_len text.old + ((if below_root then 1 else 0) + length element.now)
        ≤ string_capacity text.old }
    ensures { string_bytes text.new
        ≡ (if below_root then string_bytes text.old ++ byte "/" ∷ [] else string_bytes text.old)
        ++ element.now }
{
    if below_root {
        text.push('/').unwrap();
    }
    text.push_str(element).unwrap();
}

impl PartialEq for Path {
    ghost eq = { path_eq };

    ghost laws = { path_eq_partial };

    fn eq(&self, other: &Path) -> bool {
        self.text == other.text
    }
}

impl Eq for Path {
    ghost laws = { path_eq_equivalence };
}

impl PartialOrd for Path {
    ghost partial_cmp = { as_partial_cmp path_cmp };

    ghost laws = { path_partial_order };

    fn partial_cmp(&self, other: &Path) -> Option<Ordering> {
        Some(self.cmp(other))
    }
}

/// By the bytes of the canonical texts.
impl Ord for Path {
    ghost cmp = { path_cmp };

    ghost total = { path_cmp_total };

    ghost matches_partial_cmp = { λ _ _. refl };

    ghost matches_eq = { path_cmp_eq };

    fn cmp(&self, other: &Path) -> Ordering {
        self.text.cmp(&other.text)
    }
}

impl Hash for Path {
    ghost hash_input = { λ path. fed.str (canonical path) };

    ghost respects_eq = { path_hash };

    fn hash<H: Hasher>(&self, state: &mut H) {
        self.text.hash(state);
    }
}

impl Clone for Path {
    ghost is_clone = { λ path copy. copy ≡ path };

    fn clone(&self) -> Result<Path, AllocError> {
        Ok(Path {
            owner: self.owner.clone()?,
            text: self.text.clone()?,
            ends: SmallVec::from_slice(*self.ends.allocator(), self.ends.as_slice())?,
        })
    }
}
