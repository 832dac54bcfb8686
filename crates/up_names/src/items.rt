//! The names in Access and Group texts.
ghost use Rattle.std.specs.Prelude.{◌≡◌, ◌≤◌, ◌&&◌, ◌++◌, codes, length, IfOk, IsTrue};
ghost use Rattle.std.specs.Str.{bytes_eq, str_to_ascii_lowercase};
ghost use Rattle.up_names.specs.ItemNames.{domain_item, group_item, has_owner, has_slash, is_domain_name, is_everyone, item_of, names_user, user_item};
ghost use Rattle.up_names.specs.PathNames.{path_of};
ghost use Rattle.up_names.specs.UserNames.{domain_of, user_of};

use crate::cuts::cut;
use crate::domains::{Domain, parse_domain};
use crate::fault::NameFault;
use crate::path_parts::parse_path;
use crate::paths::Path;
use crate::users::{User, parse_user, without_final_period};
use std::alloc::{AllocError, Global};

/// Whom a name in an Access or Group text stands for.
#[derive(Clone, Debug, Drop, PartialEq, Eq)]
pub enum Item {
    /// Every user.
    Everyone,
    /// Every user of exactly this domain, with a suffix or without.
    Domain(Domain),
    /// This user.
    User(User),
    /// The members of this group: a path of at least two elements, the first of which is `Group`.
    Group(Path),
}

/// Whom a name stands for in a text of this owner's tree, `None` exactly where the name is bad.
///
/// Everyone is `all` in any case, or any spelling of the user `all@upspin.io`. `*@` and a domain, without a slash, is
/// every user of that domain. With an `@` before the first slash the name is a user, or with a slash a group. Any other
/// name is short for the owner's group `owner/Group/name`.
#[tactic(auto, unfolding(crate::specs::ItemNames::item_of))]
pub fn parse_item(owner: &User, name: &[u8]) -> Result<Option<Item>, AllocError>
    ensures { IfOk result (λ found. found ≡ item_of owner.now name.now) }
{
    if is_everyone(name) {
        return Ok(Some(Item::Everyone));
    }
    let alloc = owner.allocator();
    if is_domain_name(name) {
        return domain_item(alloc, &name[2..]);
    }
    if !has_owner(name) {
        return short_group_item(owner, name);
    }
    if has_slash(name) {
        return group_item(alloc, name);
    }
    user_item(alloc, name)
}

fn domain_item(alloc: Global, text: &[u8]) -> Result<Option<Item>, AllocError>
    ensures { IfOk result (λ found. found ≡ domain_item (domain_of text.now)) }
{
    match parse_domain(alloc, text)? {
        Some(domain) => Ok(Some(Item::Domain(domain))),
        None => Ok(None),
    }
}

fn user_item(alloc: Global, text: &[u8]) -> Result<Option<Item>, AllocError>
    ensures { IfOk result (λ found. found ≡ user_item (user_of text.now)) }
{
    match parse_user(alloc, text) {
        Ok(user) => Ok(Some(Item::User(user))),
        Err(NameFault::OutOfMemory) => Err(AllocError),
        Err(_) => Ok(None),
    }
}

fn group_item(alloc: Global, text: &[u8]) -> Result<Option<Item>, AllocError>
    ensures { IfOk result (λ found. found ≡ group_item (path_of text.now)) }
{
    match parse_path(alloc, text) {
        Ok(path) => {
            if path.is_in_group() {
                Ok(Some(Item::Group(path)))
            } else {
                Ok(None)
            }
        }
        Err(NameFault::OutOfMemory) => Err(AllocError),
        Err(_) => Ok(None),
    }
}

/// The group of the owner that a short name stands for.
#[tactic(auto, unfolding(crate::specs::PathNames::path_of))]
fn short_group_item(owner: &User, name: &[u8]) -> Result<Option<Item>, AllocError>
    ensures { IfOk result (λ found. found
        ≡ group_item (path_of (owner.now ++ codes "/Group/" ++ name.now))) }
{
    // Too long for a path whoever the owner is, and then not worth a copy.
    if name.len() > 4096 {
        return Ok(None);
    }
    let front = owner.text().as_bytes();
    let mut text = Vec::with_capacity(owner.allocator(), front.len() + 7 + name.len())?;
    text.extend_from_slice(front)?;
    text.extend_from_slice(b"/Group/")?;
    text.extend_from_slice(name)?;
    group_item(owner.allocator(), text.as_slice())
}

#[tactic(auto, unfolding(crate::specs::ItemNames::is_everyone))]
fn is_everyone(name: &[u8]) -> bool
    ensures { result ≡ is_everyone name.now }
{
    is_in_any_case(name, b"all") || names_user_all(name)
}

/// Whether a text names the user `all@upspin.io`.
#[tactic(auto, using(crate::proofs::ItemLemmas::user_all))]
fn names_user_all(name: &[u8]) -> bool
    ensures { result ≡ names_user (user_of name.now) (codes "all@upspin.io") }
{
    match cut(without_final_period(name), b'@') {
        (local, Some(domain)) => is_user_all(local, domain),
        (_, None) => false,
    }
}

fn is_user_all(local: &[u8], domain: &[u8]) -> bool
    ensures { result ≡ (bytes_eq local.now (codes "all")
        && bytes_eq (str_to_ascii_lowercase domain.now) (codes "upspin.io")) }
{
    local == b"all".as_slice() && is_in_any_case(domain, b"upspin.io")
}

fn is_in_any_case(text: &[u8], lower: &[u8]) -> bool
    requires { str_to_ascii_lowercase lower.now ≡ lower.now }
    ensures { result ≡ bytes_eq (str_to_ascii_lowercase text.now) lower.now }
{
    text.eq_ignore_ascii_case(lower)
}

fn is_domain_name(name: &[u8]) -> bool
    ensures value { result ≡ is_domain_name name.now }
    ensures long { IsTrue result → 2 ≤ length name.now }
{
    name.starts_with(b"*@") && !has_slash(name)
}

fn has_slash(name: &[u8]) -> bool
    ensures { result ≡ has_slash name.now }
{
    name.contains(&b'/')
}

fn has_owner(name: &[u8]) -> bool
    ensures { result ≡ has_owner name.now }
{
    let (front, _) = cut(name, b'/');
    front.contains(&b'@')
}
