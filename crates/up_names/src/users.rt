//! Users.
ghost use Rattle.std.specs.Prelude.{◌≡◌, ◌≤◌, ◌+◌, ◌||◌, Ok, IfOk, OnOk, OnErr, [], ◌∷◌, ◌++◌, count_by, length, vec_capacity};
ghost use Rattle.std.proofs.Common.{rules};
ghost use Rattle.std.specs.Cmp.{partial_order_from_own_ties};
ghost use Rattle.std.specs.Cmp.Rules.{comparing, hashing};
ghost use Rattle.std.specs.Cmp.Lexicographic.{slice_cmp};
ghost use Rattle.std.specs.Ordering.{nat_cmp, as_partial_cmp};
ghost use Rattle.std.specs.Hash as fed;
ghost use Rattle.std.specs.List.{list_all};
ghost use Rattle.std.specs.Option.{option_copied};
ghost use Rattle.std.specs.Str.{byte, bytes_eq, str_to_ascii_lowercase};
ghost use Rattle.up_names.specs.Faults.{Gives};
ghost use Rattle.up_names.specs.UserNames.{user_of, without_final_period, is_local_part, is_suffix, is_name_byte, is_period, is_at, name_part, suffix_in, domain_part, suffix_of, base_of};

use crate::cuts::cut;
use crate::domains::is_domain_in_any_case;
use crate::fault::NameFault;
use std::alloc::{AllocError, Global};
use std::cmp::Ordering;
use std::hash::{Hash, Hasher};
use std::marker::Model;
use std::mem;

/// A user by its canonical name: a local part, perhaps `+` and a suffix, then `@` and a domain in lower case without a
/// final period; at most 254 bytes. A user with a suffix is a user of its own.
#[derive(Debug, Drop)]
pub struct User {
    text: String,
}

impl Model for User {
    ghost use Rattle.std.specs.Prelude.{◌≡◌, ℕ, List, Ok};
    ghost use Rattle.std.specs.String.{string_bytes};
    ghost use Rattle.up_names.specs.UserNames.{user_of};

    ghost Value = { List ℕ };

    ghost view = { λ user. string_bytes user.text };

    ghost invariant = { λ user. user_of (string_bytes user.text) ≡ Ok (string_bytes user.text) };
}

impl User {
    /// The allocator that the name was made with.
    pub fn allocator(&self) -> Global
        ensures canonical { user_of self.now ≡ Ok self.now }
    {
        *self.text.allocator()
    }

    /// The canonical name.
    pub fn text(&self) -> &str
        ensures value { result.now ≡ self.now }
        ensures canonical { user_of self.now ≡ Ok self.now }
    {
        self.text.as_str()
    }

    /// Reads the user that a text names into this one, in the memory that it has. The fault is that of [`parse_user`]. An
    /// `Err` changes nothing.
    pub fn read(&mut self, text: &[u8]) -> Result<(), NameFault>
        ensures read { Gives (λ _. self.new) result (user_of text.now) }
        ensures unchanged { OnErr result (self.new ≡ self.old) }
    {
        let (name, domain) = accepted_parts(text)?;
        self.set(name, domain)?;
        Ok(())
    }

    /// Becomes the user of a name part and a domain in any case, in the memory that it has. An `Err` changes nothing.
    fn set(&mut self, name: &[u8], domain: &[u8]) -> Result<(), AllocError>
        requires { user_of (name.now ++ byte "@" ∷ str_to_ascii_lowercase domain.now)
            ≡ Ok (name.now ++ byte "@" ∷ str_to_ascii_lowercase domain.now) }
        ensures set { OnOk result
            (self.new ≡ name.now ++ byte "@" ∷ str_to_ascii_lowercase domain.now) }
        ensures unchanged { OnErr result (self.new ≡ self.old) }
    {
        self.text.reserve(name.len() + 1 + domain.len())?;
        let alloc = *self.text.allocator();
        let mut bytes = mem::replace(&mut self.text, String::new(alloc)).into_bytes();
        bytes.clear();
        write_joined(&mut bytes, name, domain);
        self.text = String::from_utf8(bytes).unwrap();
        Ok(())
    }

    /// The domain, behind the `@`.
    pub fn domain(&self) -> &str
        ensures { result.now ≡ domain_part self.now }
    {
        match self.text.split_once('@') {
            Some((_, domain)) => domain,
            None => "",
        }
    }

    /// The suffix, between `+` and `@`, where there is one.
    pub fn suffix(&self) -> Option<&str>
        ensures { option_copied result ≡ suffix_of self.now }
    {
        suffix_in(name_part(&self.text))
    }

    /// The user without its suffix; a user without one is its own base.
    pub fn base(&self) -> Result<User, AllocError>
        ensures { IfOk result (λ base. base ≡ base_of self.now) }
    {
        let (name, domain) = parts_of(self.text.as_bytes());
        let (local, _) = cut(name, b'+');
        user_from_parts(self.allocator(), local, domain)
    }
}

impl PartialEq for User {
    ghost eq = { bytes_eq };

    ghost laws = { Prim.search (comparing, rules) };

    fn eq(&self, other: &User) -> bool {
        self.text == other.text
    }
}

impl Eq for User {
    ghost laws = { Prim.search (comparing, rules) };
}

impl PartialOrd for User {
    ghost partial_cmp = { as_partial_cmp (slice_cmp nat_cmp) };

    ghost laws = { partial_order_from_own_ties (Prim.search (comparing, rules)) (Prim.search (comparing, rules)) };

    fn partial_cmp(&self, other: &User) -> Option<Ordering> {
        Some(self.cmp(other))
    }
}

/// By the bytes of the canonical names.
impl Ord for User {
    ghost cmp = { slice_cmp nat_cmp };

    ghost total = { Prim.search (comparing, rules) };

    ghost matches_partial_cmp = { Prim.search (comparing, rules) };

    ghost matches_eq = { Prim.search (comparing, rules) };

    fn cmp(&self, other: &User) -> Ordering {
        self.text.cmp(&other.text)
    }
}

impl Hash for User {
    ghost hash_input = { λ user. fed.str user };

    ghost respects_eq = { Prim.search (hashing, rules) };

    fn hash<H: Hasher>(&self, state: &mut H) {
        self.text.hash(state);
    }
}

impl Clone for User {
    ghost is_clone = { λ user copy. copy ≡ user };

    fn clone(&self) -> Result<User, AllocError> {
        Ok(User {
            text: self.text.clone()?,
        })
    }
}

/// The user that a text names. One final period of the text is dropped, and upper case in the domain lowered.
///
/// The first fault that fits: over 254 bytes without the final period, a number of `@` other than one, then the local
/// part (1 to 64 of `A-Z a-z 0-9 . _ -`), the suffix (1 to 32 of `A-Z a-z 0-9 _ -`) and the domain (at least two labels
/// between periods, each 1 to 63 of `a-z 0-9 -` with no `-` at either end, the last at least 2 long).
#[tactic(auto, unfolding(crate::specs::UserNames::user_of))]
pub fn parse_user(alloc: Global, text: &[u8]) -> Result<User, NameFault>
    ensures { Gives (λ user. user) result (user_of text.now) }
{
    let (name, domain) = accepted_parts(text)?;
    Ok(user_from_parts(alloc, name, domain)?)
}

/// The name part and the domain, in any case, of a text that names a user.
#[tactic(auto, unfolding(crate::specs::UserNames::user_of))]
fn accepted_parts(text: &[u8]) -> Result<(&[u8], &[u8]), NameFault>
    ensures { Gives (λ parts. parts.0.now ++ byte "@" ∷ str_to_ascii_lowercase parts.1.now) result
        (user_of text.now) }
{
    let user = without_final_period(text);
    if user.len() > 254 {
        return Err(NameFault::TooLong(user.len() as u64));
    }
    let at_signs = count_at_signs(user);
    if at_signs != 1 {
        return Err(NameFault::AtSigns(at_signs));
    }
    let (name, domain) = parts_of(user);
    let (local, suffix) = cut(name, b'+');
    if !is_local_part(local) {
        return Err(NameFault::Local);
    }
    if let Some(suffix) = suffix
        && !is_suffix(suffix)
    {
        return Err(NameFault::Suffix);
    }
    if !is_domain_in_any_case(domain) {
        return Err(NameFault::Domain);
    }
    Ok((name, domain))
}

/// The user of a name part and a domain in any case.
fn user_from_parts(alloc: Global, name: &[u8], domain: &[u8]) -> Result<User, AllocError>
    requires { user_of (name.now ++ byte "@" ∷ str_to_ascii_lowercase domain.now)
        ≡ Ok (name.now ++ byte "@" ∷ str_to_ascii_lowercase domain.now) }
    ensures { IfOk result (λ user. user ≡ name.now
        ++ byte "@" ∷ str_to_ascii_lowercase domain.now) }
{
    let text = joined(alloc, name, domain)?;
    Ok(User {
        text: String::from_utf8(text).unwrap(),
    })
}

/// The name part, `@` and the domain in lower case.
fn joined(alloc: Global, name: &[u8], domain: &[u8]) -> Result<Vec<u8>, AllocError>
    ensures { IfOk result (λ text. text.items ≡ name.now
        ++ byte "@" ∷ str_to_ascii_lowercase domain.now) }
{
    let mut text = Vec::with_capacity(alloc, name.len() + 1 + domain.len())?;
    write_joined(&mut text, name, domain);
    Ok(text)
}

/// Writes these into an empty text that has room for them.
fn write_joined(text: &mut Vec<u8>, name: &[u8], domain: &[u8])
    requires empty { text.old.items ≡ [] }
    requires room { length name.now + 1 + length domain.now ≤ vec_capacity text.old }
    ensures { text.new.items ≡ name.now ++ byte "@" ∷ str_to_ascii_lowercase domain.now }
{
    text.extend_from_slice(name).unwrap();
    text.push(b'@').unwrap();
    text.extend_from_slice(domain).unwrap();
    text[name.len() + 1..].make_ascii_lowercase();
}

/// A text without its final period, where it ends in one.
#[tactic(auto, unfolding(crate::specs::UserNames::without_final_period))]
pub(crate) fn without_final_period(text: &[u8]) -> &[u8]
    ensures { result.now ≡ without_final_period text.now }
{
    if text.ends_with(b".") {
        &text[..text.len() - 1]
    } else {
        text
    }
}

fn count_at_signs(user: &[u8]) -> u64
    ensures { result ≡ count_by is_at user.now }
{
    user.iter().filter(|b| **b == b'@').count() as u64
}

#[tactic(auto, unfolding(crate::specs::UserNames::is_local_part))]
fn is_local_part(part: &[u8]) -> bool
    ensures { result ≡ is_local_part part.now }
{
    (1..=64).contains(&part.len()) && has_local_bytes(part)
}

fn has_local_bytes(part: &[u8]) -> bool
    ensures { result ≡ list_all (λ b. is_name_byte b || is_period b) part.now }
{
    part.iter().all(|b| is_name_byte(*b) || *b == b'.')
}

#[tactic(auto, unfolding(crate::specs::UserNames::is_suffix))]
fn is_suffix(part: &[u8]) -> bool
    ensures { result ≡ is_suffix part.now }
{
    (1..=32).contains(&part.len()) && has_name_bytes(part)
}

fn has_name_bytes(part: &[u8]) -> bool
    ensures { result ≡ list_all is_name_byte part.now }
{
    part.iter().all(|b| is_name_byte(*b))
}

fn is_name_byte(byte: u8) -> bool
    ensures { result ≡ is_name_byte byte }
{
    byte.is_ascii_alphanumeric() || byte == b'_' || byte == b'-'
}

/// What stands before and behind the `@`.
#[tactic(auto, using(crate::proofs::CutLemmas::behind))]
fn parts_of(user: &[u8]) -> (&[u8], &[u8])
    ensures name { result.0.now ≡ name_part user.now }
    ensures domain { result.1.now ≡ domain_part user.now }
{
    match cut(user, b'@') {
        (name, Some(domain)) => (name, domain),
        (name, None) => (name, b""),
    }
}

/// What stands before the `@`.
fn name_part(user: &str) -> &str
    ensures { result.now ≡ name_part user.now }
{
    match user.split_once('@') {
        Some((name, _)) => name,
        None => user,
    }
}

#[tactic(auto, using(crate::proofs::CutLemmas::nothing_behind))]
fn suffix_in(name: &str) -> Option<&str>
    ensures { option_copied result ≡ suffix_in name.now }
{
    let (_, suffix) = name.split_once('+')?;
    Some(suffix)
}
