//! Domains.
ghost use Rattle.std.specs.Prelude.{◌≡◌, not, true, IfOk};
ghost use Rattle.std.proofs.Common.{rules};
ghost use Rattle.std.specs.Char.{to_ascii_lowercase};
ghost use Rattle.std.specs.Cmp.{partial_order_from_own_ties};
ghost use Rattle.std.specs.Cmp.Rules.{comparing, hashing};
ghost use Rattle.std.specs.Cmp.Lexicographic.{slice_cmp};
ghost use Rattle.std.specs.Hash as fed;
ghost use Rattle.std.specs.List.{list_all, slice_split, suffix_len};
ghost use Rattle.std.specs.Ordering.{nat_cmp, as_partial_cmp};
ghost use Rattle.std.specs.Str.{bytes_eq, str_to_ascii_lowercase};
ghost use Rattle.up_names.specs.UserNames.{domain_of, has_bytes, is_domain, is_label, is_label_byte, is_period};

use std::alloc::{AllocError, Global};
use std::cmp::Ordering;
use std::hash::{Hash, Hasher};
use std::marker::Model;

/// A domain in lower case: at least two labels between periods, each 1 to 63 of `a-z 0-9 -` with no `-` at either end,
/// the last at least 2 long. Nothing else bounds its length, so that one too long for any user is a domain too.
#[derive(Debug, Drop)]
pub struct Domain {
    text: String,
}

impl Model for Domain {
    ghost use Rattle.std.specs.Prelude.{◌≡◌, ℕ, List, true};
    ghost use Rattle.std.specs.String.{string_bytes};
    ghost use Rattle.up_names.specs.UserNames.{is_domain};

    ghost Value = { List ℕ };

    ghost view = { λ domain. string_bytes domain.text };

    ghost invariant = { λ domain. is_domain (string_bytes domain.text) ≡ true };
}

impl Domain {
    /// The domain as text, in lower case.
    pub fn text(&self) -> &str
        ensures value { result.now ≡ self.now }
        ensures valid { is_domain self.now ≡ true }
    {
        self.text.as_str()
    }
}

impl PartialEq for Domain {
    ghost eq = { bytes_eq };

    ghost laws = { Prim.search (comparing, rules) };

    fn eq(&self, other: &Domain) -> bool {
        self.text == other.text
    }
}

impl Eq for Domain {
    ghost laws = { Prim.search (comparing, rules) };
}

impl PartialOrd for Domain {
    ghost partial_cmp = { as_partial_cmp (slice_cmp nat_cmp) };

    ghost laws = { partial_order_from_own_ties (Prim.search (comparing, rules)) (Prim.search (comparing, rules)) };

    fn partial_cmp(&self, other: &Domain) -> Option<Ordering> {
        Some(self.cmp(other))
    }
}

/// By the bytes of the texts.
impl Ord for Domain {
    ghost cmp = { slice_cmp nat_cmp };

    ghost total = { Prim.search (comparing, rules) };

    ghost matches_partial_cmp = { Prim.search (comparing, rules) };

    ghost matches_eq = { Prim.search (comparing, rules) };

    fn cmp(&self, other: &Domain) -> Ordering {
        self.text.cmp(&other.text)
    }
}

impl Hash for Domain {
    ghost hash_input = { λ domain. fed.str domain };

    ghost respects_eq = { Prim.search (hashing, rules) };

    fn hash<H: Hasher>(&self, state: &mut H) {
        self.text.hash(state);
    }
}

impl Clone for Domain {
    ghost is_clone = { λ domain copy. copy ≡ domain };

    fn clone(&self) -> Result<Domain, AllocError> {
        Ok(Domain {
            text: self.text.clone()?,
        })
    }
}

/// The domain that a text names in any case, `None` where it names none. A final period is no part of a domain.
#[tactic(auto, unfolding(crate::specs::UserNames::domain_of))]
pub(crate) fn parse_domain(alloc: Global, text: &[u8]) -> Result<Option<Domain>, AllocError>
    ensures { IfOk result (λ found. found ≡ domain_of text.now) }
{
    if !is_domain_in_any_case(text) {
        return Ok(None);
    }
    let lower = lowered(alloc, text)?;
    Ok(Some(Domain {
        text: String::from_utf8(lower).unwrap(),
    }))
}

fn lowered(alloc: Global, text: &[u8]) -> Result<Vec<u8>, AllocError>
    ensures { IfOk result (λ lower. lower.items ≡ str_to_ascii_lowercase text.now) }
{
    let mut lower = text.to_vec(alloc)?;
    lower.make_ascii_lowercase();
    Ok(lower)
}

/// Whether a text, with its upper case lowered, is a domain.
#[tactic(auto, using(crate::proofs::DomainLemmas::lowered_domain))]
pub(crate) fn is_domain_in_any_case(text: &[u8]) -> bool
    ensures { result ≡ is_domain (str_to_ascii_lowercase text.now) }
{
    text.contains(&b'.') && has_labels(text) && last_label_len(text) >= 2
}

fn has_labels(text: &[u8]) -> bool
    ensures { result ≡ list_all (λ label. is_label (str_to_ascii_lowercase label))
        (slice_split is_period text.now) }
{
    text.split(|b| *b == b'.')
        .all(|label| is_label_in_any_case(label))
}

fn last_label_len(text: &[u8]) -> usize
    ensures { result ≡ suffix_len (λ b. not (is_period b)) text.now }
{
    text.iter().rev().take_while(|b| **b != b'.').count()
}

/// Whether a text, with its upper case lowered, is a label of a domain.
#[tactic(auto, using(crate::proofs::DomainLemmas::lowered_label))]
fn is_label_in_any_case(label: &[u8]) -> bool
    ensures { result ≡ is_label (str_to_ascii_lowercase label.now) }
{
    has_label_bytes(label) && !label.starts_with(b"-") && !label.ends_with(b"-")
}

fn has_label_bytes(label: &[u8]) -> bool
    ensures { result ≡ has_bytes 1 63 (λ b. is_label_byte (to_ascii_lowercase b)) label.now }
{
    (1..=63).contains(&label.len()) && all_label_bytes(label)
}

fn all_label_bytes(label: &[u8]) -> bool
    ensures { result ≡ list_all (λ b. is_label_byte (to_ascii_lowercase b)) label.now }
{
    label.iter().all(|b| is_label_byte_in_any_case(*b))
}

fn is_label_byte_in_any_case(byte: u8) -> bool
    ensures { result ≡ is_label_byte (to_ascii_lowercase byte) }
{
    byte.is_ascii_alphanumeric() || byte == b'-'
}
