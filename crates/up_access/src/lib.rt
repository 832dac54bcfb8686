//! Access texts: which rights a directory grants, and to whom.
//!
//! [`parse_access`] gives exactly the rules of a text, in order, or `BadText` with exactly the number of its first bad line.
//! [`print_access`] gives exactly the text that the definition names; that text, read again with any owner, stands for the same
//! rules, where they are rules that a text gave.
#![tactic(auto)]

mod parsing;
mod printing;

ghost use Rattle.std.specs.Prelude.{◌≡◌, length, slice_get};
ghost use Rattle.std.specs.Option.{option_copied};

pub use parsing::parse_access;
pub use printing::print_access;
use std::marker::Model;
use up_lists::Items;
use up_names::Item;
use up_rights::RightSet;

/// A rule of an Access text: it grants each of these rights to each of these items. There may be no item, and it then
/// grants nobody.
#[derive(Debug, Drop, PartialEq, Eq)]
pub struct Rule {
    pub rights: RightSet,
    pub items: Items<Item>,
}

/// What an Access text stands for: its rules, in order.
#[derive(Debug, Drop, PartialEq, Eq)]
pub struct AccessText {
    rules: Items<Rule>,
}

impl Model for AccessText {
    ghost use Rattle.std.specs.Prelude.{List};
    ghost use Rattle.up_access.specs.declared.Rule.{Rule};
    ghost use Rattle.up_access.specs.Printing.{AreReadAgain};

    ghost Value = { List Rule };

    ghost view = { λ text. text.rules };

    ghost invariant = { λ text. AreReadAgain text.rules };

    ghost inverse = { λ rules. record { rules = rules } };
}

impl AccessText {
    /// The number of rules.
    pub fn len(&self) -> u64
        ensures { result ≡ length self.now }
    {
        self.rules.len()
    }

    /// The rule at place `i`, from 0, or `None` exactly where `i` is at least the length.
    pub fn rule(&self, i: u64) -> Option<&Rule>
        ensures { option_copied result ≡ slice_get self.now i }
    {
        self.rules.get(i)
    }

    /// All rules, in order.
    pub fn rules(&self) -> &[Rule]
        ensures { result.now ≡ self.now }
    {
        self.rules.as_slice()
    }
}
