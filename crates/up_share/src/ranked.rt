//! Readers, in the order in which they are told.
ghost use Rattle.std.specs.Prelude.{◌≡◌, ℕ, refl};
ghost use Rattle.std.specs.Cmp.{eq_by_cmp_equiv, partial_equiv_from_equiv, partial_order_from_total};
ghost use Rattle.std.specs.Ordering.{as_partial_cmp, eq_by_cmp};
ghost use Rattle.up_share.specs.Orders.{item_cmp, rank};
ghost use Rattle.up_share.specs.OrderLaws.{item_cmp_total};

use std::cmp::Ordering;
use std::marker::Model;
use up_names::Item;

/// An item in the order of readers: everyone, domains, users, and each by their bytes.
#[derive(Drop)]
pub(crate) struct Ranked {
    pub(crate) item: Item,
}

impl Model for Ranked {
    ghost use Rattle.up_names.specs.declared.items.Item.{Item};

    ghost Value = { Item };

    ghost view = { λ ranked. ranked.item };
}

/// The place of an item's kind among the kinds.
fn rank(item: &Item) -> u8
    ensures { result ≡ rank item.now }
{
    match item {
        Item::Everyone => 0,
        Item::Domain(_) => 1,
        Item::User(_) => 2,
        Item::Group(_) => 3,
    }
}

/// How two items stand to one another in that order.
#[tactic(auto, using(crate::proofs::OrderLemmas::then_equal))]
fn item_cmp(one: &Item, other: &Item) -> Ordering
    ensures { result ≡ item_cmp one.now other.now }
{
    match (one, other) {
        (Item::Domain(one), Item::Domain(other)) => one.cmp(other),
        (Item::User(one), Item::User(other)) => one.cmp(other),
        (Item::Group(one), Item::Group(other)) => one.cmp(other),
        (one, other) => rank(one).cmp(&rank(other)),
    }
}

impl PartialEq for Ranked {
    ghost eq = { eq_by_cmp item_cmp };

    ghost laws = { partial_equiv_from_equiv (eq_by_cmp_equiv item_cmp_total) };

    fn eq(&self, other: &Ranked) -> bool {
        self.cmp(other) == Ordering::Equal
    }
}

impl Eq for Ranked {
    ghost laws = { eq_by_cmp_equiv item_cmp_total };
}

impl PartialOrd for Ranked {
    ghost partial_cmp = { as_partial_cmp item_cmp };

    ghost laws = { partial_order_from_total item_cmp_total };

    fn partial_cmp(&self, other: &Ranked) -> Option<Ordering> {
        Some(self.cmp(other))
    }
}

impl Ord for Ranked {
    ghost cmp = { item_cmp };

    ghost total = { item_cmp_total };

    ghost matches_partial_cmp = { λ _ _. refl };

    ghost matches_eq = { λ _ _. refl };

    fn cmp(&self, other: &Ranked) -> Ordering {
        item_cmp(&self.item, &other.item)
    }
}
