//! Who belongs to a group.
ghost use Rattle.std.specs.Prelude.{◌≡◌};
ghost use Rattle.std.specs.List.{list_any};
ghost use Rattle.std.specs.Option.{option_copied};
ghost use Rattle.up_names.specs.UserNames.{domain_part};
ghost use Rattle.up_policy.specs.Members.{is_user, items_in, text_of};

use crate::facts::Facts;
use crate::loaded::Loaded;
use up_group::GroupText;
use up_names::{Item, Path, User};

/// Whether an item is the user, the user's domain, which is handed in, or everyone. No group is followed.
pub(crate) fn is_user(item: &Item, user: &User, domain: &str) -> bool
    requires { domain.now ≡ domain_part user.now }
    ensures { result ≡ is_user user.now item.now }
{
    match item {
        Item::Everyone => true,
        Item::Domain(name) => name.text() == domain,
        Item::User(name) => name == user,
        Item::Group(_) => false,
    }
}

/// Whether one of the items is the user, the user's domain or everyone. No group is followed.
pub(crate) fn has_user(items: &[Item], user: &User, domain: &str) -> bool
    requires { domain.now ≡ domain_part user.now }
    ensures { result ≡ list_any (is_user user.now) items.now }
{
    for item in items {
        if is_user(item, user, domain) {
            return true;
        }
    }
    false
}

/// The items of the text of a group; none where it has no text.
pub(crate) fn items_in<'a, F: Facts>(facts: &'a F, loaded: &'a Loaded, group: &Path) -> &'a [Item]
    ensures { result.now ≡ items_in (text_of (F.tree facts.now) loaded.now) group.now }
{
    match text_of(facts, loaded, group) {
        Some(text) => text.items(),
        None => &[],
    }
}

/// The text of a group: the tree's own for a group of the tree's owner, and for any other the text that was loaded.
fn text_of<'a, F: Facts>(facts: &'a F, loaded: &'a Loaded, group: &Path) -> Option<&'a GroupText>
    ensures { option_copied result ≡ text_of (F.tree facts.now) loaded.now group.now }
{
    if group.owner() == facts.owner() {
        facts.group(group)
    } else {
        loaded.text(group)
    }
}
