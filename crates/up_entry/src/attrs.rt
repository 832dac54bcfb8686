//! The byte of an entry's attributes.

ghost use Rattle.std.specs.Prelude.{◌≡◌};
ghost use Rattle.up_entry.specs.Attrs.{attr_byte, attr_of};

use crate::entries::{Attr, Kind};

/// The attributes that a byte stands for: 0 a file, 1 a directory, 2 a link, and 4 more with the mark. `None` exactly for
/// any other byte.
#[tactic(auto, unfolding(crate::specs::Attrs::attr_of))]
pub(crate) fn attr_of(byte: u8) -> Option<Attr>
    ensures { result ≡ attr_of byte }
{
    let kind = match byte {
        0 | 4 => Kind::File,
        1 | 5 => Kind::Directory,
        2 | 6 => Kind::Link,
        _ => return None,
    };
    Some(Attr {
        kind,
        incomplete: byte >= 4,
    })
}

/// The byte of an entry's attributes.
pub(crate) fn attr_byte(attr: Attr) -> u8
    ensures { result ≡ attr_byte attr }
{
    let kind = match attr.kind {
        Kind::File => 0,
        Kind::Directory => 1,
        Kind::Link => 2,
    };
    if attr.incomplete { kind + 4 } else { kind }
}
