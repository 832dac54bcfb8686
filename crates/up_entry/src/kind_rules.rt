//! What the kind of an entry and its path ask for.

ghost use Rattle.std.specs.Prelude.{◌≡◌};
ghost use Rattle.up_entry.specs.Checking.{whole_kind};
ghost use Rattle.up_entry.specs.ControlFiles.{is_control_file};
ghost use Rattle.up_entry.specs.Rules.{is_plain_only, packing_fits, packdata_fits, root_fits, control_fits};

use crate::entries::{Attr, Kind};
use crate::fault::EntryFault;
use crate::what::What;
use up_bytes::Bytes;
use up_names::Path;
use up_names::paths::Control;

/// Whether an entry of this kind at this path is a control file: a file at an Access or a Group path. It takes no memory.
pub fn is_control_file(kind: Kind, path: &Path) -> bool
    ensures { result ≡ is_control_file kind path.now }
{
    kind == Kind::File && path.control_kind() != Control::Ordinary
}

/// Whether an entry has to be plain: a directory, a link and a control file, with the mark or without. Attributes that are
/// none ask for nothing.
fn is_plain_only(attr: Option<Attr>, path: &Path) -> bool
    ensures { result ≡ is_plain_only attr path.now }
{
    match attr {
        Some(attr) => attr.kind != Kind::File || is_control_file(attr.kind, path),
        None => false,
    }
}

/// Whether the packing is one that such an entry may have: 1 where it has to be plain, else 1 to 255.
pub(crate) fn packing_fits(attr: Option<Attr>, path: &Path, packing: u8) -> bool
    ensures { result ≡ packing_fits attr path.now packing }
{
    if is_plain_only(attr, path) {
        packing == 1
    } else {
        packing != 0
    }
}

/// The kind, where there is one without the mark.
pub(crate) fn whole_kind(attr: Option<Attr>) -> Result<Kind, EntryFault>
    ensures { result ≡ whole_kind attr }
{
    match attr {
        Some(attr) if !attr.incomplete => Ok(attr.kind),
        _ => Err(EntryFault::Invalid(What::Attr)),
    }
}

/// Whether an entry of this kind may have the packdata: only a file has any.
pub(crate) fn packdata_fits(kind: Kind, packdata: &Bytes) -> bool
    ensures { result ≡ packdata_fits kind packdata.now }
{
    kind == Kind::File || packdata.is_empty()
}

/// Whether such an entry may stand at the path, which it may not where the path is a root and it is no directory.
pub(crate) fn root_fits(kind: Kind, path: &Path) -> bool
    ensures { result ≡ root_fits kind path.now }
{
    kind == Kind::Directory || path.len() > 0
}

/// Whether such an entry may stand at a path of this kind: a file at each, a directory at any but an Access path, a link
/// at an ordinary path alone.
pub(crate) fn control_fits(kind: Kind, control: Control) -> bool
    ensures { result ≡ control_fits kind control }
{
    match kind {
        Kind::File => true,
        Kind::Directory => control != Control::Access,
        Kind::Link => control == Control::Ordinary,
    }
}
