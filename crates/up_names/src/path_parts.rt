//! The text of a path, piece by piece.
ghost use Rattle.std.specs.Prelude.{◌≡◌, ◌≤◌, ◌+◌, ◌-◌, [], ◌++◌, ◌∷◌, IfSome, length, true, false, MatchOption, Ok, Err, if◌then◌else◌};
ghost use Rattle.std.specs.List.{list_all, slice_split};
ghost use Rattle.std.specs.Str.{byte};
ghost use Rattle.up_names.specs.Faults.{Gives};
ghost use Rattle.up_names.specs.PathNames.{canonical, extended, is_allowed_byte, is_element, is_name, is_slash, path_from, path_of};
ghost use Rattle.up_names.specs.PathParts.{after_piece};
ghost use Rattle.up_names.specs.declared.fault.NameFault.TheVariants.{Element};

use crate::cuts::cut_at_slash;
use crate::fault::NameFault;
use crate::paths::Path;
use crate::users::{User, parse_user};
use std::alloc::Global;

/// How many bytes the text of a path may have.
pub(crate) const MAX_LEN: usize = 4096;

/// The path that a text names: a user, and perhaps elements behind slashes. Empty elements and `.` are dropped; `..`
/// drops the element before it, and at the root nothing.
///
/// The first fault that fits: over 4,096 bytes, the owner's faults, then the place of the first byte of the first piece
/// that is not UTF-8 or has a byte below 0x20 or 0x7F, also where a later `..` drops it.
#[tactic(auto, unfolding(crate::specs::PathNames::path_of, crate::specs::PathNames::pieces_of))]
pub fn parse_path(alloc: Global, text: &[u8]) -> Result<Path, NameFault>
    ensures { Gives (λ path. path) result (path_of text.now) }
{
    if text.len() > MAX_LEN {
        return Err(NameFault::TooLong(text.len() as u64));
    }
    let (owner, pieces) = cut_at_slash(text);
    let place = owner.len() + 1;
    let owner = parse_user(alloc, owner)?;
    match pieces {
        Some(pieces) => parse_pieces(owner, pieces, place),
        None => Ok(Path::root(owner)?),
    }
}

/// The path of an owner and the pieces behind it, the first of which begins at `place` in the text.
fn parse_pieces(owner: User, pieces: &[u8], place: usize) -> Result<Path, NameFault>
    requires behind { length owner + 1 ≤ place }
    requires short { place + length pieces.now ≤ 4096 }
    ensures { Gives (λ path. path) result
        (path_from place (slice_split is_slash pieces.now) (Ok owner)) }
{
    let mut path = Path::with_room(owner, place + pieces.len())?;
    take_pieces(&mut path, pieces, place)?;
    Ok(path)
}

/// Takes the pieces of a path's text, the first of which begins there at `place`, behind a root. An `Err` may have taken
/// some of them.
pub(crate) fn take_pieces(path: &mut Path, pieces: &[u8], mut place: usize) -> Result<(), NameFault>
    requires root { path.old.elements ≡ [] }
    requires behind { length path.old.owner + 1 ≤ place }
    requires short { place + length pieces.now ≤ 4096 }
    ensures taken { Gives (λ _. path.new) result
        (path_from place (slice_split is_slash pieces.now) (Ok path.old.owner)) }
    ensures owner { path.new.owner ≡ path.old.owner }
{
    for piece in pieces.split(|b| *b == b'/') {
        take_piece(path, piece, place)?;
        place += piece.len() + 1;
    }
    Ok(())
}

/// Takes the next piece of a path's text, which begins there at `place`.
fn take_piece(path: &mut Path, piece: &[u8], place: usize) -> Result<(), NameFault>
    requires { length (canonical (extended path.old piece.now)) ≤ 4096 }
    ensures taken { Gives (λ _. path.new) result
        (if is_element piece.now then Ok (after_piece path.old piece.now) else Err
        (Element place)) }
    ensures owner { path.new.owner ≡ path.old.owner }
{
    let Some(element) = element_text(piece) else {
        return Err(NameFault::Element(place as u64));
    };
    match element {
        "" | "." => {}
        ".." => {
            path.drop_last();
        }
        name => path.add(name)?,
    }
    Ok(())
}

/// What stands between two slashes, as text; `None` exactly where it is no element: not UTF-8, or with a slash, a byte
/// below 0x20 or 0x7F.
#[tactic(auto, unfolding(crate::specs::PathNames::is_element))]
pub fn element_text(piece: &[u8]) -> Option<&str>
    ensures { MatchOption result (is_element piece.now ≡ false)
        (λ text. (text.now ≡ piece.now) × (is_element piece.now ≡ true)) }
{
    if !has_allowed_bytes(piece) {
        return None;
    }
    str::from_utf8(piece).ok()
}

/// What stands behind the owner of a path's text and its slash, where the text begins with this owner.
pub(crate) fn behind_owner<'a>(owner: &User, text: &'a [u8]) -> Option<&'a [u8]>
    ensures { IfSome result (λ rest. text.now ≡ owner.now ++ byte "/" ∷ rest.now) }
{
    behind(behind(text, owner.text().as_bytes())?, b"/")
}

/// What stands behind a front of a text, where it begins so.
fn behind<'a>(text: &'a [u8], front: &[u8]) -> Option<&'a [u8]>
    ensures { IfSome result (λ rest. text.now ≡ front.now ++ rest.now) }
{
    text.strip_prefix(front)
}

/// Whether a text may be an element of a path.
#[tactic(auto, using(crate::proofs::PathLaws::is_name_by_bytes))]
pub(crate) fn is_name(element: &str) -> bool
    ensures { result ≡ is_name element.now }
{
    match element {
        "" | "." | ".." => false,
        name => has_allowed_bytes(name.as_bytes()),
    }
}

/// Whether each byte may stand in an element.
fn has_allowed_bytes(piece: &[u8]) -> bool
    ensures { result ≡ list_all is_allowed_byte piece.now }
{
    piece.iter().all(|b| *b >= 0x20 && *b != 0x7F && *b != b'/')
}
