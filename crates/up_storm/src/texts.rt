//! Who takes part in a storm, and where.
ghost use Rattle.std.specs.Prelude.{◌≡◌, ◌++◌, IfOk, OnOk, codes};
ghost use Rattle.up_storm.specs.Asked.{access_text, directory_text, file_text, owner_text, pattern_text, user_text};

use std::alloc::{AllocError, Global};
use up_bytes::Bytes;

/// The owner of the first tree.
pub(crate) const FIRST_OWNER: &[u8] = b"a@storm.example";

/// The owner of the second tree.
pub(crate) const SECOND_OWNER: &[u8] = b"b@storm.example";

/// The owner in whose tree session `k` works.
pub(crate) fn owner_text(k: u64) -> &'static [u8]
    ensures { result.now ≡ owner_text k }
{
    if k % 2 == 0 {
        FIRST_OWNER
    } else {
        SECOND_OWNER
    }
}

/// The user of session `k`.
pub(crate) fn user_text(alloc: Global, k: u64) -> Result<Bytes, AllocError>
    ensures { IfOk result (λ text. text ≡ user_text k) }
{
    let mut out = Vec::new(alloc);
    push_user(&mut out, k)?;
    Ok(Bytes::from_vec(out))
}

// Adds the user of session `k`.
fn push_user(out: &mut Vec<u8>, k: u64) -> Result<(), AllocError>
    ensures { OnOk result (out.new.items ≡ out.old.items ++ user_text k) }
{
    let digits = k.to_string(*out.allocator())?;
    out.push(b'u')?;
    out.extend_from_slice(digits.as_bytes())?;
    out.extend_from_slice(b"@storm.example")
}

// Adds the directory of session `k`.
fn push_directory(out: &mut Vec<u8>, k: u64) -> Result<(), AllocError>
    ensures { OnOk result (out.new.items ≡ out.old.items ++ directory_text k) }
{
    let digits = k.to_string(*out.allocator())?;
    out.extend_from_slice(owner_text(k))?;
    out.push(b'/')?;
    out.extend_from_slice(digits.as_bytes())
}

/// Adds a file of session `k`.
pub(crate) fn push_file(out: &mut Vec<u8>, k: u64, file: u64) -> Result<(), AllocError>
    ensures { OnOk result (out.new.items ≡ out.old.items ++ file_text k file) }
{
    let digits = file.to_string(*out.allocator())?;
    push_directory(out, k)?;
    out.extend_from_slice(b"/f")?;
    out.extend_from_slice(digits.as_bytes())
}

/// Adds the pattern of all that stands in the directory of session `k`.
pub(crate) fn push_pattern(out: &mut Vec<u8>, k: u64) -> Result<(), AllocError>
    ensures { OnOk result (out.new.items ≡ out.old.items ++ pattern_text k) }
{
    push_directory(out, k)?;
    out.extend_from_slice(b"/*")
}

/// The directory of session `k`.
pub(crate) fn directory_text(alloc: Global, k: u64) -> Result<Bytes, AllocError>
    ensures { IfOk result (λ text. text ≡ directory_text k) }
{
    let mut out = Vec::new(alloc);
    push_directory(&mut out, k)?;
    Ok(Bytes::from_vec(out))
}

/// A file of session `k`.
pub(crate) fn file_text(alloc: Global, k: u64, file: u64) -> Result<Bytes, AllocError>
    ensures { IfOk result (λ text. text ≡ file_text k file) }
{
    let mut out = Vec::new(alloc);
    push_file(&mut out, k, file)?;
    Ok(Bytes::from_vec(out))
}

/// The pattern of all that stands in the directory of session `k`.
pub(crate) fn pattern_text(alloc: Global, k: u64) -> Result<Bytes, AllocError>
    ensures { IfOk result (λ text. text ≡ pattern_text k) }
{
    let mut out = Vec::new(alloc);
    push_pattern(&mut out, k)?;
    Ok(Bytes::from_vec(out))
}

/// The text of the Access file of session `k`.
pub(crate) fn access_text(alloc: Global, k: u64) -> Result<Bytes, AllocError>
    ensures { IfOk result (λ text. text ≡ access_text k) }
{
    let mut out = Vec::new(alloc);
    out.extend_from_slice(b"*: ")?;
    push_user(&mut out, k)?;
    out.push(b'\n')?;
    Ok(Bytes::from_vec(out))
}
