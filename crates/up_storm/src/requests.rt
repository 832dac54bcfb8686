//! What a session of a storm asks.
ghost use Rattle.std.specs.Prelude.{◌≡◌, ◌++◌, ◌+◌, ◌<◌, ◌^◌, IfOk, OnOk, [], ◌∷◌};
ghost use Rattle.up_storm.specs.Asked.{file_text, line_of, put_of, request_of, user_text, wished_line};
ghost use Rattle.up_storm.specs.declared.generator.Wish.TheVariants as wish;

use crate::generator::{Draw, Wish};
use crate::texts::{file_text, pattern_text, push_file, push_pattern, user_text};
use std::alloc::{AllocError, Global};
use up_bytes::{Bytes, copy_of};
use up_entry::{Block, PutEntry};
use up_lists::Items;
use up_wire::Request;

/// A Put at a path by a writer, with time and sequence 0: of a file where `attr` is 0, of a directory where it is 1.
pub(crate) fn put_of(
    alloc: Global,
    writer: Bytes,
    path: Bytes,
    attr: u8,
    blocks: Items<Block>,
) -> Result<Request, AllocError>
    ensures { IfOk result (λ request. request ≡ put_of writer path attr blocks) }
{
    let Ok(again) = copy_of(alloc, path.as_slice()) else {
        drop(blocks);
        return Err(AllocError);
    };
    Ok(Request::Put(PutEntry {
        signed_name: again,
        packing: 1,
        time: 0,
        blocks,
        packdata: Bytes::new(alloc),
        link: Bytes::new(alloc),
        writer,
        name: path,
        attr,
        sequence: 0,
    }))
}

/// What session `k` asks by a draw.
pub(crate) fn request_of(alloc: Global, k: u64, draw: Draw) -> Result<Request, AllocError>
    requires { k + 2 < 2 ^ 64 }
    ensures { IfOk result (λ request. request ≡ request_of k draw) }
{
    match draw.wish {
        Wish::Put => put_file(alloc, k, draw.file),
        Wish::Delete => Ok(Request::Delete(file_text(alloc, k, draw.file)?)),
        Wish::Lookup => Ok(Request::Lookup(file_text(alloc, k, draw.file)?)),
        Wish::LookElsewhere => Ok(Request::Lookup(file_text(alloc, k + 2, draw.file)?)),
        Wish::Glob => Ok(Request::Glob(pattern_text(alloc, k)?)),
    }
}

// A Put of an empty file.
fn put_file(alloc: Global, k: u64, file: u64) -> Result<Request, AllocError>
    ensures { IfOk result (λ request. request
        ≡ put_of (user_text k) (file_text k file) 0 []) }
{
    let path = file_text(alloc, k, file)?;
    let Ok(writer) = user_text(alloc, k) else {
        drop(path);
        return Err(AllocError);
    };
    put_of(alloc, writer, path, 0, Items::new(alloc))
}

/// Adds the script line that asks this, without the session's number.
pub(crate) fn push_line(out: &mut Vec<u8>, k: u64, draw: Draw) -> Result<(), AllocError>
    requires { k + 2 < 2 ^ 64 }
    ensures { OnOk result (out.new.items ≡ out.old.items ++ line_of k draw) }
{
    match draw.wish {
        Wish::Put => push_put(out, k, draw.file),
        Wish::Delete => push_named(out, b"delete ", k, draw.file),
        Wish::Lookup => push_named(out, b"lookup ", k, draw.file),
        Wish::LookElsewhere => push_named(out, b"lookup ", k + 2, draw.file),
        Wish::Glob => push_glob(out, k),
    }
}

// Adds a keyword and a file.
fn push_named(out: &mut Vec<u8>, keyword: &[u8], k: u64, file: u64) -> Result<(), AllocError>
    ensures { OnOk result (out.new.items ≡ out.old.items ++ (keyword.now ++ file_text k file)) }
{
    out.extend_from_slice(keyword)?;
    push_file(out, k, file)
}

// Adds the line that puts an empty file.
fn push_put(out: &mut Vec<u8>, k: u64, file: u64) -> Result<(), AllocError>
    ensures { OnOk result (out.new.items
        ≡ out.old.items ++ wished_line k wish.Put file) }
{
    push_named(out, b"file ", k, file)?;
    out.extend_from_slice(b" 1 0 0 - -")
}

// Adds the line that lists a directory.
fn push_glob(out: &mut Vec<u8>, k: u64) -> Result<(), AllocError>
    ensures { OnOk result (out.new.items
        ≡ out.old.items ++ wished_line k wish.Glob 0) }
{
    out.extend_from_slice(b"glob ")?;
    push_pattern(out, k)
}
