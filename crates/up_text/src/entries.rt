//! Entries, blocks and lists of endpoints in words.

ghost use Rattle.std.specs.Prelude.{◌≡◌, ◌++◌, [], ◌∷◌, OnOk, codes, decimal};
ghost use Rattle.std.specs.List.{flat_map};
ghost use Rattle.up_entry.specs.Spelling.{link_text};
ghost use Rattle.std.specs.Fmt.{signed_decimal};
ghost use Rattle.up_names.specs.PathNames.{canonical};
ghost use Rattle.up_refs.specs.References.{text_of};
ghost use Rattle.up_text.specs.Entries.{block_word, blocks_word, endpoint_word, endpoints_word, entry_words, kind_word, signed_word, store_field};
ghost use Rattle.up_text.specs.Lines.{behind_spaces};
ghost use Rattle.up_text.specs.Words.{coded, field};

use crate::words::{push_field, push_word};
use itoa::Buffer;
use std::alloc::AllocError;
use up_entry::{Attr, Block, Endpoint, Entry, Kind};
use up_names::Path;
use up_refs::Reference;

/// Adds a word as it stands, behind a space. An `Err` may leave a part of it behind, as of all that these calls add.
pub(crate) fn add_plain(out: &mut Vec<u8>, word: &[u8]) -> Result<(), AllocError>
    ensures { OnOk result (out.new.items ≡ out.old.items ++ behind_spaces (word.now ∷ [])) }
{
    out.push(b' ')?;
    out.extend_from_slice(word)
}

/// Adds the word that stands for a text, behind a space.
pub(crate) fn add_text(out: &mut Vec<u8>, text: &[u8]) -> Result<(), AllocError>
    ensures { OnOk result (out.new.items ≡ out.old.items ++ behind_spaces (coded text.now ∷ [])) }
{
    out.push(b' ')?;
    push_word(out, text)
}

/// Adds a number, behind a space.
pub(crate) fn add_num(out: &mut Vec<u8>, number: u64) -> Result<(), AllocError>
    ensures { OnOk result (out.new.items ≡ out.old.items ++ behind_spaces (decimal number ∷ [])) }
{
    out.push(b' ')?;
    push_num(out, number)
}

/// Adds the digits of a number.
pub(crate) fn push_num(out: &mut Vec<u8>, number: u64) -> Result<(), AllocError>
    ensures { OnOk result (out.new.items ≡ out.old.items ++ decimal number) }
{
    out.extend_from_slice(Buffer::new().format(number).as_bytes())
}

/// Adds a number that may be negative, behind a space.
fn add_int(out: &mut Vec<u8>, number: i64) -> Result<(), AllocError>
    ensures { OnOk result (out.new.items ≡ out.old.items
        ++ behind_spaces (signed_decimal number ∷ [])) }
{
    add_plain(out, Buffer::new().format(number).as_bytes())
}

/// Adds the digits of a reference, behind a space.
pub(crate) fn add_reference(out: &mut Vec<u8>, reference: &Reference) -> Result<(), AllocError>
    ensures { OnOk result (out.new.items ≡ out.old.items
        ++ behind_spaces (text_of reference.now ∷ [])) }
{
    let digits = reference.text(*out.allocator())?;
    add_plain(out, digits.as_bytes())
}

/// Adds the ten words of an entry, each behind a space.
#[tactic(auto, unfolding(crate::specs::Entries::entry_words))]
pub(crate) fn add_entry(out: &mut Vec<u8>, entry: &Entry) -> Result<(), AllocError>
    ensures { OnOk result (out.new.items ≡ out.old.items ++ behind_spaces (entry_words entry.now)) }
{
    add_heading(out, entry)?;
    add_content(out, entry)
}

/// Adds the first five words of an entry: its name, kind, sequence, time and writer.
fn add_heading(out: &mut Vec<u8>, entry: &Entry) -> Result<(), AllocError>
    ensures { OnOk result (out.new.items ≡ out.old.items
        ++ behind_spaces (coded (canonical entry.now.name)
        ∷ kind_word entry.now.attr ∷ decimal entry.now.sequence ∷ signed_decimal entry.now.time
        ∷ coded entry.now.writer ∷ [])) }
{
    add_text(out, entry.name.as_str().as_bytes())?;
    add_kind(out, entry.attr)?;
    add_num(out, entry.sequence)?;
    add_int(out, entry.time)?;
    add_text(out, entry.writer.text().as_bytes())
}

/// Adds the other five: its packing, packdata, link, signed name and blocks.
fn add_content(out: &mut Vec<u8>, entry: &Entry) -> Result<(), AllocError>
    ensures { OnOk result (out.new.items ≡ out.old.items ++ behind_spaces (decimal entry.now.packing
        ∷ coded entry.now.packdata ∷ coded (link_text entry.now.link) ∷ signed_word entry.now
        ∷ blocks_word entry.now.blocks ∷ [])) }
{
    add_num(out, u64::from(entry.packing))?;
    add_text(out, entry.packdata.as_slice())?;
    add_link(out, &entry.link)?;
    add_signed(out, entry)?;
    add_blocks(out, entry.blocks.as_slice())
}

/// Adds the word of a kind, with its mark, behind a space.
#[tactic(auto, unfolding(crate::specs::Entries::kind_word))]
fn add_kind(out: &mut Vec<u8>, attr: Attr) -> Result<(), AllocError>
    ensures { OnOk result (out.new.items ≡ out.old.items ++ behind_spaces (kind_word attr ∷ [])) }
{
    add_plain(
        out,
        match (attr.kind, attr.incomplete) {
            (Kind::File, false) => b"file",
            (Kind::File, true) => b"file?",
            (Kind::Directory, false) => b"dir",
            (Kind::Directory, true) => b"dir?",
            (Kind::Link, false) => b"link",
            (Kind::Link, true) => b"link?",
        },
    )
}

/// Adds the target of a link, behind a space.
fn add_link(out: &mut Vec<u8>, link: &Option<Path>) -> Result<(), AllocError>
    ensures { OnOk result (out.new.items ≡ out.old.items
        ++ behind_spaces (coded (link_text link.now) ∷ [])) }
{
    match link {
        Some(target) => add_text(out, target.as_str().as_bytes()),
        None => add_text(out, b""),
    }
}

/// Adds the signed name, or `=` where it is the name, behind a space.
#[tactic(auto, unfolding(crate::specs::Entries::signed_word))]
fn add_signed(out: &mut Vec<u8>, entry: &Entry) -> Result<(), AllocError>
    ensures { OnOk result (out.new.items ≡ out.old.items
        ++ behind_spaces (signed_word entry.now ∷ [])) }
{
    if entry.signed_name == entry.name {
        add_plain(out, b"=")
    } else {
        add_text(out, entry.signed_name.as_str().as_bytes())
    }
}

/// Adds the word of some blocks, behind a space.
#[tactic(auto, unfolding(crate::specs::Entries::blocks_word))]
fn add_blocks(out: &mut Vec<u8>, blocks: &[Block]) -> Result<(), AllocError>
    ensures { OnOk result (out.new.items ≡ out.old.items
        ++ behind_spaces (blocks_word blocks.now ∷ [])) }
{
    let Some((first, more)) = blocks.split_first() else {
        return add_plain(out, b"-");
    };
    out.push(b' ')?;
    push_block(out, first)?;
    push_further_blocks(out, more)
}

/// Adds blocks, each behind a comma.
fn push_further_blocks(out: &mut Vec<u8>, blocks: &[Block]) -> Result<(), AllocError>
    ensures { OnOk result (out.new.items ≡ out.old.items
        ++ flat_map (λ b. codes "," ++ block_word b) blocks.now) }
{
    for block in blocks {
        push_further_block(out, block)?;
    }
    Ok(())
}

/// Adds a block behind a comma.
fn push_further_block(out: &mut Vec<u8>, block: &Block) -> Result<(), AllocError>
    ensures { OnOk result (out.new.items ≡ out.old.items ++ (codes "," ++ block_word block.now)) }
{
    out.push(b',')?;
    push_block(out, block)
}

/// Adds a block.
#[tactic(auto, unfolding(crate::specs::Entries::block_word))]
fn push_block(out: &mut Vec<u8>, block: &Block) -> Result<(), AllocError>
    ensures { OnOk result (out.new.items ≡ out.old.items ++ block_word block.now) }
{
    push_reference(out, &block.location.reference)?;
    push_number_part(out, block.offset)?;
    push_number_part(out, block.size)?;
    push_store_part(out, &block.location.endpoint)?;
    push_text_part(out, block.packdata.as_slice())
}

/// Adds a number behind a colon.
fn push_number_part(out: &mut Vec<u8>, number: u64) -> Result<(), AllocError>
    ensures { OnOk result (out.new.items ≡ out.old.items ++ (codes ":" ++ decimal number)) }
{
    out.push(b':')?;
    push_num(out, number)
}

/// Adds where a block is kept, behind a colon: the address of its store, or `-` for the host's own.
fn push_store_part(out: &mut Vec<u8>, endpoint: &Endpoint) -> Result<(), AllocError>
    ensures { OnOk result (out.new.items ≡ out.old.items
        ++ (codes ":" ++ store_field endpoint.now)) }
{
    match endpoint {
        Endpoint::Local => out.extend_from_slice(b":-"),
        Endpoint::Address(address) => push_text_part(out, address.as_slice()),
    }
}

/// Adds the field of a text behind a colon.
fn push_text_part(out: &mut Vec<u8>, text: &[u8]) -> Result<(), AllocError>
    ensures { OnOk result (out.new.items ≡ out.old.items ++ (codes ":" ++ field text.now)) }
{
    out.push(b':')?;
    push_field(out, text)
}

/// Adds the digits of a reference.
fn push_reference(out: &mut Vec<u8>, reference: &Reference) -> Result<(), AllocError>
    ensures { OnOk result (out.new.items ≡ out.old.items ++ text_of reference.now) }
{
    let digits = reference.text(*out.allocator())?;
    out.extend_from_slice(digits.as_bytes())
}

/// Adds the word of some endpoints, behind a space.
#[tactic(auto, unfolding(crate::specs::Entries::endpoints_word))]
pub(crate) fn add_endpoints(out: &mut Vec<u8>, endpoints: &[Endpoint]) -> Result<(), AllocError>
    ensures { OnOk result (out.new.items ≡ out.old.items
        ++ behind_spaces (endpoints_word endpoints.now ∷ [])) }
{
    let Some((first, more)) = endpoints.split_first() else {
        return add_plain(out, b"-");
    };
    out.push(b' ')?;
    push_endpoint(out, first)?;
    push_further_endpoints(out, more)
}

/// Adds endpoints, each behind a comma.
fn push_further_endpoints(out: &mut Vec<u8>, endpoints: &[Endpoint]) -> Result<(), AllocError>
    ensures { OnOk result (out.new.items ≡ out.old.items
        ++ flat_map (λ endpoint. codes "," ++ endpoint_word endpoint) endpoints.now) }
{
    for endpoint in endpoints {
        push_further_endpoint(out, endpoint)?;
    }
    Ok(())
}

/// Adds an endpoint behind a comma.
fn push_further_endpoint(out: &mut Vec<u8>, endpoint: &Endpoint) -> Result<(), AllocError>
    ensures { OnOk result (out.new.items ≡ out.old.items
        ++ (codes "," ++ endpoint_word endpoint.now)) }
{
    out.push(b',')?;
    push_endpoint(out, endpoint)
}

/// Adds an endpoint: `local`, or its address.
#[tactic(auto, unfolding(crate::specs::Entries::endpoint_word))]
fn push_endpoint(out: &mut Vec<u8>, endpoint: &Endpoint) -> Result<(), AllocError>
    ensures { OnOk result (out.new.items ≡ out.old.items ++ endpoint_word endpoint.now) }
{
    match endpoint {
        Endpoint::Local => out.extend_from_slice(b"local"),
        Endpoint::Address(address) => push_field(out, address.as_slice()),
    }
}
