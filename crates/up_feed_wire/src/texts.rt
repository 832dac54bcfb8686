//! Lists of texts: their number, and then each.
ghost use Rattle.std.specs.Prelude.{◌≡◌, ◌++◌, length, take, OnOk, IfOk};
ghost use Rattle.up_bytes.specs.Reading.{Gives, items_at, list_at, text_at};
ghost use Rattle.up_bytes.specs.Sizes.{size_of};
ghost use Rattle.up_bytes.specs.Spelling.{IsList, IsText, list, text};

use std::alloc::{AllocError, Global};
use up_bytes::{Bytes, FieldFault, Reader, Writer, num_len, text_len};
use up_lists::Items;

/// Takes a number and so many texts. The number reserves nothing before they are there. A refused call leaves the place anywhere.
#[tactic(auto, unfolding(up_bytes::specs::Reading::list_at))]
pub(crate) fn take_texts(alloc: Global, input: &mut Reader) -> Result<Items<Bytes>, FieldFault>
    ensures { Gives (λ texts. (texts, input.new)) result (list_at text_at input.old) }
{
    let count = input.num()?;
    take_items(alloc, input, count)
}

// Takes so many texts.
fn take_items(alloc: Global, input: &mut Reader, count: u64) -> Result<Items<Bytes>, FieldFault>
    ensures { Gives (λ texts. (texts, input.new)) result (items_at text_at count input.old) }
{
    let mut texts = Items::new(alloc);
    for _ in 0..count {
        texts.push(input.text(alloc)?)?;
    }
    Ok(texts)
}

/// Appends the number of the texts, and then each. A call that finds no memory may leave a part of them.
pub(crate) fn append_texts(texts: &[Bytes], out: &mut Writer) -> Result<(), AllocError>
    ensures appended { OnOk result (out.new ≡ out.old ++ list text texts.now) }
    ensures kept { take (length out.old) out.new ≡ out.old }
    ensures typed { IfOk result (λ _. IsList IsText texts.now) }
{
    out.num(texts.len() as u64)?;
    for one in texts {
        out.text(one.as_slice())?;
    }
    Ok(())
}

/// How many bytes the spelling of these texts has, or 2^64 - 1 where there are more. It takes no memory.
pub(crate) fn texts_size(texts: &[Bytes]) -> u64
    ensures { result ≡ size_of (list text texts.now) }
{
    let mut size = num_len(texts.len() as u64);
    for one in texts {
        size = size.saturating_add(text_len(one.as_slice()));
    }
    size
}
