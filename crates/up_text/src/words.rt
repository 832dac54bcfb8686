//! Words: what text a word stands for, and the word that stands for a text in output.

ghost use Rattle.std.specs.Prelude.{◌≡◌, ◌++◌, ◌∷◌, ◌<◌, ◌||◌, None, Some, is_some, option_map, length, take, IfSome, IfNone, IfOk, IsOk, OnOk, OnErr, is_ok, if◌then◌else◌, true, false};
ghost use Rattle.std.specs.Cow.{cow_slice_items};
ghost use Rattle.std.specs.Fmt.{digit_glyph};
ghost use Rattle.std.specs.List.{flat_map, list_any};
ghost use Rattle.up_text.specs.Words.{coded, coded_byte, decoded, decoded_bytes, ends_word, escape, field, field_byte, is_coded, is_percent, pair_byte};

use memchr::{memchr2, memchr3};
use std::alloc::{AllocError, Global};
use std::borrow::CowSlice;
use up_bytes::Bytes;
use up_lists::Items;

/// The text that a word stands for. `None` where it is no word: it is empty, has a space or LF, or has a `%` without
/// two hexadecimal digits.
pub fn read_word(alloc: Global, word: &[u8]) -> Result<Option<Bytes>, AllocError>
    ensures { IfOk result (λ found. found ≡ decoded word.now) }
{
    match word_text(alloc, word)? {
        Some(text) => Ok(Some(Items::from_vec(text.into_owned(alloc)?))),
        None => Ok(None),
    }
}

/// The text that a word stands for, as [`read_word`] gives it. A word without `%` is handed out as it lies in the
/// input, and takes no memory.
pub fn word_text<'a>(alloc: Global, word: &'a [u8]) -> Result<Option<CowSlice<'a, u8>>, AllocError>
    ensures text { IfOk result (λ found. option_map cow_slice_items found ≡ decoded word.now) }
    ensures no_memory { list_any is_percent word.now ≡ false → IsOk result }
{
    if has_marks(word) {
        return marked_text(alloc, word);
    }
    if word.is_empty() {
        return Ok(None);
    }
    if word == b"-".as_slice() {
        return Ok(Some(CowSlice::Borrowed(&word[1..])));
    }
    Ok(Some(CowSlice::Borrowed(word)))
}

/// Whether a byte stands there that does not stand for itself: a space, LF or `%`.
fn has_marks(word: &[u8]) -> bool
    ensures { result ≡ list_any (λ b. ends_word b || is_percent b) word.now }
{
    memchr3(b' ', b'\n', b'%', word).is_some()
}

/// The text that a word with a space, LF or `%` stands for.
fn marked_text<'a>(alloc: Global, word: &'a [u8]) -> Result<Option<CowSlice<'a, u8>>, AllocError>
    requires { list_any (λ b. ends_word b || is_percent b) word.now ≡ true }
    ensures text { IfOk result (λ found. option_map cow_slice_items found ≡ decoded word.now) }
    ensures no_memory { list_any is_percent word.now ≡ false → IsOk result }
{
    if has_end(word) {
        return Ok(None);
    }
    match decode(alloc, word)? {
        Some(text) => Ok(Some(CowSlice::Owned(text))),
        None => Ok(None),
    }
}

/// Whether a byte stands there that stands in no word.
fn has_end(word: &[u8]) -> bool
    ensures { result ≡ list_any ends_word word.now }
{
    memchr2(b' ', b'\n', word).is_some()
}

/// The bytes that a word without space and LF stands for.
fn decode(alloc: Global, bytes: &[u8]) -> Result<Option<Vec<u8>>, AllocError>
    ensures { IfOk result (λ found. option_map (λ text. text.items) found
        ≡ decoded_bytes bytes.now) }
{
    let mut text = Vec::with_capacity(alloc, bytes.len())?;
    let mut rest = bytes;
    while !rest.is_empty() {
        let Some((byte, after)) = next_byte(rest) else {
            return Ok(None);
        };
        text.push(byte)?;
        rest = after;
    }
    Ok(Some(text))
}

/// Whether a text is a word, one that stands for some text. It takes no memory.
pub(crate) fn is_word(word: &[u8]) -> bool
    ensures { result ≡ is_some (decoded word.now) }
{
    if has_marks(word) {
        return !has_end(word) && has_pairs(word);
    }
    !word.is_empty()
}

/// Whether two hexadecimal digits stand behind each `%`.
fn has_pairs(bytes: &[u8]) -> bool
    ensures { result ≡ is_some (decoded_bytes bytes.now) }
{
    let mut rest = bytes;
    while !rest.is_empty() {
        let Some((_, after)) = next_byte(rest) else {
            return false;
        };
        rest = after;
    }
    true
}

/// The byte that the front of a word stands for, and what is left of the word. `None` where the word is empty, or
/// begins with `%` and no two hexadecimal digits.
fn next_byte(bytes: &[u8]) -> Option<(u8, &[u8])>
    ensures some { IfSome result (λ cut. decoded_bytes bytes.now
        ≡ option_map (λ text. cut.0 ∷ text) (decoded_bytes cut.1.now)) }
    ensures none { IfNone result (0 < length bytes.now → decoded_bytes bytes.now ≡ None) }
    ensures shorter { IfSome result (λ cut. length cut.1.now < length bytes.now) }
{
    let (first, rest) = bytes.split_first()?;
    if *first == b'%' {
        pair_at(rest)
    } else {
        Some((*first, rest))
    }
}

/// The byte that the two hexadecimal digits behind a `%` write, and what is left of the word behind them.
fn pair_at(bytes: &[u8]) -> Option<(u8, &[u8])>
    ensures some { IfSome result (λ cut. decoded_bytes (37 ∷ bytes.now)
        ≡ option_map (λ text. cut.0 ∷ text) (decoded_bytes cut.1.now)) }
    ensures none { IfNone result (decoded_bytes (37 ∷ bytes.now) ≡ None) }
    ensures shorter { IfSome result (λ cut. length cut.1.now < length bytes.now) }
{
    let (high, rest) = bytes.split_first()?;
    let (low, rest) = rest.split_first()?;
    let byte = pair_value(*high, *low)?;
    Some((byte, rest))
}

/// The byte that two hexadecimal digits write.
fn pair_value(high: u8, low: u8) -> Option<u8>
    ensures { result ≡ pair_byte high low }
{
    let high = char::from(high).to_digit(16)?;
    let low = char::from(low).to_digit(16)?;
    Some((16 * high + low) as u8)
}

/// The word that stands for a text in output: bytes up to 0x20, `%` and 0x7F as `%` and two upper-case digits, the
/// empty text as `-`, the text `-` as `%2D`. [`read_word`] of it is the text again.
pub fn write_word(alloc: Global, text: &[u8]) -> Result<Bytes, AllocError>
    ensures word { IfOk result (λ word. word ≡ coded text.now) }
    ensures read_again { IfOk result (λ word. decoded word ≡ Some text.now) }
{
    let mut out = Vec::with_capacity(alloc, text.len())?;
    push_word(&mut out, text)?;
    Ok(Items::from_vec(out))
}

/// Adds the word that stands for a text, as [`write_word`] gives it, at the end of `out`. An `Err` leaves `out` as it
/// was.
pub fn push_word(out: &mut Vec<u8>, text: &[u8]) -> Result<(), AllocError>
    ensures ok { OnOk result (out.new.items ≡ out.old.items ++ coded text.now) }
    ensures err { OnErr result (out.new.items ≡ out.old.items) }
    ensures read_again { decoded (coded text.now) ≡ Some text.now }
{
    let start = out.len();
    let pushed = push_coded(out, text);
    if pushed.is_err() {
        out.truncate(start);
    }
    pushed
}

/// The same, but that an `Err` may leave a front of the word behind.
fn push_coded(out: &mut Vec<u8>, text: &[u8]) -> Result<(), AllocError>
    ensures ok { OnOk result (out.new.items ≡ out.old.items ++ coded text.now) }
    ensures kept { take (length out.old.items) out.new.items ≡ out.old.items }
{
    if text.is_empty() {
        return out.extend_from_slice(b"-");
    }
    if text == b"-".as_slice() {
        return out.extend_from_slice(b"%2D");
    }
    if has_coded(text) {
        push_bytes(out, text)
    } else {
        out.extend_from_slice(text)
    }
}

/// Whether a byte stands there that is coded in output.
fn has_coded(text: &[u8]) -> bool
    ensures { result ≡ list_any is_coded text.now }
{
    text.iter().any(|b| *b <= b' ' || *b == b'%' || *b == 0x7F)
}

/// Adds each byte of a text as it is coded in output. An `Err` may leave some of them behind.
fn push_bytes(out: &mut Vec<u8>, text: &[u8]) -> Result<(), AllocError>
    ensures ok { OnOk result (out.new.items ≡ out.old.items ++ flat_map coded_byte text.now) }
    ensures kept { take (length out.old.items) out.new.items ≡ out.old.items }
{
    for byte in text {
        push_byte(out, *byte)?;
    }
    Ok(())
}

/// Adds a byte as it is coded in output. An `Err` leaves `out` as it was.
fn push_byte(out: &mut Vec<u8>, byte: u8) -> Result<(), AllocError>
    ensures { out.new.items ≡ (if is_ok result then out.old.items
        ++ coded_byte byte else out.old.items) }
{
    if byte <= b' ' || byte == b'%' || byte == 0x7F {
        push_escape(out, byte)
    } else {
        out.extend_from_slice(&[byte])
    }
}

/// Adds `%` and the digits of a byte. An `Err` leaves `out` as it was.
fn push_escape(out: &mut Vec<u8>, byte: u8) -> Result<(), AllocError>
    ensures { out.new.items ≡ (if is_ok result then out.old.items
        ++ escape byte else out.old.items) }
{
    out.extend_from_slice(&[b'%', upper_digit(byte / 16), upper_digit(byte % 16)])
}

/// Adds the word that stands for a text inside a block's fields and in lists of endpoints, in which `:` and `,` are coded too.
/// An `Err` may leave a front of the word behind.
#[tactic(auto, unfolding(crate::specs::Words::field))]
pub(crate) fn push_field(out: &mut Vec<u8>, text: &[u8]) -> Result<(), AllocError>
    ensures { OnOk result (out.new.items ≡ out.old.items ++ field text.now) }
{
    if text.is_empty() {
        return out.extend_from_slice(b"-");
    }
    if text == b"-".as_slice() {
        return push_escape(out, b'-');
    }
    push_field_bytes(out, text)
}

/// Adds each byte of a text as it is coded in a field. An `Err` may leave some of them behind.
fn push_field_bytes(out: &mut Vec<u8>, text: &[u8]) -> Result<(), AllocError>
    ensures { OnOk result (out.new.items ≡ out.old.items ++ flat_map field_byte text.now) }
{
    for byte in text {
        push_field_byte(out, *byte)?;
    }
    Ok(())
}

/// Adds a byte as it is coded in a field. An `Err` leaves `out` as it was.
fn push_field_byte(out: &mut Vec<u8>, byte: u8) -> Result<(), AllocError>
    ensures { out.new.items ≡ (if is_ok result then out.old.items
        ++ field_byte byte else out.old.items) }
{
    if byte == b':' || byte == b',' {
        push_escape(out, byte)
    } else {
        push_byte(out, byte)
    }
}

/// The hexadecimal digit of a number below 16, in upper case.
fn upper_digit(value: u8) -> u8
    requires { value < 16 }
    ensures { result ≡ digit_glyph true value }
{
    if value < 10 {
        b'0' + value
    } else {
        b'A' - 10 + value
    }
}
