//! What the words of a request have to be. Only what is said of a malformed one depends on this: whether it is malformed is found out by
//! the reader of requests itself.
use crate::line_flaws::judge_text;
use std::alloc::Global;
use up_bytes::Bytes;
use up_command::is;
use up_explain_can::{Flaw, Why, bad_word};
use up_refs::Reference;
use up_text::{read_int, read_num};

/// Which words stand behind the keyword of a request.
#[derive(Clone, Copy, Debug, PartialEq, Eq)]
pub(crate) enum Form {
    /// One, for a text; what is said where there is none or more.
    Text(Flaw),
    Mkdir,
    Link,
    File,
    Watch,
    SetKey,
    Put,
    /// It is no keyword.
    Unknown,
}

/// Which words stand behind a keyword.
pub(crate) fn form_of(keyword: &[u8]) -> Form {
    if is(keyword, b"mkdir") {
        Form::Mkdir
    } else if is(keyword, b"link") {
        Form::Link
    } else if is(keyword, b"file") {
        Form::File
    } else if is(keyword, b"watch") {
        Form::Watch
    } else if is(keyword, b"setkey") {
        Form::SetKey
    } else if is(keyword, b"put") {
        Form::Put
    } else {
        text_form(keyword)
    }
}

/// The same of keywords with one word behind them.
fn text_form(keyword: &[u8]) -> Form {
    if is(keyword, b"glob") {
        Form::Text(Flaw::PatternWords)
    } else if is(keyword, b"store") {
        Form::Text(Flaw::BytesWords)
    } else if is(keyword, b"fetch") || is(keyword, b"drop") {
        Form::Text(Flaw::ReferenceWords)
    } else if is(keyword, b"key") {
        Form::Text(Flaw::UserWords)
    } else if asks_of_a_path(keyword) {
        Form::Text(Flaw::PathWords)
    } else {
        Form::Unknown
    }
}

/// Whether the one word behind a keyword is a path.
fn asks_of_a_path(keyword: &[u8]) -> bool {
    is(keyword, b"lookup")
        || is(keyword, b"delete")
        || is(keyword, b"which")
        || is(keyword, b"text")
        || is(keyword, b"get")
}

/// Tells what is wrong with the words behind a keyword of this form.
pub(crate) fn judge_words(
    alloc: Global,
    keyword: &[u8],
    form: Form,
    words: &[Bytes],
) -> Result<(), Why> {
    match (form, words) {
        (Form::Text(_), [text]) => judge_text(alloc, text.as_slice()),
        (Form::Mkdir, [path, time, sequence]) => judge_plain(alloc, path, time, sequence),
        (Form::Link, [path, target, time, sequence]) => {
            judge_entry(alloc, path, target, time, sequence)
        }
        (Form::Put, [path, time, sequence, bytes]) => {
            judge_entry(alloc, path, bytes, time, sequence)
        }
        (Form::File, [path, packing, time, sequence, packdata, blocks]) => {
            judge_entry(alloc, path, packdata, time, sequence)?;
            judge_packed(alloc, packing, blocks)
        }
        (Form::Watch, [path, sequence]) => judge_watch(alloc, path, sequence),
        (Form::SetKey, [user, dirs, stores, key]) => judge_record(alloc, user, dirs, stores, key),
        _ => Err(bad_word(alloc, keyword, count_flaw(form))),
    }
}

/// What is said where the words behind a keyword are too few or too many.
fn count_flaw(form: Form) -> Flaw {
    match form {
        Form::Text(flaw) => flaw,
        Form::Mkdir => Flaw::MkdirWords,
        Form::Link => Flaw::LinkWords,
        Form::Put => Flaw::PutWords,
        Form::File => Flaw::FileWords,
        Form::Watch => Flaw::WatchWords,
        Form::SetKey => Flaw::SetKeyWords,
        Form::Unknown => Flaw::Request,
    }
}

/// Judges the path, the time and the sequence of an entry.
fn judge_plain(alloc: Global, path: &Bytes, time: &Bytes, sequence: &Bytes) -> Result<(), Why> {
    judge_text(alloc, path.as_slice())?;
    judge_int(alloc, time.as_slice())?;
    judge_int(alloc, sequence.as_slice())
}

/// The same, and a text that stands beside them.
fn judge_entry(
    alloc: Global,
    path: &Bytes,
    text: &Bytes,
    time: &Bytes,
    sequence: &Bytes,
) -> Result<(), Why> {
    judge_plain(alloc, path, time, sequence)?;
    judge_text(alloc, text.as_slice())
}

/// Judges the packing and the blocks of a file.
fn judge_packed(alloc: Global, packing: &Bytes, blocks: &Bytes) -> Result<(), Why> {
    judge_packing(alloc, packing.as_slice())?;
    judge_blocks(alloc, blocks.as_slice())
}

/// Judges the path of a watch, and from where on.
fn judge_watch(alloc: Global, path: &Bytes, sequence: &Bytes) -> Result<(), Why> {
    judge_text(alloc, path.as_slice())?;
    judge_int(alloc, sequence.as_slice())
}

/// Judges a key record. Of its lists of endpoints no more can be malformed than of a text.
fn judge_record(
    alloc: Global,
    user: &Bytes,
    dirs: &Bytes,
    stores: &Bytes,
    key: &Bytes,
) -> Result<(), Why> {
    judge_text(alloc, user.as_slice())?;
    judge_text(alloc, dirs.as_slice())?;
    judge_text(alloc, stores.as_slice())?;
    judge_text(alloc, key.as_slice())
}

/// Judges a number that may be negative.
fn judge_int(alloc: Global, word: &[u8]) -> Result<(), Why> {
    if read_int(word).is_some() {
        Ok(())
    } else {
        Err(bad_word(alloc, word, number_flaw(word)))
    }
}

/// What is wrong with a word that is no number.
fn number_flaw(word: &[u8]) -> Flaw {
    let digits = match word {
        [b'-', digits @ ..] => digits,
        _ => word,
    };
    if digits.is_empty() || !digits.iter().all(|b| b.is_ascii_digit()) {
        Flaw::Number
    } else if digits.starts_with(b"0") {
        Flaw::NumberZero
    } else {
        Flaw::NumberSize
    }
}

/// Judges a number below 256.
fn judge_packing(alloc: Global, word: &[u8]) -> Result<(), Why> {
    match read_num(word) {
        Some(number) if number < 256 => Ok(()),
        _ => Err(bad_word(alloc, word, Flaw::Packing)),
    }
}

/// Judges the blocks of a file, each of which begins where the one before it ends.
fn judge_blocks(alloc: Global, word: &[u8]) -> Result<(), Why> {
    if word == b"-".as_slice() {
        return Ok(());
    }
    let mut offset: Option<u64> = Some(0);
    for piece in word.split(|b| *b == b',') {
        let Some(begins) = offset else {
            return Err(bad_word(alloc, word, Flaw::BlockEnd));
        };
        offset = begins.checked_add(block_size(alloc, piece)?);
    }
    Ok(())
}

/// The size of a block, which stands behind its reference and a colon.
fn block_size(alloc: Global, piece: &[u8]) -> Result<u64, Why> {
    let Some(colon) = piece.iter().position(|b| *b == b':') else {
        return Err(bad_word(alloc, piece, Flaw::Reference));
    };
    if Reference::parse(&piece[..colon]).is_none() {
        return Err(bad_word(alloc, piece, Flaw::Reference));
    }
    match read_num(&piece[colon + 1..]) {
        Some(size) => Ok(size),
        None => Err(bad_word(alloc, piece, Flaw::BlockSize)),
    }
}
