//! Whether words are a line that asks something, whoever asks.

ghost use Rattle.std.specs.Prelude.{◌≡◌, ◌||◌, ℕ, is_some};
ghost use Rattle.up_names.specs.Texts.{UserName};
ghost use Rattle.up_text.specs.Numbers.{int_of};
ghost use Rattle.up_text.specs.Requests.{byte_of, client_line_of, file_line, kind_client, kind_in, kind_request, link_line, mkdir_line, one_text, plain_entry, put_line, request_of, setkey_line, watch_line};

use crate::lists::{is_blocks, is_endpoints};
use crate::numbers::{read_int, read_num};
use crate::requests::LineKind;
use crate::words::is_word;
use up_bytes::Bytes;

/// Whether words of which the kind is known ask something of a server or have the client do something; for whichever user. It takes no
/// memory.
#[tactic(auto, unfolding(crate::specs::Requests::request_of, crate::specs::Requests::client_line_of))]
pub(crate) fn is_request(kind: Option<LineKind>, words: &[Bytes]) -> bool
    requires { kind ≡ kind_in words.now }
    ensures { (user : UserName) → result
        ≡ (is_some (request_of user words.now) || is_some (client_line_of words.now)) }
{
    let Some((_, arguments)) = words.split_first() else {
        return false;
    };
    match kind {
        Some(kind) => fits(kind, arguments),
        None => false,
    }
}

/// Whether these are words that a line of a kind takes.
#[tactic(auto, unfolding(crate::specs::Requests::kind_request, crate::specs::Requests::kind_client, crate::specs::Requests::get_line))]
fn fits(kind: LineKind, words: &[Bytes]) -> bool
    ensures { (user : UserName) → result
        ≡ (is_some (kind_request user kind words.now) || is_some (kind_client kind words.now)) }
{
    match kind {
        LineKind::Mkdir => is_mkdir(words),
        LineKind::Link => is_link(words),
        LineKind::File => is_file(words),
        LineKind::Watch => is_watch(words),
        LineKind::SetKey => is_setkey(words),
        LineKind::Put => is_put(words),
        LineKind::Lookup
        | LineKind::Delete
        | LineKind::Glob
        | LineKind::Which
        | LineKind::Text
        | LineKind::Store
        | LineKind::Fetch
        | LineKind::Drop
        | LineKind::Key
        | LineKind::Get => is_one_text(words),
    }
}

/// Whether there is one word, which stands for a text.
#[tactic(auto, unfolding(crate::specs::Requests::one_text))]
fn is_one_text(words: &[Bytes]) -> bool
    ensures { result ≡ is_some (one_text words.now) }
{
    match words {
        [word] => is_word(word.as_slice()),
        _ => false,
    }
}

/// Whether a word is a number, which may be negative.
fn is_int(word: &Bytes) -> bool
    ensures { result ≡ is_some (int_of word.now) }
{
    read_int(word.as_slice()).is_some()
}

/// Whether a word is a number below 256.
fn is_byte(word: &Bytes) -> bool
    ensures { result ≡ is_some (byte_of word.now) }
{
    match read_num(word.as_slice()) {
        Some(number) => number < 256,
        None => false,
    }
}

/// Whether these are the words of a path, a time and a sequence.
#[tactic(auto, unfolding(crate::specs::Requests::plain_entry))]
fn is_plain(path: &Bytes, time: &Bytes, sequence: &Bytes) -> bool
    ensures { (user : UserName) (attr : ℕ) → result
        ≡ is_some (plain_entry user attr path.now time.now sequence.now) }
{
    is_word(path.as_slice()) && is_int(time) && is_int(sequence)
}

/// `PATH TIME SEQ`.
#[tactic(auto, unfolding(crate::specs::Requests::mkdir_line))]
fn is_mkdir(words: &[Bytes]) -> bool
    ensures { (user : UserName) → result ≡ is_some (mkdir_line user words.now) }
{
    match words {
        [path, time, sequence] => is_plain(path, time, sequence),
        _ => false,
    }
}

/// `PATH TARGET TIME SEQ`.
#[tactic(auto, unfolding(crate::specs::Requests::link_line))]
fn is_link(words: &[Bytes]) -> bool
    ensures { (user : UserName) → result ≡ is_some (link_line user words.now) }
{
    match words {
        [path, target, time, sequence] => {
            is_plain(path, time, sequence) && is_word(target.as_slice())
        }
        _ => false,
    }
}

/// `PATH PACKING TIME SEQ PACKDATA BLOCKS`.
#[tactic(auto, unfolding(crate::specs::Requests::file_line, crate::specs::Requests::filled))]
fn is_file(words: &[Bytes]) -> bool
    ensures { (user : UserName) → result ≡ is_some (file_line user words.now) }
{
    match words {
        [path, packing, time, sequence, packdata, blocks] => {
            is_plain(path, time, sequence)
                && is_byte(packing)
                && is_word(packdata.as_slice())
                && is_blocks(blocks.as_slice())
        }
        _ => false,
    }
}

/// `PATH SEQ`.
#[tactic(auto, unfolding(crate::specs::Requests::watch_line))]
fn is_watch(words: &[Bytes]) -> bool
    ensures { result ≡ is_some (watch_line words.now) }
{
    match words {
        [path, sequence] => is_word(path.as_slice()) && is_int(sequence),
        _ => false,
    }
}

/// `USER DIRS STORES KEY`.
#[tactic(auto, unfolding(crate::specs::Requests::setkey_line))]
fn is_setkey(words: &[Bytes]) -> bool
    ensures { result ≡ is_some (setkey_line words.now) }
{
    match words {
        [user, dirs, stores, key] => {
            is_word(user.as_slice())
                && is_endpoints(dirs.as_slice())
                && is_endpoints(stores.as_slice())
                && is_word(key.as_slice())
        }
        _ => false,
    }
}

/// `PATH TIME SEQ BYTES`.
#[tactic(auto, unfolding(crate::specs::Requests::put_line))]
fn is_put(words: &[Bytes]) -> bool
    ensures { result ≡ is_some (put_line words.now) }
{
    match words {
        [path, time, sequence, bytes] => {
            is_word(path.as_slice())
                && is_int(time)
                && is_int(sequence)
                && is_word(bytes.as_slice())
        }
        _ => false,
    }
}
