//! The lines of a script: what each says by itself.
ghost use Rattle.std.specs.Prelude.{◌≡◌, ◌≢◌, ◌++◌, [], ◌∷◌, length, not, IfNone, IfOk, IfSome, None, Some, option_map, if◌then◌else◌};
ghost use Rattle.std.specs.List.{list_all, slice_split};
ghost use Rattle.std.specs.Option.{option_and_then, option_copied};
ghost use Rattle.up_policy.specs.Trees.{owns_snapshots};
ghost use Rattle.up_text.specs.Lines.{words_left};
ghost use Rattle.up_text.specs.Lists.{is_comma};
ghost use Rattle.up_text.specs.Words.{decoded};
ghost use Rattle.up_command.specs.Users.{are_different};
ghost use Rattle.up_command.specs.Words.{key_named, user_named};
ghost use Rattle.up_script_lines.specs.ScriptLines.{are_owners, enrol_line, host_line, line_of, open_line, session_line, session_named, trees_named, users_named};
ghost use Rattle.up_script_lines.specs.Askable.{IsAskable};

use std::alloc::{AllocError, Global};
use up_bytes::Bytes;
use up_command::{is, key_named, user_named, words_of};
use up_lists::Items;
use up_names::User;
use up_policy::owns_snapshots;
use up_sign::HostName;
use up_text::{ClientLine, LineWords, cut_word, is_silent, read_num, read_word, three_words};

/// How many trees a host may have.
const MOST_TREES: u64 = 8;

/// The greatest number of a session.
const LAST_SESSION: u64 = 99;

/// What a line says.
#[derive(Drop)]
pub enum ScriptLine {
    /// An empty line or a comment.
    Silent,
    /// `host NAME OPERATOR TREES` opens a host.
    Host(NewHost),
    /// `enrol NAME USER KEY` adds a user's key to those of a host.
    Enrol(NewUser),
    /// `open N NAME USER PROOF` signs a user on.
    Open(NewSession),
    /// `N` and the words of a request, in that session.
    Request(u64, LineWords),
    /// `N put ..` or `N get ..`: what the client does in that session.
    Client(u64, ClientLine),
}

/// A host that is to be opened.
#[derive(Drop)]
pub struct NewHost {
    pub name: HostName,
    pub operator: User,
    /// At most 8, all different, and no snapshot user among them.
    pub owners: Items<User>,
}

/// A user who is to be enrolled at a host.
#[derive(Drop)]
pub struct NewUser {
    pub host: HostName,
    pub user: User,
    /// 1 to 1,024 bytes.
    pub key: Bytes,
}

/// A user who signs on at a host.
#[derive(Drop)]
pub struct NewSession {
    /// 0 to 99.
    pub number: u64,
    pub host: HostName,
    pub user: User,
    pub proof: Bytes,
}

/// What a line says, or `None` where it is malformed whatever came before it.
#[tactic(auto, unfolding(crate::specs::ScriptLines::line_of, crate::specs::ScriptLines::words_line))]
pub fn script_line(alloc: Global, line: &[u8]) -> Result<Option<ScriptLine>, AllocError>
    ensures says { IfOk result (λ found. found ≡ line_of line.now) }
    ensures asks { IfOk result (λ found. IfSome found IsAskable) }
{
    if is_silent(line) {
        return Ok(Some(ScriptLine::Silent));
    }
    let (first, words) = cut_word(line);
    if is(first, b"host") {
        host_line(alloc, words)
    } else if is(first, b"enrol") {
        enrol_line(alloc, words)
    } else if is(first, b"open") {
        open_line(alloc, words)
    } else {
        session_line(alloc, first, words)
    }
}

// `host NAME OPERATOR TREES`
#[tactic(auto, unfolding(crate::specs::ScriptLines::host_line))]
fn host_line(alloc: Global, words: Option<&[u8]>) -> Result<Option<ScriptLine>, AllocError>
    ensures says { IfOk result (λ found. found ≡ host_line (words_left (option_copied words.entry))) }
    ensures asks { IfOk result (λ found. IfSome found IsAskable) }
{
    let Some((name, operator, trees)) = three_words(words) else {
        return Ok(None);
    };
    let Some(name) = HostName::read(alloc, name)? else {
        return Ok(None);
    };
    let Some(operator) = user_named(alloc, operator)? else {
        return Ok(None);
    };
    host_with_trees(alloc, name, operator, trees)
}

// A `host` line whose name and operator were read, with the trees that a word names.
fn host_with_trees(
    alloc: Global,
    name: HostName,
    operator: User,
    trees: &[u8],
) -> Result<Option<ScriptLine>, AllocError>
    ensures says { IfOk result (λ found. found ≡ option_and_then (λ owners. Some (ScriptLine.Host
        (record { name = name; operator = operator; owners = owners }))) (trees_named trees.now)) }
    ensures asks { IfOk result (λ found. IfSome found IsAskable) }
{
    let Some(owners) = trees_named(alloc, trees)? else {
        return Ok(None);
    };
    Ok(Some(ScriptLine::Host(NewHost {
        name,
        operator,
        owners,
    })))
}

// `enrol NAME USER KEY`
#[tactic(auto, unfolding(crate::specs::ScriptLines::enrol_line))]
fn enrol_line(alloc: Global, words: Option<&[u8]>) -> Result<Option<ScriptLine>, AllocError>
    ensures says { IfOk result (λ found. found ≡ enrol_line (words_left (option_copied words.entry))) }
    ensures asks { IfOk result (λ found. IfSome found IsAskable) }
{
    let Some((host, user, key)) = three_words(words) else {
        return Ok(None);
    };
    let Some(host) = HostName::read(alloc, host)? else {
        return Ok(None);
    };
    let Some(user) = user_named(alloc, user)? else {
        return Ok(None);
    };
    user_with_key(alloc, host, user, key)
}

// An `enrol` line whose host and user were read, with the key that a word names.
fn user_with_key(
    alloc: Global,
    host: HostName,
    user: User,
    key: &[u8],
) -> Result<Option<ScriptLine>, AllocError>
    ensures says { IfOk result (λ found. found ≡ option_and_then (λ key. Some (ScriptLine.Enrol
        (record { host = host; user = user; key = key }))) (key_named key.now)) }
    ensures asks { IfOk result (λ found. IfSome found IsAskable) }
{
    let Some(key) = key_named(alloc, key)? else {
        return Ok(None);
    };
    Ok(Some(ScriptLine::Enrol(NewUser { host, user, key })))
}

// `open N NAME USER PROOF`
#[tactic(auto, unfolding(crate::specs::ScriptLines::open_line))]
fn open_line(alloc: Global, words: Option<&[u8]>) -> Result<Option<ScriptLine>, AllocError>
    ensures says { IfOk result (λ found. found ≡ open_line (words_left (option_copied words.entry))) }
    ensures asks { IfOk result (λ found. IfSome found IsAskable) }
{
    let Some((number, host, user, proof)) = four_words(words) else {
        return Ok(None);
    };
    let Some(number) = session_named(number) else {
        return Ok(None);
    };
    let Some(host) = HostName::read(alloc, host)? else {
        return Ok(None);
    };
    let Some(user) = user_named(alloc, user)? else {
        return Ok(None);
    };
    session_with_proof(alloc, number, host, user, proof)
}

// An `open` line whose host and user were read, with the proof that a word stands for.
fn session_with_proof(
    alloc: Global,
    number: u64,
    host: HostName,
    user: User,
    proof: &[u8],
) -> Result<Option<ScriptLine>, AllocError>
    ensures says { IfOk result (λ found. found ≡ option_and_then (λ proof. Some (ScriptLine.Open
        (record { number = number; host = host; user = user; proof = proof })))
        (decoded proof.now)) }
    ensures asks { IfOk result (λ found. IfSome found IsAskable) }
{
    let Some(proof) = read_word(alloc, proof)? else {
        return Ok(None);
    };
    Ok(Some(ScriptLine::Open(NewSession {
        number,
        host,
        user,
        proof,
    })))
}

// `N` and the words of a request, or of a put or get of the client
#[tactic(auto, unfolding(crate::specs::ScriptLines::session_line))]
fn session_line(
    alloc: Global,
    word: &[u8],
    words: Option<&[u8]>,
) -> Result<Option<ScriptLine>, AllocError>
    ensures says { IfOk result (λ found.
        found ≡ session_line word.now (words_left (option_copied words.entry))) }
    ensures asks { IfOk result (λ found. IfSome found IsAskable) }
{
    let Some(number) = session_named(word) else {
        return Ok(None);
    };
    let words = LineWords::new(words_of(alloc, words)?);
    if let Some(call) = words.client_line(alloc)? {
        return Ok(Some(ScriptLine::Client(number, call)));
    }
    if !words.is_request() {
        return Ok(None);
    }
    Ok(Some(ScriptLine::Request(number, words)))
}

/// What is left of a line as four words. `None` where it has fewer or more.
fn four_words(words: Option<&[u8]>) -> Option<(&[u8], &[u8], &[u8], &[u8])>
    ensures some { IfSome result (λ cut. words_left (option_copied words.entry)
        ≡ cut.0.now ∷ cut.1.now ∷ cut.2.now ∷ cut.3.now ∷ []) }
    ensures none { IfNone result (length (words_left (option_copied words.entry)) ≢ 4) }
{
    let (first, after) = cut_word(words?);
    let (second, third, fourth) = three_words(after)?;
    Some((first, second, third, fourth))
}

/// The number of a session that a word is.
#[tactic(auto, unfolding(crate::specs::ScriptLines::session_named))]
pub fn session_named(word: &[u8]) -> Option<u64>
    ensures { result ≡ session_named word.now }
{
    let number = read_num(word)?;
    if number > LAST_SESSION {
        return None;
    }
    Some(number)
}

/// The owners of a host's trees that a word names.
#[tactic(auto, unfolding(crate::specs::ScriptLines::trees_named))]
fn trees_named(alloc: Global, word: &[u8]) -> Result<Option<Items<User>>, AllocError>
    ensures { IfOk result (λ found. found ≡ trees_named word.now) }
{
    if word == b"-".as_slice() {
        return Ok(Some(Items::new(alloc)));
    }
    let Some(owners) = users_named(alloc, word)? else {
        return Ok(None);
    };
    if !are_owners(owners.as_slice()) {
        return Ok(None);
    }
    Ok(Some(owners))
}

/// The users of a list that is cut at its commas.
fn users_named(alloc: Global, list: &[u8]) -> Result<Option<Items<User>>, AllocError>
    ensures { IfOk result (λ found. found ≡ users_named (slice_split is_comma list.now)) }
{
    let mut users = Items::new(alloc);
    for word in list.split(|b| *b == b',') {
        if !add_user(alloc, &mut users, word)? {
            return Ok(None);
        }
    }
    Ok(Some(users))
}

/// Adds the user that a word names, and answers whether it names one.
fn add_user(alloc: Global, users: &mut Items<User>, word: &[u8]) -> Result<bool, AllocError>
    ensures { IfOk result (λ good. option_map (λ user. users.old ++ user ∷ []) (user_named word.now)
        ≡ (if good then Some users.new else None)) }
{
    let Some(user) = user_named(alloc, word)? else {
        return Ok(false);
    };
    users.push(user)?;
    Ok(true)
}

fn are_owners(owners: &[User]) -> bool
    ensures { result ≡ are_owners owners.now }
{
    owners.len() as u64 <= MOST_TREES && are_plain(owners) && are_different(owners)
}

/// Whether none of these users is a snapshot user.
fn are_plain(owners: &[User]) -> bool
    ensures { result ≡ list_all (λ owner. not (owns_snapshots owner)) owners.now }
{
    owners.iter().all(|owner| !owns_snapshots(owner))
}

/// Whether no user stands twice; it compares each with all behind it, so the list has to be short.
fn are_different(users: &[User]) -> bool
    ensures { result ≡ are_different users.now }
{
    let mut left = users;
    while let Some((first, rest)) = left.split_first() {
        if rest.contains(first) {
            return false;
        }
        left = rest;
    }
    true
}
