//! What the words of `upspin serve` say.
ghost use Rattle.std.specs.Prelude.{◌≡◌, ◌++◌, [], ◌∷◌, codes, false, true, not, map, option_map, position, string_bytes, None, Some, IfNone, IfOk, IfSome, if◌then◌else◌};
ghost use Rattle.std.specs.List.{after_first, before_first, list_all, list_any};
ghost use Rattle.std.specs.Option.{option_and_then, option_copied};
ghost use Rattle.up_command.specs.Users.{are_different};
ghost use Rattle.up_policy.specs.Trees.{owns_snapshots};
ghost use Rattle.up_serve.specs.Plans.{IsPlan, address_in, all_read, are_owners, feed_in, given_feed, if_owners, is_equals, once, options_plan, peer_in, plan_of, user_in, values_of};
ghost use Rattle.up_sign.specs.HostNames.{host_named, is_host_name};
ghost use Rattle.up_text.specs.Numbers.{num_of};

use crate::options::{are_pairs, at_most_once, lacks, next_value, once};
use std::alloc::{AllocError, Global};
use up_bytes::{Bytes, copy_of};
use up_command::are_different;
use up_entry::is_address;
use up_lists::Items;
use up_names::{NameFault, User, parse_user};
use up_policy::owns_snapshots;
use up_sign::HostName;
use up_text::read_num;

/// What a server is to do, by the words of `upspin serve`. Each field is the value of the option of its name, as it stands.
#[derive(Drop)]
pub struct ServePlan {
    /// The address at which it listens: 1 to 255 bytes from 0x21 to 0x7E.
    pub listen: Bytes,
    /// The host's name: 1 to 32 of `a-z 0-9`.
    pub host: Bytes,
    /// The user as whom the host asks others.
    pub operator: User,
    /// Whose trees it has, in the order of the words: all different, and no snapshot user among them.
    pub trees: Items<User>,
    /// The folder of its logs.
    pub folder: Bytes,
    /// The path of the program that judges signatures.
    pub helper: Bytes,
    /// The path of the text of users to be enrolled; empty where there is none.
    pub enrol: Bytes,
    /// Whom it asks for the groups of which owner, by address.
    pub peers: Items<(User, Bytes)>,
    /// After how many connections it ends.
    pub connections: u64,
    /// The address at which it listens for followers, of the same form as `listen`; empty where there is none.
    pub feed: Bytes,
    /// After how many connections of followers it ends; 0 where there is no such address.
    pub feeds: u64,
}

/// The plan that words say: `serve`, and then pairs of an option and its value, in any order. `None` exactly where they do not fit. The
/// options are `--listen`, `--host`, `--operator`, `--folder`, `--helper` and `--connections`, each once; `--enrol`, at most once; `--feed`
/// and `--feeds`, both once or neither; and `--tree` and `--peer`, any number of times. A value is read as it stands; a peer's is a user,
/// `=` and an address.
#[tactic(auto, unfolding(crate::specs::Plans::plan_of))]
pub fn serve_words(alloc: Global, words: &[String]) -> Result<Option<ServePlan>, AllocError>
    ensures plan { IfOk result (λ found. found ≡ plan_of (map string_bytes words.now)) }
    ensures keeps { IfOk result (λ found. IfSome found IsPlan) }
{
    let Some((command, options)) = words.split_first() else {
        return Ok(None);
    };
    if command.as_str() != "serve" || !are_pairs(options) {
        return Ok(None);
    }
    options_plan(alloc, options)
}

// The plan that options and their values say.
#[tactic(auto, unfolding(crate::specs::Plans::options_plan), using(crate::proofs::DifferentLemmas::keeps))]
fn options_plan(alloc: Global, options: &[String]) -> Result<Option<ServePlan>, AllocError>
    ensures plan { IfOk result (λ found. found ≡ options_plan (map string_bytes options.now)) }
    ensures keeps { IfOk result (λ found. IfSome found IsPlan) }
{
    let Some(listen) = address_in(options, "--listen") else {
        return Ok(None);
    };
    let Some(folder) = once(options, "--folder") else {
        return Ok(None);
    };
    let Some(helper) = once(options, "--helper") else {
        return Ok(None);
    };
    let Some(enrol) = at_most_once(options, "--enrol") else {
        return Ok(None);
    };
    let Some(connections) = number_in(options, "--connections") else {
        return Ok(None);
    };
    let Some((feed, feeds)) = feed_in(options) else {
        return Ok(None);
    };
    let Some(host) = host_in(alloc, options)? else {
        return Ok(None);
    };
    let Some(operator) = operator_in(alloc, options)? else {
        return Ok(None);
    };
    let Some(trees) = trees_in(alloc, options)? else {
        return Ok(None);
    };
    let Some(peers) = peers_in(alloc, options)? else {
        return Ok(None);
    };
    Ok(Some(ServePlan {
        listen: text_of(alloc, listen)?,
        host,
        operator,
        trees,
        folder: text_of(alloc, folder)?,
        helper: text_of(alloc, helper)?,
        enrol: text_of(alloc, enrol)?,
        peers,
        connections,
        feed: text_of(alloc, feed)?,
        feeds,
    }))
}

fn text_of(alloc: Global, value: &str) -> Result<Bytes, AllocError>
    ensures { IfOk result (λ text. text ≡ value.now) }
{
    copy_of(alloc, value.as_bytes())
}

// The address that is the value of an option.
fn address_in<'a>(options: &'a [String], option: &str) -> Option<&'a str>
    ensures { option_copied result ≡ option_and_then address_in
        (once (values_of option.now (map string_bytes options.now))) }
{
    let address = once(options, option)?;
    if !is_address(address.as_bytes()) {
        return None;
    }
    Some(address)
}

// The number that is the value of an option.
fn number_in(options: &[String], option: &str) -> Option<u64>
    ensures { result ≡ option_and_then num_of
        (once (values_of option.now (map string_bytes options.now))) }
{
    read_num(once(options, option)?.as_bytes())
}

// Where followers are listened for, and after how many of their connections the server ends.
fn feed_in(options: &[String]) -> Option<(&str, u64)>
    ensures { option_map (λ found. (found.0.now, found.1)) result
        ≡ feed_in (values_of (codes "--feed") (map string_bytes options.now))
        (values_of (codes "--feeds") (map string_bytes options.now)) }
{
    if lacks(options, "--feed") && lacks(options, "--feeds") {
        return Some(("", 0));
    }
    given_feed(options)
}

// The same where one of the two options stands.
#[tactic(auto, unfolding(crate::specs::Plans::given_feed))]
fn given_feed(options: &[String]) -> Option<(&str, u64)>
    ensures { option_map (λ found. (found.0.now, found.1)) result
        ≡ given_feed (values_of (codes "--feed") (map string_bytes options.now))
        (values_of (codes "--feeds") (map string_bytes options.now)) }
{
    let address = address_in(options, "--feed")?;
    let number = number_in(options, "--feeds")?;
    Some((address, number))
}

// The name of the host.
#[tactic(auto, using(crate::proofs::DifferentLemmas::keeps))]
fn host_in(alloc: Global, options: &[String]) -> Result<Option<Bytes>, AllocError>
    ensures named { IfOk result (λ found. IfSome found (λ name. is_host_name name ≡ true)) }
    ensures name { IfOk result (λ found. found ≡ option_and_then host_named
        (once (values_of (codes "--host") (map string_bytes options.now)))) }
{
    let Some(name) = once(options, "--host") else {
        return Ok(None);
    };
    match HostName::read(alloc, name.as_bytes())? {
        Some(_) => Ok(Some(text_of(alloc, name)?)),
        None => Ok(None),
    }
}

// The user as whom the host asks others.
fn operator_in(alloc: Global, options: &[String]) -> Result<Option<User>, AllocError>
    ensures { IfOk result (λ found. found ≡ option_and_then user_in
        (once (values_of (codes "--operator") (map string_bytes options.now)))) }
{
    match once(options, "--operator") {
        Some(name) => user_in(alloc, name.as_bytes()),
        None => Ok(None),
    }
}

// The user that a text names.
fn user_in(alloc: Global, text: &[u8]) -> Result<Option<User>, AllocError>
    ensures { IfOk result (λ found. found ≡ user_in text.now) }
{
    match parse_user(alloc, text) {
        Ok(user) => Ok(Some(user)),
        Err(NameFault::OutOfMemory) => Err(AllocError),
        Err(_) => Ok(None),
    }
}

// The owners of the trees.
fn trees_in(alloc: Global, options: &[String]) -> Result<Option<Items<User>>, AllocError>
    ensures owners { IfOk result (λ found. IfSome found (λ trees. are_owners trees ≡ true)) }
    ensures trees { IfOk result (λ found. found ≡ option_and_then if_owners
        (all_read user_in (values_of (codes "--tree") (map string_bytes options.now)))) }
{
    let Some(trees) = users_in(alloc, options)? else {
        return Ok(None);
    };
    if !are_owners(alloc, trees.as_slice())? {
        return Ok(None);
    }
    Ok(Some(trees))
}

// The users that the trees' options name.
#[tactic(auto, using(crate::proofs::ReadLemmas::reads))]
fn users_in(alloc: Global, options: &[String]) -> Result<Option<Items<User>>, AllocError>
    ensures { IfOk result (λ found. found ≡ all_read user_in
        (values_of (codes "--tree") (map string_bytes options.now))) }
{
    let mut users = Items::new(alloc);
    let mut left = options;
    while let Some((value, rest)) = next_value(left, "--tree") {
        if !add_user(alloc, &mut users, value)? {
            return Ok(None);
        }
        left = rest;
    }
    Ok(Some(users))
}

// Adds the user that a value names, and answers whether it names one.
fn add_user(alloc: Global, users: &mut Items<User>, value: &str) -> Result<bool, AllocError>
    ensures { IfOk result (λ good. option_map (λ user. users.old ++ user ∷ []) (user_in value.now)
        ≡ (if good then Some users.new else None)) }
{
    let Some(user) = user_in(alloc, value.as_bytes())? else {
        return Ok(false);
    };
    users.push(user)?;
    Ok(true)
}

fn are_owners(alloc: Global, owners: &[User]) -> Result<bool, AllocError>
    ensures { IfOk result (λ are. are ≡ are_owners owners.now) }
{
    if !are_plain(owners) {
        return Ok(false);
    }
    are_different(alloc, owners)
}

// Whether none of these users is a snapshot user.
fn are_plain(owners: &[User]) -> bool
    ensures { result ≡ list_all (λ owner. not (owns_snapshots owner)) owners.now }
{
    owners.iter().all(|owner| !owns_snapshots(owner))
}

// The peers.
#[tactic(auto, using(crate::proofs::ReadLemmas::reads))]
fn peers_in(alloc: Global, options: &[String]) -> Result<Option<Items<(User, Bytes)>>, AllocError>
    ensures { IfOk result (λ found. found ≡ all_read peer_in
        (values_of (codes "--peer") (map string_bytes options.now))) }
{
    let mut peers = Items::new(alloc);
    let mut left = options;
    while let Some((value, rest)) = next_value(left, "--peer") {
        if !add_peer(alloc, &mut peers, value)? {
            return Ok(None);
        }
        left = rest;
    }
    Ok(Some(peers))
}

// Adds the peer that a value names, and answers whether it names one.
fn add_peer(
    alloc: Global,
    peers: &mut Items<(User, Bytes)>,
    value: &str,
) -> Result<bool, AllocError>
    ensures { IfOk result (λ good. option_map (λ peer. peers.old ++ peer ∷ []) (peer_in value.now)
        ≡ (if good then Some peers.new else None)) }
{
    let Some(peer) = peer_in(alloc, value.as_bytes())? else {
        return Ok(false);
    };
    peers.push(peer)?;
    Ok(true)
}

// The peer that a value names: a user, `=`, and an address.
#[tactic(auto, unfolding(crate::specs::Plans::peer_in))]
fn peer_in(alloc: Global, value: &[u8]) -> Result<Option<(User, Bytes)>, AllocError>
    ensures { IfOk result (λ found. found ≡ peer_in value.now) }
{
    let Some((name, address)) = cut_at_equals(value) else {
        return Ok(None);
    };
    if !is_address(address) {
        return Ok(None);
    }
    let Some(user) = user_in(alloc, name)? else {
        return Ok(None);
    };
    let address = copy_of(alloc, address)?;
    Ok(Some((user, address)))
}

// What stands before the first `=`, and behind it. `None` where there is none.
#[tactic(auto, using(crate::proofs::WordLemmas::cuts))]
fn cut_at_equals(text: &[u8]) -> Option<(&[u8], &[u8])>
    ensures some { IfSome result (λ cut. list_any is_equals text.now ≡ true) }
    ensures before { IfSome result (λ cut. cut.0.now ≡ before_first is_equals text.now) }
    ensures behind { IfSome result (λ cut. cut.1.now ≡ after_first is_equals text.now) }
    ensures none { IfNone result (list_any is_equals text.now ≡ false) }
{
    let place = place_of_equals(text)?;
    Some((&text[..place], &text[place + 1..]))
}

fn place_of_equals(text: &[u8]) -> Option<usize>
    ensures { result ≡ position is_equals text.now }
{
    text.iter().position(|b| *b == b'=')
}
