//! What a key server answers to a request.
ghost use Rattle.std.specs.Prelude.{◌≡◌, ◌≢◌, IfOk};
ghost use Rattle.up_ends.specs.Growing.{OnlyGrows};
ghost use Rattle.up_lists.specs.Counts.{HasCause, StaysUnless};
ghost use Rattle.up_keys.specs.Answers.{IsAsked, KeySteps, PutsAsked, ToPut, looked_up, may_put, put_reply, to_put};
ghost use Rattle.up_keys.specs.Keys.{limits_of, log_of};

use crate::bounds::keeps_bounds;
use crate::copying::{copied, record_of};
use crate::keys::Keys;
use std::alloc::{AllocError, Global};
use up_disk::Disk;
use up_entry::What;
use up_journal::AppendWhy;
use up_names::{NameFault, User, parse_user};
use up_rights::Right;
use up_wire::{Done, KeyCard, KeyRecord, Reply, Request};

/// What a key server answers a user who asks a key request: a Lookup is answered to anybody; a Put is for the user that the card
/// names and its base user. The first that fits of `Invalid(Name)`, `Invalid(Key)`, `NotExist` for a Lookup, `Permission` of
/// write, and `Full`; `Io` only where the disk failed, and `OutOfMemory` at any place. An accepted Put adds its record, and no
/// other request adds one.
pub fn key_step<D: Disk>(keys: &mut Keys<D>, user: &User, request: &Request) -> Reply
    requires { IsAsked request.now }
    ensures steps { KeySteps D.Disk user.now request.now keys.old keys.new result }
    ensures cause { HasCause (D.faults keys.old.disk) (D.faults keys.new.disk) (result ≡ Reply.Io) }
    ensures quiet { StaysUnless (D.faults keys.old.disk) (D.faults keys.new.disk) (result ≡ Reply.Io) }
    ensures grows { OnlyGrows log_of (λ keys. D.faults keys.disk) limits_of keys.old keys.new }
{
    match request {
        Request::KeyLookup(text) => looked_up(user.allocator(), keys, text.as_slice()),
        Request::KeyPut(card) => put(keys, user, card),
        Request::Lookup(_)
        | Request::Put(_)
        | Request::Delete(_)
        | Request::Glob(_)
        | Request::WhichAccess(_)
        | Request::Watch(_, _)
        | Request::GroupText(_)
        | Request::Get(_)
        | Request::StorePut(_)
        | Request::StoreDelete(_) => unreachable!(),
    }
}

// The reply to a Lookup of the user that a text names.
#[tactic(auto, unfolding(crate::specs::Answers::looked_up))]
fn looked_up<D: Disk>(alloc: Global, keys: &Keys<D>, text: &[u8]) -> Reply
    ensures answer { result ≢ Reply.OutOfMemory → result ≡ looked_up keys.now.log text.now }
    ensures no_fault { result ≢ Reply.Io }
{
    let user = match parse_user(alloc, text) {
        Ok(user) => user,
        Err(NameFault::OutOfMemory) => return Reply::OutOfMemory,
        Err(_) => return Reply::Invalid(What::Name),
    };
    let Some(known) = keys.lookup(&user) else {
        return Reply::NotExist;
    };
    match copied(alloc, known) {
        Ok(copy) => Reply::Ok(Done::Key(copy)),
        Err(_) => Reply::OutOfMemory,
    }
}

// The reply to a Put of a card.
fn put<D: Disk>(keys: &mut Keys<D>, user: &User, card: &KeyCard) -> Reply
    ensures steps { PutsAsked D.Disk (to_put user.now card.now) keys.old keys.new result }
    ensures cause { HasCause (D.faults keys.old.disk) (D.faults keys.new.disk) (result ≡ Reply.Io) }
    ensures quiet { StaysUnless (D.faults keys.old.disk) (D.faults keys.new.disk) (result ≡ Reply.Io) }
    ensures grows { OnlyGrows log_of (λ keys. D.faults keys.disk) limits_of keys.old keys.new }
{
    let _position = keys.position();
    match to_put(user, card) {
        Ok(record) => put_reply(keys.put(record)),
        Err(refusal) => refusal,
    }
}

// The record that a card asks to put, or the refusal.
#[tactic(auto, unfolding(crate::specs::Answers::to_put))]
fn to_put(user: &User, card: &KeyCard) -> Result<KeyRecord, Reply>
    ensures { ToPut result (to_put user.now card.now) }
{
    let alloc = user.allocator();
    let named = match parse_user(alloc, card.user.as_slice()) {
        Ok(named) => named,
        Err(NameFault::OutOfMemory) => return Err(Reply::OutOfMemory),
        Err(_) => return Err(Reply::Invalid(What::Name)),
    };
    if !keeps_bounds(
        card.dirs.as_slice(),
        card.stores.as_slice(),
        card.key.as_slice(),
    ) {
        return Err(Reply::Invalid(What::Key));
    }
    match may_put(user, &named) {
        Ok(true) => (),
        Ok(false) => return Err(Reply::Permission(Right::Write)),
        Err(_) => return Err(Reply::OutOfMemory),
    }
    match record_of(alloc, named, card) {
        Ok(record) => Ok(record),
        Err(_) => Err(Reply::OutOfMemory),
    }
}

// Whether a user may put the record of a named one: its own, or one of which it is the base user.
fn may_put(user: &User, named: &User) -> Result<bool, AllocError>
    ensures { IfOk result (λ may. may ≡ may_put user.now named.now) }
{
    Ok(user == named || *user == named.base()?)
}

// The reply by what came of a put.
fn put_reply(put: Result<u64, AppendWhy>) -> Reply
    ensures { result ≡ put_reply put }
{
    match put {
        Ok(position) => Reply::Ok(Done::Changed(position)),
        Err(AppendWhy::Full(records)) => Reply::Full(records),
        Err(AppendWhy::Fault) => Reply::Io,
        Err(AppendWhy::OutOfMemory) => Reply::OutOfMemory,
    }
}
