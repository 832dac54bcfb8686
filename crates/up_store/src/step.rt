//! A request, and what comes of it.
ghost use Rattle.std.specs.Prelude.{◌≡◌, length, nat_lt};
ghost use Rattle.std.specs.Str.{bytes_eq};
ghost use Rattle.up_blocks.specs.Blocks.{limits_of, log_of};
ghost use Rattle.up_blocks.specs.Records.{largest_block};
ghost use Rattle.up_ends.specs.Growing.{OnlyGrows};
ghost use Rattle.up_lists.specs.Counts.{HasCause, StaysUnless};
ghost use Rattle.up_store.specs.Answers.{DeletesAsked, GetsAsked, IsAsked, PutsAsked, StoreSteps, deleted_reply, given_reply, put_reply, refused_reply};

use up_blocks::{BlockWhy, Blocks, MAX_BLOCK};
use up_bytes::Bytes;
use up_disk::Disk;
use up_entry::What;
use up_names::User;
use up_refs::Reference;
use up_rights::Right;
use up_wire::{Done, Reply, Request};

/// What a store whose operator that is answers a user who asks a store request. The first that fits of `Invalid` of a reference
/// or of a block over 1,048,576 bytes, `NotExist` for a Get, `Permission` of delete for a Delete by anybody but the operator,
/// `NotExist` for a Delete, and `Full`; `Io` only where the disk failed, and `OutOfMemory` at any place. A Put of a block that is
/// held is answered its reference and adds no record.
pub fn store_step<D: Disk>(
    blocks: &mut Blocks<D>,
    operator: &User,
    user: &User,
    request: &Request,
) -> Reply
    requires { IsAsked request.now }
    ensures steps { StoreSteps D.Disk
        operator.now user.now request.now blocks.old blocks.new result }
    ensures cause { HasCause (D.faults blocks.old.disk) (D.faults blocks.new.disk)
        (result ≡ Reply.Io) }
    ensures quiet { StaysUnless (D.faults blocks.old.disk) (D.faults blocks.new.disk)
        (result ≡ Reply.Io) }
    ensures grows { OnlyGrows log_of
        (λ blocks. D.faults blocks.disk) limits_of blocks.old blocks.new }
{
    match request {
        Request::Get(text) => get(blocks, text.as_slice()),
        Request::StorePut(bytes) => put(blocks, bytes.as_slice()),
        Request::StoreDelete(text) => delete(blocks, operator, user, text.as_slice()),
        Request::Lookup(_)
        | Request::Put(_)
        | Request::Delete(_)
        | Request::Glob(_)
        | Request::WhichAccess(_)
        | Request::Watch(_, _)
        | Request::GroupText(_)
        | Request::KeyLookup(_)
        | Request::KeyPut(_) => unreachable!(),
    }
}

// The reply to a Get of the block of a reference text.
fn get<D: Disk>(blocks: &mut Blocks<D>, text: &[u8]) -> Reply
    ensures gets { GetsAsked D.Disk text.now blocks.old blocks.new result }
    ensures cause { HasCause (D.faults blocks.old.disk) (D.faults blocks.new.disk)
        (result ≡ Reply.Io) }
    ensures quiet { StaysUnless (D.faults blocks.old.disk) (D.faults blocks.new.disk)
        (result ≡ Reply.Io) }
    ensures grows { OnlyGrows log_of
        (λ blocks. D.faults blocks.disk) limits_of blocks.old blocks.new }
{
    match Reference::parse(text) {
        Some(reference) => given_reply(blocks.get(&reference)),
        None => Reply::Invalid(What::Reference),
    }
}

// The reply to a Put of a block.
fn put<D: Disk>(blocks: &mut Blocks<D>, bytes: &[u8]) -> Reply
    ensures puts { PutsAsked D.Disk bytes.now blocks.old blocks.new result }
    ensures cause { HasCause (D.faults blocks.old.disk) (D.faults blocks.new.disk)
        (result ≡ Reply.Io) }
    ensures quiet { StaysUnless (D.faults blocks.old.disk) (D.faults blocks.new.disk)
        (result ≡ Reply.Io) }
    ensures grows { OnlyGrows log_of
        (λ blocks. D.faults blocks.disk) limits_of blocks.old blocks.new }
{
    if is_too_long(bytes) {
        return Reply::Invalid(What::Block);
    }
    put_reply(blocks.put(bytes))
}

// The reply to a Delete, by a user, of the block of a reference text.
fn delete<D: Disk>(blocks: &mut Blocks<D>, operator: &User, user: &User, text: &[u8]) -> Reply
    ensures deletes { DeletesAsked D.Disk
        operator.now user.now text.now blocks.old blocks.new result }
    ensures cause { HasCause (D.faults blocks.old.disk) (D.faults blocks.new.disk)
        (result ≡ Reply.Io) }
    ensures quiet { StaysUnless (D.faults blocks.old.disk) (D.faults blocks.new.disk)
        (result ≡ Reply.Io) }
    ensures grows { OnlyGrows log_of
        (λ blocks. D.faults blocks.disk) limits_of blocks.old blocks.new }
{
    let Some(reference) = Reference::parse(text) else {
        return Reply::Invalid(What::Reference);
    };
    if !is_operator(operator, user) {
        return Reply::Permission(Right::Delete);
    }
    deleted_reply(blocks.delete(&reference))
}

// Whether bytes are too many for a block.
fn is_too_long(bytes: &[u8]) -> bool
    ensures { result ≡ nat_lt largest_block (length bytes.now) }
{
    bytes.len() as u64 > MAX_BLOCK
}

// Whether a user is the operator.
fn is_operator(operator: &User, user: &User) -> bool
    ensures { result ≡ bytes_eq user.now operator.now }
{
    user == operator
}

// The reply by what came of a get.
fn given_reply(given: Result<Bytes, BlockWhy>) -> Reply
    ensures { result ≡ given_reply given }
{
    match given {
        Ok(bytes) => Reply::Ok(Done::Bytes(bytes)),
        Err(why) => refused_reply(why),
    }
}

// The reply by what came of a put.
fn put_reply(put: Result<Reference, BlockWhy>) -> Reply
    ensures { result ≡ put_reply put }
{
    match put {
        Ok(reference) => Reply::Ok(Done::Reference(reference)),
        Err(why) => refused_reply(why),
    }
}

// The reply by what came of a delete.
fn deleted_reply(deleted: Result<u64, BlockWhy>) -> Reply
    ensures { result ≡ deleted_reply deleted }
{
    match deleted {
        Ok(position) => Reply::Ok(Done::Changed(position)),
        Err(why) => refused_reply(why),
    }
}

fn refused_reply(why: BlockWhy) -> Reply
    ensures { result ≡ refused_reply why }
{
    match why {
        BlockWhy::NotExist => Reply::NotExist,
        BlockWhy::Full(records) => Reply::Full(records),
        BlockWhy::Fault => Reply::Io,
        BlockWhy::OutOfMemory => Reply::OutOfMemory,
    }
}
