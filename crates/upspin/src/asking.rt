//! The commands that ask a server over a connection.
use crate::OUT_OF_MEMORY;
use std::alloc::AllocError;
use up_cache::{copy_run, copy_user};
use up_client::{Ask, TableAsk};
use up_ends::{StdSink, StdSource};
use up_lists::Items;
use up_names::User;
use up_net::{SocketAsk, Waits};
use up_terminal::{client_run, client_user};

/// Runs `upspin client`, and answers its status. Where the words are others, nobody is asked.
pub fn client_status(rt: &HostRuntime, words: &[String]) -> u8 {
    match client_user(rt.alloc(), words) {
        Ok(Some(user)) => match server_of(rt, words, user) {
            Ok(Some(mut server)) => client_with(rt, words, &mut server),
            Ok(None) => client_with(rt, words, &mut nobody(rt)),
            Err(_) => OUT_OF_MEMORY,
        },
        Ok(None) => client_with(rt, words, &mut nobody(rt)),
        Err(_) => OUT_OF_MEMORY,
    }
}

/// Runs `upspin copy`, and answers its status. Where the words are others, nobody is asked.
pub fn copy_status(rt: &HostRuntime, words: &[String]) -> u8 {
    match copy_user(rt.alloc(), words) {
        Ok(Some(user)) => match server_of(rt, words, user) {
            Ok(Some(mut server)) => copy_with(rt, words, &mut server),
            Ok(None) => copy_with(rt, words, &mut nobody(rt)),
            Err(_) => OUT_OF_MEMORY,
        },
        Ok(None) => copy_with(rt, words, &mut nobody(rt)),
        Err(_) => OUT_OF_MEMORY,
    }
}

/// The server at the address of the words, asked as this user, for whom the helper of the words signs. `None` where the words are too few.
fn server_of<'a>(
    rt: &'a HostRuntime,
    words: &[String],
    user: User,
) -> Result<Option<SocketAsk<&'a HostRuntime>>, AllocError> {
    let (Some(address), Some(helper)) = (words.get(1), words.get(2)) else {
        drop(user);
        return Ok(None);
    };
    let address = address.as_bytes();
    let helper = helper.clone()?;
    let server = SocketAsk::new(rt.alloc(), rt, address, user, helper, Waits::usual())?;
    Ok(Some(server))
}

/// Who is asked where the words name no server.
fn nobody(rt: &HostRuntime) -> TableAsk {
    TableAsk::new(Items::new(rt.alloc()), Items::new(rt.alloc()))
}

fn client_with<A: Ask>(rt: &HostRuntime, words: &[String], ask: &mut A) -> u8 {
    let mut source = StdSource::new(rt.stdin());
    let mut sink = StdSink::new(rt.stdout());
    client_run(rt.alloc(), words, &mut source, &mut sink, ask)
}

fn copy_with<A: Ask>(rt: &HostRuntime, words: &[String], ask: &mut A) -> u8 {
    let mut sink = StdSink::new(rt.stdout());
    copy_run(rt.alloc(), words, ask, &mut sink)
}
