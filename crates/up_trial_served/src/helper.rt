//! The helper of the server and of its clients.
use std::io::ErrorKind;
use std::{env, io};
use up_ends::StdSink;
use up_helper::{sign_run, verify_run};

/// The status of the program as a helper. `None` where its words are not those of one.
pub fn status(rt: &HostRuntime) -> Option<u8> {
    let words = words(rt).ok()?;
    match words.first()?.as_str() {
        "verify" => Some(verify_run(rt.alloc(), words.as_slice())),
        "sign" => Some(sign_run(rt.alloc(), words.as_slice(), &mut StdSink::new(rt.stdout()))),
        _ => None,
    }
}

/// The path of the program itself, by which it was started.
pub fn path(rt: &HostRuntime) -> io::Result<String> {
    match env::args(rt)?.next() {
        Some(path) => Ok(path),
        None => Err(io::Error::from(ErrorKind::NotFound)),
    }
}

fn words(rt: &HostRuntime) -> io::Result<Vec<String>> {
    let mut words = Vec::new(rt.alloc());
    for word in env::args(rt)?.skip(1) {
        words.push(word)?;
    }
    Ok(words)
}
