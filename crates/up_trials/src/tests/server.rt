//! A server on loopback that says what it is told to, byte by byte, and ends its connections as it is told to.
use std::io;
use std::io::{Read, Write};
use std::net::{TcpListener, TcpStream};
use std::time::Duration;
use up_net::Waits;

/// How a server ends a connection.
#[derive(Clone, Copy)]
pub enum End {
    /// It closes it.
    Closes,
    /// It closes it while bytes of the client lie there unread, and then the system resets it.
    Resets,
    /// It waits until the client closes it.
    Waits,
}

/// What a server does at one connection: a message for each that comes, by their letters, and then it ends it.
#[derive(Clone, Copy)]
pub struct Plan {
    pub letters: &'static [u8],
    pub end: End,
}

/// The message with this letter, as the format has it: a Challenge, Welcome, NotSigned, and the replies Ok of a text and of a block, Io and
/// NotExist.
fn message(letter: u8) -> &'static [u8] {
    match letter {
        b'c' => b"\x81------- 32 bytes that are signed",
        b'w' => b"\x82",
        b'x' => b"\x83",
        b't' => b"\x00\x06\x05hello",
        b'b' => b"\x00\x08\x05hello",
        b'i' => b"\x10",
        _ => b"\x06",
    }
}

/// Serves one connection for each plan, in order.
pub fn serve(listener: &TcpListener, plans: &[Plan]) -> io::Result<()> {
    for plan in plans {
        let (stream, _) = listener.accept()?;
        let done = keep_to(&stream, *plan);
        drop(stream);
        done?;
    }
    Ok(())
}

fn keep_to(stream: &TcpStream, plan: Plan) -> io::Result<()> {
    stream.set_nodelay(true)?;
    for letter in plan.letters {
        answer(stream, *letter)?;
    }
    finish(stream, plan.end)
}

/// Takes a message of the client, and says the one with this letter.
fn answer(stream: &TcpStream, letter: u8) -> io::Result<()> {
    take_message(stream)?;
    say(stream, message(letter))
}

fn finish(stream: &TcpStream, end: End) -> io::Result<()> {
    let mut byte = [0; 1];
    match end {
        End::Closes => {}
        End::Resets => {
            stream.peek(&mut byte)?;
        }
        End::Waits => {
            take_message(stream)?;
            let _ = (&*stream).read(&mut byte);
        }
    }
    Ok(())
}

/// Takes a message of the client.
fn take_message(mut stream: &TcpStream) -> io::Result<()> {
    let mut head = [0; 4];
    stream.read_exact(&mut head)?;
    let mut byte = [0; 1];
    for _ in 0..u32::from_be_bytes(head) {
        stream.read_exact(&mut byte)?;
    }
    Ok(())
}

/// Says a message, byte by byte.
pub fn say(mut stream: &TcpStream, payload: &[u8]) -> io::Result<()> {
    let length = u32::try_from(payload.len()).unwrap_or(u32::MAX);
    for byte in length.to_be_bytes().iter().chain(payload.iter()) {
        stream.write_all(&[*byte])?;
    }
    Ok(())
}

/// What is waited for at most: some tenths of a second.
pub fn waits() -> Waits {
    Waits {
        each: Duration::from_millis(200),
        whole: Duration::from_millis(2_000),
    }
}
