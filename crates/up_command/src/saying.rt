//! The texts that a command prints, each added to what is gathered. Where memory is wanting, a part of one may be left there.
ghost use Rattle.std.specs.Prelude.{◌≡◌, ◌++◌, IfOk, OnOk, codes, decimal};
ghost use Rattle.up_command.specs.Printed.{all_numbered, bad_line, ended, numbered};
ghost use Rattle.up_text.specs.ClientFaults.{fault_lines};
ghost use Rattle.up_text.specs.Replies.{reply_lines};

use std::alloc::{AllocError, Global};
use up_bytes::Bytes;
use up_client::ClientFault;
use up_text::{fault_lines, push_reply};
use up_wire::Reply;

/// A line of two words.
pub fn say(out: &mut Vec<u8>, first: &[u8], second: &[u8]) -> Result<(), AllocError>
    ensures { OnOk result (out.new.items ≡ out.old.items ++ ended (first.now ++ second.now)) }
{
    out.extend_from_slice(first)?;
    out.extend_from_slice(second)?;
    out.push(b'\n')?;
    Ok(())
}

/// A line of words and a number.
pub fn say_count(out: &mut Vec<u8>, words: &[u8], number: u64) -> Result<(), AllocError>
    ensures { OnOk result (out.new.items ≡ out.old.items ++ ended (words.now ++ decimal number)) }
{
    let digits = number.to_string(*out.allocator())?;
    say(out, words, digits.as_bytes())
}

/// A line about a session.
pub fn say_numbered(out: &mut Vec<u8>, number: u64, text: &[u8]) -> Result<(), AllocError>
    ensures { OnOk result (out.new.items ≡ out.old.items ++ numbered number text.now) }
{
    let digits = number.to_string(*out.allocator())?;
    add_numbered(out, digits.as_bytes(), text)
}

// Adds a line behind the digits of its session's number.
fn add_numbered(out: &mut Vec<u8>, digits: &[u8], text: &[u8]) -> Result<(), AllocError>
    ensures { OnOk result (out.new.items ≡ out.old.items
        ++ (digits.now ++ codes " " ++ ended text.now)) }
{
    out.extend_from_slice(digits)?;
    out.push(b' ')?;
    say(out, text, b"")
}

/// The lines of a reply to a session. There is none for want of memory.
pub fn say_reply(
    alloc: Global,
    out: &mut Vec<u8>,
    number: u64,
    reply: &Reply,
) -> Result<(), AllocError>
    ensures { OnOk result (out.new.items ≡ out.old.items
        ++ all_numbered number (reply_lines reply.now)) }
{
    let front = front_of(alloc, number)?;
    push_reply(out, front.as_slice(), reply)
}

// What stands before each line about a session: its number and a space.
fn front_of(alloc: Global, number: u64) -> Result<Vec<u8>, AllocError>
    ensures { IfOk result (λ front. front.items ≡ decimal number ++ codes " ") }
{
    let mut front = number.to_string(alloc)?.into_bytes();
    front.push(b' ')?;
    Ok(front)
}

/// The lines of why a session's put or get failed.
pub fn say_fault(
    alloc: Global,
    out: &mut Vec<u8>,
    number: u64,
    fault: &ClientFault,
) -> Result<(), AllocError>
    ensures { OnOk result (out.new.items ≡ out.old.items
        ++ all_numbered number (fault_lines fault.now)) }
{
    let lines = fault_lines(alloc, fault)?;
    say_all(out, number, lines.as_slice())
}

// Lines about a session.
fn say_all(out: &mut Vec<u8>, number: u64, lines: &[Bytes]) -> Result<(), AllocError>
    ensures { OnOk result (out.new.items ≡ out.old.items ++ all_numbered number lines.now) }
{
    let digits = number.to_string(*out.allocator())?;
    for line in lines {
        add_numbered(out, digits.as_bytes(), line.as_slice())?;
    }
    Ok(())
}

/// The line that names a malformed one.
pub fn bad_line(alloc: Global, number: u64) -> Result<Vec<u8>, AllocError>
    ensures { IfOk result (λ line. line.items ≡ bad_line number) }
{
    let mut line = Vec::new(alloc);
    say_count(&mut line, b"bad line ", number)?;
    Ok(line)
}
