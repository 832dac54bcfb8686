//! What a line at the terminal says.
ghost use Rattle.std.specs.Prelude.{◌≡◌, IfOk};
ghost use Rattle.up_terminal.specs.Lines.{line_of};

use std::alloc::{AllocError, Global};
use up_command::words_of;
use up_names::User;
use up_text::{ClientLine, LineWords, is_silent};
use up_wire::Request;

/// What a line at the terminal says.
#[derive(Drop)]
pub enum TerminalLine {
    /// An empty line or a comment.
    Silent,
    /// A request.
    Request(Request),
    /// `put ..` or `get ..`: what the client does.
    Client(ClientLine),
}

/// What a line says, at the terminal of a user. `None` where it is malformed.
#[tactic(auto, unfolding(crate::specs::Lines::line_of))]
pub(crate) fn terminal_line(
    alloc: Global,
    user: &User,
    line: &[u8],
) -> Result<Option<TerminalLine>, AllocError>
    ensures { IfOk result (λ found. found ≡ line_of user.now line.now) }
{
    if is_silent(line) {
        return Ok(Some(TerminalLine::Silent));
    }
    let words = LineWords::new(words_of(alloc, Some(line))?);
    if let Some(call) = words.client_line(alloc)? {
        return Ok(Some(TerminalLine::Client(call)));
    }
    let Some(request) = words.request(alloc, user)? else {
        return Ok(None);
    };
    Ok(Some(TerminalLine::Request(request)))
}
