//! Laws of the lines that tell a reply. Each function does nothing; its contract is the law.
ghost use Rattle.up_text.specs.Laws.{LinesAreWords, LinesTellReplies};

/// Each line of a reply is words parted by single spaces. No LF stands in it, and no byte up to 0x20 but these spaces.
pub fn lines_are_words()
    ensures { LinesAreWords }
{}

/// Different replies have different lines, but for key records that differ alone in whether an endpoint of theirs is the
/// host's own store or the address `local`.
pub fn lines_tell_replies()
    ensures { LinesTellReplies }
{}
