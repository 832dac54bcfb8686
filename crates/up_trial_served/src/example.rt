//! What stands in the file of examples.

/// One example: what it shows, and its lines.
#[derive(Drop, Clone, Copy)]
pub struct Example<'a> {
    pub title: &'a str,
    pub lines: &'a str,
}

/// What a line of an example is.
#[derive(Drop, Clone, Copy)]
pub enum Line<'a> {
    /// A line of the file of users.
    Enrol(&'a str),
    /// A session, and its user.
    Open(&'a str, &'a str),
    /// What is asked in a session.
    Ask(&'a str, &'a str),
    /// What is copied as a session's user, over a connection of its own.
    Copy(&'a str, &'a str),
    /// What the line before it prints.
    Prints(&'a str),
    /// It says nothing.
    Nothing,
}

impl<'a> Example<'a> {
    /// The example of a part of the file: a title, and the lines behind it.
    pub fn of(part: &'a str) -> Example<'a> {
        match part.split_once('\n') {
            Some((title, lines)) => Example { title, lines },
            None => Example {
                title: part,
                lines: "",
            },
        }
    }
}

/// What a line is.
pub fn line_of(line: &str) -> Line<'_> {
    let Some((first, rest)) = line.split_once(' ') else {
        return Line::Nothing;
    };
    match first {
        "#" => Line::Nothing,
        "enrol" => Line::Enrol(rest),
        "=" => Line::Prints(rest),
        "open" => match rest.split_once(' ') {
            Some((number, user)) => Line::Open(number, user),
            None => Line::Nothing,
        },
        "copy" => match rest.split_once(' ') {
            Some((number, paths)) => Line::Copy(number, paths),
            None => Line::Nothing,
        },
        _ => Line::Ask(first, rest),
    }
}
