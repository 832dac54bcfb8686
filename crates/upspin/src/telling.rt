//! What is told on standard error, where nothing is promised.
use crate::arguments::Command;

/// The version, which `--help` and `--version` tell.
const VERSION: &str = "0.1";

/// The commands, those too that the usage line has not, and where to read on.
const COMMANDS: &str =
    "can, script, explain can, explain script, serve, client, copy, follow, audit, share, storm, verify, sign (README.md says what each does)";

/// The status where the words are not those of a command; the usage line was printed.
const USAGE: u8 = 64;

/// Says in a line what a status means, and where to read on; nothing after 0.
pub fn tell(rt: &HostRuntime, command: Command, words: &[String], status: u8) {
    if status == USAGE {
        tell_commands(rt, words);
        return;
    }
    let meaning = match command {
        Command::Serve => serve_meaning(status),
        Command::Follow => follow_meaning(status),
        Command::Audit | Command::Share => report_meaning(status),
        Command::Storm => storm_meaning(status),
        Command::Can => can_meaning(status),
        Command::Script => script_meaning(status),
        Command::ExplainCan | Command::ExplainScript => explain_meaning(status),
        Command::Client | Command::Copy => meaning(status),
    };
    if let Some(line) = meaning {
        // Where even this line cannot be written, the status says it.
        let _ = rt.eprintln(line);
    }
}

/// Says which commands there are; to who asks for help or the version, with that.
fn tell_commands(rt: &HostRuntime, words: &[String]) {
    // Where even this line cannot be written, the usage line says the most of it.
    let _ = if asks_for_help(words) {
        eprintln!(rt; "upspin {VERSION}: the commands are {COMMANDS}")
    } else {
        eprintln!(rt; "upspin: the commands are {COMMANDS}")
    };
}

fn asks_for_help(words: &[String]) -> bool {
    match words.first() {
        Some(word) => word.as_str() == "--help" || word.as_str() == "--version",
        None => false,
    }
}

/// What a status of `serve` means for people.
fn serve_meaning(status: u8) -> Option<&'static str> {
    match status {
        2 => Some("upspin: no file of users, or no random bytes (docs/SERVING.md, Statuses)"),
        3 => Some("upspin: standard output failed (docs/SERVING.md, Statuses)"),
        4 => Some("upspin: there was no memory (docs/SERVING.md, Statuses)"),
        6 => Some("upspin: a log cannot be had, read or written (docs/SERVING.md, Statuses)"),
        7 => Some("upspin: the file of users is too long (docs/SERVING.md, Statuses)"),
        8 => Some("upspin: a log is damaged, and was not opened (docs/SERVING.md, Statuses)"),
        9 => Some("upspin: it cannot listen, or accept any more (docs/SERVING.md, Statuses)"),
        10 => Some("upspin: a line of the file of users is bad (docs/SERVING.md, Statuses)"),
        12 => Some("upspin: a log has no room for what it is to take (docs/SERVING.md, Statuses)"),
        _ => None,
    }
}

/// What a status of `follow` means for people.
fn follow_meaning(status: u8) -> Option<&'static str> {
    match status {
        1 => Some("upspin: a line of the input is malformed (docs/FOLLOWING.md)"),
        6 => Some(
            "upspin: the log cannot be had or read, or another program has it (docs/FOLLOWING.md)",
        ),
        8 => Some(
            "upspin: the log is damaged, or not of this owner, and was not opened (docs/FOLLOWING.md)",
        ),
        _ => meaning(status),
    }
}

/// What a status of a report means for people.
fn report_meaning(status: u8) -> Option<&'static str> {
    match status {
        2 => Some("upspin: no random bytes (docs/REPORTS.md)"),
        3 => Some("upspin: standard output failed, and not all was printed (docs/REPORTS.md)"),
        4 => Some("upspin: there was no memory, and not all was printed (docs/REPORTS.md)"),
        6 => Some(
            "upspin: a log cannot be had or read, or a server runs over it (docs/REPORTS.md)",
        ),
        8 => Some("upspin: a log is damaged, and was not opened (docs/REPORTS.md)"),
        _ => None,
    }
}

/// What a status of `storm` means for people.
fn storm_meaning(status: u8) -> Option<&'static str> {
    match status {
        2 => Some("upspin: no random bytes (docs/STORM.md)"),
        3 => Some("upspin: standard output failed, and not all was printed (docs/STORM.md)"),
        4 => Some("upspin: there was no memory, and nothing was printed (docs/STORM.md)"),
        _ => None,
    }
}

/// What a status of `can` means for people.
fn can_meaning(status: u8) -> Option<&'static str> {
    match status {
        1 => Some("upspin: a line is malformed: `upspin explain can` says why (docs/MISTAKES.md)"),
        _ => meaning(status),
    }
}

/// What a status of `script` means for people.
fn script_meaning(status: u8) -> Option<&'static str> {
    match status {
        1 => Some(
            "upspin: a line is malformed: `upspin explain script` says why (docs/MISTAKES.md)",
        ),
        _ => meaning(status),
    }
}

/// What a status of `explain` means for people.
fn explain_meaning(status: u8) -> Option<&'static str> {
    match status {
        1 => Some("upspin: these lines are malformed (docs/MISTAKES.md, docs/SCRIPTS.md)"),
        _ => meaning(status),
    }
}

/// What a status of any other command means for people.
fn meaning(status: u8) -> Option<&'static str> {
    match status {
        1 => Some("upspin: a line of the input is malformed (docs/MISTAKES.md, docs/SCRIPTS.md)"),
        2 => Some("upspin: no input, or no random bytes (README.md, Statuses)"),
        3 => Some("upspin: standard output failed, and not all was printed (README.md, Statuses)"),
        4 => Some("upspin: there was no memory, and not all was printed (README.md, Statuses)"),
        5 => Some("upspin: the helper failed at an `open` line (docs/HELPER.md)"),
        6 => Some("upspin: a disk failed at a `host` or `enrol` line (README.md, Statuses)"),
        7 => Some("upspin: the input, or a line of it, is too long (README.md, Statuses)"),
        11 => Some("upspin: the server gave no answer (README.md, Statuses)"),
        _ => None,
    }
}
