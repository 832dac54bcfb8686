//! What people are told of a connection that did not end as it should.
use std::fmt::Display;
use std::io::Eprint;
use std::net::SocketAddr;
use up_talk::TalkEnd;

/// Says on standard error how a connection from an address ended, in one line; nothing of one that ended as it should.
pub(crate) fn tell_end(rt: &impl Eprint, from: SocketAddr, end: TalkEnd) {
    match end {
        TalkEnd::Ended => {}
        TalkEnd::Cut(bytes) => tell_place(
            rt,
            from,
            "it ended within a frame, after so many bytes",
            bytes,
        ),
        TalkEnd::BadFrame(place) => tell_place(
            rt,
            from,
            "no frame that may come begins at byte",
            place,
        ),
        TalkEnd::NotSigned => tell(
            rt,
            from,
            "the user has no key, or the signature is not good",
        ),
        TalkEnd::HelperFault => tell(rt, from, "the helper failed"),
        TalkEnd::ReadFault => tell(rt, from, "reading failed, or waited too long"),
        TalkEnd::WriteFault => tell(rt, from, "writing failed, or waited too long"),
        TalkEnd::TurnsSpent => tell(rt, from, "it was read too often"),
        TalkEnd::OutOfMemory => tell(rt, from, "there was no memory"),
    }
}

/// Says on standard error what became of a connection from an address. Where the line cannot be written the server goes on.
pub(crate) fn tell(rt: &impl Eprint, from: SocketAddr, what: impl Display + Drop) {
    let _ = eprintln!(rt; "upspin: {from}: {what}");
}

fn tell_place(rt: &impl Eprint, from: SocketAddr, what: &str, place: u64) {
    let _ = eprintln!(rt; "upspin: {from}: {what}: {place}");
}
