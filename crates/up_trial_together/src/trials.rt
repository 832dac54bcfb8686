//! What need not wait for another caller, and what one caller sees of another.
use crate::callers::{Caller, ask_at_once};
use crate::disks::HostDisk;
use crate::hosts::{Line, host_with};
use crate::plans::{Asking, Part, plans_of};
use crate::waits::{arm, is_in_time};
use std::alloc::{AllocError, Global};
use std::hash::RandomState;
use std::sync::Wait;
use std::sync::atomic::AtomicU64;
use std::thread::Threads;
use up_host::Host;
use up_wire::{Done, Reply};

/// Two callers at once, of whom one is held up until the other one was answered: what the host was asked before, whether the disk of the
/// first tree is what holds up, what the callers ask, and what they are to be answered.
#[derive(Clone, Copy)]
pub struct Trial {
    pub name: &'static str,
    lines: &'static [Line],
    in_sync: bool,
    asked: [Asking; 2],
    wanted: [Wanted; 2],
}

/// A kind of reply.
#[derive(Clone, Copy)]
enum Wanted {
    Changed,
    Entry,
    Private,
    BadBlock,
}

// The owners put the roots of their trees.
const ANNS_ROOT: Line = ("ann@a.example", "mkdir ann@a.example/ 100 0");

const BOBS_ROOT: Line = ("bob@b.example", "mkdir bob@b.example/ 100 0");

// Ann puts a directory, and then sets the flag.
const ANN_PUTS: Asking = Asking {
    who: "ann@a.example",
    line: "mkdir ann@a.example/x 100 0",
    elsewhere: None,
    part: Part::Sets,
};

/// A Put on one tree is answered while the disk of the other one waits in its sync.
pub const TWO_TREES: Trial = Trial {
    name: "two trees",
    lines: &[ANNS_ROOT, BOBS_ROOT],
    in_sync: true,
    asked: [
        Asking {
            who: "ann@a.example",
            line: "mkdir ann@a.example/x 100 0",
            elsewhere: None,
            part: Part::None,
        },
        Asking {
            who: "bob@b.example",
            line: "mkdir bob@b.example/x 100 0",
            elsewhere: None,
            part: Part::Sets,
        },
    ],
    wanted: [Wanted::Changed, Wanted::Changed],
};

/// A Put on a tree is answered while a group is loaded for a Lookup on the same tree.
pub const LOAD_OUTSIDE: Trial = Trial {
    name: "a load outside",
    lines: &[
        ANNS_ROOT,
        (
            "ann@a.example",
            "store *:ann@a.example%0Ar:dan@d.example/Group/g",
        ),
        (
            "ann@a.example",
            "file ann@a.example/Access 1 100 0 - 543B02412F869AD7B16DC1D478456E49D71E72898BAF36B7194F4245DC219013:39",
        ),
    ],
    in_sync: false,
    asked: [
        Asking {
            who: "carl@c.example",
            line: "lookup ann@a.example/",
            elsewhere: None,
            part: Part::AsksOthers,
        },
        ANN_PUTS,
    ],
    wanted: [Wanted::Private, Wanted::Changed],
};

/// A Put on a tree is answered while a block is fetched for the Put of an Access file on the same tree.
pub const FETCH_OUTSIDE: Trial = Trial {
    name: "a fetch outside",
    lines: &[ANNS_ROOT],
    in_sync: false,
    asked: [
        Asking {
            who: "ann@a.example",
            line: "file ann@a.example/Access 1 100 0 - -",
            elsewhere: Some("*:ann@a.example"),
            part: Part::AsksOthers,
        },
        ANN_PUTS,
    ],
    wanted: [Wanted::BadBlock, Wanted::Changed],
};

/// One caller sees what another had put before a flag was set.
pub const READ_BACK: Trial = Trial {
    name: "read back",
    lines: &[ANNS_ROOT],
    in_sync: false,
    asked: [
        ANN_PUTS,
        Asking {
            who: "ann@a.example",
            line: "lookup ann@a.example/x",
            elsewhere: None,
            part: Part::AsksLater,
        },
    ],
    wanted: [Wanted::Changed, Wanted::Entry],
};

/// Whether both callers are answered as they are to be, and nobody waits in vain.
pub fn comes_out<R: Threads + Wait + Sync>(
    rt: &R,
    alloc: Global,
    random: RandomState,
    trial: Trial,
) -> Result<bool, AllocError> {
    let flag = AtomicU64::new(0);
    let never = AtomicU64::new(0);
    let in_sync = if trial.in_sync { &flag } else { &never };
    let host = host_with(alloc, random, in_sync, &never, trial.lines)?;
    let came = came_of(rt, alloc, host, &flag, trial)?;
    let right = are_wanted(&came, trial);
    drop(came);
    Ok(right && is_in_time(&flag))
}

// Both callers ask the host at once, while the flag is armed.
fn came_of<'d, R: Threads + Wait + Sync>(
    rt: &R,
    alloc: Global,
    host: Host<HostDisk<'d>>,
    flag: &AtomicU64,
    trial: Trial,
) -> Result<Vec<Caller<HostDisk<'d>>>, AllocError> {
    let plans = plans_of(alloc, flag, trial.asked.as_slice())?;
    arm(flag);
    let came = ask_at_once(rt, alloc, host, plans.as_slice());
    drop(plans);
    came
}

// Whether each caller has one reply, of its kind.
fn are_wanted(came: &[Caller<HostDisk<'_>>], trial: Trial) -> bool {
    match came {
        [one, other] => is_wanted(one, trial.wanted[0]) && is_wanted(other, trial.wanted[1]),
        _ => false,
    }
}

fn is_wanted(caller: &Caller<HostDisk<'_>>, wanted: Wanted) -> bool {
    match (wanted, caller.events.first()) {
        (Wanted::Changed, Some(event)) => matches!(&event.reply, Reply::Ok(Done::Changed(_))),
        (Wanted::Entry, Some(event)) => matches!(&event.reply, Reply::Ok(Done::Entry(_))),
        (Wanted::Private, Some(event)) => matches!(&event.reply, Reply::Private),
        (Wanted::BadBlock, Some(event)) => matches!(&event.reply, Reply::BadBlock(_)),
        (_, None) => false,
    }
}
