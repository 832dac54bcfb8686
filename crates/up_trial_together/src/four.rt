//! Four callers at once on two trees.
use crate::callers::{Caller, ask_at_once};
use crate::disks::HostDisk;
use crate::hosts::{Line, host_with};
use crate::judging::right_replies;
use crate::plans::{Part, Plan, add_plan, plan_with};
use crate::users::{request_of, session_of};
use std::alloc::{AllocError, Global};
use std::hash::RandomState;
use std::sync::Wait;
use std::sync::atomic::AtomicU64;
use std::thread::Threads;
use up_names::User;
use up_wire::Request;

const ANN: &str = "ann@a.example";

const BOB: &str = "bob@b.example";

// How often each caller asks.
const ASKS: u64 = 1_000;

// Ann's tree lets Bob read and list as a member of a group of Bob's tree. Bob's lets all read.
const SHARED: [Line; 9] = [
    (ANN, "mkdir ann@a.example/ 100 0"),
    (BOB, "mkdir bob@b.example/ 100 0"),
    (BOB, "store *:bob@b.example%0Ar:all"),
    (
        BOB,
        "file bob@b.example/Access 1 100 0 - AE51A7162B2EA38A579E914B99E6014FD85EAD13043A94E002A44F85FFC82CDC:21",
    ),
    (BOB, "mkdir bob@b.example/Group 100 0"),
    (BOB, "store carl@c.example%20bob@b.example"),
    (
        BOB,
        "file bob@b.example/Group/friends 1 100 0 - 13D1BC0E5C7DE048170748CBAFCC6F867E432B498D8D9F94F8D7875F5CA0AAC7:28",
    ),
    (
        ANN,
        "store *:ann@a.example%0Ar,l:bob@b.example/Group/friends",
    ),
    (
        ANN,
        "file ann@a.example/Access 1 100 0 - 75A9588666C70EAE0DECAE432118779E25E378790373C67B228F8845C71D81CB:47",
    ),
];

/// Whether every reply to four callers of 1,000 requests each, who ask at once, is that of a host that is not shared, whose log has the
/// records up to the reply's position.
pub fn are_right<R: Threads + Wait + Sync>(
    rt: &R,
    alloc: Global,
    random: RandomState,
) -> Result<bool, AllocError> {
    let never = AtomicU64::new(0);
    let plans = four_plans(alloc, &never)?;
    let right = right_among(rt, alloc, random, &never, plans.as_slice());
    drop(plans);
    Ok(right? == 4 * ASKS)
}

// How many replies are right to callers who ask by these plans at once.
fn right_among<R: Threads + Wait + Sync>(
    rt: &R,
    alloc: Global,
    random: RandomState,
    never: &AtomicU64,
    plans: &[Plan<'_>],
) -> Result<u64, AllocError> {
    let host = host_with(alloc, random, never, never, SHARED.as_slice())?;
    let came = ask_at_once(rt, alloc, host, plans)?;
    let right = right_against(alloc, random, never, plans, came.as_slice());
    drop(came);
    right
}

// How many are those of a host of its own, which begins as theirs did.
fn right_against(
    alloc: Global,
    random: RandomState,
    never: &AtomicU64,
    plans: &[Plan<'_>],
    callers: &[Caller<HostDisk<'_>>],
) -> Result<u64, AllocError> {
    let mut alone = host_with(alloc, random, never, never, SHARED.as_slice())?;
    let right = right_replies(alloc, &mut alone, plans, callers);
    drop(alone);
    Ok(right)
}

// Callers 0 and 2 ask as Ann, 1 and 3 as Bob.
fn four_plans(alloc: Global, flag: &AtomicU64) -> Result<Vec<Plan<'_>>, AllocError> {
    let mut plans = Vec::new(alloc);
    for (who, other) in [(ANN, BOB), (BOB, ANN), (ANN, BOB), (BOB, ANN)] {
        add_plan(&mut plans, plan_of(alloc, flag, who, other))?;
    }
    Ok(plans)
}

// What an owner asks, beside another one.
fn plan_of<'a>(
    alloc: Global,
    flag: &'a AtomicU64,
    who: &str,
    other: &str,
) -> Result<Plan<'a>, AllocError> {
    let session = session_of(alloc, who)?;
    let requests = requests_of(alloc, session.user(), who, other);
    plan_with(session, requests, flag, Part::None)
}

fn requests_of(
    alloc: Global,
    user: &User,
    who: &str,
    other: &str,
) -> Result<Vec<Request>, AllocError> {
    let mut requests = Vec::new(alloc);
    for number in 0..ASKS {
        add_request(alloc, user, who, other, number, &mut requests)?;
    }
    Ok(requests)
}

fn add_request(
    alloc: Global,
    user: &User,
    who: &str,
    other: &str,
    number: u64,
    requests: &mut Vec<Request>,
) -> Result<(), AllocError> {
    let line = line_of(alloc, who, other, number)?;
    let request = request_of(alloc, user, line.as_str());
    drop(line);
    requests.push(request?)?;
    Ok(())
}

// Each owner's two callers make, look up and delete the same directories, look at those of the other owner, and try to make one there.
fn line_of(alloc: Global, who: &str, other: &str, number: u64) -> Result<String, AllocError> {
    let place = number / 8 % 40;
    let earlier = number / 16 % 40;
    match number % 8 {
        0 | 1 => format!(in alloc; "mkdir {who}/d{place} 100 0"),
        2 => format!(in alloc; "lookup {who}/d{place}"),
        3 => format!(in alloc; "lookup {other}/d{place}"),
        4 => format!(in alloc; "delete {who}/d{earlier}"),
        5 => format!(in alloc; "glob {other}/d*"),
        6 => format!(in alloc; "which {other}/d{earlier}"),
        _ => format!(in alloc; "mkdir {other}/d{place} 100 0"),
    }
}
