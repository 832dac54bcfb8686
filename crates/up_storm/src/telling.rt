//! What a storm prints.
ghost use Rattle.std.specs.Prelude.{◌≡◌, ◌≤◌, ◌<◌, ◌*◌, ◌++◌, codes, decimal, length, true, IfOk, OnOk};
ghost use Rattle.std.specs.List.{AllByRecursion};
ghost use Rattle.up_command.specs.Printed.{ended};
ghost use Rattle.up_storm.specs.Logs.{full_of, logged, summary_of, told_text, trees_of};
ghost use Rattle.up_storm.specs.Plans.{is_within};
ghost use Rattle.up_storm.specs.Telling.{IsFew, all_counted, heading, numbers_line, sessions_text, tally_line};

use crate::logs::LogRead;
use crate::plan::Plan;
use crate::session::Said;
use crate::tally::Tally;
use crate::texts::{FIRST_OWNER, SECOND_OWNER};
use std::alloc::{AllocError, Global};
use up_command::{say, say_count};

/// The text of a storm: the summary, and behind it, where all is printed, the two logs and what each session says.
pub(crate) fn storm_text(
    alloc: Global,
    plan: Plan,
    first: &LogRead,
    second: &LogRead,
    said: &[Said],
) -> Result<Vec<u8>, AllocError>
    requires plan { is_within plan ≡ true }
    requires sessions { length said.now ≤ 32 }
    requires few { AllByRecursion (λ one. IsFew 4096 one.tally) said.now }
    ensures { IfOk result (λ out. out.items ≡ told_text plan first.now second.now said.now) }
{
    let mut out = Vec::new(alloc);
    say_summary(&mut out, plan, first, second, all_counted(said))?;
    if plan.full {
        say_full(&mut out, first, second, said)?;
    }
    Ok(out)
}

// The summary.
fn say_summary(
    out: &mut Vec<u8>,
    plan: Plan,
    first: &LogRead,
    second: &LogRead,
    tally: Tally,
) -> Result<(), AllocError>
    requires plan { is_within plan ≡ true }
    ensures { OnOk result (out.new.items
        ≡ out.old.items ++ summary_of plan first.now second.now tally) }
{
    say_heading(out, plan)?;
    say_counts(out, first, second, tally)
}

// How many sessions there were, and how many requests.
fn say_heading(out: &mut Vec<u8>, plan: Plan) -> Result<(), AllocError>
    requires plan { is_within plan ≡ true }
    ensures { OnOk result (out.new.items ≡ out.old.items ++ heading plan) }
{
    say_count(out, b"sessions ", plan.sessions)?;
    say_count(out, b"requests ", requests_of(plan))
}

// What is counted of both trees, and of the replies.
fn say_counts(
    out: &mut Vec<u8>,
    first: &LogRead,
    second: &LogRead,
    tally: Tally,
) -> Result<(), AllocError>
    ensures { OnOk result (out.new.items
        ≡ out.old.items ++ (trees_of first.now second.now ++ tally_line tally)) }
{
    say_trees(out, first, second)?;
    say_tally(out, tally)
}

// What is counted of both trees.
fn say_trees(out: &mut Vec<u8>, first: &LogRead, second: &LogRead) -> Result<(), AllocError>
    ensures { OnOk result (out.new.items ≡ out.old.items ++ trees_of first.now second.now) }
{
    say_numbers(out, FIRST_OWNER, first)?;
    say_numbers(out, SECOND_OWNER, second)
}

// How many requests all sessions make.
#[tactic(auto, using(crate::proofs::Saying::product_below))]
fn requests_of(plan: Plan) -> u64
    requires plan { is_within plan ≡ true }
    ensures { result ≡ plan.sessions * plan.requests }
{
    plan.sessions * plan.requests
}

// `TREE records N rows M`.
fn say_numbers(out: &mut Vec<u8>, owner: &[u8], log: &LogRead) -> Result<(), AllocError>
    ensures { OnOk result (out.new.items
        ≡ out.old.items ++ numbers_line owner.now log.now.records log.now.rows) }
{
    out.extend_from_slice(owner)?;
    push_count(out, b" records ", log.records)?;
    say_count(out, b" rows ", log.rows)
}

// `ok N notexist N private N`.
fn say_tally(out: &mut Vec<u8>, tally: Tally) -> Result<(), AllocError>
    ensures { OnOk result (out.new.items ≡ out.old.items ++ tally_line tally) }
{
    push_count(out, b"ok ", tally.ok)?;
    push_count(out, b" notexist ", tally.notexist)?;
    say_count(out, b" private ", tally.private)
}

// Adds words and a number.
fn push_count(out: &mut Vec<u8>, words: &[u8], number: u64) -> Result<(), AllocError>
    ensures { OnOk result (out.new.items ≡ out.old.items ++ (words.now ++ decimal number)) }
{
    let digits = number.to_string(*out.allocator())?;
    out.extend_from_slice(words)?;
    out.extend_from_slice(digits.as_bytes())
}

// The replies of all sessions by their kinds.
#[tactic(auto, using(crate::proofs::Saying::counted_next, crate::proofs::Saying::counted_all, crate::proofs::Saying::few_next))]
fn all_counted(said: &[Said]) -> Tally
    requires sessions { length said.now ≤ 32 }
    requires few { AllByRecursion (λ one. IsFew 4096 one.tally) said.now }
    ensures { result ≡ all_counted said.now }
{
    let mut all = Tally::none();
    for one in said {
        all = all.both(one.tally);
    }
    all
}

// The two logs, and what each session says.
fn say_full(
    out: &mut Vec<u8>,
    first: &LogRead,
    second: &LogRead,
    said: &[Said],
) -> Result<(), AllocError>
    ensures { OnOk result (out.new.items
        ≡ out.old.items ++ full_of first.now second.now said.now) }
{
    say_log(out, FIRST_OWNER, first)?;
    say_behind(out, second, said)
}

// The same behind the first log.
fn say_behind(out: &mut Vec<u8>, second: &LogRead, said: &[Said]) -> Result<(), AllocError>
    ensures { OnOk result (out.new.items ≡ out.old.items
        ++ (logged (codes "b@storm.example") second.now ++ sessions_text 0 said.now)) }
{
    say_log(out, SECOND_OWNER, second)?;
    say_sessions(out, said)
}

// `log TREE`, and its records.
fn say_log(out: &mut Vec<u8>, owner: &[u8], log: &LogRead) -> Result<(), AllocError>
    ensures { OnOk result (out.new.items ≡ out.old.items ++ logged owner.now log.now) }
{
    say(out, b"log ", owner)?;
    out.extend_from_slice(log.text.as_slice())
}

// `session K`, and what the session says, one session after the other.
#[tactic(auto, using(crate::proofs::Saying::sessions_next, crate::proofs::Saying::sessions_all))]
fn say_sessions(out: &mut Vec<u8>, said: &[Said]) -> Result<(), AllocError>
    ensures { OnOk result (out.new.items ≡ out.old.items ++ sessions_text 0 said.now) }
{
    for k in 0..said.len() {
        say_session(out, k as u64, &said[k])?;
    }
    Ok(())
}

fn say_session(out: &mut Vec<u8>, k: u64, said: &Said) -> Result<(), AllocError>
    ensures { OnOk result (out.new.items
        ≡ out.old.items ++ (ended (codes "session " ++ decimal k) ++ said.now.text)) }
{
    say_count(out, b"session ", k)?;
    out.extend_from_slice(said.text.as_slice())
}
