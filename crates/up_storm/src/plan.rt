//! What the words of a storm plan.
ghost use Rattle.std.specs.Prelude.{◌≡◌, map, string_bytes, true, IfSome};
ghost use Rattle.up_storm.specs.Plans.{bounded, is_within, plan_of, planned};

use up_command::is;
use up_text::read_num;

/// How many sessions a storm may have at once.
pub const MOST_SESSIONS: u64 = 32;

/// How many requests a session may make.
pub const MOST_REQUESTS: u64 = 4_096;

/// A storm: the number that its requests come from, how many sessions run at once, how many requests each of them makes, and whether the
/// logs and all replies are printed.
#[derive(Clone, Copy, Debug, PartialEq, Eq)]
pub struct Plan {
    pub seed: u64,
    /// 1 to 32.
    pub sessions: u64,
    /// At most 4,096.
    pub requests: u64,
    pub full: bool,
}

/// What the words `storm SEED SESSIONS REQUESTS` plan, with `--full` behind them or not. `None` exactly where the words are others, a
/// number has a leading zero or fits no `u64`, or one is out of its bounds.
#[tactic(auto, unfolding(crate::specs::Plans::plan_of))]
pub fn plan_of(words: &[String]) -> Option<Plan>
    ensures exact { result ≡ plan_of (map string_bytes words.now) }
    ensures within { IfSome result (λ made. is_within made ≡ true) }
{
    match words {
        [command, seed, sessions, requests] => {
            if is(command.as_bytes(), b"storm") {
                planned(seed, sessions, requests, false)
            } else {
                None
            }
        }
        [command, seed, sessions, requests, option] => {
            if is(command.as_bytes(), b"storm") && is(option.as_bytes(), b"--full") {
                planned(seed, sessions, requests, true)
            } else {
                None
            }
        }
        _ => None,
    }
}

// What three numbers plan.
#[tactic(auto, unfolding(crate::specs::Plans::planned))]
fn planned(seed: &str, sessions: &str, requests: &str, full: bool) -> Option<Plan>
    ensures exact { result ≡ planned seed.now sessions.now requests.now full }
    ensures within { IfSome result (λ made. is_within made ≡ true) }
{
    let seed = read_num(seed.as_bytes())?;
    let sessions = read_num(sessions.as_bytes())?;
    let requests = read_num(requests.as_bytes())?;
    bounded(Plan {
        seed,
        sessions,
        requests,
        full,
    })
}

// The plan, where it keeps the bounds.
fn bounded(plan: Plan) -> Option<Plan>
    ensures exact { result ≡ bounded plan }
    ensures within { IfSome result (λ made. is_within made ≡ true) }
{
    if is_within(&plan) { Some(plan) } else { None }
}

fn is_within(plan: &Plan) -> bool
    ensures { result ≡ is_within plan.now }
{
    1 <= plan.sessions && plan.sessions <= MOST_SESSIONS && plan.requests <= MOST_REQUESTS
}
