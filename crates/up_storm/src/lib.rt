//! `upspin storm`: sessions at once over one shared host.
//!
//! [`storm_run`] makes a host with two trees over disks in memory (`specs/Preparing.antt`), shares it, and runs the sessions of its plan
//! (`specs/Plans.antt`) at once, in a thread each. A session asks what its generator draws (`specs/Generator.antt`, `specs/Asked.antt`),
//! one request after the other, by seats of its own. What one call of it is (`HasAsked`), and a run of them (`HasRun`), is in
//! `specs/Sessions.antt`: each call begins with what the one before it left, its event is `Asked` of `up_calls`, and what is printed
//! and counted of it is told. Then the seats of all sessions are joined (`specs/Seating.antt`), the logs of both trees are read through
//! them in turns of their own, and all is printed (`specs/Telling.antt`). `specs/Storms.antt` says it as a whole (`IsStorm`, `Means`).
//!
//! What is counted is what these runs gave, and it is a function of the words alone: `specs/Summary.antt` runs the generator over a model of
//! each session's files (`summary_of_words`), and the clause `summary` says that what is written begins with that.
#![tactic(auto)]

mod generator;
mod logs;
mod opening;
mod plan;
mod preparing;
mod requests;
mod session;
mod sessions;
mod sign_on;
mod storm;
mod tally;
mod telling;
mod texts;

pub use generator::{Draw, Wish, drawn_of, first_number, next_number};
pub use logs::LogRead;
pub use plan::{MOST_REQUESTS, MOST_SESSIONS, Plan, plan_of};
pub use session::{Said, Worker};
pub use storm::{storm_run, storm_within};
pub use tally::Tally;
