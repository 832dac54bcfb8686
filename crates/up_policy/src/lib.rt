//! Who may do what: the evaluator of rights, over any facts of a tree and what was loaded of the groups of others.
//!
//! [`can`] answers exactly the definition of a right: the relation `HasRight`, in which a member is one for whom there is a
//! list of groups, each a member of the next (`meaning`), and the test `right_test`, which computes (`test`). That the search
//! through groups agrees with lists of groups for every text, cycles included, is the law `laws::test_is_right`.
//! [`rights_of`] gives all rights of a user; [`needs`] adds exactly the groups of other owners that have to be loaded, in order
//! of first mention. Where more is loaded a yes stays a yes (`laws::rights_are_monotone`).
//!
//! [`Facts`] are what a tree has to tell: its Access and Group texts, and the text of the nearest directory that has one.
//! [`MapFacts`] and [`Loaded`] keep such texts in memory, in order of first mention.
#![tactic(auto)]

mod directories;
mod facts;
mod governors;
pub mod laws;
mod load_answer;
mod loaded;
mod map_facts;
mod marks;
mod members;
mod met;
mod names;
mod needed_groups;
mod verdicts;

pub use facts::Facts;
pub use governors::owns_snapshots;
pub use load_answer::LoadAnswer;
pub use loaded::Loaded;
pub use map_facts::MapFacts;
pub use names::Names;
pub use needed_groups::needs;
pub use verdicts::{can, is_control, rights_of};
