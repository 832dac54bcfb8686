//! Names: users, domains and paths, in one canonical form each.
//!
//! [`parse_user`] and [`parse_path`] accept exactly the texts that have a canonical name, give exactly that name, and otherwise
//! exactly the first fault: their contracts cite `user_of` and `path_of`, in which `..` follows a rule that knows no stack.
//! The canonical text of a path parses to that path (`again` of `Path::text`). Equality, order, `is_under`,
//! `control_kind`, `parent`, `join` and `drop_last` are exact. [`parse_item`] gives exactly whom a name in an Access or Group
//! text stands for.
#![tactic(auto)]

pub mod control_texts;
mod cuts;
pub mod domains;
pub mod fault;
pub mod item_lists;
pub mod items;
mod path_parts;
pub mod paths;
pub mod users;

pub use cuts::cut_at_slash;
pub use domains::Domain;
pub use fault::{NameFault, TextFault};
pub use items::{Item, parse_item};
pub use path_parts::{element_text, parse_path};
pub use paths::{Control, Path};
pub use users::{User, parse_user};
