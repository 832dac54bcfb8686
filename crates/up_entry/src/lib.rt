//! Entries of a tree: what a file, a directory or a link is, the rules that an entry handed to Put has to keep, what a
//! user is shown of one, and how entries and the records of a tree's log are spelled in bytes.
//!
//! [`check_entry`] answers the entry that a user hands to Put, or exactly the first rule that it breaks (`checked_as`, the
//! twelve rules in their order); want of memory alone is free. [`has_fixed_form`] is exactly the form that a record of a log
//! must have. [`shown`] is the entry whole to a user who may read its name, and to any other without blocks and packdata, with
//! the mark (`shown_as`).
//!
//! An entry and a record have one spelling each: [`write_entry`] and [`write_rec`] write it (`written`), what is written of a
//! value that has a spelling is read again, the readers take exactly the spellings and answer `Short` and `Spelling` by the
//! first field that fails (`exact`), and a refused call moves nothing (`err`). The laws are contracts of small functions: that no
//! spelling begins another, that a cut one is short and what is misspelled begins none ([`entries_have_one_spelling`],
//! [`records_have_one_spelling`], [`parts_have_one_spelling`]); what each field of a checked entry is, and that it has the fixed
//! form ([`checked_entries_keep_each_rule`], [`fixed_form_is_told_by_rules`]).
#![tactic(auto)]

mod attrs;
mod block_rules;
mod checking;
mod copying;
mod entries;
mod fault;
mod fetch;
mod fields;
mod forms;
mod front;
mod kind_rules;
mod laws;
mod names;
mod puts;
mod raw;
mod reading;
mod records;
mod showing;
mod what;
mod writing;

pub use block_rules::is_address;
pub use checking::check_entry;
pub use entries::{Attr, Block, Endpoint, Entry, Kind, Location};
pub use fault::EntryFault;
pub use fetch::Fetch;
pub use fields::{read_blocks, read_endpoint, write_blocks, write_endpoint};
pub use forms::has_fixed_form;
pub use kind_rules::is_control_file;
pub use laws::{
    checked_entries_keep_each_rule, entries_have_one_spelling, fixed_form_is_told_by_rules,
    parts_have_one_spelling, records_have_one_spelling,
};
pub use names::{read_path, read_user};
pub use puts::{Checked, PutEntry};
pub use reading::read_entry;
pub use records::{Rec, read_rec, rec_size, write_rec};
pub use showing::shown;
pub use what::What;
pub use writing::{entry_size, write_entry};
