//! Bytes, and the fields that records and messages are spelled with: what a writer appends and a reader takes.
//!
//! A field has one spelling for each value: what is written is read again whatever follows, what is read is spelled so, `Short`
//! comes exactly where the input ends within a field and `Spelling` exactly where no spelling begins ([`fields_are_forms`],
//! [`num_has_one_spelling`]). What is made of several fields has the trait [`Fields`]; lists of such, and messages that are the
//! whole of some bytes, are read, written and measured once for all of them.
#![tactic(auto)]

use up_lists::Items;

mod copying;
mod fault;
mod fields;
mod laws;
mod leb128;
mod reader;
mod writer;

pub use copying::copy_of;
pub use fault::FieldFault;
pub use fields::{Fields, list_size, read_list, read_whole, write_list, write_whole};
pub use laws::{fields_are_forms, num_has_one_spelling};
pub use leb128::{int_len, num_len, text_len};
pub use reader::Reader;
pub use writer::Writer;

/// A list of bytes.
pub type Bytes = Items<u8>;
