//! Words that are lists, whatever they are lists of.
use std::alloc::Global;
use up_bytes::{Bytes, copy_of};
use up_case_lines::{Fault, number_of, user_of};
use up_lists::Items;
use up_names::User;

/// What stands between two marks of a word.
pub trait Part: Sized + Drop {
    /// What a part stands for.
    fn of_part(alloc: Global, part: &str) -> Result<Self, Fault>;
}

/// The list that a word is, its parts joined by commas; `-` for none.
pub fn list_of<T: Part>(alloc: Global, word: &str) -> Result<Items<T>, Fault> {
    if word == "-" {
        return Ok(Items::new(alloc));
    }
    parts_of(alloc, word, ',')
}

/// The list of which a text has the parts, joined by this mark.
pub fn parts_of<T: Part>(alloc: Global, text: &str, mark: char) -> Result<Items<T>, Fault> {
    let mut parts = Items::new(alloc);
    for part in text.split(mark) {
        add_part(alloc, &mut parts, part)?;
    }
    Ok(parts)
}

fn add_part<T: Part>(alloc: Global, parts: &mut Items<T>, part: &str) -> Result<(), Fault> {
    parts.push(T::of_part(alloc, part)?)?;
    Ok(())
}

impl Part for u64 {
    fn of_part(_alloc: Global, part: &str) -> Result<u64, Fault> {
        number_of(part)
    }
}

impl Part for User {
    fn of_part(alloc: Global, part: &str) -> Result<User, Fault> {
        user_of(alloc, part)
    }
}

/// The bytes of a part, as they stand.
impl Part for Bytes {
    fn of_part(alloc: Global, part: &str) -> Result<Bytes, Fault> {
        Ok(copy_of(alloc, part.as_bytes())?)
    }
}
