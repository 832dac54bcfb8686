//! Rows and events as fields.

ghost use Rattle.std.specs.Prelude.{◌≡◌, Err};
ghost use Rattle.up_bytes.specs.Reading.{num_at};
ghost use Rattle.up_wire.specs.Reading.{event_at, row_of};
ghost use Rattle.up_wire.specs.Spelling.{event, row, IsEvent, IsRow};

use crate::replies::{Row, WatchEvent};
use crate::words::{event_byte, take_event_kind};
use std::alloc::{AllocError, Global};
use up_bytes::{FieldFault, Fields, Reader, Writer, num_len};
use up_entry::Entry;

/// A row is how many elements remain, and its entry.
impl Fields for Row {
    ghost spelling = { row };

    ghost read_at = { row_of };

    ghost comes_first = { λ input fault. num_at input ≡ Err fault };

    ghost IsTyped = { IsRow };

    #[tactic(auto, unfolding(crate::specs::Reading::row_of))]
    fn take(alloc: Global, input: &mut Reader) -> Result<Row, FieldFault> {
        let rest = input.num()?;
        let entry = Entry::take(alloc, input)?;
        Ok(Row { entry, rest })
    }

    #[tactic(auto, unfolding(crate::specs::Spelling::row))]
    fn append(&self, out: &mut Writer) -> Result<(), AllocError> {
        out.num(self.rest)?;
        self.entry.write(out)
    }

    #[tactic(auto, unfolding(crate::specs::Spelling::row))]
    fn size(&self) -> u64 {
        num_len(self.rest).saturating_add(self.entry.size())
    }
}

/// An event is its position, a byte that tells a deletion, and its entry.
impl Fields for WatchEvent {
    ghost spelling = { event };

    ghost read_at = { event_at };

    ghost comes_first = { λ input fault. num_at input ≡ Err fault };

    ghost IsTyped = { IsEvent };

    #[tactic(auto, unfolding(crate::specs::Reading::event_at))]
    fn take(alloc: Global, input: &mut Reader) -> Result<WatchEvent, FieldFault> {
        let position = input.num()?;
        let delete = take_event_kind(input)?;
        let entry = Entry::take(alloc, input)?;
        Ok(WatchEvent {
            position,
            delete,
            entry,
        })
    }

    #[tactic(auto, unfolding(crate::specs::Spelling::event))]
    fn append(&self, out: &mut Writer) -> Result<(), AllocError> {
        out.num(self.position)?;
        out.byte(event_byte(self.delete))?;
        self.entry.write(out)
    }

    #[tactic(auto, unfolding(crate::specs::Spelling::event))]
    fn size(&self) -> u64 {
        num_len(self.position)
            .saturating_add(1)
            .saturating_add(self.entry.size())
    }
}
