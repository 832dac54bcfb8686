//! Writing fields.

ghost use Rattle.std.specs.Prelude.{◌≡◌, ◌==◌, [], ◌++◌, length, take, is_ok, if◌then◌else◌, IfOk};
ghost use Rattle.up_bytes.specs.Num.{num};
ghost use Rattle.up_bytes.specs.Spelling.{byte, int, text};

use crate::Bytes;
use crate::leb128::{num_len, push_num, to_zigzag};
use std::alloc::{AllocError, Global};
use std::marker::Model;
use up_lists::Items;

/// Appends fields to a list of bytes, each in its one spelling. A call that finds no memory appends nothing.
#[derive(Debug, Drop)]
pub struct Writer {
    bytes: Vec<u8>,
}

impl Model for Writer {
    ghost use Rattle.std.specs.Prelude.{ℕ, List};

    ghost Value = { List ℕ };

    ghost view = { λ writer. writer.bytes.items };
}

impl Writer {
    /// A writer with no byte yet. It takes no memory.
    pub fn new(alloc: Global) -> Self
        ensures { result ≡ [] }
    {
        Writer {
            bytes: Vec::new(alloc),
        }
    }

    /// A writer with no byte yet and room for so many.
    pub fn with_capacity(alloc: Global, bytes: u64) -> Result<Self, AllocError>
        ensures { IfOk result (λ writer. writer ≡ []) }
    {
        Ok(Writer {
            bytes: Vec::with_capacity(alloc, bytes as usize)?,
        })
    }

    /// Appends a byte.
    pub fn byte(&mut self, v: u8) -> Result<(), AllocError>
        ensures { self.new ≡ (if is_ok result then self.old ++ byte v else self.old) }
    {
        self.bytes.push(v)?;
        Ok(())
    }

    /// Appends a number.
    pub fn num(&mut self, v: u64) -> Result<(), AllocError>
        ensures { self.new ≡ (if is_ok result then self.old ++ num v else self.old) }
    {
        self.bytes.reserve(num_len(v) as usize)?;
        push_num(&mut self.bytes, v);
        Ok(())
    }

    /// Appends a signed number.
    pub fn int(&mut self, v: i64) -> Result<(), AllocError>
        ensures { self.new ≡ (if is_ok result then self.old ++ int v else self.old) }
    {
        self.num(to_zigzag(v))
    }

    /// Appends a text: its length, and then its bytes.
    #[tactic(auto, using(crate::proofs::Numbers::nums))]
    pub fn text(&mut self, v: &[u8]) -> Result<(), AllocError>
        ensures { self.new ≡ (if is_ok result then self.old ++ text v.now else self.old) }
    {
        let len = v.len() as u64;
        self.bytes.reserve(num_len(len) as usize + v.len())?;
        push_num(&mut self.bytes, len);
        self.bytes.extend_from_slice(v)?;
        Ok(())
    }

    /// Appends bytes as they stand, as those of a reference, or a block's up to the end of its record.
    pub fn raw(&mut self, v: &[u8]) -> Result<(), AllocError>
        ensures { self.new ≡ (if is_ok result then self.old ++ v.now else self.old) }
    {
        self.bytes.extend_from_slice(v)
    }

    /// The number of bytes so far.
    pub fn len(&self) -> u64
        ensures { result ≡ length self.now }
    {
        self.bytes.len() as u64
    }

    /// Whether there is no byte yet.
    pub fn is_empty(&self) -> bool
        ensures { result ≡ (length self.now == 0) }
    {
        self.bytes.is_empty()
    }

    /// The bytes so far.
    pub fn as_slice(&self) -> &[u8]
        ensures { result.now ≡ self.now }
    {
        self.bytes.as_slice()
    }

    /// Keeps the first `len` bytes alone, as after a record of which not all fields found memory.
    pub fn truncate(&mut self, len: u64)
        ensures { self.new ≡ take len self.old }
    {
        self.bytes.truncate(len as usize);
    }

    /// The bytes. It takes no memory.
    pub fn finish(self) -> Bytes
        ensures { result ≡ self }
    {
        Items::from_vec(self.bytes)
    }
}
