//! Reading fields.

ghost use Rattle.std.specs.Prelude.{◌≡◌, ◌+◌, ◌≤◌, ◌==◌, length, IfOk, OnErr};
ghost use Rattle.up_bytes.specs.Input.{place};
ghost use Rattle.up_bytes.specs.Reading.{Answers, FaultFirst, Gives, byte_at, bytes_at, num_at, int_at, text_at};
ghost use Rattle.up_bytes.specs.Forms.{IsBytes};

use crate::Bytes;
use crate::copying::copy_of;
use crate::fault::FieldFault;
use crate::leb128::{num_in, of_zigzag};
use std::alloc::Global;
use std::marker::Model;

/// Takes fields from the front of bytes. A refused call leaves the place where it was.
#[derive(Debug, Drop)]
pub struct Reader<'a> {
    size: u64,
    left: &'a [u8],
}

impl<'a> Model for Reader<'a> {
    ghost use Rattle.std.specs.Prelude.{◌≤◌, length};
    ghost use Rattle.up_bytes.specs.Input.{Input};

    ghost Value = { Input };

    ghost view = { λ reader. record { size = reader.size; left = reader.left.now } };

    ghost invariant = { λ reader. length reader.left.now ≤ reader.size };
}

impl<'a> Reader<'a> {
    /// A reader at the start of the bytes.
    pub fn new(bytes: &'a [u8]) -> Self
        ensures input { result ≡ record { size = length bytes.now; left = bytes.now } }
        ensures bytes { IsBytes result.left }
    {
        Reader::at(bytes.len() as u64, bytes)
    }

    /// A byte.
    pub fn byte(&mut self) -> Result<u8, FieldFault>
        ensures exact { Answers (λ v. (v, self.new)) result (byte_at self.old) }
        ensures err { OnErr result (self.new ≡ self.old) }
    {
        let Some((first, rest)) = self.left.split_first() else {
            return Err(FieldFault::Short);
        };
        self.left = rest;
        Ok(*first)
    }

    /// A number.
    pub fn num(&mut self) -> Result<u64, FieldFault>
        ensures exact { Answers (λ v. (v, self.new)) result (num_at self.old) }
        ensures err { OnErr result (self.new ≡ self.old) }
    {
        let (value, len) = num_in(self.place(), self.left)?;
        self.left = &self.left[len..];
        Ok(value)
    }

    /// A signed number.
    #[tactic(auto, unfolding(crate::specs::Reading::int_at))]
    pub fn int(&mut self) -> Result<i64, FieldFault>
        ensures exact { Answers (λ v. (v, self.new)) result (int_at self.old) }
        ensures err { OnErr result (self.new ≡ self.old) }
    {
        Ok(of_zigzag(self.num()?))
    }

    /// A text, as bytes of its own. Its length reserves nothing before the bytes are there: memory is asked for once the
    /// whole text is.
    pub fn text(&mut self, alloc: Global) -> Result<Bytes, FieldFault>
        ensures exact { Gives (λ v. (v, self.new)) result (text_at self.old) }
        ensures fault { FaultFirst (text_at self.old) result }
        ensures err { OnErr result (self.new ≡ self.old) }
    {
        let mut ahead = self.fork();
        let text = copy_of(alloc, ahead.slice()?)?;
        *self = ahead;
        Ok(text)
    }

    /// A text, as a part of the input. It takes no memory.
    #[tactic(auto, unfolding(crate::specs::Reading::text_at))]
    pub fn slice(&mut self) -> Result<&'a [u8], FieldFault>
        ensures exact { Answers (λ v. (v.now, self.new)) result (text_at self.old) }
        ensures err { OnErr result (self.new ≡ self.old) }
    {
        let mut ahead = self.fork();
        let len = ahead.num()?;
        let text = ahead.raw(len)?;
        *self = ahead;
        Ok(text)
    }

    /// So many bytes as they stand, as a part of the input. It takes no memory.
    pub fn raw(&mut self, len: u64) -> Result<&'a [u8], FieldFault>
        ensures exact { Answers (λ v. (v.now, self.new)) result (bytes_at len self.old) }
        ensures len { IfOk result (λ v. length v.now ≡ len) }
        ensures err { OnErr result (self.new ≡ self.old) }
    {
        let left = self.left;
        if (left.len() as u64) < len {
            return Err(FieldFault::Short);
        }
        let (front, rest) = left.split_at(len as usize);
        self.left = rest;
        Ok(front)
    }

    /// 32 bytes as they stand, as those of a reference.
    pub fn bytes_32(&mut self) -> Result<[u8; 32], FieldFault>
        ensures exact { Answers (λ v. (v, self.new)) result (bytes_at 32 self.old) }
        ensures err { OnErr result (self.new ≡ self.old) }
    {
        let mut bytes = [0; 32];
        let front = self.raw(32)?;
        bytes.copy_from_slice(front);
        Ok(bytes)
    }

    /// Whether no byte is left.
    pub fn at_end(&self) -> bool
        ensures { result ≡ (length self.now.left == 0) }
    {
        self.left.is_empty()
    }

    /// How many bytes were read so far: the place of the next field, counted from 0.
    pub fn place(&self) -> u64
        ensures place { result ≡ place self.now }
        ensures all { result + length self.now.left ≡ self.now.size }
    {
        self.size - self.left.len() as u64
    }

    /// The bytes that are left.
    pub fn left(&self) -> &'a [u8]
        ensures { result.now ≡ self.now.left }
    {
        self.left
    }

    /// Another reader at this place, which reads ahead: assign it to this one to accept what it read.
    pub fn fork(&self) -> Reader<'a>
        ensures same { result ≡ self.now }
        ensures bytes { IsBytes self.now.left }
    {
        Reader::at(self.size, self.left)
    }

    // A reader before what is left of an input of so many bytes.
    fn at(size: u64, left: &'a [u8]) -> Self
        requires { length left.now ≤ size }
        ensures input { result ≡ record { size = size; left = left.now } }
        ensures bytes { IsBytes left.now }
    {
        Reader { size, left }
    }
}
