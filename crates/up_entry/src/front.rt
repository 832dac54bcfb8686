//! The fields that an entry and a raw entry begin with, to be written.

ghost use Rattle.std.specs.Prelude.{◌≡◌, ◌++◌, is_ok, if◌then◌else◌, IfOk, OnOk, length, take};
ghost use Rattle.up_bytes.specs.Sizes.{size_of};
ghost use Rattle.up_bytes.specs.Spelling.{IsByte, IsI64, IsText};
ghost use Rattle.up_entry.specs.Spelling.{heading};

use std::alloc::AllocError;
use up_bytes::{Writer, int_len, text_len};

/// What stands in front of an entry's link: each name as a text, and the attributes as their byte.
#[derive(Clone, Copy)]
pub(crate) struct Front<'a> {
    pub name: &'a [u8],
    pub signed_name: &'a [u8],
    pub packing: u8,
    pub time: i64,
    pub writer: &'a [u8],
    pub attr: u8,
}

impl Front<'_> {
    /// Appends the fields. A call that finds no memory appends nothing.
    pub(crate) fn write(&self, out: &mut Writer) -> Result<(), AllocError>
        ensures written { let f = self.now in
            out.new ≡ (if is_ok result then out.old
            ++ heading f.name.now f.signed_name.now f.packing f.time f.writer.now f.attr
            else out.old) }
        ensures texts { let f = self.now in IfOk result
            (λ _. IsText f.name.now × IsText f.signed_name.now × IsText f.writer.now) }
        ensures numbers { let f = self.now in IfOk result
            (λ _. IsByte f.packing × IsI64 f.time × IsByte f.attr) }
    {
        let len = out.len();
        let written = self.append(out);
        if written.is_err() {
            out.truncate(len);
        }
        written
    }

    /// Appends the fields. A call that finds no memory may leave a part of them.
    fn append(&self, out: &mut Writer) -> Result<(), AllocError>
        ensures appended { let f = self.now in
            OnOk result (out.new ≡ out.old
            ++ heading f.name.now f.signed_name.now f.packing f.time f.writer.now f.attr) }
        ensures kept { take (length out.old) out.new ≡ out.old }
        ensures texts { let f = self.now in IfOk result
            (λ _. IsText f.name.now × IsText f.signed_name.now × IsText f.writer.now) }
        ensures numbers { let f = self.now in IfOk result
            (λ _. IsByte f.packing × IsI64 f.time × IsByte f.attr) }
    {
        out.text(self.name)?;
        out.text(self.signed_name)?;
        out.byte(self.packing)?;
        out.int(self.time)?;
        out.text(self.writer)?;
        out.byte(self.attr)
    }

    /// How many bytes the fields have, or 2^64 - 1 where there are more.
    pub(crate) fn size(&self) -> u64
        ensures { let f = self.now in
            result ≡ size_of
            (heading f.name.now f.signed_name.now f.packing f.time f.writer.now f.attr) }
    {
        text_len(self.name)
            .saturating_add(text_len(self.signed_name))
            .saturating_add(1)
            .saturating_add(int_len(self.time))
            .saturating_add(text_len(self.writer))
            .saturating_add(1)
    }
}
