//! Values of several fields, lists of them, and messages that are one of them.

ghost use Rattle.std.specs.Prelude.{◌≡◌, [], ◌∷◌, ◌++◌, ℕ, suc, List, length, take, Result, Ok, Err, IfOk, OnErr, OnOk, is_ok, if◌then◌else◌};
ghost use Rattle.up_bytes.specs.declared.fault.FieldFault.{FieldFault};
ghost use Rattle.up_bytes.specs.Input.{Input};
ghost use Rattle.up_bytes.specs.Sizes.{size_of};
ghost use Rattle.up_bytes.specs.Spelling.{list, IsList};
ghost use Rattle.up_bytes.specs.First.{IsFirst};
ghost use Rattle.up_bytes.specs.Reading.{FaultFirst, Gives, from_start, items_at, list_at, num_at, whole_of};

use crate::Bytes;
use crate::fault::FieldFault;
use crate::leb128::num_len;
use crate::reader::Reader;
use crate::writer::Writer;
use std::alloc::{AllocError, Global};
use up_lists::Items;

/// A value that is read from some fields and written as them, in its one spelling.
pub trait Fields: Sized {
    // How it is spelled, how it is read, which faults come before any memory is asked for, and what each value of the program
    // is by its type.
    ghost spelling: { Self → List ℕ };

    ghost read_at: { Input → Result (Self × Input) FieldFault };

    ghost comes_first: { Input → FieldFault → Type 0 };

    ghost IsTyped: { Self → Type 0 };

    /// Takes the value from the front of the input. A refused call leaves the place anywhere.
    fn take(alloc: Global, input: &mut Reader) -> Result<Self, FieldFault>
        ensures exact { Gives (λ value. (value, input.new)) result (read_at input.old) }
        ensures first { (fault : FieldFault) → comes_first input.old fault → result ≡ Err fault };

    /// Takes the value from the front of the input. A refused call leaves the place where it was.
    final fn read(alloc: Global, input: &mut Reader) -> Result<Self, FieldFault>
        ensures exact { Gives (λ value. (value, input.new)) result (read_at input.old) }
        ensures first { (fault : FieldFault) → comes_first input.old fault → result ≡ Err fault }
        ensures err { OnErr result (input.new ≡ input.old) }
    {
        let mut ahead = input.fork();
        let value = Self::take(alloc, &mut ahead)?;
        *input = ahead;
        Ok(value)
    }

    /// Appends the value. A call that finds no memory may leave a part of it.
    fn append(&self, out: &mut Writer) -> Result<(), AllocError>
        ensures appended { OnOk result (out.new ≡ out.old ++ spelling self.now) }
        ensures kept { take (length out.old) out.new ≡ out.old }
        ensures typed { IfOk result (λ _. IsTyped self.now) };

    /// Appends the value. A call that finds no memory appends nothing.
    final fn write(&self, out: &mut Writer) -> Result<(), AllocError>
        ensures written { out.new
            ≡ (if is_ok result then out.old ++ spelling self.now else out.old) }
        ensures typed { IfOk result (λ _. IsTyped self.now) }
    {
        let len = out.len();
        let written = self.append(out);
        if written.is_err() {
            out.truncate(len);
        }
        written
    }

    /// How many bytes the value's spelling has, or 2^64 - 1 where there are more. It takes no memory.
    fn size(&self) -> u64
        ensures { result ≡ size_of (spelling self.now) };
}

/// Takes a number and so many values from the front of the input. The number reserves nothing before they are there, and the list
/// keeps no memory beyond them. A refused call leaves the place where it was.
#[tactic(auto, unfolding(crate::specs::Reading::list_at))]
pub fn read_list<T: Fields + Drop>(
    alloc: Global,
    input: &mut Reader,
) -> Result<Items<T>, FieldFault>
    ensures exact { Gives (λ values. (values, input.new)) result (list_at T.read_at input.old) }

    // Where the number is refused, or the first value before any memory is asked for, so is the list.
    ensures number { FaultFirst (num_at input.old) result }
    ensures first { (n : ℕ) (rest : Input) (fault : FieldFault) →
        num_at input.old ≡ Ok (suc n, rest) → T.comes_first rest fault → result ≡ Err fault }
    ensures err { OnErr result (input.new ≡ input.old) }
{
    let mut ahead = input.fork();
    let count = ahead.num()?;
    let mut values = take_items(alloc, &mut ahead, count)?;
    values.shrink();
    *input = ahead;
    Ok(values)
}

/// Takes so many values. A refused call leaves the place anywhere.
fn take_items<T: Fields + Drop>(
    alloc: Global,
    input: &mut Reader,
    count: u64,
) -> Result<Items<T>, FieldFault>
    ensures exact { Gives (λ values. (values, input.new)) result
        (items_at T.read_at count input.old) }
    ensures first { (n : ℕ) (fault : FieldFault) → count ≡ suc n → T.comes_first input.old fault
        → result ≡ Err fault }
{
    let mut values = Vec::new(alloc);
    for taken in 0..count {
        push_next(&mut values, T::take(alloc, input)?, count - taken - 1)?;
    }
    Ok(Items::from_vec(values))
}

/// Adds a value, after which so many more are to come. A full list about doubles its room, but takes none beyond what is to
/// come.
fn push_next<T: Drop>(values: &mut Vec<T>, value: T, more: u64) -> Result<(), AllocError>
    ensures { OnOk result (values.new.items ≡ values.old.items ++ value ∷ []) }
{
    let len = values.len();
    if len == values.capacity() {
        let room = 1 + more.min(len as u64);
        if let Err(fault) = values.reserve_exact(room as usize) {
            drop(value);
            return Err(fault);
        }
    }
    values.push_reserved(value);
    Ok(())
}

/// Appends the number of the values, and then each, in its one spelling. A call that finds no memory appends nothing.
pub fn write_list<T: Fields>(values: &[T], out: &mut Writer) -> Result<(), AllocError>
    ensures written { out.new ≡
        (if is_ok result then out.old ++ list T.spelling values.now else out.old) }
    ensures typed { IfOk result (λ _. IsList T.IsTyped values.now) }
{
    let len = out.len();
    let written = append_list(values, out);
    if written.is_err() {
        out.truncate(len);
    }
    written
}

/// Appends the number of the values, and then each. A call that finds no memory may leave a part of them.
fn append_list<T: Fields>(values: &[T], out: &mut Writer) -> Result<(), AllocError>
    ensures appended { OnOk result (out.new ≡ out.old ++ list T.spelling values.now) }
    ensures kept { take (length out.old) out.new ≡ out.old }
    ensures typed { IfOk result (λ _. IsList T.IsTyped values.now) }
{
    out.num(values.len() as u64)?;
    for value in values {
        value.write(out)?;
    }
    Ok(())
}

/// How many bytes a list's spelling has, or 2^64 - 1 where there are more. It takes no memory.
pub fn list_size<T: Fields>(values: &[T]) -> u64
    ensures { result ≡ size_of (list T.spelling values.now) }
{
    let mut size = num_len(values.len() as u64);
    for value in values {
        size = size.saturating_add(value.size());
    }
    size
}

/// The value that is the whole of these bytes.
///
/// The fault is `Short` where the input ends within a field, else `Spelling` with the place of the first field that is no
/// spelling of a value that may stand there, or, behind the last field, of the first byte that is left.
#[tactic(auto, unfolding(crate::specs::Reading::whole_of))]
pub fn read_whole<T: Fields + Drop>(alloc: Global, bytes: &[u8]) -> Result<T, FieldFault>
    ensures exact { Gives (λ value. value) result (whole_of T.read_at bytes.now) }
    ensures first { IsFirst (T.comes_first (from_start bytes.now)) result }
{
    let mut input = Reader::new(bytes);
    let value = T::take(alloc, &mut input)?;
    if !input.at_end() {
        return Err(FieldFault::Spelling(input.place()));
    }
    Ok(value)
}

/// The bytes of a value, in its one spelling. They are given room at once, so that each is written once.
pub fn write_whole<T: Fields>(alloc: Global, value: &T) -> Result<Bytes, AllocError>
    ensures written { IfOk result (λ bytes. bytes ≡ T.spelling value.now) }
    ensures typed { IfOk result (λ _. T.IsTyped value.now) }
{
    let mut out = Writer::with_capacity(alloc, value.size())?;
    value.append(&mut out)?;
    Ok(out.finish())
}
