//! Numbers as unsigned LEB128 in its shortest form, at most ten bytes, and signed numbers in zigzag form.

ghost use Rattle.std.specs.Prelude.{◌≡◌, ◌⊎◌, ◌+◌, ◌*◌, ◌^◌, ◌<◌, ◌≤◌, ◌++◌, length, IfOk, vec_len, vec_capacity};
ghost use Rattle.std.specs.Bool.{OnTrue, OnFalse};
ghost use Rattle.up_bytes.specs.Num.{num};
ghost use Rattle.up_bytes.specs.Input.{Input, past};
ghost use Rattle.up_bytes.specs.Spelling.{int, text, zigzag, from_zigzag};
ghost use Rattle.up_bytes.specs.Reading.{Answers, num_at};

use crate::fault::FieldFault;

/// How many bytes the spelling of a number has: 1 to 10. It takes no memory.
#[tactic(auto, using(crate::proofs::Numbers::nums))]
pub fn num_len(n: u64) -> u64
    ensures { result ≡ length (num n) }
{
    let mut rest = n;
    let mut len = 1;
    while rest >= 128 {
        rest /= 128;
        len += 1;
    }
    len
}

/// How many bytes the spelling of a signed number has: 1 to 10. It takes no memory.
pub fn int_len(z: i64) -> u64
    ensures { result ≡ length (int z) }
{
    num_len(to_zigzag(z))
}

/// How many bytes the spelling of a text has. It takes no memory.
#[tactic(auto, using(crate::proofs::Numbers::nums))]
pub fn text_len(bytes: &[u8]) -> u64
    ensures { result ≡ length (text bytes.now) }
{
    num_len(bytes.len() as u64) + bytes.len() as u64
}

/// Appends the spelling of a number, for which there is room.
#[tactic(auto, using(crate::proofs::Numbers::nums))]
pub(crate) fn push_num(out: &mut Vec<u8>, n: u64)
    requires { vec_len out.old + length (num n) ≤ vec_capacity out.old }
    ensures items { out.new.items ≡ out.old.items ++ num n }
    ensures capacity { vec_capacity out.new ≡ vec_capacity out.old }
{
    let mut rest = n;
    while rest >= 128 {
        out.push_reserved(128 + (rest % 128) as u8);
        rest /= 128;
    }
    out.push_reserved(rest as u8);
}

/// The number at the front of the bytes that stand at `place`, and how many bytes spell it.
pub(crate) fn num_in(place: u64, bytes: &[u8]) -> Result<(u64, usize), FieldFault>
    ensures exact { let input : Input = record {
      size = place
          + length bytes.now;
      left = bytes.now;
    } in
        Answers (λ found. (found.0, past found.1 input)) result (num_at input) }
    ensures within { IfOk result (λ found. found.1 ≤ length bytes.now) }
{
    let mut value = 0;
    for (i, byte) in bytes.iter().enumerate() {
        let digit = *byte;
        if is_misplaced(digit, i) {
            return Err(FieldFault::Spelling(place));
        }
        if digit < 128 {
            return Ok((value + shifted(digit, i), i + 1));
        }
        value += shifted(digit - 128, i);
    }
    Err(FieldFault::Short)
}

/// Whether no num has this byte at place `i`: a tenth byte above 01, or a byte 00 after another byte.
fn is_misplaced(byte: u8, i: usize) -> bool
    ensures yes { OnTrue result (((i ≡ 9) × (1 < byte)) ⊎ ((0 < i) × (byte ≡ 0))) }
    ensures no { OnFalse result ((i ≡ 9 → byte ≤ 1) × (0 < i → 0 < byte)) }
{
    i == 9 && byte > 1 || i > 0 && byte == 0
}

/// Seven bits at their place in a number, from the lowest on.
fn shifted(bits: u8, i: usize) -> u64
    requires place { i ≤ 9 }
    requires low { bits < 128 }
    requires top { i ≡ 9 → bits ≤ 1 }
    ensures { result ≡ 2 ^ (7 * i) * bits }
{
    u64::from(bits) << (7 * i)
}

/// The zigzag number of a signed one.
pub(crate) fn to_zigzag(z: i64) -> u64
    ensures { result ≡ zigzag z }
{
    if z >= 0 {
        2 * z as u64
    } else {
        2 * (-(z + 1)) as u64 + 1
    }
}

/// The signed number of a zigzag one.
pub(crate) fn of_zigzag(n: u64) -> i64
    ensures { result ≡ from_zigzag n }
{
    let half = (n / 2) as i64;
    if n % 2 == 0 { half } else { -half - 1 }
}
