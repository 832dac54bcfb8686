//! The numbers that words are.

ghost use Rattle.std.specs.Prelude.{◌≡◌, ◌^◌, ◌<◌, ℕ, ℤ, Some, IfSome, decimal, FitsSigned};
ghost use Rattle.std.specs.Int.{w64};
ghost use Rattle.std.specs.Fmt.{signed_decimal};
ghost use Rattle.up_text.specs.Numbers.{begins_number, int_of, num_of};

use std::str;

/// The number of a u64 whose decimal digits a word is, without leading zeros (`0` itself is one). `None` for any
/// other word.
pub fn read_num(word: &[u8]) -> Option<u64>
    ensures value { result ≡ num_of word.now }
    ensures only { IfSome result (λ n. word.now ≡ decimal n) }
    ensures every { (n : ℕ) → n < 2 ^ 64 → word.now ≡ decimal n → result ≡ Some n }
{
    if !begins_number(word) {
        return None;
    }
    let Ok(digits) = str::from_utf8(word) else {
        return None;
    };
    digits.parse::<u64>().ok()
}

/// Whether a word begins with a digit, and with `0` only where that is all of it.
fn begins_number(word: &[u8]) -> bool
    ensures { result ≡ begins_number word.now }
{
    match word.split_first() {
        Some((b'0', rest)) => rest.is_empty(),
        Some((first, _)) => first.is_ascii_digit(),
        None => false,
    }
}

/// The number of an i64 whose decimal digits a word is, without leading zeros and with a leading `-` where it is
/// negative. `None` for any other word, `-0` among them.
pub fn read_int(word: &[u8]) -> Option<i64>
    ensures value { result ≡ int_of word.now }
    ensures only { IfSome result (λ z. word.now ≡ signed_decimal z) }
    ensures every { (z : ℤ) → FitsSigned w64 z → word.now ≡ signed_decimal z → result ≡ Some z }
{
    match word.strip_prefix(b"-") {
        Some(digits) => match read_num(digits)? {
            0 => None,
            size => 0i64.checked_sub_unsigned(size),
        },
        None => 0i64.checked_add_unsigned(read_num(word)?),
    }
}
