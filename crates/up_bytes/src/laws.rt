//! What holds of the fields' spellings and of how they are read, whatever the input.

ghost use Rattle.std.specs.Prelude.{◌≡◌, ◌<◌, ◌^◌, ◌↔◌, ℕ, List};
ghost use Rattle.up_bytes.specs.Num.{IsNum, num};
ghost use Rattle.up_bytes.specs.Spelling.{byte, int, text, raw, IsByte, IsU64, IsI64, IsText, HasLength};
ghost use Rattle.up_bytes.specs.Reading.{byte_at, num_at, int_at, text_at, bytes_at};
ghost use Rattle.up_bytes.specs.Forms.{IsForm};

/// Each number below 2^64 has one spelling as a num, by the grammar, and it is the one that a writer appends.
pub fn num_has_one_spelling()
    ensures { (bytes : List ℕ) (n : ℕ) → IsNum bytes n ↔ ((n < 2 ^ 64) × (bytes ≡ num n)) }
{}

/// Each field has one spelling for a value: what a writer appends is read again whatever follows it, what a
/// reader takes is spelled so, and each fault comes exactly where it should.
pub fn fields_are_forms()
    ensures byte { IsForm IsByte byte byte_at }
    ensures num { IsForm IsU64 num num_at }
    ensures int { IsForm IsI64 int int_at }
    ensures text { IsForm IsText text text_at }
    ensures raw { (n : ℕ) → IsForm (HasLength n) raw (bytes_at n) }
{}
