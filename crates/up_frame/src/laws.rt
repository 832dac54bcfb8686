//! What holds of each stream.

ghost use Rattle.std.specs.Prelude.{◌≡◌, ℕ, List, Option};
ghost use Rattle.up_bytes.specs.Forms.{IsBytes};
ghost use Rattle.up_frame.specs.Stream.{Reads};

/// Each stream of bytes reads in one way: it has one list of whole frames, one rest, and one place of a bad
/// frame or none.
pub fn stream_has_one_reading()
    ensures one { (limit : ℕ) (stream : List ℕ) (payloads others : List (List ℕ))
        (rest left : List ℕ)
        (bad worse : Option ℕ) →
        Reads limit stream payloads rest bad → Reads limit stream others left worse →
        (payloads ≡ others) × (rest ≡ left) × (bad ≡ worse) }
    ensures some { (limit : ℕ) (stream : List ℕ) → IsBytes stream →
        (payloads : List (List ℕ)) × (rest : List ℕ) × (bad : Option ℕ) ×
        Reads limit stream payloads rest bad }
{}
