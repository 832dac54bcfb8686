//! What holds of the bytes of each image, in both formats.
ghost use Rattle.std.specs.Prelude.{◌≡◌, ◌↔◌, ◌<◌, ◌≤◌, ◌^◌, ℕ, List, length, true, Ok, Result};
ghost use Rattle.std.specs.List.{AllByRecursion};
ghost use Rattle.up_bytes.specs.Forms.{IsBytes};
ghost use Rattle.up_journal.specs.Damages.{Damage};
ghost use Rattle.up_journal.specs.Format1.{format1, old_log_of};
ghost use Rattle.up_journal.specs.Format2.{format2, log_of};
ghost use Rattle.up_journal.specs.Gates.{Format, IsFormat, has_name, log_from, new_size};
ghost use Rattle.up_journal.specs.Images.{ImageReads, Reads, image_of};

/// Bytes from a gate on read in one way: as records behind open gates and then a closed gate, or as records and then
/// one damage. What is read gate by gate is exactly that.
pub fn gates_have_one_reading()
    ensures one { (format : Format) (largest gate : ℕ) (link bytes : List ℕ)
        (answer other : Result (List (List ℕ)) Damage) → IsFormat format → largest < 2 ^ 32
        → length link ≡ format.link_size
        → Reads format largest gate link bytes answer → Reads format largest gate link bytes other
        → answer ≡ other }
    ensures exactly { (format : Format) (largest gate most : ℕ) (link bytes : List ℕ)
        (answer : Result (List (List ℕ)) Damage) → IsFormat format → largest < 2 ^ 32
        → length link ≡ format.link_size → IsBytes bytes → 0 < length bytes → length bytes ≤ most
        → (log_from format most largest gate link bytes ≡ answer)
        ↔ Reads format largest gate link bytes answer }
{}

/// An image with a format's name has exactly what its bytes behind the name read as, and the image that is made of a
/// log has this log.
pub fn images_read_by_their_gates()
    ensures second { (largest : ℕ) (image : List ℕ) (answer : Result (List (List ℕ)) Damage)
        → largest < 2 ^ 32 → IsBytes image → new_size < length image → has_name format2 image ≡ true
        → (log_of largest image ≡ answer) ↔ ImageReads format2 largest image answer }
    ensures first { (largest : ℕ) (image : List ℕ) (answer : Result (List (List ℕ)) Damage)
        → largest < 2 ^ 32 → IsBytes image → new_size < length image → has_name format1 image ≡ true
        → (old_log_of largest image ≡ answer) ↔ ImageReads format1 largest image answer }
    ensures made { (largest : ℕ) (log : List (List ℕ)) → largest < 2 ^ 32
        → AllByRecursion (λ payload. length payload ≤ largest) log
        → log_of largest (image_of format2 log) ≡ Ok log }
{}
