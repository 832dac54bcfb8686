//! Laws of the numbers that are printed. Each function does nothing; its contract is the law.
ghost use Rattle.up_explain_can.specs.CanNumbers.{CanEndsAtTheFirst};

/// A run of `upspin can` over an input ends with 1 exactly where a number is printed for that input, and then its text ends with
/// `bad line N`, N being the first of them; where none is printed it ends with 0.
pub fn can_ends_at_the_first()
    ensures { CanEndsAtTheFirst }
{}
