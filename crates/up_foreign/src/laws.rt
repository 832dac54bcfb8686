//! Laws of what is needed. Each function does nothing; its contract is the law.
ghost use Rattle.up_foreign.specs.Laws.{NeededGoesOn};

/// What is needed with more loaded goes on from what was needed before: a search begins where it had come to the first group that had to
/// be loaded, and what was looked at before that is looked at no more.
pub fn needed_goes_on()
    ensures { NeededGoesOn }
{}
