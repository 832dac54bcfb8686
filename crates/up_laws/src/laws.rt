//! Laws of turns. A function here does nothing; its contract is the law.
ghost use Rattle.up_laws.specs.Apart.{ApartTurnsAreInStep};

/// Two logs that agree for a user agree after turns of others that add nothing, the same, or what the user sees nothing of: so in
/// [`crate::two_histories`] the user's replies are equal whatever others did out of the user's sight.
pub fn apart_turns_are_in_step()
    ensures { ApartTurnsAreInStep }
{}
