//! What holds of messages that users sign.
ghost use Rattle.up_sign.specs.OneReading.{HaveOneReading};

/// A message that a user signs has one reading: the host's name, the user and the challenge are determined by it. So who signs on
/// at one host, as one user, for one challenge, signs nothing that another host, user or challenge would take.
pub fn messages_have_one_reading()
    ensures { HaveOneReading }
{}
