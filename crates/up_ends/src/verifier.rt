//! What a verifier of signatures promises.
ghost use Rattle.std.specs.Prelude.{ℕ, List, IsErr, Option};
ghost use Rattle.up_lists.specs.Counts.{HasCause, StaysUnless};
ghost use Rattle.up_ends.specs.Verdicts.{Judges};
ghost use Rattle.up_ends.specs.declared.verifier.Judged.{Judged};

use crate::fault::Failed;
use up_lists::Items;

/// Whether a signature is that of a message by a key.
#[derive(Clone, Copy, Debug, PartialEq, Eq)]
pub enum Verdict {
    Yes,
    No,
}

/// One question to a verifier, and its verdict.
#[derive(Debug, Drop)]
pub struct Judged {
    pub key: Items<u8>,
    pub message: Items<u8>,
    pub signature: Items<u8>,
    pub verdict: Verdict,
}

/// Who says whether a signature is that of a message by a key.
pub trait Verifier {
    /// What was judged so far, in order, where the verifier tells it.
    ghost judged: { Self → Option (List Judged) };

    /// A count of faults, which never falls and rises in each call that fails. At 2^64 - 1 it stays.
    ghost faults: { Self → ℕ };

    /// The verdict. What was judged grows by exactly this question and its verdict, and stays after an `Err`.
    fn verdict(&mut self, key: &[u8], message: &[u8], signature: &[u8]) -> Result<Verdict, Failed>
        ensures judged { Judges (judged self.old) (judged self.new)
            (λ verdict. record {
              key = key.now;
              message = message.now;
              signature = signature.now;
              verdict = verdict;
            }) result }
        ensures cause { HasCause (faults self.old) (faults self.new) (IsErr result) }
        ensures quiet { StaysUnless (faults self.old) (faults self.new) (IsErr result) };
}
