//! A verifier in memory.
ghost use Rattle.std.specs.Prelude.{◌≡◌, [], ◌∷◌, ◌++◌, None, Some, is_ok, if◌then◌else◌, IfOk, IsErr, OnErr};
ghost use Rattle.up_lists.specs.Counts.{count_after, HasCause, StaysUnless};
ghost use Rattle.up_ends.specs.Telling.{next_of};
ghost use Rattle.up_ends.specs.Verdicts.{Judges, after_failure, after_verdict};

use crate::fault::Failed;
use crate::upcoming::Upcoming;
use crate::verifier::{Judged, Verdict, Verifier};
use std::alloc::{AllocError, Global};
use std::marker::Model;
use up_lists::Items;

/// A verifier whose answers were told to it, and which tells what it has judged.
///
/// A call takes the next of the list, or `after` once the list is used up. `None` is a failure. Want of memory for
/// the question is one too, and leaves the list as it was.
#[derive(Drop)]
pub struct FixedVerifier {
    coming: Upcoming<Option<Verdict>>,
    judged: Vec<Judged>,
    faults: u64,
}

impl Model for FixedVerifier {
    ghost use Rattle.up_ends.specs.Verdicts.{FixedVerdicts};

    ghost Value = { FixedVerdicts };

    ghost view = { λ s. record {
      coming = s.coming;
      judged = s.judged.items;
      faults = s.faults;
    } };
}

impl FixedVerifier {
    /// The answers in order, and the one for good after them. It takes no memory.
    pub fn new(alloc: Global, first: Items<Option<Verdict>>, after: Option<Verdict>) -> Self
        ensures { result ≡ record {
          coming = record { first = first; after = after };
          judged = [];
          faults = 0;
        } }
    {
        FixedVerifier {
            coming: Upcoming::new(first, after),
            judged: Vec::new(alloc),
            faults: 0,
        }
    }

    // Counts a failure.
    fn fault(&mut self) -> Failed
        ensures { self.new ≡ record self.old { faults = count_after self.old.faults 1 } }
    {
        self.faults = self.faults.saturating_add(1);
        Failed
    }

    /// What was judged so far, in order.
    pub fn judged(&self) -> &[Judged]
        ensures { result.now ≡ self.now.judged }
    {
        self.judged.as_slice()
    }
}

impl Verifier for FixedVerifier {
    ghost use Rattle.std.specs.Prelude.{Some};

    ghost judged = { λ s. Some s.judged };

    ghost faults = { λ s. s.faults };

    fn verdict(&mut self, key: &[u8], message: &[u8], signature: &[u8]) -> Result<Verdict, Failed>
        // Which answer comes, and that a listed failure comes whether or not there is memory.
        ensures answer { IfOk result (λ verdict. next_of self.old.coming ≡ Some verdict) }
        ensures listed { next_of self.old.coming ≡ None → IsErr result }
        ensures after { IfOk result (λ verdict. self.new ≡ after_verdict self.old (record {
          key = key.now;
          message = message.now;
          signature = signature.now;
          verdict = verdict;
        })) }
        ensures failed { OnErr result (self.new ≡ after_failure self.old) }

        ensures judged { Judges (Some self.old.judged) (Some self.new.judged)
            (λ verdict. record {
              key = key.now;
              message = message.now;
              signature = signature.now;
              verdict = verdict;
            }) result }
        ensures cause { HasCause self.old.faults self.new.faults (IsErr result) }
        ensures quiet { StaysUnless self.old.faults self.new.faults (IsErr result) }
    {
        let Some(verdict) = self.coming.next() else {
            self.coming.pass();
            return Err(self.fault());
        };
        if note(&mut self.judged, key, message, signature, verdict).is_err() {
            return Err(self.fault());
        }
        self.coming.pass();
        Ok(verdict)
    }
}

// Adds a question with its verdict. An `Err` leaves the list as it was.
fn note(
    judged: &mut Vec<Judged>,
    key: &[u8],
    message: &[u8],
    signature: &[u8],
    verdict: Verdict,
) -> Result<(), AllocError>
    ensures { judged.new.items ≡ (if is_ok result then judged.old.items ++ record {
      key = key.now;
      message = message.now;
      signature = signature.now;
      verdict = verdict;
    } ∷ [] else judged.old.items) }
{
    let alloc = *judged.allocator();
    judged.push(Judged {
        key: Items::from_vec(key.to_vec(alloc)?),
        message: Items::from_vec(message.to_vec(alloc)?),
        signature: Items::from_vec(signature.to_vec(alloc)?),
        verdict,
    })?;
    Ok(())
}
