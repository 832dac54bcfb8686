//! Who is asked for the group texts of other owners, and for the blocks of other hosts.
ghost use Rattle.std.specs.Prelude.{◌≡◌, ℕ, Ok};
ghost use Rattle.std.specs.Result.{result_ok};
ghost use Rattle.std.specs.declared.option.Option.{Option};
ghost use Rattle.up_lists.specs.Counts.{HasCause, StaysUnless};
ghost use Rattle.up_peer.specs.Loading.{GroupQuestion, BlockQuestion};
ghost use Rattle.up_policy.specs.declared.load_answer.LoadAnswer.{LoadAnswer as Loads};
ghost use Rattle.up_policy.specs.declared.load_answer.LoadAnswer.TheVariants as loaded;
ghost use Rattle.up_entry.specs.declared.fetch.Fetch.{Fetch as Fetches};
ghost use Rattle.up_entry.specs.declared.fetch.Fetch.TheVariants as fetched;

use std::alloc::{AllocError, Global};
use up_entry::Fetch;
use up_names::{Path, User};
use up_policy::LoadAnswer;
use up_refs::Reference;

/// Who is asked for the group texts of other owners, and for the blocks of other hosts: a list of peers, or the other hosts of
/// a program with whoever stands behind them.
///
/// What it gives is a relation, since others answer by the state that they are in: a question and its answer, which is none
/// on want of memory, lead from one state to another. A loader that tells nothing allows all.
pub trait Loader {
    /// Whether a question for a group's text, with its answer, leads from one state to the other.
    ghost loads: { Self → GroupQuestion → Option Loads → Self → Type 0 };

    /// Whether a question for a block, with its answer, leads from one state to the other.
    ghost fetches: { Self → BlockQuestion → Option Fetches → Self → Type 0 };

    /// How often one of those it asks failed so far. A count that stands at 2^64 - 1 stays there.
    ghost faults: { Self → ℕ };

    /// What every call leaves as it is: of an object that holds a borrowed loader, that it is the same one.
    ghost tied: { Self → Self → Type 0 };

    /// Asks for the text of a group of another owner, as this user.
    fn load(&mut self, alloc: Global, asker: &User, name: &Path) -> Result<LoadAnswer, AllocError>
        ensures given { loads self.old (record { asker = asker.now; name = name.now })
            (result_ok result) self.new }
        ensures counts { HasCause (faults self.old) (faults self.new)
            (result ≡ Ok loaded.Failed) }
        ensures quiet { StaysUnless (faults self.old) (faults self.new)
            (result ≡ Ok loaded.Failed) }
        ensures tie { tied self.old self.new };

    /// Asks for a block at an address. That the bytes have the reference is not said.
    fn fetch(
        &mut self,
        alloc: Global,
        address: &[u8],
        reference: &Reference,
    ) -> Result<Fetch, AllocError>
        ensures given { fetches self.old
            (record { address = address.now; reference = reference.now })
            (result_ok result) self.new }
        ensures counts { HasCause (faults self.old) (faults self.new)
            (result ≡ Ok fetched.Failed) }
        ensures quiet { StaysUnless (faults self.old) (faults self.new)
            (result ≡ Ok fetched.Failed) }
        ensures tie { tied self.old self.new };

    // No call at all leaves all as it is, and so do two calls, one after the other.
    ghost same: { (a : Self) → tied a a };

    ghost joined: { (a b c : Self) → tied a b → tied b c → tied a c };
}
