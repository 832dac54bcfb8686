//! What stands behind a host of a script.
ghost use Rattle.std.proofs.Common.{◌∙◌};
ghost use Rattle.std.specs.Prelude.{◌≡◌, ◌++◌, refl};
ghost use Rattle.std.specs.List.{find};
ghost use Rattle.std.specs.Option.{option_copied};
ghost use Rattle.up_sessions.specs.Others.{LoadsFirst, has_tree};

use std::alloc::{AllocError, Global};
use up_disk::Disk;
use up_entry::Fetch;
use up_host::{Host, load_of};
use up_names::{Path, User};
use up_peer::Loader;
use up_policy::LoadAnswer;
use up_refs::Reference;

/// The other hosts of a script, those before the asking one and those behind it, and the peers behind them. Each part has a lifetime of
/// its own: were two at one, nothing would be known afterwards of the list that was cut.
#[derive(Drop)]
pub(crate) struct Behind<'before, 'after, 'peers, D: Disk, P: Loader> {
    pub(crate) before: &'before [Host<D>],
    pub(crate) after: &'after [Host<D>],
    pub(crate) peers: &'peers mut P,
}

impl<'before, 'after, 'peers, D: Disk, P: Loader> Loader for Behind<'before, 'after, 'peers, D, P> {
    ghost loads = { λ old question answer new.
        LoadsFirst P.Loader
        (find (has_tree question.name.owner) (old.before.now ++ old.after.now))
        old.peers.now question answer new.peers.now
        × (new.before.now ≡ old.before.now) × (new.after.now ≡ old.after.now) };

    ghost fetches = { λ old question answer new.
        P.fetches old.peers.now question answer new.peers.now
        × (new.before.now ≡ old.before.now) × (new.after.now ≡ old.after.now) };

    ghost faults = { λ behind. P.faults behind.peers.now };

    ghost tied = { λ old new. (new.peers.ghost_name ≡ old.peers.ghost_name)
        × P.tied old.peers.now new.peers.now
        × (new.before.now ≡ old.before.now) × (new.after.now ≡ old.after.now) };

    fn load(&mut self, alloc: Global, asker: &User, name: &Path) -> Result<LoadAnswer, AllocError> {
        match first_with(self.before, self.after, name.owner()) {
            Some(host) => load_of(name.owner(), host.group_text(alloc, asker, name)),
            None => self.peers.load(alloc, asker, name),
        }
    }

    fn fetch(
        &mut self,
        alloc: Global,
        address: &[u8],
        reference: &Reference,
    ) -> Result<Fetch, AllocError> {
        self.peers.fetch(alloc, address, reference)
    }

    ghost same = { λ a. (refl, P.same a.peers.now, refl, refl) };

    ghost joined = { λ a b c p q. (
      q.0 ∙ p.0,
      P.joined a.peers.now b.peers.now c.peers.now p.1 q.1,
      q.2 ∙ p.2,
      q.3 ∙ p.3,
    ) };
}

// The first host that has the tree of an owner.
fn first_with<'a, D: Disk>(
    before: &'a [Host<D>],
    after: &'a [Host<D>],
    owner: &User,
) -> Option<&'a Host<D>>
    ensures { option_copied result ≡ find (has_tree owner.now) (before.now ++ after.now) }
{
    match first_in(before, owner) {
        Some(host) => Some(host),
        None => first_in(after, owner),
    }
}

fn first_in<'a, D: Disk>(hosts: &'a [Host<D>], owner: &User) -> Option<&'a Host<D>>
    ensures { option_copied result ≡ find (has_tree owner.now) hosts.now }
{
    hosts.iter().find(|host| host.has(owner))
}
