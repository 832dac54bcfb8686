//! Rights that were decided already.
ghost use Rattle.std.specs.Prelude.{◌≡◌, IfOk, None};
ghost use Rattle.up_names.specs.PathNames.{PathName};
ghost use Rattle.up_list.specs.Deciding.{AreGovernedAlike, decided_for, IsDecided, with_decided};
ghost use Rattle.up_list.specs.Looks.{rights};

use crate::onlooker::Onlooker;
use std::alloc::{AllocError, Global};
use up_names::Path;
use up_policy::is_control;
use up_rights::RightSet;

/// What was decided of a user's rights under one text that governs: they are the same on all ordinary paths that it governs,
/// and on all Access and Group paths.
#[derive(Clone, Copy)]
pub(crate) struct Decided {
    pub(crate) ordinary: Option<RightSet>,
    pub(crate) control: Option<RightSet>,
}

impl Decided {
    /// Nothing was decided yet.
    pub(crate) fn nothing() -> Decided
        ensures ordinary { result.ordinary ≡ None }
        ensures control { result.control ≡ None }
    {
        Decided {
            ordinary: None,
            control: None,
        }
    }

    /// The rights of the user on a path that is governed by this text; they are decided at most once for each kind of path.
    pub(crate) fn rights<O: Onlooker>(
        &mut self,
        alloc: Global,
        onlooker: &O,
        path: &Path,
    ) -> Result<RightSet, AllocError>
        requires { path.now.owner ≡ (O.look onlooker.now).owner }
        ensures held { (dir : PathName) → IsDecided (O.look onlooker.now) dir self.old
            → AreGovernedAlike (O.look onlooker.now) dir path.now
            → IfOk result (λ held. held ≡ rights (O.look onlooker.now) path.now) }
        ensures kept { (dir : PathName) → IsDecided (O.look onlooker.now) dir self.old
            → AreGovernedAlike (O.look onlooker.now) dir path.now
            → IsDecided (O.look onlooker.now) dir self.new }
    {
        let control = is_control(path);
        if let Some(held) = self.of(control) {
            return Ok(held);
        }
        let held = onlooker.rights(alloc, path)?;
        self.set(control, held);
        Ok(held)
    }

    /// What was decided for Access and Group paths, or for ordinary ones.
    fn of(&self, control: bool) -> Option<RightSet>
        ensures { result ≡ decided_for self.now control }
    {
        if control { self.control } else { self.ordinary }
    }

    /// Sets what was decided for Access and Group paths, or for ordinary ones.
    fn set(&mut self, control: bool, held: RightSet)
        ensures { self.new ≡ with_decided self.old control held }
    {
        if control {
            self.control = Some(held);
        } else {
            self.ordinary = Some(held);
        }
    }
}
