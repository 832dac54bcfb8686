//! A record is made ready before it is written, and entered after that.
ghost use Rattle.std.specs.Prelude.{◌≡◌, ◌<◌, [], ◌∷◌, ◌++◌, true, IfOk, MatchOption, None, OnOk, vec_capacity, vec_len};
ghost use Rattle.up_entry.specs.declared.records.Rec.{Rec as Record};
ghost use Rattle.up_mem_tree.specs.Kept.{IsEnteredBy, IsReadyFor, IsSameKept, IsStepFor, Stands, slots_of};
ghost use Rattle.up_mem_tree.specs.Slots.{KeepsNumbers};
ghost use Rattle.up_mem_tree.specs.Steps.{CanStep};
ghost use Rattle.up_log_tree.specs.Fits.{Fits};

use crate::guesses::guess;
use crate::kept::Kept;
use crate::rooms::reserve_step;
use crate::steps::{Step, enter_step};
use std::alloc::AllocError;
use up_entry::Rec;

impl Kept {
    /// Makes a record's step and room for it. What is kept stays as it is, whatever the answer.
    pub(crate) fn make_ready(&mut self, rec: &Rec) -> Result<Option<Step>, AllocError>
        requires stands { Stands self.old }
        requires fits { Fits self.old.owner self.old.log.items rec.now }
        ensures same { IsSameKept self.old self.new }
        ensures ready { IfOk result (IsReadyFor self.new rec.now) }
    {
        let step = self.step_of(rec)?;
        match self.make_room(&step) {
            Ok(()) => Ok(step),
            Err(fault) => {
                drop(step);
                Err(fault)
            }
        }
    }

    /// Makes room for the step of a record.
    fn make_room(&mut self, step: &Option<Step>) -> Result<(), AllocError>
        requires stands { Stands self.old }
        requires of { (rec : Record) × IsStepFor self.old rec step.now }
        ensures same { IsSameKept self.old self.new }
        ensures can { OnOk result
            (MatchOption step.now (self.new.snaps.ready ≡ true) (CanStep self.new.slots)) }
        ensures log { OnOk result (vec_len self.new.log < vec_capacity self.new.log) }
        ensures before { OnOk result (vec_len self.new.before < vec_capacity self.new.before) }
    {
        self.log.reserve(1)?;
        self.before.reserve(1)?;
        match step {
            Some(step) => {
                let next = self.slots.len();
                guess(&mut self.guesses, &step.own, next)?;
                reserve_step(&mut self.slots, step)
            }
            None => self.snaps.reserve_one(),
        }
    }

    /// Enters a record that was made ready. It takes no memory.
    pub(crate) fn enter(&mut self, rec: Rec, step: Option<Step>)
        requires stands { Stands self.old }
        requires fits { Fits self.old.owner self.old.log.items rec }
        requires ready { IsReadyFor self.old rec step }
        ensures stands { Stands self.new }
        ensures owner { self.new.owner ≡ self.old.owner }
        ensures log { self.new.log.items ≡ self.old.log.items ++ rec ∷ [] }
        ensures numbers { KeepsNumbers (slots_of self.old) (slots_of self.new) }
    {
        let before = self.enter_change(&rec, step);
        self.before.push_reserved(before);
        self.log.push_reserved(rec);
    }

    /// What a record changes at its path or of the snapshots; answers the position of the change before it, or 0.
    fn enter_change(&mut self, rec: &Rec, step: Option<Step>) -> u64
        requires stands { Stands self.old }
        requires fits { Fits self.old.owner self.old.log.items rec.now }
        requires ready { IsReadyFor self.old rec.now step }
        ensures { IsEnteredBy self.old self.new rec.now result }
    {
        match step {
            Some(step) => enter_step(&mut self.slots, step),
            None => {
                self.enter_snapshot(rec);
                0
            }
        }
    }

    /// What a Snap changes.
    fn enter_snapshot(&mut self, rec: &Rec)
        requires stands { Stands self.old }
        requires ready { IsReadyFor self.old rec.now None }
        ensures { IsEnteredBy self.old self.new rec.now 0 }
    {
        let Rec::Snap(time) = rec else { unreachable!() };
        let position = self.log.len() as u64 + 1;
        self.snaps.put_reserved(*time, position);
    }
}
