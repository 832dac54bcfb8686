//! The rule of a cell's table, and its steps by name.
ghost use Rattle.std.specs.Prelude.{length};
ghost use Rattle.up_cell.specs.Kept.{Kept};
ghost use Rattle.up_cell.specs.Plays.{gives_turn, looks, settles, stays, takes_turn, tells};
ghost use Rattle.up_cell.specs.Views.{first_half, first_view, joined, second_half, spent};

use crate::boxed::Boxed;
use crate::view::View;
use atomic_table::{Join, Play, Split, TableRule};
use std::marker::PhantomData;
use std::snapshot::Snapshot;
use up_ends::Grows;

/// The rule. What the table is told once is the state as the cell was made of it.
pub struct Turns<S> {
    of: PhantomData<S>,
}

impl<S: Grows> TableRule<Option<Boxed<S>>, View<S::Entry, S::Fixed>, Snapshot<S>> for Turns<S> {
    ghost holds = { λ made. Kept S.entries S.fixed (length (S.entries made.value)) (S.fixed made.value) };

    ghost first = { λ made. first_view (S.entries made.value) (S.fixed made.value) };
}

/// The turn is taken, where it is free.
pub struct Take<S> {
    of: PhantomData<S>,
}

impl<S: Grows> Play<Option<Boxed<S>>, View<S::Entry, S::Fixed>> for Take<S> {
    ghost then = { takes_turn S.entries S.faults S.fixed };
}

/// The count is stored that the state has after the job.
pub struct Tell<S> {
    of: PhantomData<S>,
}

impl<S: Grows> Play<Option<Boxed<S>>, View<S::Entry, S::Fixed>> for Tell<S> {
    ghost then = { tells S.entries S.faults S.fixed };
}

/// The turn is given back, with the state.
pub struct Give;

impl<S, E, F> Play<Option<Boxed<S>>, View<E, F>> for Give {
    ghost then = { gives_turn };
}

/// The count is loaded.
pub struct Look;

impl<S, E, F> Play<Option<Boxed<S>>, View<E, F>> for Look {
    ghost then = { looks };
}

/// What two joined seats had seen is told of what they have seen together.
pub struct Settle;

impl<S, E, F> Play<Option<Boxed<S>>, View<E, F>> for Settle {
    ghost then = { settles };
}

/// A seat goes to sleep, or has slept.
pub struct Doze;

impl<S, E, F> Play<Option<Boxed<S>>, View<E, F>> for Doze {
    ghost then = { stays };
}

/// A seat is split.
pub struct Halves;

impl<E, F> Split<View<E, F>> for Halves {
    ghost left = { first_half };

    ghost right = { second_half };
}

/// Two seats are joined.
pub struct Both;

impl<E, F> Join<View<E, F>> for Both {
    ghost both = { joined };

    ghost spent = { spent };
}
