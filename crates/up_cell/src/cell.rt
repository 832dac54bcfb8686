//! The cell and its seats.
use crate::boxed::Boxed;
use crate::rule::Turns;
use crate::view::View;
use atomic_table::Table;
use std::alloc::Global;
use std::marker::Model;
use std::snapshot::Snapshot;
use up_ends::Grows;

/// One state, which is lent to one seat at a time. Contracts see which cell it is.
#[derive(Drop)]
pub struct Cell<S: Grows + Drop> {
    pub(crate) table: Table<
        Option<Boxed<S>>,
        View<S::Entry, S::Fixed>,
        Snapshot<S>,
        Turns<S>,
        Global,
    >,
}

impl<S: Grows + Drop> Model for Cell<S> {
    ghost use Rattle.std.specs.Prelude.{◌≡◌};
    ghost use Rattle.atomic_table.specs.Seated.{TableId, table_id_coded};

    ghost Value = { TableId };

    ghost coded = { table_id_coded };

    ghost view = { λ cell. cell.table.shared.table_id };

    ghost invariant = { λ cell. (cell.table.shared.table_id.words ≡ 3)
        × (cell.table.shared.table_id.slots ≡ 1) };
}

/// What one caller knows of a cell. Contracts see which cell it is of, and what it knows. It takes no bytes. One that is let go takes its
/// share and its own positions with it for good.
#[derive(Drop)]
pub struct Seat<S: Grows> {
    pub(crate) place: atomic_table::Seat<Option<Boxed<S>>, View<S::Entry, S::Fixed>>,
}

impl<S: Grows> Model for Seat<S> {
    ghost use Rattle.up_cell.specs.Known.{Known};
    ghost use Rattle.up_cell.specs.Views.{IsIdle, known};

    ghost Value = { Known S.Entry S.Fixed };

    ghost view = { λ seat. known seat.place.table_id seat.place.me.0 };

    ghost invariant = { λ seat. IsIdle seat.place.me };
}
