use crate::view::View;
use atomic_table::Seat;
use std::marker::Model;

/// A pass of a count: the fixed value, and a beginning of the holder's list. It has no bytes.
///
/// Source: own.
#[derive(Drop)]
pub struct CountPass<S, E> {
    pub(crate) seat: Seat<E, View<S, E>>,
}

impl<S, E> Model for CountPass<S, E> {
    ghost use Rattle.std.specs.Prelude.{◌≡◌, []};
    ghost use Rattle.vm_count.specs.Pass.{Pass};
    ghost use Rattle.vm_count.specs.Rule.{shown, IsSettled};

    ghost Value = { Pass S E };

    ghost view = { λ p. shown p.seat.table_id p.seat.me.0 };

    ghost invariant = { λ p. (p.seat.me.1 ≡ []) × IsSettled p.seat.me.0 };
}
