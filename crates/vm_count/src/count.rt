use crate::rule::Counting;
use crate::view::View;
use atomic_table::Table;
use std::alloc::Global;
use std::marker::Model;

/// A word that many threads share: the length of a list that only grows.
///
/// Source: own.
#[derive(Drop)]
pub struct Count<S, E> {
    pub(crate) table: Table<E, View<S, E>, S, Counting, Global>,
}

impl<S, E> Model for Count<S, E> {
    ghost use Rattle.std.specs.Prelude.{◌≡◌};
    ghost use Rattle.atomic_table.specs.Seated.{TableId};

    ghost Value = { TableId };

    ghost view = { λ c. c.table.shared.table_id };

    ghost invariant = { λ c. c.table.shared.table_id.words ≡ 1 };
}
