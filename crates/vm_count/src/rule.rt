use crate::view::View;
use atomic_table::{Join, Play, Split, TableRule};

/// The rule of the counting word.
pub struct Counting;

impl<S, E> TableRule<E, View<S, E>, S> for Counting {
    ghost use Rattle.vm_count.specs.Rule.{Counts, opened};

    ghost holds = { Counts };

    ghost first = { opened };
}

/// A seat looks at the word.
pub struct Look;

impl<S, E> Play<E, View<S, E>> for Look {
    ghost use Rattle.vm_count.specs.Rule.{Looks};

    ghost then = { Looks };
}

/// The holder adds an entry.
pub struct Append;

impl<S, E> Play<E, View<S, E>> for Append {
    ghost use Rattle.vm_count.specs.Rule.{Appends};

    ghost then = { Appends };
}

/// A seat is split: the new one has a copy.
pub struct Copied;

impl<S, E> Split<View<S, E>> for Copied {
    ghost use Rattle.vm_count.specs.Rule.{copied};

    ghost left = { λ v. v };

    ghost right = { copied };
}

/// A seat is joined into another, and is spent.
pub struct Joined;

impl<S, E> Join<View<S, E>> for Joined {
    ghost use Rattle.vm_count.specs.Rule.{joined, spent};

    ghost both = { joined };

    ghost spent = { spent };
}
