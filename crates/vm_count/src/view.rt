use std::collections::LinkedList;

/// What a seat knows. No value of it is made.
pub struct View<S, E> {
    /// The fixed value. A spent seat has none.
    pub fixed: Option<S>,
    /// A beginning of the holder's list.
    pub entries: LinkedList<E>,
    /// Whether it is the holder's.
    pub holds: bool,
    /// Of the two lists of the last join, the one that wasn't kept, until the next step.
    pub met: LinkedList<E>,
    /// The other fixed value of the last join, until the next step.
    pub met_fixed: Option<S>,
}
