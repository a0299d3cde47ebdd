//! A word that counts: the length of a list that only grows, which many threads share. The list
//! stands in proofs alone.
//!
//! Begin with `Count`. Its main definition is what a thread has seen of the list, `Pass`, in
//! `specs/Pass.antt`.
//!
//! What a thread knows of the list is in its pass. One pass is the holder's: it has the whole list,
//! and it alone adds. Every other pass has a beginning of that list, so what it has seen stays
//! true. A join shows it: whatever stands in a pass that is joined into the holder's stands in the
//! holder's list, at the same place.
//!
//! A pass shows to contracts as the record `Pass` of its table, its fixed value, its list, and
//! whether it is the holder's. A count shows as its table. Each call asks that the pass is of this
//! count: `by.table ≡ count`.
//!
//! # A holder's pass under a lock
//!
//! Nothing is known of a value that comes out of a lock but what its type keeps. So the lock's
//! value, the count beside the lock and every pass outside it carry one name, a type parameter, and
//! each type keeps that its table is the named one:
//!
//! ```text
//! pub trait Naming { ghost table: { TableId }; }
//!
//! pub struct Board<J: Naming> {       // beside the lock
//!     count: Count<S, E>,
//!     ghost named: { count ≡ J.table },
//! }
//! pub struct Desk<J: Naming> {        // the lock's value
//!     holder: CountPass<S, E>,
//!     out: Vec<E>,
//!     ghost named: { holder.table ≡ J.table },
//!     ghost holds: { holder.holds ≡ true },
//!     ghost same: { holder.entries ≡ out.items },
//! }
//! pub struct Ticket<J: Naming> {      // goes out, and comes back
//!     pass: CountPass<S, E>,
//!     place: usize,
//!     entry: E,
//!     ghost named: { pass.table ≡ J.table },
//!     ghost guest: { pass.holds ≡ false },
//!     ghost known: { slice_get pass.entries place ≡ Some entry },
//! }
//! ```
//!
//! A `&mut self` method of the lock's value adds an entry to the list and to the vector, and splits
//! the ticket's pass off. When the ticket comes back, its pass is joined into the holder's, and
//! `proofs/Prefixes.antt` (`prefix_get`) gives that the entry still stands at its place in `out`.
//! One function picks the name, for the table that `new` gave. The tests have this whole.
#![tactic(auto)]

mod count;
mod pass;
mod rule;
mod steps;
mod view;

pub use count::Count;
pub use pass::CountPass;

#[cfg(test)]
mod tests;
