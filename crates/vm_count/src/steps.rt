ghost use Rattle.std.specs.Prelude.{◌≡◌, ◌+◌, ◌-◌, ◌^◌, ◌<◌, ◌≤◌, ◌++◌, [], ◌∷◌, length, true, false, Some, IfOk};
ghost use mathlib.Core.List.{IsPrefix};
ghost use Rattle.vm_count.specs.Pass.{first_pass, longer};

use crate::rule::{Append, Copied, Joined, Look};
use crate::{Count, CountPass};
use atomic_table::Table;
use std::alloc::Global;
use vm_mem::Memory;

impl<S, E> Count<S, E> {
    /// A count of no entry, with the holder's pass, or want of memory.
    pub fn new(alloc: Global, fixed: &S) -> Result<(Count<S, E>, CountPass<S, E>), Memory>
        ensures { IfOk result (λ made. made.1 ≡ first_pass made.0 fixed.now) }
    {
        let (table, seat) = Table::of_words(alloc, &[0], fixed)?;
        Ok((Count { table }, CountPass { seat }))
    }

    /// Appends an entry to the holder's list.
    pub fn add(&self, holder: &mut CountPass<S, E>, entry: &E)
        requires count { holder.old.table ≡ self.now }
        requires holder { holder.old.holds ≡ true }
        requires room { length holder.old.entries < 2 ^ 64 - 1 }
        ensures { holder.new ≡ record holder.old {
          entries = holder.old.entries ++
              entry.now ∷ [];
        } }
    {
        let length = self.load(holder);
        self.table
            .shared
            .compare_exchange_with::<Append>(&mut holder.seat, 0, length, length + 1, entry);
    }

    /// The word: at least the length of the pass's own list, and just that of the holder's.
    pub fn load(&self, by: &mut CountPass<S, E>) -> u64
        requires count { by.old.table ≡ self.now }
        ensures same { by.new ≡ by.old }
        ensures seen { length by.old.entries ≤ result }
        ensures whole { by.old.holds ≡ true → result ≡ length by.old.entries }
    {
        self.table.shared.load::<Look>(&mut by.seat, 0)
    }

    /// A pass that isn't the holder's, with a copy of the list.
    pub fn split(&self, by: &mut CountPass<S, E>) -> CountPass<S, E>
        requires count { by.old.table ≡ self.now }
        ensures same { by.new ≡ by.old }
        ensures copy { result ≡ record by.old { holds = false } }
    {
        CountPass {
            seat: self.table.shared.split_seat::<Copied>(&mut by.seat),
        }
    }

    /// Leaves the longer list, of which the shorter is a beginning. The holder's is the longer one.
    pub fn join(&self, by: &mut CountPass<S, E>, other: CountPass<S, E>)
        requires count { by.old.table ≡ self.now }
        requires other { other.table ≡ self.now }
        requires not_holder { other.holds ≡ false }
        ensures longer { by.new ≡ record by.old { entries = longer by.old.entries other.entries } }
        ensures seen { IsPrefix by.old.entries by.new.entries }
        ensures met { IsPrefix other.entries by.new.entries }
        ensures whole { by.old.holds ≡ true → by.new.entries ≡ by.old.entries }
        ensures fixed { other.fixed ≡ by.old.fixed }
    {
        let CountPass { seat } = other;
        let kept = &mut by.seat;
        self.table.shared.join_seat::<Joined>(kept, seat);
        // The seat keeps the list that wasn't chosen until it looks, which shows what it begins.
        self.table.shared.load::<Look>(kept, 0);
    }
}
