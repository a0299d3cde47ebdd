ghost use Rattle.std.specs.Prelude.{◌≡◌, ◌+◌, ◌-◌, ◌<◌, ◌≤◌, ◌++◌, [], ◌∷◌, false, length, slice_index_or, slice_set, OnOk, OnErr, vec_len, vec_capacity};
ghost use Rattle.std.specs.List.{insert};
ghost use Rattle.std.specs.Result.{MatchResult};
ghost use Rattle.vm_marks.specs.Kept.{Rise, IsAt, IsBetween};
ghost use Rattle.vm_marks.specs.Marks.{MarkState, places_of};

use std::alloc::Global;
use std::marker::Model;
use vm_mem::Memory;

/// Which of the numbers below a count are marked, and the marked ones in order.
///
/// Source: own.
#[derive(Drop)]
pub struct Marks {
    count: usize,
    marked: Vec<u32>,
}

impl Model for Marks {
    ghost use Rattle.std.specs.Prelude.{◌≤◌, ◌-◌, vec_capacity};
    ghost use Rattle.vm_marks.specs.Marks.{MarkState};
    ghost use Rattle.vm_marks.specs.Kept.{flags_from, AreMarks};

    ghost Value = { MarkState };

    ghost view = { λ m. record {
      flags = flags_from 0 m.count m.marked.items;
      room = vec_capacity m.marked - m.count;
    } };

    // No mark takes memory, since there is room for all numbers.
    ghost invariant = { λ m. AreMarks m.count m.marked.items × (m.count ≤ vec_capacity m.marked) };
}

// Where a number stands, or where it would.
fn place_of(marked: &[u32], number: u32) -> Result<usize, usize>
    requires { Rise marked.now }
    ensures { MatchResult result (IsAt marked.now number) (IsBetween marked.now number) }
{
    marked.binary_search(&number)
}

// Inserts a number at a place, where there is memory for it.
fn insert_reserved(marked: &mut Vec<u32>, place: usize, number: u32)
    requires place { place ≤ vec_len marked.old }
    requires room { vec_len marked.old < vec_capacity marked.old }
    ensures items { marked.new.items ≡ insert marked.old.items place number }
    ensures capacity { vec_capacity marked.new ≡ vec_capacity marked.old }
{
    marked.insert(place, number).unwrap();
}

impl Marks {
    /// No numbers.
    pub fn new(alloc: Global) -> Marks
        ensures { result ≡ record { flags = []; room = 0 } }
    {
        Marks {
            count: 0,
            marked: Vec::new(alloc),
        }
    }

    /// Takes memory for at least so many further numbers, or nothing changes.
    pub fn reserve(&mut self, more: usize) -> Result<(), Memory>
        ensures flags { self.new.flags ≡ self.old.flags }
        ensures ok { OnOk result (more ≤ self.new.room) }
        ensures room { self.old.room ≤ self.new.room }
        ensures err { OnErr result (self.new ≡ self.old) }
    {
        let spare = self.count - self.marked.len();
        self.marked.reserve(spare.saturating_add(more))?;
        Ok(())
    }

    /// Counts one more number, which isn't marked.
    pub fn push(&mut self)
        requires { 1 ≤ self.old.room }
        ensures { self.new ≡ record {
          flags = self.old.flags ++
              false ∷ [];
          room = self.old.room - 1;
        } }
    {
        self.count += 1;
    }

    /// Marks a number, or takes its mark away.
    pub fn set(&mut self, number: u32, marked: bool)
        requires { number < length self.old.flags }
        ensures { self.new ≡ record self.old { flags = slice_set self.old.flags number marked } }
    {
        match place_of(&self.marked, number) {
            Ok(place) => {
                if !marked {
                    self.marked.remove(place);
                }
            }
            Err(place) => {
                if marked {
                    insert_reserved(&mut self.marked, place, number);
                }
            }
        }
    }

    /// Whether a number is marked. One that isn't counted is not.
    pub fn is_marked(&self, number: u32) -> bool
        ensures { result ≡ slice_index_or self.now.flags number false }
    {
        place_of(&self.marked, number).is_ok()
    }

    /// The marked numbers, in rising order.
    pub fn marked(&self) -> &[u32]
        ensures { result.now ≡ places_of self.now.flags }
    {
        self.marked.as_slice()
    }

    /// How many numbers are counted.
    pub fn count(&self) -> usize
        ensures { result ≡ length self.now.flags }
    {
        self.count
    }
}
