ghost use Rattle.std.specs.Prelude.{◌≡◌, ◌+◌, ◌<◌, ◌≤◌, ◌∷◌, [], ◌++◌, Some, None, length, OnOk, OnErr, slice_index_or, slice_set, vec_len, vec_capacity};
ghost use Rattle.std.specs.Option.{option_map};
ghost use Rattle.vm_home.specs.Home.{home_of};

use std::alloc::Global;
use std::marker::Model;
use vm_frame::Mem;
use vm_mem::Memory;

/// The memories of a handle that are with the driver, each in the place of its number.
///
/// Source: own.
#[derive(Drop)]
pub struct Home {
    places: Vec<Option<Mem>>,
}

impl Model for Home {
    ghost use Rattle.std.specs.Prelude.{vec_capacity};
    ghost use Rattle.vm_home.specs.Home.{HomeState};

    ghost Value = { HomeState };

    ghost view = { λ h. record { places = h.places.items; room = vec_capacity h.places } };
}

// What is at the place of a memory, and nothing behind the last place.
fn at_place(places: &[Option<Mem>], number: u64) -> Option<&Mem>
    ensures { option_map (λ mem. mem.now) result ≡ slice_index_or places.now number None }
{
    places.get(number as usize)?.as_ref()
}

fn put_in(places: &mut [Option<Mem>], number: u64, mem: Mem)
    requires { number < length places.old }
    ensures { places.new ≡ slice_set places.old number (Some mem) }
{
    places[number as usize] = Some(mem);
}

#[tactic(auto, using(std::proofs::lemmas::List::set_past, std::proofs::lemmas::List::get_or_past))]
fn take_from(places: &mut [Option<Mem>], number: u64) -> Option<Mem>
    ensures mem { result ≡ slice_index_or places.old number None }
    ensures places { places.new ≡ slice_set places.old number None }
{
    if number < places.len() as u64 {
        places[number as usize].take()
    } else {
        None
    }
}

impl Home {
    /// No memories, with room for none.
    pub fn new(alloc: Global) -> Home
        ensures { result.places ≡ [] }
    {
        Home {
            places: Vec::new(alloc),
        }
    }

    /// Room for `more` memories behind those that were made, or want of memory.
    pub fn reserve(&mut self, more: usize) -> Result<(), Memory>
        ensures places { self.new.places ≡ self.old.places }
        ensures ok { OnOk result (length self.old.places + more ≤ self.new.room) }
        ensures err { OnErr result (self.new ≡ self.old) }
    {
        self.places.reserve(more)?;
        Ok(())
    }

    /// Takes the memory with this number, if it is at home.
    pub fn take(&mut self, number: u64) -> Option<Mem>
        ensures mem { result ≡ home_of self.old.places number }
        ensures home { self.new ≡
            record self.old { places = slice_set self.old.places number None } }
    {
        take_from(&mut self.places, number)
    }

    /// Puts a memory in the place of its number.
    pub fn put(&mut self, number: u64, mem: Mem)
        requires { number < length self.old.places }
        ensures { self.new ≡ record self.old {
          places = slice_set self.old.places number
              (Some mem);
        } }
    {
        put_in(&mut self.places, number, mem);
    }

    /// Adds a memory that was made, whose number is the next one.
    pub fn add(&mut self, mem: Mem)
        requires { length self.old.places < self.old.room }
        ensures { self.new ≡ record self.old { places = self.old.places ++ Some mem ∷ [] } }
    {
        self.places.push_reserved(Some(mem));
    }

    /// Drops the memory with this number, if it is at home.
    pub fn forget(&mut self, number: u64)
        ensures { self.new ≡ record self.old { places = slice_set self.old.places number None } }
    {
        let _freed = take_from(&mut self.places, number);
    }

    /// Drops all memories, and their numbers begin anew. The room stays.
    pub fn clear(&mut self)
        ensures { self.new ≡ record self.old { places = [] } }
    {
        self.places.clear();
    }

    /// How many memories were made.
    pub fn size(&self) -> u64
        ensures { result ≡ length self.now.places }
    {
        self.places.len() as u64
    }

    /// The memory with this number, if it is at home.
    pub fn get(&self, number: u64) -> Option<&Mem>
        ensures { option_map (λ mem. mem.now) result ≡ home_of self.now.places number }
    {
        at_place(&self.places, number)
    }
}
