//! Names that are found without going through them all.

ghost use Rattle.std.specs.Prelude.{◌≡◌, ◌<◌, ◌++◌, [], ◌∷◌, length, IfSome, OnOk, OnErr};
ghost use Rattle.vm_script.specs.Names.{place_from};
ghost use Rattle.vm_script.specs.Names.{key_of, IsShort};

use std::alloc::Global;
use std::collections::BTreeMap;
use std::marker::Model;
use vm_local::{NAME_LIMIT, Name};
use vm_mem::Memory;

/// A name's bytes, as a little-endian number, and its length.
type Key = (u64, u8);

/// The name's key: no two names have the same.
fn key_of(name: &Name) -> Key
    ensures key { result ≡ key_of name.now }
    ensures short { IsShort name.now }
{
    let bytes = name.as_bytes();
    let mut padded = [0; NAME_LIMIT];
    padded[..bytes.len()].copy_from_slice(bytes);
    (u64::from_le_bytes(padded), bytes.len() as u8)
}

/// Names in the order in which they were added. Contracts see them as the list of names.
#[derive(Debug, Drop)]
pub struct Names {
    names: Vec<Name>,
    /// The place of the first of the names that have the key.
    places: BTreeMap<Key, usize>,
}

impl Model for Names {
    ghost use Rattle.std.specs.Prelude.{ℕ, List};
    ghost use Rattle.vm_script.specs.Names.{FindsPlaces};

    ghost Value = { List (List ℕ) };

    ghost view = { λ n. n.names.items };

    ghost invariant = { λ n. FindsPlaces n.names.items n.places.entries };
}

impl Names {
    /// No names.
    pub fn new(alloc: Global) -> Names
        ensures { result ≡ [] }
    {
        Names {
            names: Vec::new(alloc),
            places: BTreeMap::new(alloc),
        }
    }

    /// How many names there are.
    pub fn len(&self) -> usize
        ensures { result ≡ length self.now }
    {
        self.names.len()
    }

    /// The place of the first name that is this one.
    pub fn place_of(&self, name: &Name) -> Option<usize>
        ensures place { result ≡ place_from 0 name.now self.now }
        ensures within { IfSome result (λ place. place < length self.now) }
    {
        self.places.get(&key_of(name)).copied()
    }

    /// Adds a name behind the others.
    ///
    /// # Errors
    /// `Memory` where there is none for it. The names stay as they were.
    pub fn push(&mut self, name: Name) -> Result<(), Memory>
        ensures ok { OnOk result (self.new ≡ self.old ++ name ∷ []) }
        ensures err { OnErr result (self.new ≡ self.old) }
    {
        self.names.reserve(1)?;
        if self.place_of(&name).is_none() {
            self.places.insert(key_of(&name), self.names.len())?;
        }
        self.names.push_reserved(name);
        Ok(())
    }

    /// The names, in their order.
    pub fn into_names(self) -> Vec<Name>
        ensures { result.items ≡ self }
    {
        let Names { names, places: _ } = self;
        names
    }
}
