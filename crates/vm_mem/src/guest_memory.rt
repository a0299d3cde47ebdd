ghost use Rattle.std.specs.Prelude.{◌≡◌, ◌↔◌, ℕ, List, [], replicate, is_some, IsOk, IsErr, IsErrOf, IsSome, IfErr, OnOk, OnErr, OnSome, IfNone};
ghost use Rattle.std.specs.Option.{option_map};
ghost use Rattle.vm_mem.specs.GuestMemory.{Pages, page_at, home_bytes, ChangesPage};

use crate::page_bytes::PageBytes;
use crate::{Memory, Page};
use std::alloc::{AllocFailed, Global};
use std::collections::BTreeMap;
use std::marker::Model;

/// Why a page wasn't added.
///
/// Source: own.
#[derive(Clone, Copy, Debug, PartialEq, Eq)]
pub enum AddError {
    /// A page with this number was added before.
    Known,
    /// There was no memory for it.
    Memory,
}

impl From<Memory> for AddError {
    ghost use Rattle.vm_mem.specs.declared.guest_memory.AddError.TheVariants.{Memory};

    ghost from_gives = { λ _ e. e ≡ Memory };

    fn from(_refused: Memory) -> AddError {
        AddError::Memory
    }
}

impl<T: Drop> From<AllocFailed<T>> for AddError {
    ghost use Rattle.vm_mem.specs.declared.guest_memory.AddError.TheVariants.{Memory};

    ghost from_gives = { λ _ e. e ≡ Memory };

    fn from(_refused: AllocFailed<T>) -> AddError {
        AddError::Memory
    }
}

/// The pages of a guest. Each page that was added is home, with its bytes, or away, lent out whole.
///
/// Source: own.
#[derive(Drop)]
pub struct GuestMemory {
    alloc: Global,
    pages: BTreeMap<u64, Option<PageBytes>>,
}

impl Model for GuestMemory {
    ghost Value = { Pages };

    ghost view = { λ m. m.pages.entries };
}

impl GuestMemory {
    /// A memory that knows no page.
    pub fn new(alloc: Global) -> GuestMemory
        ensures { result ≡ [] }
    {
        GuestMemory {
            alloc,
            pages: BTreeMap::new(alloc),
        }
    }

    /// Adds a page of zeros, which is home.
    pub fn add_page(&mut self, number: u64) -> Result<(), AddError>
        ensures known { IsErrOf result AddError.Known ↔ IsSome (page_at self.old number) }
        ensures ok { OnOk result (ChangesPage self.old self.new number (Some (replicate 4096 0))) }
        ensures err { OnErr result (self.new ≡ self.old) }
    {
        if self.pages.contains_key(&number) {
            return Err(AddError::Known);
        }
        let bytes = PageBytes::make_zero(self.alloc)?;
        self.pages.insert(number, Some(bytes))?;
        Ok(())
    }

    /// Lends a page out. It is away from then on. None is answered where it is away or unknown.
    #[tactic(auto, using(std::proofs::lemmas::Map::Steps::set_value_same))]
    pub fn take(&mut self, number: u64) -> Option<Page>
        ensures value { result ≡ option_map (λ bytes. record { number = number; bytes = bytes })
            (home_bytes self.old number) }
        ensures away { OnSome result (ChangesPage self.old self.new number None) }
        ensures none { IfNone result (self.new ≡ self.old) }
    {
        let bytes = self.pages.get_mut(&number)?.take()?;
        Some(Page { number, bytes })
    }

    /// Takes a page back home. It is handed back where it is unknown or home.
    #[tactic(auto, using(std::proofs::lemmas::Map::Steps::set_value_same))]
    pub fn give(&mut self, page: Page) -> Result<(), Page>
        ensures away { IsOk result ↔ (page_at self.old page.number ≡ Some None) }
        ensures back { IfErr result (λ handed_back. handed_back ≡ page) }
        ensures ok { OnOk result (ChangesPage self.old self.new page.number (Some page.bytes)) }
        ensures err { OnErr result (self.new ≡ self.old) }
    {
        let Some(home) = self.pages.get_mut(&page.number) else {
            return Err(page);
        };
        if home.is_some() {
            return Err(page);
        }
        *home = Some(page.bytes);
        Ok(())
    }

    /// Whether the page is home.
    pub fn is_home(&self, number: u64) -> bool
        ensures { result ≡ is_some (home_bytes self.now number) }
    {
        matches!(self.pages.get(&number), Some(Some(_)))
    }
}
