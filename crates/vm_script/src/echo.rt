ghost use Rattle.std.specs.Prelude.{◌≡◌, IfOk};

use std::alloc::Global;
use std::marker::Model;
use vm_mem::Memory;

/// A line's words, joined by one space, as the printed text shows them.
#[derive(Debug, Drop)]
pub struct Echo {
    text: Vec<u8>,
}

impl Model for Echo {
    ghost use Rattle.std.specs.Prelude.{ℕ, List};

    ghost Value = { List ℕ };

    ghost view = { λ e. e.text.items };
}

impl Echo {
    /// Keeps just these bytes.
    ///
    /// # Errors
    /// `Memory` where there is none for them.
    pub fn new(alloc: Global, text: &[u8]) -> Result<Echo, Memory>
        ensures { IfOk result (λ e. e ≡ text.now) }
    {
        let mut copy = Vec::new(alloc);
        copy.extend_from_slice(text).map_err(|_| Memory)?;
        Ok(Echo { text: copy })
    }

    /// The bytes.
    pub fn as_bytes(&self) -> &[u8]
        ensures { result.now ≡ self.now }
    {
        &self.text
    }
}
