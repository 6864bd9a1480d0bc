ghost use Rattle.std.specs.Prelude.{◌<◌, length};

use crate::cell::Cell;
use crate::whole::Whole;
use std::alloc::{AllocError, Global};

/// The cells of a document, whose first is the root's, and what they point into beside the
/// input. There are fewer than 2^32 of them.
#[derive(Drop)]
pub struct Sheet {
    pub(crate) side: Vec<u8>,
    pub(crate) wides: Vec<Whole>,
    pub(crate) cells: Vec<Cell>,
    ghost some: { 0 < length cells.items },
    ghost few: { length cells.items < 4294967296 },
}

impl Sheet {
    ghost use Rattle.std.specs.Prelude.{◌≡◌, IfOk, get_or};
    ghost use Rattle.sw_tree.specs.Short.{IsLength};

    /// The cell of that number, and that nothing here is longer than memory.
    #[inline]
    pub(crate) fn cell(&self, at: u32) -> Cell
        requires { at < length self.now.cells.items }
        ensures value { result ≡ get_or self.now.cells.items at Cell.Null }
        ensures side { IsLength (length self.now.side.items) }
        ensures cells { IsLength (length self.now.cells.items) }
    {
        let _side = self.side.len();
        let _cells = self.cells.len();
        self.cells[at as usize]
    }

    /// An equal one. The one error is want of memory.
    pub(crate) fn copy(&self, alloc: Global) -> Result<Sheet, AllocError>
        ensures side { IfOk result (λ s. s.side.items ≡ self.now.side.items) }
        ensures wides { IfOk result (λ s. s.wides.items ≡ self.now.wides.items) }
        ensures cells { IfOk result (λ s. s.cells.items ≡ self.now.cells.items) }
    {
        Ok(Sheet {
            side: Vec::from_slice(alloc, self.side.as_slice())?,
            wides: Vec::from_slice(alloc, self.wides.as_slice())?,
            cells: Vec::from_slice(alloc, self.cells.as_slice())?,
        })
    }
}
