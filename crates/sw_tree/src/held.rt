ghost use Rattle.std.specs.Prelude.{◌≡◌, IfOk};
ghost use Rattle.sw_tree.specs.Inner.Held.{held_sheet};

use crate::sheet::Sheet;
use std::alloc::{AllocError, Global};
use std::sync::Arc;

/// The sheet of a document: its own, or one that it shares with the nodes that were copied
/// from its root.
#[derive(Drop)]
pub enum Held {
    Own(Sheet),
    Shared(Arc<Sheet>),
}

impl Held {
    /// The sheet.
    #[inline]
    pub(crate) fn sheet(&self) -> &Sheet
        ensures { result.now ≡ held_sheet self.now }
    {
        match self {
            Held::Own(sheet) => sheet,
            Held::Shared(sheet) => sheet,
        }
    }

    /// The same sheet, to be shared by each copy. The one error is want of memory.
    pub(crate) fn shared(self, alloc: Global) -> Result<Held, AllocError>
        ensures { IfOk result (λ h. held_sheet h ≡ held_sheet self) }
    {
        match self {
            Held::Own(sheet) => Ok(Held::Shared(Arc::new(alloc, sheet)?)),
            Held::Shared(sheet) => Ok(Held::Shared(sheet)),
        }
    }

    /// An equal sheet, which is the same one where it is shared. The one error is want of memory.
    pub(crate) fn copy(&self, alloc: Global) -> Result<Held, AllocError>
        ensures side { IfOk result (λ h. (held_sheet h).side.items ≡ (held_sheet self.now).side.items) }
        ensures wides { IfOk result (λ h. (held_sheet h).wides.items ≡ (held_sheet self.now).wides.items) }
        ensures cells { IfOk result (λ h. (held_sheet h).cells.items ≡ (held_sheet self.now).cells.items) }
    {
        match self {
            Held::Own(sheet) => Ok(Held::Own(sheet.copy(alloc)?)),
            Held::Shared(sheet) => Ok(Held::Shared(sheet.clone()?)),
        }
    }
}
