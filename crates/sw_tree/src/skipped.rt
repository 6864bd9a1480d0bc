ghost use Rattle.std.specs.Prelude.{◌≡◌, [], ◌∷◌, ◌++◌, is_ok, if◌then◌else◌};

use crate::fail::Refusal;
use std::alloc::{AllocError, Global};
use std::marker::Model;

/// The log of the refusals that were passed over, the oldest first.
#[derive(Drop)]
pub struct Skipped {
    notes: Vec<Refusal>,
}

impl Model for Skipped {
    ghost use Rattle.std.specs.Prelude.{List};
    ghost use Rattle.sw_tree.specs.declared.fail.Refusal.{Refusal};

    ghost Value = { List Refusal };

    ghost view = { λ s. s.notes.items };
}

impl Skipped {
    /// The empty log. It takes no memory.
    pub fn new(alloc: Global) -> Skipped
        ensures { result ≡ [] }
    {
        Skipped {
            notes: Vec::new(alloc),
        }
    }

    /// Appends a refusal. After want of memory the log is as before.
    pub fn push(&mut self, note: Refusal) -> Result<(), AllocError>
        ensures { self.new ≡ (if is_ok result then self.old ++ note ∷ [] else self.old) }
    {
        self.notes.push(note)?;
        Ok(())
    }

    /// The refusals, the oldest first.
    pub fn notes(&self) -> &[Refusal]
        ensures { result.now ≡ self.now }
    {
        self.notes.as_slice()
    }
}
