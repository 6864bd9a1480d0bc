use crate::held::Held;
use crate::part::{copied, moved_cells, reach_of, run_at};
use crate::sheet::Sheet;
use crate::view::View;
use std::alloc::{AllocError, Global};
use std::marker::Model;

/// A document that owns its input.
#[derive(Drop)]
pub(crate) struct Kept {
    input: Vec<u8>,
    held: Held,
}

impl Model for Kept {
    ghost use Rattle.sw_tree.specs.Tree.{Tree};
    ghost use Rattle.sw_tree.specs.Inner.TreeCode.{coded_tree};
    ghost use Rattle.sw_tree.specs.Inner.Cells.{Formed};
    ghost use Rattle.sw_tree.specs.Inner.Sheet.{sheet_store, sheet_tree};
    ghost use Rattle.sw_tree.specs.Inner.Held.{held_sheet};

    ghost Value = { Tree };

    ghost coded = { coded_tree };

    ghost view = { λ k. sheet_tree k.input.items (held_sheet k.held) };

    ghost invariant = { λ k. Formed (sheet_store k.input.items (held_sheet k.held)) (held_sheet k.held).cells.items };
}

impl Kept {
    ghost use Rattle.std.specs.Prelude.{◌≡◌, ◌<◌, ◌+◌, true, IfOk, length, get_or, drop};
    ghost use Rattle.sw_tree.specs.Inner.View.{seen};
    ghost use Rattle.sw_tree.specs.Inner.Cells.{Formed, forest, first, below};
    ghost use Rattle.sw_tree.specs.declared.cell.Cell.TheVariants.{Null};
    ghost use Rattle.sw_tree.specs.Inner.Sheet.{sheet_store, sheet_tree};
    ghost use Rattle.sw_tree.specs.Inner.Held.{held_sheet};

    /// The document of that input, copied, and of that sheet, copied where it isn't shared.
    pub(crate) fn root(alloc: Global, input: &[u8], held: &Held) -> Result<Kept, AllocError>
        requires { Formed (sheet_store input.now (held_sheet held.now)) (held_sheet held.now).cells.items }
        ensures { IfOk result (λ k. k ≡ sheet_tree input.now (held_sheet held.now)) }
    {
        Ok(Kept {
            input: Vec::from_slice(alloc, input)?,
            held: held.copy(alloc)?,
        })
    }

    /// The document of that sheet, with a copy of that input.
    pub(crate) fn of_held(alloc: Global, input: &[u8], held: Held) -> Result<Kept, AllocError>
        requires { Formed (sheet_store input.now (held_sheet held)) (held_sheet held).cells.items }
        ensures { IfOk result (λ k. k ≡ sheet_tree input.now (held_sheet held)) }
    {
        Ok(Kept {
            input: Vec::from_slice(alloc, input)?,
            held,
        })
    }

    /// The document of a node's cells alone, those from `at` to `end`, copied with the ranges
    /// that they point into.
    pub(crate) fn part(
        alloc: Global,
        input: &[u8],
        sheet: &Sheet,
        at: u32,
        end: u32,
    ) -> Result<Kept, AllocError>
        requires formed { Formed (sheet_store input.now sheet.now) sheet.now.cells.items }
        requires inside { at < length sheet.now.cells.items }
        requires all { end ≡ at + 1 + below (get_or sheet.now.cells.items at Null) }
        ensures { IfOk
            result
            (λ k. k ≡ first (forest (sheet_store input.now sheet.now) (drop at sheet.now.cells.items))) }
    {
        let run = run_at(sheet.cells.as_slice(), at, end);
        let reach = reach_of(run);
        let own_input = copied(alloc, input, reach.input)?;
        let own_side = copied(alloc, sheet.side.as_slice(), reach.side)?;
        let own_wides = copied(alloc, sheet.wides.as_slice(), reach.wides)?;
        let own_cells = moved_cells(alloc, reach, run)?;
        Ok(Kept {
            input: own_input,
            held: Held::Own(Sheet {
                side: own_side,
                wides: own_wides,
                cells: own_cells,
            }),
        })
    }

    /// The root, whose place is 0, and whose nodes below count on from there.
    pub(crate) fn view(&self) -> View<'_>
        ensures { seen result ≡ record { tree = self.now; place = 0; counts = true } }
    {
        View::root(self.input.as_slice(), &self.held, true, 0)
    }
}
