use crate::cell::Cell;
use crate::from_node::document_of;
use crate::held::Held;
use crate::kept::Kept;
use crate::node::Node;
use crate::sheet::Sheet;
use crate::view::View;
use crate::whole::Whole;
use std::alloc::{AllocError, Global};
use std::marker::Model;

/// A read document: the input that it was read from, and its nodes.
#[derive(Drop)]
pub struct Doc<'de> {
    input: &'de [u8],
    held: Held,
}

impl<'de> Model for Doc<'de> {
    ghost use Rattle.std.specs.Prelude.{length};
    ghost use Rattle.sw_tree.specs.Doc.{Document};
    ghost use Rattle.sw_tree.specs.Inner.Doc.{coded_document};
    ghost use Rattle.sw_tree.specs.Inner.Cells.{Formed};
    ghost use Rattle.sw_tree.specs.Inner.Sheet.{sheet_store, sheet_tree};
    ghost use Rattle.sw_tree.specs.Inner.Held.{held_sheet};

    ghost Value = { Document };

    ghost coded = { coded_document };

    ghost view = { λ d. record {
      tree = sheet_tree d.input.now (held_sheet d.held);
      side_len = length (held_sheet d.held).side.items;
    } };

    ghost invariant = { λ d. Formed (sheet_store d.input.now (held_sheet d.held)) (held_sheet d.held).cells.items };
}

impl<'de> Doc<'de> {
    ghost use Rattle.std.specs.Prelude.{◌≡◌, ◌<◌, length, true, false, IfOk};
    ghost use Rattle.sw_tree.specs.Tree.{content_len};
    ghost use Rattle.sw_tree.specs.Inner.View.{seen};
    ghost use Rattle.sw_tree.specs.Inner.Cells.{forest, Formed, first};

    /// The document of these cells, whose first is the root's.
    pub(crate) fn from_cells(
        input: &'de [u8],
        side: Vec<u8>,
        wides: Vec<Whole>,
        cells: Vec<Cell>,
    ) -> Doc<'de>
        requires formed { Formed (record { input = input.now; side = side.items; wides = wides.items }) cells.items }
        requires some { 0 < length cells.items }
        requires few { length cells.items < 4294967296 }
        ensures { result ≡ record {
          tree = first (forest (record { input = input.entry.now; side = side.items; wides = wides.items }) cells.items);
          side_len = length side.items;
        } }
    {
        Doc {
            input,
            held: Held::Own(Sheet { side, wides, cells }),
        }
    }

    /// A document whose view means that tree, with copies of all texts and byte strings in
    /// the text beside its input, which is empty.
    pub fn from_node(alloc: Global, node: &Node) -> Result<Doc<'_>, AllocError>
        ensures { IfOk result (λ d. d ≡ record { tree = node.entry.now; side_len = content_len node.entry.now }) }
    {
        document_of(alloc, node)
    }

    /// The same document, whose cells are shared by each node that is copied from its root.
    /// The one error is want of memory; the document is then given up.
    pub fn shared(self, alloc: Global) -> Result<Doc<'de>, AllocError>
        ensures { IfOk result (λ d. d ≡ self.entry) }
    {
        let Doc { input, held } = self;
        let held = held.shared(alloc)?;
        Ok(Doc { input, held })
    }

    /// The document, with a copy of its input.
    pub(crate) fn into_kept(self, alloc: Global) -> Result<Kept, AllocError>
        ensures { IfOk result (λ k. k ≡ self.entry.tree) }
    {
        let Doc { input, held } = self;
        Kept::of_held(alloc, input, held)
    }

    /// The root, whose place is 0, and whose nodes below count on from there.
    pub fn view(&self) -> View<'_>
        ensures { seen result ≡ record { tree = self.now.tree; place = 0; counts = true } }
    {
        View::root(self.input, &self.held, true, 0)
    }

    /// The root of a document that stands inside a node of another: it and all nodes below
    /// have that place.
    pub fn view_inside(&self, place: usize) -> View<'_>
        ensures { seen result ≡ record { tree = self.now.tree; place = place; counts = false } }
    {
        View::root(self.input, &self.held, false, place)
    }

    /// How many bytes stand in the text beside the input.
    pub fn side_len(&self) -> usize
        ensures { result ≡ self.now.side_len }
    {
        self.held.sheet().side.len()
    }
}
