ghost use Rattle.std.specs.Prelude.{◌≡◌, ◌<◌, ◌≤◌, ◌+◌, [], ◌∷◌, ◌++◌, length, slice_range, None, Some, is_some, true, false, IsOk, IfOk, OnOk, OnErr};
ghost use Rattle.std.specs.Str.{IsUtf8};
ghost use Rattle.sw_tree.specs.Steps.{Each};
ghost use Rattle.sw_tree.specs.Tree as tree;
ghost use Rattle.sw_tree.specs.Builder.{added, longer, opened, closed, CanClose};
ghost use Rattle.sw_tree.specs.Inner.Builder.{finished, takes, can_close};

use crate::cell::{Cell, Extent, Span};
use crate::doc::Doc;
use crate::whole::Whole;
use std::alloc::{AllocError, Global};
use std::marker::Model;

/// A list or map that is open: the place of its cell, and how many children the one
/// around it has so far.
#[derive(Clone, Copy)]
pub(crate) struct Open {
    pub at: u32,
    pub kids: u32,
    pub is_map: bool,
}

/// Builds a document from its nodes in reading order: a list or map is opened, its
/// children are added, a map's keys and values by turns, and it is closed.
///
/// It means the lists and maps that are open with their finished children, the finished
/// root, if there is one, and how many bytes stand in the text beside the input. After
/// want of memory it is unchanged.
#[derive(Drop)]
pub struct DocBuilder<'de> {
    input: &'de [u8],
    side: Vec<u8>,
    wides: Vec<Whole>,
    cells: Vec<Cell>,
    opens: Vec<Open>,
    kids: u32,
}

impl<'de> Model for DocBuilder<'de> {
    ghost use Rattle.std.specs.Prelude.{reverse};
    ghost use Rattle.sw_tree.specs.Builder.{Built};
    ghost use Rattle.sw_tree.specs.Inner.Builder.{coded_built, meant, Standing};

    ghost Value = { Built };

    ghost coded = { coded_built };

    ghost view = { λ b. meant (record { input = b.input.now; side = b.side.items; wides = b.wides.items }) (reverse b.opens.items) b.cells.items };

    ghost invariant = { λ b. Standing (record { input = b.input.now; side = b.side.items; wides = b.wides.items }) (reverse b.opens.items) b.cells.items b.kids };
}

impl<'de> DocBuilder<'de> {
    ghost use Rattle.std.specs.Prelude.{slice_range};
    ghost use Rattle.sw_tree.specs.Inner.Cells.{Store, IsFine, arity, below, tree_at};
    ghost use Rattle.sw_tree.specs.Tree.{depth};
    ghost use Rattle.sw_tree.specs.Number.{IsInRange};
    ghost use Rattle.sw_tree.specs.Proper.{IsProper};

    /// Nothing open and no root, over that input. It takes no memory.
    pub fn new(alloc: Global, input: &'de [u8]) -> DocBuilder<'de>
        ensures { result ≡ record { input = input.entry.now; side_len = 0; frames = []; root = None } }
    {
        DocBuilder {
            input,
            side: Vec::new(alloc),
            wides: Vec::new(alloc),
            cells: Vec::new(alloc),
            opens: Vec::new(alloc),
            kids: 0,
        }
    }

    /// Takes room for that many nodes more.
    pub fn reserve(&mut self, nodes: usize) -> Result<(), AllocError>
        ensures { self.new ≡ self.old }
    {
        self.cells.reserve(nodes)
    }

    /// Adds the tree of a cell that has nothing below it.
    fn leaf(&mut self, cell: Cell) -> Result<(), AllocError>
        requires no_root { self.old.root ≡ None }
        requires fine { IsFine (record { input = self.old.input; side = []; wides = [] }) cell }
        requires none { arity cell ≡ 0 }
        requires low { below cell ≡ 0 }
        requires shallow { depth (tree_at (record { input = self.old.input; side = []; wides = [] }) cell []) ≤ 1 }
        requires room { 0 < depth (tree_at (record { input = self.old.input; side = []; wides = [] }) cell []) → length self.old.frames < 128 }
        requires proper { IsProper (tree_at (record { input = self.old.input; side = []; wides = [] }) cell []) }
        ensures ok { OnOk result (self.new ≡ added self.old (tree_at (record { input = self.old.input; side = []; wides = [] }) cell [])) }
        ensures err { OnErr result (self.new ≡ self.old) }
    {
        push_cell(&mut self.cells, cell)?;
        self.kids += 1;
        Ok(())
    }

    /// Adds the null.
    pub fn null(&mut self) -> Result<(), AllocError>
        requires no_root { self.old.root ≡ None }
        ensures ok { OnOk result (self.new ≡ added self.old tree.null) }
        ensures err { OnErr result (self.new ≡ self.old) }
    {
        self.leaf(Cell::Null)
    }

    /// Adds that truth value.
    pub fn bool(&mut self, value: bool) -> Result<(), AllocError>
        requires no_root { self.old.root ≡ None }
        ensures ok { OnOk result (self.new ≡ added self.old (tree.truth value)) }
        ensures err { OnErr result (self.new ≡ self.old) }
    {
        self.leaf(Cell::Bool(value))
    }

    /// Adds that number, as `int` does.
    pub fn small(&mut self, value: i64) -> Result<(), AllocError>
        requires no_root { self.old.root ≡ None }
        ensures ok { OnOk result (self.new ≡ added self.old (tree.int value)) }
        ensures err { OnErr result (self.new ≡ self.old) }
    {
        self.leaf(Cell::of_number(value))
    }

    /// Adds a number, in the list beside the cells.
    fn wide(&mut self, value: Whole) -> Result<(), AllocError>
        requires no_root { self.old.root ≡ None }
        requires range { IsInRange value }
        ensures ok { OnOk result (self.new ≡ added self.old (tree.int value)) }
        ensures err { OnErr result (self.new ≡ self.old) }
    {
        let before = self.wides.len();
        let index = short(before)?;
        self.wides.push(value)?;
        if let Err(failed) = push_cell(&mut self.cells, Cell::Wide(index)) {
            self.wides.truncate(before);
            return Err(failed);
        }
        self.kids += 1;
        Ok(())
    }

    /// Adds that number.
    pub fn int(&mut self, value: Whole) -> Result<(), AllocError>
        requires no_root { self.old.root ≡ None }
        ensures ok { OnOk result (self.new ≡ added self.old (tree.int value)) }
        ensures err { OnErr result (self.new ≡ self.old) }
    {
        match value.to_i64() {
            Some(small) => self.small(small),
            None => self.wide(value),
        }
    }

    /// Adds the text that is this part of the input.
    pub fn text(&mut self, start: usize, end: usize) -> Result<(), AllocError>
        requires no_root { self.old.root ≡ None }
        requires ordered { start ≤ end }
        requires inside { end ≤ length self.old.input }
        requires utf8 { IsUtf8 (slice_range self.old.input start end) }
        ensures ok { OnOk result (self.new ≡ added self.old (tree.text (slice_range self.old.input start end))) }
        ensures err { OnErr result (self.new ≡ self.old) }
    {
        self.leaf(Cell::Text(span_of(start, end)?))
    }

    /// Adds the byte string that is this part of the input.
    pub fn bytes(&mut self, start: usize, end: usize) -> Result<(), AllocError>
        requires no_root { self.old.root ≡ None }
        requires ordered { start ≤ end }
        requires inside { end ≤ length self.old.input }
        requires room { length self.old.frames < 128 }
        ensures ok { OnOk result (self.new ≡ added self.old (tree.bytes (slice_range self.old.input start end))) }
        ensures err { OnErr result (self.new ≡ self.old) }
    {
        know_bytes(self.input);
        self.leaf(Cell::Bytes(span_of(start, end)?))
    }

    /// Adds that text, and keeps a copy of it beside the input.
    pub fn copied(&mut self, text: &str) -> Result<(), AllocError>
        requires no_root { self.old.root ≡ None }
        ensures ok { OnOk result (self.new ≡ added (longer self.old (length text.now)) (tree.text text.now)) }
        ensures err { OnErr result (self.new ≡ self.old) }
    {
        let bytes = text.as_bytes();
        let start = self.side.len();
        let span = span_of(start, start + bytes.len())?;
        self.side.extend_from_slice(bytes)?;
        if let Err(failed) = push_cell(&mut self.cells, Cell::Copied(span)) {
            self.side.truncate(start);
            return Err(failed);
        }
        self.kids += 1;
        Ok(())
    }

    /// Adds that byte string, and keeps a copy of it beside the input.
    pub(crate) fn copied_bytes(&mut self, bytes: &[u8]) -> Result<(), AllocError>
        requires no_root { self.old.root ≡ None }
        requires room { length self.old.frames < 128 }
        ensures ok { OnOk result (self.new ≡ added (longer self.old (length bytes.now)) (tree.bytes bytes.now)) }
        ensures err { OnErr result (self.new ≡ self.old) }
    {
        let before = self.side.len();
        let span = span_of(before, before + bytes.len())?;
        self.side.extend_from_slice(bytes)?;
        if let Err(failed) = push_cell(&mut self.cells, Cell::CopiedBytes(span)) {
            self.side.truncate(before);
            return Err(failed);
        }
        self.kids += 1;
        Ok(())
    }

    /// Whether a tree of so many levels can be added: there is no root, and no more than 128 levels are open with its own.
    pub(crate) fn takes(&self, levels: u8) -> bool
        ensures { result ≡ takes self.now levels }
    {
        let open = self.opens.len();
        if open == 0 && self.kids > 0 {
            return false;
        }
        open + levels as usize <= 128
    }

    /// Whether something is open, and the innermost has, if it is a map, as many keys as values.
    pub(crate) fn can_close(&self) -> bool
        ensures { result ≡ can_close self.now }
    {
        match self.opens.as_slice().last() {
            Some(open) => !open.is_map || self.kids % 2 == 0,
            None => false,
        }
    }

    /// Opens a list or a map.
    fn begin(&mut self, is_map: bool) -> Result<(), AllocError>
        requires no_root { self.old.root ≡ None }
        requires room { length self.old.frames < 128 }
        ensures ok { OnOk result (self.new ≡ opened self.old is_map) }
        ensures err { OnErr result (self.new ≡ self.old) }
    {
        let at = short(self.cells.len())?;
        self.opens.push(Open {
            at,
            kids: self.kids,
            is_map,
        })?;
        if let Err(failed) = push_cell(&mut self.cells, Cell::Null) {
            self.opens.pop();
            return Err(failed);
        }
        self.kids = 0;
        Ok(())
    }

    /// Opens a list.
    pub fn open_list(&mut self) -> Result<(), AllocError>
        requires no_root { self.old.root ≡ None }
        requires room { length self.old.frames < 128 }
        ensures ok { OnOk result (self.new ≡ opened self.old false) }
        ensures err { OnErr result (self.new ≡ self.old) }
    {
        self.begin(false)
    }

    /// Opens a map.
    pub fn open_map(&mut self) -> Result<(), AllocError>
        requires no_root { self.old.root ≡ None }
        requires room { length self.old.frames < 128 }
        ensures ok { OnOk result (self.new ≡ opened self.old true) }
        ensures err { OnErr result (self.new ≡ self.old) }
    {
        self.begin(true)
    }

    /// Finishes the innermost list or map, which becomes a child or the root. It takes no
    /// memory.
    pub fn close(&mut self) -> Result<(), AllocError>
        requires { CanClose self.old }
        ensures always { IsOk result }
        ensures ok { OnOk result (self.new ≡ closed self.old) }
    {
        if let Some(open) = self.opens.pop() {
            let below = self.cells.len() as u32 - open.at - 1;
            self.cells[open.at as usize] = closed_cell(open.is_map, self.kids, below);
            self.kids = open.kids + 1;
        }
        Ok(())
    }

    /// The document whose view means the root. It takes no memory.
    pub fn finish(self) -> Doc<'de>
        requires root { is_some self.root ≡ true }
        ensures tree { Some result.tree ≡ self.entry.root }
        ensures side { result.side_len ≡ self.entry.side_len }
    {
        let DocBuilder {
            input,
            side,
            wides,
            cells,
            opens: _,
            kids: _,
        } = self;
        Doc::from_cells(input, side, wides, cells)
    }
}

/// That number in 32 bits. What is greater is refused as want of memory.
fn short(value: usize) -> Result<u32, AllocError>
    ensures { IfOk result (λ n. n ≡ value) }
{
    u32::try_from(value).map_err(|_| AllocError)
}

/// The span from one place to another behind it.
fn span_of(start: usize, end: usize) -> Result<Span, AllocError>
    requires { start ≤ end }
    ensures { IfOk result (λ s. s ≡ record { start = start; end = end }) }
{
    let end = short(end)?;
    Ok(Span {
        start: start as u32,
        end,
    })
}

/// Does nothing; the proof of its caller learns that these are bytes: each is below 256.
fn know_bytes(source: &[u8])
    ensures { Each (λ b. b < 256) source.now }
{
    let _count = source.len();
}

/// Adds that cell behind the others, of which there stay fewer than 2^32.
fn push_cell(cells: &mut Vec<Cell>, cell: Cell) -> Result<(), AllocError>
    ensures ok { OnOk result (cells.new.items ≡ cells.old.items ++ cell ∷ []) }
    ensures few { OnOk result (length cells.old.items + 1 < 4294967296) }
    ensures err { OnErr result (cells.new.items ≡ cells.old.items) }
{
    if cells.len() >= u32::MAX as usize {
        return Err(AllocError);
    }
    cells.push(cell)?;
    Ok(())
}

/// The cell of a finished list or map of so many children.
fn closed_cell(is_map: bool, kids: u32, below: u32) -> Cell
    ensures { result ≡ finished is_map kids below }
{
    if is_map {
        Cell::Map(Extent {
            count: kids / 2,
            below,
        })
    } else {
        Cell::List(Extent { count: kids, below })
    }
}
