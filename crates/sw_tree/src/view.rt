ghost use Rattle.std.specs.Prelude.{◌<◌, ◌≤◌, ◌≡◌, length, IfOk};
ghost use Rattle.sw_tree.specs.Inner.Cells.{Formed, IsText, part};
ghost use Rattle.sw_tree.specs.Laws.Formed.{Formed-prop};
ghost use Rattle.sw_tree.specs.Inner.Held.{IsHeld};
ghost use Rattle.sw_tree.specs.Laws.Held.{IsHeld-prop};

use crate::cell::{Cell, Span};
use crate::held::Held;
use crate::kept::Kept;
use crate::mode::Kind;
use crate::node::Node;
use crate::sheet::Sheet;
use crate::to_node::leaf_of;
use crate::whole::Whole;
use std::alloc::{AllocError, Global};
use std::marker::Model;

/// A node of a document, to be read.
///
/// Contracts read what it shows by `seen`: the node's tree, its place, and whether the
/// places of the nodes below count on from it.
#[derive(Clone, Copy)]
pub struct View<'a> {
    input: &'a [u8],
    sheet: &'a Sheet,
    /// What holds the sheet, for a copy of the root.
    held: &'a Held,
    fixed: usize,
    at: u32,
    counts: bool,
    ghost inside: { at < length sheet.now.cells.items },
    ghost formed: { Formed (record { input = input.now; side = sheet.now.side.items; wides = sheet.now.wides.items }) sheet.now.cells.items } by { Formed-prop (record { input = input.now; side = sheet.now.side.items; wides = sheet.now.wides.items }) sheet.now.cells.items },
    ghost shared: { IsHeld input.now sheet.now held.now } by { IsHeld-prop input.now sheet.now held.now },
}

const _: () = prove!(size_of::<View<'static>>() == 48);

impl<'a> View<'a> {
    ghost use Rattle.std.specs.Prelude.{◌+◌, List, ◌∷◌, drop, get_or, Some, true, false, option_map};
    ghost use Rattle.std.specs.Option.{option_copied};
    ghost use Rattle.sw_tree.specs.Tree.{depth, size, kind_of, items_at, len_of, text_at, bytes_at, truth_at, int_at, pairs_at};
    ghost use Rattle.sw_tree.specs.Proper.{IsProper};
    ghost use Rattle.sw_tree.specs.Short.{IsShort};
    ghost use Rattle.sw_tree.specs.Inner.Cells.{IsFine, arity, below, tree_at, forest};
    ghost use Rattle.sw_tree.specs.Seen.{Seen, items_seen, entries_seen};
    ghost use Rattle.sw_tree.specs.Inner.Sheet.{sheet_store, sheet_tree};
    ghost use Rattle.sw_tree.specs.Inner.Held.{held_sheet};
    ghost use Rattle.sw_tree.specs.Inner.View.{seen, tree_of, place_in, store_of};

    /// The root, which stands at 0 where it counts, and is fixed at that place otherwise.
    #[tactic(auto, unfolding(crate::specs::Inner::View::seen))]
    pub(crate) fn root(input: &'a [u8], held: &'a Held, counts: bool, fixed: usize) -> View<'a>
        requires { Formed (sheet_store input.now (held_sheet held.now)) (held_sheet held.now).cells.items }
        ensures { seen result
            ≡ record {
              tree = sheet_tree input.entry.now (held_sheet held.entry.now);
              place = place_in counts fixed 0;
              counts = counts;
            } }
    {
        View {
            input,
            sheet: held.sheet(),
            held,
            fixed,
            at: 0,
            counts,
        }
    }

    /// The node's place: its number in the document, from 0 in preorder, a key before its
    /// value; or the place at which the document is fixed.
    #[tactic(auto, unfolding(crate::specs::Inner::View::seen))]
    pub fn place(&self) -> usize
        ensures { result ≡ (seen self.now).place }
    {
        let at = self.at as usize;
        if self.counts { at } else { self.fixed }
    }

    /// Whether the places of the nodes below count on from this one's; where the document
    /// is fixed at a place, they don't.
    #[tactic(auto, unfolding(crate::specs::Inner::View::seen))]
    pub fn counts(&self) -> bool
        ensures { result ≡ (seen self.now).counts }
    {
        self.counts
    }

    /// The items in order, each at its place, where the node is a list.
    #[tactic(auto, using(crate::proofs::Lists::lists))]
    pub fn items(self) -> Option<Items<'a>>
        ensures { result ≡ items_seen (seen self.entry) }
    {
        match self.cell() {
            Cell::List(extent) => Some(Items {
                input: self.input,
                sheet: self.sheet,
                held: self.held,
                fixed: self.fixed,
                at: self.at + 1,
                left: extent.count,
                counts: self.counts,
            }),
            _ => None,
        }
    }

    /// The entries in order, each a key and its value at their places, where the node is a map.
    #[tactic(auto, using(crate::proofs::Lists::lists))]
    pub fn entries(self) -> Option<Entries<'a>>
        ensures { result ≡ entries_seen (seen self.entry) }
    {
        match self.cell() {
            Cell::Map(extent) => Some(Entries {
                input: self.input,
                sheet: self.sheet,
                held: self.held,
                fixed: self.fixed,
                at: self.at + 1,
                left: extent.count,
                counts: self.counts,
            }),
            _ => None,
        }
    }

    /// The number of the cell behind the node and all below it.
    #[inline]
    pub(crate) fn behind(self) -> u32
        ensures next { forest (store_of self.entry) (drop self.entry.at self.entry.sheet.now.cells.items) ≡ tree_of self.entry ∷ forest (store_of self.entry) (drop result self.entry.sheet.now.cells.items) }
        ensures place { result ≡ self.entry.at + size (tree_of self.entry) }
        ensures all { result ≡ self.entry.at + 1 + below (get_or self.entry.sheet.now.cells.items self.entry.at Cell.Null) }
    {
        self.at + 1 + self.sheet.cell(self.at).below()
    }

    /// The place behind a counting node and all below it.
    #[tactic(auto, unfolding(crate::specs::Inner::View::seen))]
    pub(crate) fn end(self) -> usize
        requires { (seen self).counts ≡ true }
        ensures { result ≡ (seen self.entry).place + size (tree_of self.entry) }
    {
        self.behind() as usize
    }

    /// The node's cell, and what is known of it.
    #[inline]
    fn cell(self) -> Cell
        ensures shallow { depth (tree_of self.entry) ≤ 128 }
        ensures proper { IsProper (tree_of self.entry) }
        ensures short { IsShort (tree_of self.entry) }
        ensures enough { arity result ≤ length (forest (store_of self.entry) (drop (self.entry.at + 1) self.entry.sheet.now.cells.items)) }
        ensures fine { IsFine (store_of self.entry) result }
        ensures tree { tree_of self.entry ≡ tree_at (store_of self.entry) result (forest (store_of self.entry) (drop (self.entry.at + 1) self.entry.sheet.now.cells.items)) }
        ensures place { (seen self.entry).place ≡ place_in self.entry.counts self.entry.fixed self.entry.at }
        ensures counts { (seen self.entry).counts ≡ self.entry.counts }
    {
        let _input = self.input.len();
        self.sheet.cell(self.at)
    }

    /// The node's kind.
    pub fn kind(self) -> Kind
        ensures value { result ≡ kind_of (tree_of self.entry) }
        ensures shallow { depth (tree_of self.entry) ≤ 128 }
        ensures proper { IsProper (tree_of self.entry) }
        ensures short { IsShort (tree_of self.entry) }
    {
        match self.cell() {
            Cell::Null => Kind::Null,
            Cell::Bool(_) => Kind::Bool,
            Cell::Natural(_) => Kind::Int,
            Cell::Negative(_) => Kind::Int,
            Cell::Wide(_) => Kind::Int,
            Cell::Text(_) => Kind::Text,
            Cell::Copied(_) => Kind::Text,
            Cell::Bytes(_) => Kind::Bytes,
            Cell::CopiedBytes(_) => Kind::Bytes,
            Cell::List(_) => Kind::List,
            Cell::Map(_) => Kind::Map,
        }
    }

    /// The truth value, where the node is one.
    pub fn as_bool(self) -> Option<bool>
        ensures { result ≡ truth_at (tree_of self.entry) }
    {
        match self.cell() {
            Cell::Bool(value) => Some(value),
            _ => None,
        }
    }

    /// The number, where the node is one.
    #[inline]
    pub fn as_int(self) -> Option<Whole>
        ensures { result ≡ int_at (tree_of self.entry) }
    {
        match self.cell() {
            Cell::Natural(halves) => Some(Whole::from_u128(u128::from(halves.number()))),
            Cell::Negative(halves) => Some(Whole::from_i128(-1 - i128::from(halves.number()))),
            Cell::Wide(index) => Some(self.sheet.wides[index as usize]),
            _ => None,
        }
    }

    /// The text, where the node is one. It stands in the document and isn't copied.
    #[inline]
    pub fn as_text(self) -> Option<&'a str>
        ensures { option_copied result ≡ text_at (tree_of self.entry) }
    {
        match self.cell() {
            Cell::Text(span) => Some(text_in(self.input, span)),
            Cell::Copied(span) => Some(text_in(self.sheet.side.as_slice(), span)),
            _ => None,
        }
    }

    /// The bytes, where the node is a byte string. They stand in the document and aren't copied.
    pub fn as_bytes(self) -> Option<&'a [u8]>
        ensures { option_copied result ≡ bytes_at (tree_of self.entry) }
    {
        match self.cell() {
            Cell::Bytes(span) => Some(&self.input[span.start as usize..span.end as usize]),
            Cell::CopiedBytes(span) => Some(
                &self.sheet.side.as_slice()[span.start as usize..span.end as usize],
            ),
            _ => None,
        }
    }

    /// How many items a list has, entries a map, bytes a byte string; 0 for every other kind. So `items` and
    /// `entries` end after so many steps.
    pub fn len(self) -> usize
        ensures count { result ≡ len_of (tree_of self.entry) }
        ensures items { (row : List Seen) → items_seen (seen self.entry) ≡ Some row → length row ≡ result }
        ensures entries { (row : List (Seen × Seen)) → entries_seen (seen self.entry) ≡ Some row → length row ≡ result }
    {
        self.count()
    }

    /// How many items, entries or bytes it has.
    #[tactic(auto, using(crate::proofs::Lists::lists))]
    fn count(self) -> usize
        ensures { result ≡ len_of (tree_of self.entry) }
    {
        match self.cell() {
            Cell::Bytes(span) => (span.end - span.start) as usize,
            Cell::CopiedBytes(span) => (span.end - span.start) as usize,
            Cell::List(extent) => extent.count as usize,
            Cell::Map(extent) => extent.count as usize,
            _ => 0,
        }
    }

    /// An equal tree, which owns its texts and byte strings. The one error is want of memory.
    pub fn to_node(self, alloc: Global) -> Result<Node, AllocError>
        ensures { IfOk result (λ n. n ≡ tree_of self.entry) }
    {
        // A list or map is copied as a document, which is a few blocks of memory, and its copies share it.
        match self.kind() {
            Kind::List | Kind::Map => Node::kept(alloc, self.kept(alloc)?),
            _ => leaf_of(alloc, self),
        }
    }

    /// The document of the node alone, copied.
    #[tactic(auto, unfolding(crate::specs::Inner::View::seen))]
    fn kept(self, alloc: Global) -> Result<Kept, AllocError>
        ensures { IfOk result (λ k. k ≡ tree_of self.entry) }
    {
        if self.at == 0 {
            Kept::root(alloc, self.input, self.held)
        } else {
            Kept::part(alloc, self.input, self.sheet, self.at, self.behind())
        }
    }
}

/// The text of a span.
fn text_in<'a>(source: &'a [u8], span: Span) -> &'a str
    requires { IsText source.now span }
    ensures { result.now ≡ part source.now span }
{
    unsafe { std::str::from_utf8_unchecked(&source[span.start as usize..span.end as usize]) }
}

/// The items of a list that are left, in order.
#[derive(Drop)]
pub struct Items<'a> {
    input: &'a [u8],
    sheet: &'a Sheet,
    held: &'a Held,
    fixed: usize,
    at: u32,
    left: u32,
    counts: bool,
}

impl<'a> Model for Items<'a> {
    ghost use Rattle.std.specs.Prelude.{List, ◌≤◌, length, take, drop};
    ghost use Rattle.std.specs.Coded.{coded_list};
    ghost use Rattle.sw_tree.specs.Seen.{Seen, row};
    ghost use Rattle.sw_tree.specs.Inner.Seen.{coded_seen};
    ghost use Rattle.sw_tree.specs.Inner.View.{place_in};
    ghost use Rattle.sw_tree.specs.Inner.Sheet.{sheet_store};

    ghost Value = { List Seen };

    ghost coded = { coded_list coded_seen };

    ghost use Rattle.sw_tree.specs.Inner.Cells.{forest, Formed};
    ghost use Rattle.sw_tree.specs.Inner.Held.{IsHeld};

    ghost view = { λ a. row a.counts (place_in a.counts a.fixed a.at) (take a.left (forest (sheet_store a.input.now a.sheet.now) (drop a.at a.sheet.now.cells.items))) };

    ghost invariant = { λ a. Formed (sheet_store a.input.now a.sheet.now) a.sheet.now.cells.items × (a.left ≤ length (forest (sheet_store a.input.now a.sheet.now) (drop a.at a.sheet.now.cells.items))) × IsHeld a.input.now a.sheet.now a.held.now };
}

impl<'a> Iterator for Items<'a> {
    ghost use Rattle.std.specs.Iterator.{YieldsFirstBy, item_count};
    ghost use Rattle.sw_tree.specs.Inner.View.{seen};

    type Item = View<'a>;

    ghost next_gives = { YieldsFirstBy seen (λ s. s) };

    ghost remaining = { item_count (λ s. s) };

    fn next(&mut self) -> Option<View<'a>> {
        if self.left == 0 {
            return None;
        }
        let view = View {
            input: self.input,
            sheet: self.sheet,
            held: self.held,
            fixed: self.fixed,
            at: self.at,
            counts: self.counts,
        };
        self.at = view.behind();
        self.left -= 1;
        Some(view)
    }
}

/// The entries of a map that are left, in order, each a key and its value.
#[derive(Drop)]
pub struct Entries<'a> {
    input: &'a [u8],
    sheet: &'a Sheet,
    held: &'a Held,
    fixed: usize,
    at: u32,
    left: u32,
    counts: bool,
}

impl<'a> Model for Entries<'a> {
    ghost use Rattle.std.specs.Prelude.{List, ◌+◌, ◌≤◌, length, take, drop};
    ghost use Rattle.std.specs.Coded.{coded_list, coded×};
    ghost use Rattle.sw_tree.specs.Tree.{turns};
    ghost use Rattle.sw_tree.specs.Seen.{Seen, entry_row};
    ghost use Rattle.sw_tree.specs.Inner.Seen.{coded_seen};
    ghost use Rattle.sw_tree.specs.Inner.View.{place_in};
    ghost use Rattle.sw_tree.specs.Inner.Sheet.{sheet_store};

    ghost Value = { List (Seen × Seen) };

    ghost coded = { coded_list (coded× coded_seen coded_seen) };

    ghost use Rattle.sw_tree.specs.Inner.Cells.{forest, Formed};
    ghost use Rattle.sw_tree.specs.Inner.Held.{IsHeld};

    ghost view = { λ a. entry_row a.counts (place_in a.counts a.fixed a.at) (turns (take (a.left + a.left) (forest (sheet_store a.input.now a.sheet.now) (drop a.at a.sheet.now.cells.items)))) };

    ghost invariant = { λ a. Formed (sheet_store a.input.now a.sheet.now) a.sheet.now.cells.items × (a.left + a.left ≤ length (forest (sheet_store a.input.now a.sheet.now) (drop a.at a.sheet.now.cells.items))) × IsHeld a.input.now a.sheet.now a.held.now };
}

impl<'a> Iterator for Entries<'a> {
    ghost use Rattle.std.specs.Iterator.{YieldsFirstBy, item_count};
    ghost use Rattle.sw_tree.specs.Inner.View.{seen};

    type Item = (View<'a>, View<'a>);

    ghost next_gives = { YieldsFirstBy (λ e. (seen e.0, seen e.1)) (λ s. s) };

    ghost remaining = { item_count (λ s. s) };

    fn next(&mut self) -> Option<(View<'a>, View<'a>)> {
        if self.left == 0 {
            return None;
        }
        let key = View {
            input: self.input,
            sheet: self.sheet,
            held: self.held,
            fixed: self.fixed,
            at: self.at,
            counts: self.counts,
        };
        let value = View {
            input: self.input,
            sheet: self.sheet,
            held: self.held,
            fixed: self.fixed,
            at: key.behind(),
            counts: self.counts,
        };
        self.at = value.behind();
        self.left -= 1;
        Some((key, value))
    }
}
