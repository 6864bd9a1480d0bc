//! A node as it is read here: made by hand, or one of the document that it is kept as.
#![tactic(auto, using(crate::proofs::PartLemmas::parts))]

use std::marker::Model;
use sw_tree::content::Content;
use sw_tree::mode::Kind;
use sw_tree::node::Node;
use sw_tree::view::{Entries, Items, View};
use sw_tree::whole::Whole;

/// A node made by hand, or one of a document.
#[derive(Clone, Copy)]
pub(crate) enum Part<'a> {
    Node(&'a Node),
    View(View<'a>),
}

/// The items of a list that are left, in order.
#[derive(Drop)]
pub(crate) struct Parts<'a> {
    row: Row<'a>,
}

/// Items in a row.
#[derive(Drop)]
pub(crate) enum Row<'a> {
    Nodes(&'a [Node]),
    Views(Items<'a>),
}

/// The entries of a map that are left, in order, each a key and its value.
#[derive(Drop)]
pub(crate) struct PartPairs<'a> {
    row: EntryRow<'a>,
}

/// Entries in a row.
#[derive(Drop)]
pub(crate) enum EntryRow<'a> {
    Nodes(&'a [(Node, Node)]),
    Views(Entries<'a>),
}

/// What a part is, with its own parts.
#[derive(Drop)]
pub(crate) enum Shown<'a> {
    Null,
    Bool(bool),
    Int(Whole),
    Text(&'a str),
    Bytes(&'a [u8]),
    List(Parts<'a>),
    Map(PartPairs<'a>),
}

impl<'a> Model for Parts<'a> {
    ghost use Rattle.std.specs.Prelude.{List};
    ghost use Rattle.std.specs.Coded.{coded_list};
    ghost use Rattle.sw_tree.specs.Tree.{Tree};
    ghost use Rattle.sw_tree.specs.Inner.TreeCode.{coded_tree};
    ghost use Rattle.sw_schema.specs.Inner.Parts.{row_trees};

    ghost Value = { List Tree };

    ghost coded = { coded_list coded_tree };

    ghost view = { λ a. row_trees a.row };
}

impl<'a> Model for PartPairs<'a> {
    ghost use Rattle.std.specs.Prelude.{List};
    ghost use Rattle.std.specs.Coded.{coded_list, coded×};
    ghost use Rattle.sw_tree.specs.Tree.{Tree};
    ghost use Rattle.sw_tree.specs.Inner.TreeCode.{coded_tree};
    ghost use Rattle.sw_schema.specs.Inner.Parts.{row_pairs};

    ghost Value = { List (Tree × Tree) };

    ghost coded = { coded_list (coded× coded_tree coded_tree) };

    ghost view = { λ a. row_pairs a.row };
}

impl<'a> Part<'a> {
    ghost use Rattle.std.specs.Prelude.{◌≡◌};
    ghost use Rattle.std.specs.Option.{option_copied};
    ghost use Rattle.sw_tree.specs.Tree.{kind_of, len_of, items_at, pairs_at, int_at, text_at, bytes_at, truth_at};
    ghost use Rattle.sw_schema.specs.Inner.Parts.{part_tree};
    ghost use Rattle.sw_schema.specs.Inner.Shown.{shown_tree};

    /// Its kind.
    pub(crate) fn kind(self) -> Kind
        ensures { result ≡ kind_of (part_tree self.entry) }
    {
        match self {
            Part::Node(node) => node.kind(),
            Part::View(view) => view.kind(),
        }
    }

    /// The number, where it is one.
    pub(crate) fn as_int(self) -> Option<Whole>
        ensures { result ≡ int_at (part_tree self.entry) }
    {
        match self {
            Part::Node(node) => node.as_int(),
            Part::View(view) => view.as_int(),
        }
    }

    /// The truth value, where it is one.
    pub(crate) fn as_bool(self) -> Option<bool>
        ensures { result ≡ truth_at (part_tree self.entry) }
    {
        match self {
            Part::Node(node) => node.as_bool(),
            Part::View(view) => view.as_bool(),
        }
    }

    /// The text, where it is one.
    pub(crate) fn as_text(self) -> Option<&'a str>
        ensures { option_copied result ≡ text_at (part_tree self.entry) }
    {
        match self {
            Part::Node(node) => node.as_text(),
            Part::View(view) => view.as_text(),
        }
    }

    /// The bytes, where it is a byte string.
    pub(crate) fn as_bytes(self) -> Option<&'a [u8]>
        ensures { option_copied result ≡ bytes_at (part_tree self.entry) }
    {
        match self {
            Part::Node(node) => node.as_bytes(),
            Part::View(view) => view.as_bytes(),
        }
    }

    /// What it is, with its parts.
    #[tactic(auto, using(crate::proofs::PartLemmas::shows))]
    pub(crate) fn shown(self) -> Shown<'a>
        ensures { shown_tree result ≡ part_tree self.entry }
    {
        if let Some(items) = self.items() {
            return Shown::List(items);
        }
        if let Some(entries) = self.entries() {
            return Shown::Map(entries);
        }
        if let Some(text) = self.as_text() {
            return Shown::Text(text);
        }
        if let Some(bytes) = self.as_bytes() {
            return Shown::Bytes(bytes);
        }
        if let Some(number) = self.as_int() {
            return Shown::Int(number);
        }
        match self.as_bool() {
            Some(value) => Shown::Bool(value),
            None => Shown::Null,
        }
    }

    /// How many items a list has, entries a map, bytes a byte string; 0 for every other kind.
    pub(crate) fn len(self) -> usize
        ensures { result ≡ len_of (part_tree self.entry) }
    {
        match self {
            Part::View(view) => view.len(),
            Part::Node(node) => match node.content() {
                Content::List(items) => items.len(),
                Content::Map(entries) => entries.len(),
                Content::Bytes(bytes) => bytes.len(),
                Content::Document(view) => view.len(),
                _ => 0,
            },
        }
    }

    /// The items in order, where it is a list.
    pub(crate) fn items(self) -> Option<Parts<'a>>
        ensures { result ≡ items_at (part_tree self.entry) }
    {
        match self {
            Part::View(view) => rows_of(view),
            Part::Node(node) => match node.content() {
                Content::List(items) => Some(Parts {
                    row: Row::Nodes(items),
                }),
                Content::Document(view) => rows_of(view),
                _ => None,
            },
        }
    }

    /// The entries in order, where it is a map.
    pub(crate) fn entries(self) -> Option<PartPairs<'a>>
        ensures { result ≡ pairs_at (part_tree self.entry) }
    {
        match self {
            Part::View(view) => entry_rows_of(view),
            Part::Node(node) => match node.content() {
                Content::Map(entries) => Some(PartPairs {
                    row: EntryRow::Nodes(entries),
                }),
                Content::Document(view) => entry_rows_of(view),
                _ => None,
            },
        }
    }
}

ghost use Rattle.std.specs.Prelude.{◌≡◌};
ghost use Rattle.sw_tree.specs.Tree.{items_at, pairs_at};
ghost use Rattle.sw_tree.specs.Inner.View.{tree_of};

/// The view's items.
fn rows_of<'a>(view: View<'a>) -> Option<Parts<'a>>
    ensures { result ≡ items_at (tree_of view.entry) }
{
    match view.items() {
        Some(items) => Some(Parts {
            row: Row::Views(items),
        }),
        None => None,
    }
}

/// The view's entries.
fn entry_rows_of<'a>(view: View<'a>) -> Option<PartPairs<'a>>
    ensures { result ≡ pairs_at (tree_of view.entry) }
{
    match view.entries() {
        Some(entries) => Some(PartPairs {
            row: EntryRow::Views(entries),
        }),
        None => None,
    }
}

impl<'a> Iterator for Parts<'a> {
    ghost use Rattle.std.specs.Iterator.{YieldsFirstBy, item_count};
    ghost use Rattle.sw_schema.specs.Inner.Parts.{part_tree};

    type Item = Part<'a>;

    ghost next_gives = { YieldsFirstBy part_tree (λ s. s) };

    ghost remaining = { item_count (λ s. s) };

    fn next(&mut self) -> Option<Part<'a>> {
        match &mut self.row {
            Row::Nodes(nodes) => match nodes.split_first() {
                Some((first, rest)) => {
                    *nodes = rest;
                    Some(Part::Node(first))
                }
                None => None,
            },
            Row::Views(items) => match items.next() {
                Some(view) => Some(Part::View(view)),
                None => None,
            },
        }
    }
}

impl<'a> Iterator for PartPairs<'a> {
    ghost use Rattle.std.specs.Iterator.{YieldsFirstBy, item_count};
    ghost use Rattle.sw_schema.specs.Inner.Parts.{part_tree};

    type Item = (Part<'a>, Part<'a>);

    ghost next_gives = { YieldsFirstBy (λ e. (part_tree e.0, part_tree e.1)) (λ s. s) };

    ghost remaining = { item_count (λ s. s) };

    fn next(&mut self) -> Option<(Part<'a>, Part<'a>)> {
        match &mut self.row {
            EntryRow::Nodes(nodes) => match nodes.split_first() {
                Some((first, rest)) => {
                    *nodes = rest;
                    Some((Part::Node(&first.0), Part::Node(&first.1)))
                }
                None => None,
            },
            EntryRow::Views(entries) => match entries.next() {
                Some((key, value)) => Some((Part::View(key), Part::View(value))),
                None => None,
            },
        }
    }
}
