#![tactic(auto, using(crate::proofs::Plains::node_rules))]

ghost use Rattle.std.specs.Prelude.{◌≡◌, ◌<◌, ◌≤◌, IfOk, string_bytes};
ghost use Rattle.sw_tree.specs.Tree.{null, truth, int, text, bytes, list, map, trees, entries, depth, kind_of, trees_depth, entries_depth};
ghost use Rattle.sw_tree.specs.Proper.{IsProper, AreProper, AreProperEntries};
ghost use Rattle.sw_tree.specs.Short.{IsShort, AreShort, AreShortEntries};
ghost use Rattle.sw_tree.specs.Foreign as foreign;

use crate::content::Content;
use crate::fail::TooDeep;
use crate::foreign::foreign_in;
use crate::from_node::document_of;
use crate::kept::Kept;
use crate::levels::levels_of;
use crate::mode::Kind;
use crate::whole::Whole;
use std::alloc::{AllocError, Global};
use std::marker::Model;
use std::sync::Arc;

/// A tree of at most 128 levels.
///
/// Null, a truth value, a number and a text have no level, a byte string has one, a list
/// or map has one more than its deepest child, keys included.
#[cycle(node)]
#[derive(Drop)]
pub struct Node {
    shape: Shape,
    levels: u8,
    plain: bool,
}

#[cycle(node)]
#[derive(Drop)]
pub(crate) enum Shape {
    Null,
    Bool(bool),
    Int(Whole),
    Text(String),
    Bytes(Vec<u8>),
    List(Vec<Node>),
    Map(Vec<(Node, Node)>),
    /// A list or map as the document that it was read from, whose levels aren't counted ahead.
    Kept(Arc<Kept>),
}

impl Model for Node {
    ghost use Rattle.std.specs.Prelude.{◌≡◌, ◌≤◌};
    ghost use Rattle.sw_tree.specs.Tree.{Tree, depth};
    ghost use Rattle.sw_tree.specs.Inner.TreeCode.{coded_tree};

    ghost Value = { Tree };

    ghost coded = { coded_tree };

    ghost use Rattle.sw_tree.specs.Inner.NodeShape.{shape_tree, Counts, IsMarked};
    ghost use Rattle.sw_tree.specs.Proper.{IsProper};
    ghost use Rattle.sw_tree.specs.Short.{IsShort};

    ghost view = { λ a. shape_tree a.shape };

    ghost invariant = { λ a. Counts a.shape a.levels × IsMarked a.shape a.plain × (depth (shape_tree a.shape) ≤ 128) × IsProper (shape_tree a.shape) × IsShort (shape_tree a.shape) };

    ghost size = { depth };

    ghost use Rattle.sw_tree.specs.Laws.NodeFalls.{deep_le-depth};

    ghost size_decreases = { λ a h. deep_le-depth a.shape };
}

impl Node {
    ghost use Rattle.std.specs.Prelude.{MatchResult};
    ghost use Rattle.std.specs.Option.{option_copied};
    ghost use Rattle.sw_tree.specs.Tree.{text_at, bytes_at, truth_at, int_at};
    ghost use Rattle.sw_tree.specs.Content.{content_tree};

    /// The null.
    pub fn null() -> Node
        ensures { result ≡ null }
    {
        Node {
            shape: Shape::Null,
            levels: 0,
            plain: true,
        }
    }

    /// That truth value.
    pub fn bool(value: bool) -> Node
        ensures { result ≡ truth value }
    {
        Node {
            shape: Shape::Bool(value),
            levels: 0,
            plain: true,
        }
    }

    /// That number.
    pub fn int(value: Whole) -> Node
        ensures { result ≡ int value }
    {
        Node {
            shape: Shape::Int(value),
            levels: 0,
            plain: true,
        }
    }

    /// That text.
    pub fn text(value: String) -> Node
        ensures { result ≡ text (string_bytes value) }
    {
        let _text = value.as_str().len();
        Node {
            shape: Shape::Text(value),
            levels: 0,
            plain: true,
        }
    }

    /// That byte string, which has one level.
    pub fn bytes(value: Vec<u8>) -> Node
        ensures { result ≡ bytes value.items }
    {
        let _bytes = value.len();
        Node {
            shape: Shape::Bytes(value),
            levels: 1,
            plain: false,
        }
    }

    /// The list of these items. `TooDeep` exactly where an item has 128 levels, so that the
    /// list would have more; the items are then given up.
    pub fn list(items: Vec<Node>) -> Result<Node, TooDeep>
        ensures { MatchResult
            result
            (λ n. (n ≡ list (trees items.items)) × (depth n ≤ 128))
            (λ _. 128 < depth (list (trees items.items))) }
    {
        let _count = items.len();
        let most = greatest(items.as_slice());
        let plain = are_plain(items.as_slice());
        if most < 128 {
            Ok(Node {
                shape: Shape::List(items),
                levels: most + 1,
                plain,
            })
        } else {
            Err(TooDeep)
        }
    }

    /// The map of these entries, in order. `TooDeep` exactly where a key or value has 128
    /// levels, so that the map would have more; the entries are then given up.
    pub fn map(pairs: Vec<(Node, Node)>) -> Result<Node, TooDeep>
        ensures { MatchResult
            result
            (λ n. (n ≡ map (entries pairs.items)) × (depth n ≤ 128))
            (λ _. 128 < depth (map (entries pairs.items))) }
    {
        let _count = pairs.len();
        let most = greatest_entry(pairs.as_slice());
        let plain = are_plain_keyed(pairs.as_slice());
        if most < 128 {
            Ok(Node {
                shape: Shape::Map(pairs),
                levels: most + 1,
                plain,
            })
        } else {
            Err(TooDeep)
        }
    }

    /// The list of these items, which have at most 127 levels.
    pub(crate) fn shallow_list(items: Vec<Node>) -> Node
        requires { depth (list (trees items.items)) ≤ 128 }
        ensures { result ≡ list (trees items.items) }
    {
        match Node::list(items) {
            Ok(list) => list,
            Err(_) => unreachable!(),
        }
    }

    /// The map of these entries, in order, which have at most 127 levels.
    pub(crate) fn shallow_map(pairs: Vec<(Node, Node)>) -> Node
        requires { depth (map (entries pairs.items)) ≤ 128 }
        ensures { result ≡ map (entries pairs.items) }
    {
        match Node::map(pairs) {
            Ok(map) => map,
            Err(_) => unreachable!(),
        }
    }

    /// The tree of that document, which its copies share.
    pub(crate) fn kept(alloc: Global, kept: Kept) -> Result<Node, AllocError>
        ensures { IfOk result (λ n. n ≡ kept) }
    {
        prove!(kept.view().kind() == kept.view().kind());
        Ok(Node {
            shape: Shape::Kept(Arc::new(alloc, kept)?),
            levels: 0,
            plain: true,
        })
    }

    /// An equal tree: a list or map as a document, which is made of one made by hand, and which copies of it share.
    /// The one error is want of memory.
    pub fn copy(&self, alloc: Global) -> Result<Node, AllocError>
        ensures { IfOk result (λ n. n ≡ self.now) }
    {
        match &self.shape {
            Shape::Null => Ok(Node::null()),
            Shape::Bool(value) => Ok(Node::bool(*value)),
            Shape::Int(value) => Ok(Node::int(*value)),
            Shape::Text(value) => Ok(Node::text(String::from_str(alloc, value.as_str())?)),
            Shape::Bytes(value) => Ok(Node::bytes(Vec::from_slice(alloc, value.as_slice())?)),
            Shape::List(_) | Shape::Map(_) => {
                Node::kept(alloc, document_of(alloc, self)?.into_kept(alloc)?)
            }
            Shape::Kept(kept) => Ok(Node {
                shape: Shape::Kept(kept.clone()?),
                levels: self.levels,
                plain: self.plain,
            }),
        }
    }

    /// How many levels it has, at most 128.
    pub fn depth(&self) -> u8
        ensures levels { result ≡ depth self.now }
        ensures within { result ≤ 128 }
        ensures proper { IsProper self.now }
        ensures short { IsShort self.now }
    {
        match &self.shape {
            Shape::Kept(kept) => levels_of(kept.view()),
            _ => self.levels,
        }
    }

    /// Whether its keys are all texts and it has no byte string, so that JSON gives it back as it is.
    pub fn is_plain(&self) -> bool
        ensures { result ≡ foreign.is_plain self.now }
    {
        match &self.shape {
            Shape::Kept(kept) => foreign_in(kept.view()).is_none(),
            _ => self.plain,
        }
    }

    /// Its kind.
    pub fn kind(&self) -> Kind
        ensures value { result ≡ kind_of self.now }
        ensures shallow { depth self.now ≤ 128 }
        ensures proper { IsProper self.now }
        ensures short { IsShort self.now }
    {
        match &self.shape {
            Shape::Null => Kind::Null,
            Shape::Bool(_) => Kind::Bool,
            Shape::Int(_) => Kind::Int,
            Shape::Text(_) => Kind::Text,
            Shape::Bytes(_) => Kind::Bytes,
            Shape::List(_) => Kind::List,
            Shape::Map(_) => Kind::Map,
            Shape::Kept(kept) => kept.view().kind(),
        }
    }

    /// The truth value, where it is one.
    pub fn as_bool(&self) -> Option<bool>
        ensures { result ≡ truth_at self.now }
    {
        match &self.shape {
            Shape::Bool(value) => Some(*value),
            Shape::Kept(kept) => kept.view().as_bool(),
            _ => None,
        }
    }

    /// The number, where it is one.
    pub fn as_int(&self) -> Option<Whole>
        ensures { result ≡ int_at self.now }
    {
        match &self.shape {
            Shape::Int(value) => Some(*value),
            Shape::Kept(kept) => kept.view().as_int(),
            _ => None,
        }
    }

    /// The text, where it is one.
    pub fn as_text(&self) -> Option<&str>
        ensures { option_copied result ≡ text_at self.now }
    {
        match &self.shape {
            Shape::Text(value) => Some(value.as_str()),
            Shape::Kept(kept) => kept.view().as_text(),
            _ => None,
        }
    }

    /// The bytes, where it is a byte string.
    pub fn as_bytes(&self) -> Option<&[u8]>
        ensures { option_copied result ≡ bytes_at self.now }
    {
        match &self.shape {
            Shape::Bytes(value) => Some(value.as_slice()),
            Shape::Kept(kept) => kept.view().as_bytes(),
            _ => None,
        }
    }

    /// What it is, with its parts.
    pub fn content(&self) -> Content<'_>
        ensures { content_tree result ≡ self.now }
    {
        match &self.shape {
            Shape::Null => Content::Null,
            Shape::Bool(value) => Content::Bool(*value),
            Shape::Int(value) => Content::Int(*value),
            Shape::Text(value) => Content::Text(value.as_str()),
            Shape::Bytes(value) => Content::Bytes(value.as_slice()),
            Shape::List(items) => Content::List(items.as_slice()),
            Shape::Map(entries) => Content::Map(entries.as_slice()),
            Shape::Kept(kept) => Content::Document(kept.view()),
        }
    }
}

/// The most levels that one of these has.
fn greatest(items: &[Node]) -> u8
    ensures levels { result ≡ trees_depth (trees items.now) }
    ensures within { result ≤ 128 }
    ensures proper { AreProper (trees items.now) }
    ensures short { AreShort (trees items.now) }
{
    let mut most = 0;
    for item in items {
        most = most.max(item.depth());
    }
    most
}

/// The most levels that a key or value has.
fn greatest_entry(items: &[(Node, Node)]) -> u8
    ensures levels { result ≡ entries_depth (entries items.now) }
    ensures within { result ≤ 128 }
    ensures proper { AreProperEntries (entries items.now) }
    ensures short { AreShortEntries (entries items.now) }
{
    let mut most = 0;
    for (key, value) in items {
        most = most.max(key.depth()).max(value.depth());
    }
    most
}

/// Whether all of these are plain.
fn are_plain(items: &[Node]) -> bool
    ensures { result ≡ foreign.are_plain (trees items.now) }
{
    for item in items {
        if !item.is_plain() {
            return false;
        }
    }
    true
}

/// Whether all of these keys are texts, and their values plain.
fn are_plain_keyed(pairs: &[(Node, Node)]) -> bool
    ensures { result ≡ foreign.are_plain_keyed (entries pairs.now) }
{
    for (key, value) in pairs {
        if !is_text(key) || !value.is_plain() {
            return false;
        }
    }
    true
}

fn is_text(node: &Node) -> bool
    ensures { result ≡ foreign.is_text node.now }
{
    node.kind() == Kind::Text
}
