#![tactic(auto, using(crate::proofs::Turning::turning))]

ghost use Rattle.std.specs.Prelude.{◌≡◌, ◌∷◌, ◌++◌, [], IfOk, Ok, false, true};
ghost use Rattle.sw_tree.specs.Tree.{turns};
ghost use Rattle.sw_tree.specs.Builder.{built_tree};
ghost use Rattle.sw_tree.specs.Building.{within, IsBuilt, IsMade};

use crate::builds::Builds;
use crate::fail::{SerError, SerFail};
use crate::node::Node;
use crate::whole::Whole;
use itoa::Buffer;
use std::alloc::{AllocError, Global};
use std::marker::Model;
use std::mem;

/// An open list or map with its finished children, a map's keys and values by turns.
#[derive(Drop)]
struct Part {
    is_map: bool,
    children: Vec<Node>,
}

/// Nodes that are built part by part.
#[derive(Drop)]
pub struct NodeBuilder {
    alloc: Global,
    top: Part,
    outer: Vec<Part>,
}

impl Model for NodeBuilder {
    ghost use Rattle.std.specs.Prelude.{reverse, map};
    ghost use Rattle.sw_tree.specs.NodeBuilder.{Nodes};
    ghost use Rattle.sw_tree.specs.Inner.NodeBuilder.{coded_nodes};

    ghost Value = { Nodes };

    ghost coded = { coded_nodes };

    ghost view = { λ b. record { top = record { is_map = b.top.is_map; children = b.top.children.items }; outer = map (λ f. record { is_map = f.is_map; children = f.children.items }) (reverse b.outer.items) } };
}

/// The keys and values as entries.
fn paired(alloc: Global, children: Vec<Node>) -> Result<Vec<(Node, Node)>, AllocError>
    ensures { IfOk result (λ es. es.items ≡ turns children.items) }
{
    let mut entries = Vec::with_capacity(alloc, children.len() / 2)?;
    let mut waiting: Option<Node> = None;
    for child in children {
        match waiting {
            None => waiting = Some(child),
            Some(key) => {
                entries.push((key, child))?;
                waiting = None;
            }
        }
    }
    Ok(entries)
}

/// The node of these children.
fn node_of(alloc: Global, is_map: bool, children: Vec<Node>) -> Result<Node, SerFail>
    ensures { IsMade result (within (built_tree is_map children.items)) }
{
    if is_map {
        let Ok(entries) = paired(alloc, children) else {
            return Err(SerFail::Memory);
        };
        match Node::map(entries) {
            Ok(node) => Ok(node),
            Err(_) => Err(SerFail::Unwritable(SerError::TooDeep)),
        }
    } else {
        match Node::list(children) {
            Ok(node) => Ok(node),
            Err(_) => Err(SerFail::Unwritable(SerError::TooDeep)),
        }
    }
}

/// Adds a node.
fn push(children: &mut Vec<Node>, node: Node) -> Result<(), SerFail>
    ensures { IsBuilt result (Ok (children.old.items ++ node ∷ [])) children.new.items }
{
    if children.push(node).is_err() {
        return Err(SerFail::Memory);
    }
    Ok(())
}

impl NodeBuilder {
    ghost use Rattle.std.specs.Prelude.{Some};
    ghost use Rattle.sw_tree.specs.Tree.{Tree};
    ghost use Rattle.sw_tree.specs.NodeBuilder.{fresh, opened, put};

    /// Nothing open and no root.
    pub fn new(alloc: Global) -> NodeBuilder
        ensures { result ≡ fresh }
    {
        NodeBuilder {
            alloc,
            top: Part {
                is_map: false,
                children: Vec::new(alloc),
            },
            outer: Vec::new(alloc),
        }
    }

    fn open(&mut self, is_map: bool, parts: usize) -> Result<(), SerFail>
        ensures { IsBuilt result (Ok (opened is_map self.old)) self.new }
    {
        let Ok(children) = Vec::with_capacity(self.alloc, parts) else {
            return Err(SerFail::Memory);
        };
        let around = mem::replace(&mut self.top, Part { is_map, children });
        if self.outer.push(around).is_err() {
            return Err(SerFail::Memory);
        }
        Ok(())
    }

    /// The node that was put into a fresh builder.
    pub fn finish(self) -> Option<Node>
        ensures { (t : Tree) → self ≡ put t fresh → result ≡ Some t }
    {
        let mut children = self.top.children;
        children.pop()
    }
}

impl Builds for NodeBuilder {
    ghost use Rattle.sw_tree.specs.NodeBuilder.{put, opened, closed};
    ghost use Rattle.sw_tree.specs.Laws.NodeBuilder.{lists, maps};

    ghost put = { put };

    ghost opened = { opened };

    ghost closed = { closed };

    fn null(&mut self) -> Result<(), SerFail> {
        push(&mut self.top.children, Node::null())
    }

    fn bool(&mut self, value: bool) -> Result<(), SerFail> {
        push(&mut self.top.children, Node::bool(value))
    }

    fn int(&mut self, value: Whole) -> Result<(), SerFail> {
        push(&mut self.top.children, Node::int(value))
    }

    fn int_text(&mut self, value: Whole) -> Result<(), SerFail> {
        let mut digits = Buffer::new();
        self.text(value.format(&mut digits))
    }

    fn text(&mut self, value: &str) -> Result<(), SerFail> {
        let Ok(text) = String::from_str(self.alloc, value) else {
            return Err(SerFail::Memory);
        };
        push(&mut self.top.children, Node::text(text))
    }

    fn bytes(&mut self, value: &[u8]) -> Result<(), SerFail> {
        let Ok(bytes) = Vec::from_slice(self.alloc, value) else {
            return Err(SerFail::Memory);
        };
        push(&mut self.top.children, Node::bytes(bytes))
    }

    /// A copy of a document that is kept is the document, so a node is taken whole.
    fn whole(&mut self, value: &Node) -> Result<bool, SerFail> {
        let Ok(copy) = value.copy(self.alloc) else {
            return Err(SerFail::Memory);
        };
        push(&mut self.top.children, copy)?;
        Ok(true)
    }

    fn open_list(&mut self, items: usize) -> Result<(), SerFail> {
        self.open(false, items)
    }

    fn open_map(&mut self, entries: usize) -> Result<(), SerFail> {
        self.open(true, entries)
    }

    fn close(&mut self) -> Result<(), SerFail> {
        let Some(around) = self.outer.pop() else {
            return Ok(());
        };
        let inner = mem::replace(&mut self.top, around);
        let node = node_of(self.alloc, inner.is_map, inner.children)?;
        push(&mut self.top.children, node)
    }

    ghost lists = { lists };

    ghost maps = { maps };
}
