use crate::node::Node;
use crate::view::View;
use crate::whole::Whole;

/// What a node is, with its parts.
#[derive(Clone, Copy)]
pub enum Content<'a> {
    Null,
    Bool(bool),
    Int(Whole),
    Text(&'a str),
    Bytes(&'a [u8]),
    /// A list's items in order.
    List(&'a [Node]),
    /// A map's entries in order, each a key and its value.
    Map(&'a [(Node, Node)]),
    /// The root of the document that the node is kept as.
    Document(View<'a>),
}
