use crate::builds::Builds;
use crate::doc::Doc;
use crate::fail::{PrintError, WireError};
use crate::mode::WireKind;
use crate::node::Node;
use std::alloc::{AllocError, Global};

/// A way to spell trees in bytes.
///
/// It names its grammar: which raw tree given bytes spell, one at most; and the one text of an image.
/// What bytes are read as follows from the grammar, and what a tree prints as from the text.
///
/// Its writer is what a value is put straight into.
pub trait Wire {
    ghost use Rattle.std.specs.Prelude.{◌≡◌, IfOk};
    ghost use Rattle.sw_tree.specs.Short.{IsShort};
    ghost use Rattle.sw_tree.specs.Tree.{Tree};
    ghost use Rattle.sw_tree.specs.declared.mode.WireKind.{WireKind};
    ghost use Rattle.sw_tree.specs.Wires.{Grammar, Spelled, Texts, printed, IsFound, IsPrinted, IsGrammar, PrintsImages};

    /// The wire's name.
    const ID: WireKind;

    ghost ID: { WireKind };

    ghost spells: { Grammar };

    ghost spelled: { Spelled };

    ghost text: { Texts };

    /// What a tree is put into, to be printed.
    type Writer: Builds + Drop;

    ghost fresh: { Self.Writer };

    /// The document of the tree that the bytes spell.
    ///
    /// `Syntax` exactly where the bytes spell no raw tree, decided over all of them. Otherwise `NotWhole` or
    /// `TooDeep` exactly where that is the first fault of the raw tree, in order of place.
    fn read_tree<'de>(alloc: Global, bytes: &'de [u8]) -> Result<Doc<'de>, WireError>
        ensures { IsFound result (spelled bytes.entry.now) };

    /// The text of the tree's image. `Key` exactly where some key has no image, which is never on the compact wire.
    fn print(alloc: Global, node: &Node) -> Result<Vec<u8>, PrintError>
        ensures { IsPrinted result (printed ID text node.now) };

    /// A writer with nothing put in. That its text will have so many bytes is advice.
    fn writer(alloc: Global, bytes: usize) -> Result<Self::Writer, AllocError>
        ensures { IfOk result (λ w. w ≡ fresh) };

    /// The text of the tree that was put into a fresh writer, as `print` answers it. A tree whose text is there
    /// is short.
    fn finish(alloc: Global, writer: Self::Writer) -> Result<Vec<u8>, PrintError>
        ensures text { (t : Tree) → writer ≡ Self.Writer.put t fresh → IsPrinted result (printed ID text t) }
        ensures short { (t : Tree) → writer ≡ Self.Writer.put t fresh → IfOk result (λ _. IsShort t) };

    /// What bytes are read as is what the grammar says.
    ghost grammar: { IsGrammar spells spelled };

    /// The text of the image of a node's tree spells the image.
    ghost prints_images: { PrintsImages ID spelled text };
}
