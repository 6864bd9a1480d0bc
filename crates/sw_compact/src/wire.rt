use crate::print::print_by;
use crate::reader::{read_by, read_either};
use crate::version::Version;
use crate::writer::CompactWriter;
use std::alloc::{AllocError, Global};
use sw_tree::doc::Doc;
use sw_tree::fail::{PrintError, WireError};
use sw_tree::mode::WireKind;
use sw_tree::node::Node;
use sw_tree::wire::Wire;

/// The compact wire: it reads texts of both versions, and prints version 2.
#[derive(PartialEq, Eq, PartialOrd, Ord, Hash)]
pub struct CompactWire;

/// The compact wire in version 1 alone.
#[derive(PartialEq, Eq, PartialOrd, Ord, Hash)]
pub struct CompactWire1;

impl Wire for CompactWire {
    ghost use Rattle.std.specs.Prelude.{◌≡◌, IfOk, IfErr};
    ghost use Rattle.sw_tree.specs.Wires.{IsFound, IsPrinted, SpellsTree, IsRefused, printed};
    ghost use Rattle.sw_tree.specs.declared.mode.WireKind.TheVariants.{Compact};
    ghost use Rattle.sw_compact.specs.Spelled.{spells, spelled, text2};
    ghost use Rattle.sw_compact.specs.Inner.Written.{fresh};
    ghost use Rattle.sw_compact.specs.Laws.Grammar.{grammar, prints_images};
    ghost use Rattle.sw_compact.specs.declared.version.Version.TheVariants.{Two};

    const ID: WireKind = WireKind::Compact;

    ghost ID = { Compact };

    ghost spells = { spells };

    ghost spelled = { spelled };

    ghost text = { text2 };

    type Writer = CompactWriter;

    ghost fresh = { fresh Two };

    ghost grammar = { grammar };

    ghost prints_images = { prints_images };

    /// The document of the tree that the bytes spell in either version, whose texts and byte strings are
    /// parts of the bytes: `side_len` is 0.
    ///
    /// `Syntax` where the bytes are no text of either version. Otherwise `TooDeep` at the first node, a byte
    /// string, list or map, that opens a 129th level. `NotWhole` never comes. `Memory` may come in place of any
    /// answer.
    fn read_tree<'de>(alloc: Global, bytes: &'de [u8]) -> Result<Doc<'de>, WireError>
        ensures found { IsFound result (spelled bytes.entry.now) }
        ensures tree { IfOk result (λ d. SpellsTree spells bytes.entry.now d.tree) }
        ensures refused { IfErr result (IsRefused spells bytes.entry.now) }
        ensures side { IfOk result (λ d. d.side_len ≡ 0) }
    {
        read_either(alloc, bytes)
    }

    /// The text of version 2 of the node's tree; the one refusal is `Memory`.
    fn print(alloc: Global, node: &Node) -> Result<Vec<u8>, PrintError>
        ensures { IsPrinted result (printed Compact text2 node.now) }
    {
        print_by(alloc, Version::Two, node)
    }

    /// A writer of a text of version 2 with nothing put in, and room for so many bytes.
    fn writer(alloc: Global, bytes: usize) -> Result<CompactWriter, AllocError> {
        CompactWriter::new(alloc, Version::Two, bytes)
    }

    /// The text of the tree that was put in, as `print` answers it.
    fn finish(_alloc: Global, writer: CompactWriter) -> Result<Vec<u8>, PrintError> {
        writer.finish()
    }
}

impl Wire for CompactWire1 {
    ghost use Rattle.std.specs.Prelude.{◌≡◌, IfOk, IfErr};
    ghost use Rattle.sw_tree.specs.Wires.{IsFound, IsPrinted, SpellsTree, IsRefused, printed};
    ghost use Rattle.sw_tree.specs.declared.mode.WireKind.TheVariants.{Compact};
    ghost use Rattle.sw_compact.specs.Spelled.{spells1, spelled1, text1};
    ghost use Rattle.sw_compact.specs.Inner.Written.{fresh};
    ghost use Rattle.sw_compact.specs.Laws.Grammar.{grammar1, prints_images1};
    ghost use Rattle.sw_compact.specs.declared.version.Version.TheVariants.{One};

    const ID: WireKind = WireKind::Compact;

    ghost ID = { Compact };

    ghost spells = { spells1 };

    ghost spelled = { spelled1 };

    ghost text = { text1 };

    type Writer = CompactWriter;

    ghost fresh = { fresh One };

    ghost grammar = { grammar1 };

    ghost prints_images = { prints_images1 };

    /// The document of the tree that the bytes spell in version 1, whose texts and byte strings are parts of the
    /// bytes: `side_len` is 0.
    ///
    /// `Syntax` where the bytes are no text of version 1. Otherwise `TooDeep` at the first node, a byte
    /// string, list or map, that opens a 129th level. `NotWhole` never comes. `Memory` may come in place of any
    /// answer.
    fn read_tree<'de>(alloc: Global, bytes: &'de [u8]) -> Result<Doc<'de>, WireError>
        ensures found { IsFound result (spelled1 bytes.entry.now) }
        ensures tree { IfOk result (λ d. SpellsTree spells1 bytes.entry.now d.tree) }
        ensures refused { IfErr result (IsRefused spells1 bytes.entry.now) }
        ensures side { IfOk result (λ d. d.side_len ≡ 0) }
    {
        read_by(alloc, Version::One, bytes, bytes)
    }

    /// The text of version 1 of the node's tree; the one refusal is `Memory`.
    fn print(alloc: Global, node: &Node) -> Result<Vec<u8>, PrintError>
        ensures { IsPrinted result (printed Compact text1 node.now) }
    {
        print_by(alloc, Version::One, node)
    }

    /// A writer of a text of version 1 with nothing put in, and room for so many bytes.
    fn writer(alloc: Global, bytes: usize) -> Result<CompactWriter, AllocError> {
        CompactWriter::new(alloc, Version::One, bytes)
    }

    /// The text of the tree that was put in, as `print` answers it.
    fn finish(_alloc: Global, writer: CompactWriter) -> Result<Vec<u8>, PrintError> {
        writer.finish()
    }
}
