use crate::writer::TextWriter;
use crate::{print, reader};
use std::alloc::{AllocError, Global};
use sw_tree::doc::Doc;
use sw_tree::fail::{PrintError, WireError};
use sw_tree::mode::WireKind;
use sw_tree::node::Node;
use sw_tree::wire::Wire;

/// The JSON wire.
#[derive(PartialEq, Eq, PartialOrd, Ord, Hash)]
pub struct JsonWire;

impl Wire for JsonWire {
    ghost use Rattle.std.specs.Prelude.{◌≡◌, IfOk, IfErr};
    ghost use Rattle.sw_tree.specs.Wires.{IsFound, IsPrinted, SpellsTree, IsRefused, printed};
    ghost use Rattle.sw_tree.specs.declared.mode.WireKind.TheVariants.{Json};
    ghost use Rattle.sw_json.specs.Spelled.{spells, spelled, HasEscaped};
    ghost use Rattle.sw_json.specs.Text.{image_text};
    ghost use Rattle.sw_json.specs.Inner.Written.{fresh};
    ghost use Rattle.sw_json.specs.Laws.Completion.{grammar};
    ghost use Rattle.sw_json.specs.Laws.PrintedImages.{prints_images};

    const ID: WireKind = WireKind::Json;

    ghost ID = { Json };

    ghost spells = { spells };

    ghost spelled = { spelled };

    ghost text = { image_text };

    type Writer = TextWriter;

    ghost fresh = { fresh };

    ghost grammar = { grammar };

    ghost prints_images = { prints_images };

    /// The document of the tree that the bytes spell by RFC 8259. An entry stays where its
    /// key comes again. `side_len` is how long the texts that are spelled with an escape are
    /// together, names included.
    ///
    /// `Syntax` where the bytes spell no raw tree. Otherwise, where the raw tree has faults,
    /// the first of them: `NotWhole` at a number that has a fraction or an exponent, is
    /// minus zero, or isn't from -2^127 to 2^128 - 1; `TooDeep` at a list or map that opens
    /// a 129th level. `Memory` may come in place of any answer.
    fn read_tree<'de>(alloc: Global, bytes: &'de [u8]) -> Result<Doc<'de>, WireError>
        ensures found { IsFound result (spelled bytes.entry.now) }
        ensures tree { IfOk result (λ d. SpellsTree spells bytes.entry.now d.tree) }
        ensures refused { IfErr result (IsRefused spells bytes.entry.now) }
        ensures side { IfOk result (λ d. HasEscaped bytes.entry.now d.side_len) }
    {
        reader::read_tree(alloc, bytes)
    }

    /// The compact JSON text of the tree's image: no whitespace between tokens, numbers in
    /// decimal, and in texts an escape only for `"`, `\` and the characters below U+0020. In
    /// the image a byte string is the list of its numbers, and a key that is a number or a
    /// truth value is the text of it.
    ///
    /// `Key` exactly where some key is null, a byte string, a list or a map.
    fn print(alloc: Global, node: &Node) -> Result<Vec<u8>, PrintError>
        ensures { IsPrinted result (printed Json image_text node.now) }
    {
        print::print(alloc, node)
    }

    /// A writer of compact JSON text with nothing put in, and room for so many bytes.
    fn writer(alloc: Global, bytes: usize) -> Result<TextWriter, AllocError> {
        TextWriter::new(alloc, bytes)
    }

    /// The text of the tree that was put in, as `print` answers it: `Key` exactly where some key
    /// is null, a byte string, a list or a map.
    #[tactic(auto, using(crate::proofs::Finishing::finishing))]
    fn finish(_alloc: Global, writer: TextWriter) -> Result<Vec<u8>, PrintError> {
        writer.finish()
    }
}
