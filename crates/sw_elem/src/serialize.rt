use std::alloc::Global;
use sw_tree::builds::Builds;
use sw_tree::fail::{DeFail, SerFail};
use sw_tree::meant::Meant;
use sw_tree::mode::Mode;
use sw_tree::node::Node;
use sw_tree::node_builder::NodeBuilder;
use sw_tree::skipped::Skipped;
use sw_tree::view::View;

/// A type that writes itself, in place of serde's `Serialize`.
///
/// It names the tree of each meaning in each mode, or why it isn't written.
pub trait Serialize: Meant {
    ghost use Rattle.sw_elem.specs.Equations.{Writes};
    ghost use Rattle.sw_elem.specs.Answers.{IsWritten};
    ghost use Rattle.sw_tree.specs.Building.{IsPut};

    ghost writes: { Writes };

    /// Puts the value's tree in that mode into what is built. `Unwritable` exactly where the value has none, with
    /// its reason; nothing is said then of what is built.
    fn write<B: Builds>(&self, alloc: Global, out: &mut B, mode: Mode) -> Result<(), SerFail>
        ensures { IsPut B.put result (writes mode (Self.meaning self.now)) out.old out.new };

    /// The value's tree in that mode. `Unwritable` exactly where the value has none, with its reason.
    fn serialize(&self, alloc: Global, mode: Mode) -> Result<Node, SerFail>
        ensures { IsWritten result (writes mode (Self.meaning self.now)) }
    {
        let mut builder = NodeBuilder::new(alloc);
        self.write(alloc, &mut builder, mode)?;
        match builder.finish() {
            Some(node) => Ok(node),
            None => Err(SerFail::Memory),
        }
    }
}

/// A type that reads itself, in place of serde's `Deserialize`.
///
/// It names, in each mode, the meaning of each tree or why it is refused, and the number of the
/// refused node, from 0 in preorder, a key before its value; and the refusals that are passed over.
pub trait Deserialize: Meant + Sized {
    ghost use Rattle.std.specs.Prelude.{◌≡◌, Bool, true};
    ghost use Rattle.sw_tree.specs.Placed.{placed, placed_notes};
    ghost use Rattle.sw_tree.specs.Inner.View.{seen, tree_of};
    ghost use Rattle.sw_elem.specs.Equations.{Reads, Spots, Skips, LawfulReading};
    ghost use Rattle.sw_elem.specs.Answers.{IsRead, IsLogged, ReadsFreely};

    /// Whether reading takes no memory.
    const FREE: bool;

    ghost FREE: { Bool };

    ghost reads: { Reads };

    ghost spot: { Spots };

    ghost skips: { Skips };

    /// The value of the view's tree in that mode. `Refused` exactly where the tree has none, with its
    /// reason and the place of the refused node; `Memory` only where `FREE` is false.
    ///
    /// The log gains the refusals that were passed over, in reading order, each at its place. After
    /// `Memory` it has gained the first of them alone, or all.
    fn deserialize(
        alloc: Global,
        view: View<'_>,
        mode: Mode,
        log: &mut Skipped,
    ) -> Result<Self, DeFail>
        ensures answer { IsRead Self.meaning result (placed (reads mode) (spot mode) (seen view.entry)) }
        ensures logs { IsLogged result log.old (placed_notes (seen view.entry) (skips mode (tree_of view.entry))) log.new }
        ensures free { FREE ≡ true → ReadsFreely result };

    ghost lawful_reading: { LawfulReading Self.is_meaning reads spot };
}
