use std::alloc::{AllocError, Global};
use sw_check::expr::Expr;
use sw_tree::builds::Builds;
use sw_tree::fail::{DeFail, SerFail};
use sw_tree::meant::Meant;
use sw_tree::mode::Mode;
use sw_tree::node::Node;
use sw_tree::node_builder::NodeBuilder;
use sw_tree::skipped::Skipped;
use sw_tree::view::View;

/// Writes a `T`, in place of serde_with's `SerializeAs`.
///
/// It names the tree of each meaning in each mode, or why it isn't written.
pub trait SerializeAs<T: Meant> {
    ghost use Rattle.sw_elem.specs.Equations.{Writes};
    ghost use Rattle.sw_tree.specs.Building.{IsPut};
    ghost use Rattle.sw_elem.specs.Answers.{IsWritten};

    ghost writes: { Writes };

    /// Puts the value's tree in that mode into what is built. `Unwritable` exactly where the value
    /// has none, with its reason; nothing is said then of what is built.
    fn write_as<B: Builds>(
        alloc: Global,
        out: &mut B,
        source: &T,
        mode: Mode,
    ) -> Result<(), SerFail>
        ensures { IsPut B.put result (writes mode (T.meaning source.now)) out.old out.new };

    /// The value's tree in that mode. `Unwritable` exactly where the value has none, with its reason.
    fn serialize_as(alloc: Global, source: &T, mode: Mode) -> Result<Node, SerFail>
        ensures { IsWritten result (writes mode (T.meaning source.now)) }
    {
        let mut builder = NodeBuilder::new(alloc);
        Self::write_as(alloc, &mut builder, source, mode)?;
        match builder.finish() {
            Some(node) => Ok(node),
            None => Err(SerFail::Memory),
        }
    }
}

/// Reads a `T`, in place of serde_with's `DeserializeAs`.
///
/// It names, in each mode, the meaning of each tree or why it is refused; the number of the refused
/// node, from 0 in preorder, a key before its value; and the refusals that are passed over.
pub trait DeserializeAs<T: Meant>: Sized {
    ghost use Rattle.std.specs.Prelude.{◌≡◌, Bool, true};
    ghost use Rattle.sw_tree.specs.Placed.{placed, placed_notes};
    ghost use Rattle.sw_tree.specs.Inner.View.{seen, tree_of};
    ghost use Rattle.sw_elem.specs.Equations.{Reads, Spots, Skips, LawfulReading};
    ghost use Rattle.sw_elem.specs.Answers.{IsRead, IsLogged, ReadsFreely};

    /// Whether reading takes no memory.
    const FREE: bool;

    ghost FREE: { Bool };

    ghost reads: { Reads };

    ghost spot: { Spots };

    ghost skips: { Skips };

    /// The value of the view's tree in that mode. `Refused` exactly where the tree has none, with its
    /// reason and the place of the refused node; `Memory` only where `FREE` is false.
    ///
    /// The log gains the refusals that were passed over, in reading order, each at its place. After
    /// `Memory` it has gained the first of them alone, or all.
    fn deserialize_as(
        alloc: Global,
        view: View<'_>,
        mode: Mode,
        log: &mut Skipped,
    ) -> Result<T, DeFail>
        ensures answer { IsRead T.meaning result (placed (reads mode) (spot mode) (seen view.entry)) }
        ensures logs { IsLogged result log.old (placed_notes (seen view.entry) (skips mode (tree_of view.entry))) log.new }
        ensures free { FREE ≡ true → ReadsFreely result };

    ghost lawful_reading: { LawfulReading T.is_meaning reads spot };
}

/// A nest whose values, once written, read back where its expression is sound.
///
/// It names its expression; the norm, which is what reading back gives of a value; and what it
/// assumes. Its laws follow from those of its parts.
pub trait Adapter<T: Meant>: SerializeAs<T> + DeserializeAs<T> {
    ghost use Rattle.std.specs.Prelude.{◌≡◌, IfOk};
    ghost use Rattle.sw_check.specs.Form.{Form};
    ghost use Rattle.sw_elem.specs.Statements.{Norm};
    ghost use Rattle.sw_elem.specs.Lawful.{Lawful};

    ghost expr: { Form };

    ghost norm: { Norm };

    ghost assumes: { Type 0 };

    /// The nest's expression. The one error is want of memory.
    fn describe(alloc: Global) -> Result<Expr, AllocError>
        ensures { IfOk result (λ e. e ≡ expr) };

    ghost keeps: { Lawful T.is_meaning Self.writes Self.reads Self.spot Self.skips expr norm assumes };
}
