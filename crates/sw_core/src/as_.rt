ghost use Rattle.std.specs.Prelude.{◌≡◌, ◌≢◌, ◌≤◌, true, Ok, Err, IfOk};
ghost use Rattle.sw_tree.specs.Placed.{placed, placed_notes};
ghost use Rattle.sw_tree.specs.Inner.View.{seen, tree_of};
ghost use Rattle.sw_tree.specs.Mode.{plain};
ghost use Rattle.sw_tree.specs.Tree.{Tree};
ghost use Rattle.sw_tree.specs.Short.{IsShort};
ghost use Rattle.sw_core.specs.Inner.Printing.{IsPrintedAs, printed_as};
ghost use Rattle.sw_tree.specs.declared.fail.SerError.TheVariants.{Key};
ghost use Rattle.sw_check.specs.Grade.{grade};
ghost use Rattle.sw_check.specs.declared.grade.Grade.TheVariants.{Exact};
ghost use Rattle.sw_elem.specs.Answers.{IsWritten, IsRead, IsLogged, ReadsFreely};
ghost use Rattle.sw_core.specs.Recoding.{answer, skipped, IsRecoded, IsNoted};
ghost use Rattle.sw_core.specs.Again.{SpellsImage, ReadsAgain};
ghost use Rattle.sw_core.specs.declared.recode.RecodeError.TheVariants.{Unwritable};

use crate::adapter::{Adapter, DeserializeAs, SerializeAs};
use crate::recode::RecodeError;
use crate::token::Faithful;
use std::alloc::Global;
use std::marker::PhantomData;
use sw_tree::fail::{DeFail, PrintError, SerError, SerFail};
use sw_tree::meant::Meant;
use sw_tree::mode::Mode;
use sw_tree::node::Node;
use sw_tree::skipped::Skipped;
use sw_tree::view::View;
use sw_tree::wire::Wire;

/// The calls of a nest `A`, as serde_with's `As`. It has no values.
pub struct As<A> {
    adapter: PhantomData<A>,
}

impl<A> As<A> {
    /// The value's tree, as `A::serialize_as` answers.
    pub fn serialize<T: Meant>(alloc: Global, value: &T, mode: Mode) -> Result<Node, SerFail>
    where
        A: SerializeAs<T>,
        ensures { IsWritten result (A.writes mode (T.meaning value.now)) }
    {
        A::serialize_as(alloc, value, mode)
    }

    /// The value of the view's tree, as `A::deserialize_as` answers. Its meaning is one of the type's.
    pub fn deserialize<T: Meant>(
        alloc: Global,
        view: View<'_>,
        mode: Mode,
        log: &mut Skipped,
    ) -> Result<T, DeFail>
    where
        A: DeserializeAs<T>,
        ensures answer { IsRead T.meaning result (placed (A.reads mode) (A.spot mode) (seen view.entry)) }
        ensures logs { IsLogged result log.old (placed_notes (seen view.entry) (A.skips mode (tree_of view.entry))) log.new }
        ensures free { A.FREE ≡ true → ReadsFreely result }
        ensures meant { IfOk result (λ x. T.is_meaning (T.meaning x)) }
    {
        let _kind = view.kind();
        A::deserialize_as(alloc, view, mode, log)
    }

    /// The value that the bytes mean, and the text that it is written as.
    ///
    /// These bytes spell the image of the tree that `A` writes for the value. With the token that image is read as the
    /// norm of the value; where the token's grade is `Exact`, as the value itself, and these bytes, recoded, give the same value
    /// and the same bytes, or want of memory. What is said of reading holds under what `A` assumes.
    ///
    /// In this order: `Syntax`, `NotWhole` or `TooDeep`, exactly where the bytes spell no tree of `W`, for that
    /// reason; `Refused`, exactly where `A` refuses the tree, with its reason and the place of the refused node;
    /// `Unwritable`, exactly where `A` doesn't write the value, with its reason, which is never `Key`.
    /// `Memory` may come at any step.
    ///
    /// An error of the wire leaves the log. Else it gains the refusals that `A` passed over while it
    /// read; after `Memory` it has gained the first of them alone, or all.
    pub fn recode<T: Meant, W: Wire>(
        alloc: Global,
        token: &Faithful<A, T, W>,
        log: &mut Skipped,
        bytes: &[u8],
    ) -> Result<(T, Vec<u8>), RecodeError>
    where
        A: Adapter<T>,
        ensures answers { IsRecoded T.meaning result (answer A.reads A.spot A.writes W.ID W.spelled W.text bytes.now) }
        ensures logs { IsNoted result log.old (skipped A.skips W.ID W.spelled bytes.now) log.new }
        ensures spells { IfOk result (λ p. SpellsImage A.writes W.ID W.spelled p.1.items (T.meaning p.0)) }
        ensures again { A.assumes
            → IfOk result (λ p. ReadsAgain A.writes A.reads W.ID W.spelled p.1.items (T.meaning p.0) (A.norm (plain W.ID) (T.meaning p.0))) }
        ensures same { A.assumes → grade A.expr (plain W.ID) ≡ Exact
            → IfOk result (λ p. ReadsAgain A.writes A.reads W.ID W.spelled p.1.items (T.meaning p.0) (T.meaning p.0)) }
        ensures settled { A.assumes → grade A.expr (plain W.ID) ≡ Exact
            → IfOk result (λ p. answer A.reads A.spot A.writes W.ID W.spelled W.text p.1.items ≡ Ok (T.meaning p.0, p.1.items)) }
        ensures never_key { result ≢ Err (Unwritable Key) }
    {
        let mode = Mode::plain(W::ID);
        let room = bytes.len();
        let doc = W::read_tree(alloc, bytes)?;
        let value = As::<A>::deserialize::<T>(alloc, doc.view(), mode, log)?;
        drop(doc);
        let text = text_of::<T, A, W>(alloc, room, &value, mode)?;
        Ok((value, text))
    }
}

/// The text of the value on the wire, by `A`, whose own refusals come first; `Key` too where its tree has a key without
/// an image. Room for about so many bytes is taken first.
fn text_of<T: Meant, A: SerializeAs<T>, W: Wire>(
    alloc: Global,
    room: usize,
    value: &T,
    mode: Mode,
) -> Result<Vec<u8>, SerFail>
    ensures text { IsPrintedAs result (printed_as W.ID W.text (A.writes mode (T.meaning value.now))) }
    ensures short { IfOk result (λ _. (t : Tree) → A.writes mode (T.meaning value.now) ≡ Ok t → IsShort t) }
{
    let Ok(mut writer) = W::writer(alloc, room) else {
        return Err(SerFail::Memory);
    };
    A::write_as(alloc, &mut writer, value, mode)?;
    finished::<W>(alloc, writer)
}

/// What finishing a text answers.
fn finished<W: Wire>(alloc: Global, writer: W::Writer) -> Result<Vec<u8>, SerFail>
    ensures text { (t : Tree) → writer ≡ W.Writer.put t W.fresh → IsPrintedAs result (printed_as W.ID W.text (Ok t)) }
    ensures short { (t : Tree) → writer ≡ W.Writer.put t W.fresh → IfOk result (λ _. IsShort t) }
{
    match W::finish(alloc, writer) {
        Ok(text) => Ok(text),
        Err(PrintError::Key) => Err(SerFail::Unwritable(SerError::Key)),
        Err(PrintError::Memory) => Err(SerFail::Memory),
    }
}
