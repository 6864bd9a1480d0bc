#![tactic(auto)]

ghost use Rattle.std.specs.Prelude.{◌≡◌, ◌&&◌, ◌++◌, cond, is_ok, [], true};
ghost use Rattle.sw_tree.specs.Placed.{placed, placed_notes};
ghost use Rattle.sw_tree.specs.Inner.View.{seen, tree_of};
ghost use Rattle.sw_elem.specs.Equations.{own_spot};
ghost use Rattle.sw_elem.specs.Answers.{IsRead, IsLogged, ReadsFreely};
ghost use Rattle.sw_policy.specs.Options.{or_later, first_read, tried_skips};
ghost use Rattle.sw_policy.specs.PickFirst.{pick_reads, pick_skips};
ghost use Rattle.sw_policy.specs.Inner.Chosen.{before, IsChosen, AreTried, ChoosesFreely};

use std::alloc::Global;
use sw_core::adapter::DeserializeAs;
use sw_elem::refuse::refused_at;
use sw_tree::fail::{DeError, DeFail, DeKind};
use sw_tree::meant::Meant;
use sw_tree::mode::Mode;
use sw_tree::skipped::Skipped;
use sw_tree::view::View;

/// Why no option reads a tree.
#[derive(Clone, Copy)]
pub(crate) enum NoOption {
    /// All are refused; the kinds of the refusals in order.
    Refused([Option<DeKind>; 4]),
    Memory,
}

/// Readers that are tried in order: a tuple of adapters.
pub(crate) trait Options<T: Meant> {
    ghost use Rattle.std.specs.Prelude.{◌≡◌, Bool, true, List};
    ghost use Rattle.sw_tree.specs.Placed.{placed_notes};
    ghost use Rattle.sw_tree.specs.Inner.View.{seen, tree_of};
    ghost use Rattle.sw_policy.specs.Options.{Reader, first_read, tried_skips};
    ghost use Rattle.sw_policy.specs.Inner.Chosen.{IsChosen, AreTried, ChoosesFreely};

    /// Whether no option takes memory.
    const FREE: bool;

    ghost FREE: { Bool };

    ghost options: { List Reader };

    /// The value of the first option that reads the view's tree. Want of memory of an option that is
    /// tried ends the choice.
    fn first(alloc: Global, view: View<'_>, mode: Mode, log: &mut Skipped) -> Result<T, NoOption>
        ensures answer { IsChosen T.meaning result (first_read options mode (tree_of view.entry)) }
        ensures logs { AreTried result log.old (placed_notes (seen view.entry) (tried_skips options mode (tree_of view.entry))) log.new }
        ensures free { FREE ≡ true → ChoosesFreely result };
}

/// The kinds of later refusals behind that of an earlier one.
fn behind(kind: DeKind, later: [Option<DeKind>; 4]) -> [Option<DeKind>; 4]
    ensures { result ≡ before kind later }
{
    let [second, third, fourth, _] = later;
    [Some(kind), second, third, fourth]
}

/// Tries `A`, and the options of `O` where `A` refuses.
fn first_or_later<T: Meant, A: DeserializeAs<T>, O: Options<T>>(
    alloc: Global,
    view: View<'_>,
    mode: Mode,
    log: &mut Skipped,
) -> Result<T, NoOption>
    ensures answer { IsChosen T.meaning result (or_later (A.reads mode (tree_of view.entry)) (first_read O.options mode (tree_of view.entry))) }
    ensures logs { AreTried result log.old (placed_notes (seen view.entry) (A.skips mode (tree_of view.entry) ++ cond (is_ok (A.reads mode (tree_of view.entry))) [] (tried_skips O.options mode (tree_of view.entry)))) log.new }
    ensures free { A.FREE && O.FREE ≡ true → ChoosesFreely result }
{
    let refused = match A::deserialize_as(alloc, view, mode, log) {
        Ok(value) => return Ok(value),
        Err(DeFail::Memory) => return Err(NoOption::Memory),
        Err(DeFail::Refused(refusal)) => refusal.error.kind(),
    };
    match O::first(alloc, view, mode, log) {
        Ok(value) => Ok(value),
        Err(NoOption::Memory) => Err(NoOption::Memory),
        Err(NoOption::Refused(later)) => Err(NoOption::Refused(behind(refused, later))),
    }
}

impl<T: Meant, A: DeserializeAs<T>> Options<T> for (A,) {
    ghost use Rattle.std.specs.Prelude.{[], ◌∷◌};
    ghost use Rattle.sw_policy.specs.Options.{reader};

    const FREE: bool = A::FREE;

    ghost FREE = { A.FREE };

    ghost options = { reader A.reads A.skips ∷ [] };

    fn first(alloc: Global, view: View<'_>, mode: Mode, log: &mut Skipped) -> Result<T, NoOption> {
        match A::deserialize_as(alloc, view, mode, log) {
            Ok(value) => Ok(value),
            Err(DeFail::Memory) => Err(NoOption::Memory),
            Err(DeFail::Refused(refusal)) => Err(NoOption::Refused([
                Some(refusal.error.kind()),
                None,
                None,
                None,
            ])),
        }
    }
}

impl<T: Meant, A: DeserializeAs<T>, B: DeserializeAs<T>> Options<T> for (A, B) {
    ghost use Rattle.std.specs.Prelude.{[], ◌∷◌, ◌&&◌};
    ghost use Rattle.sw_policy.specs.Options.{reader};

    const FREE: bool = A::FREE && B::FREE;

    ghost FREE = { A.FREE && B.FREE };

    ghost options = { reader A.reads A.skips ∷ reader B.reads B.skips ∷ [] };

    fn first(alloc: Global, view: View<'_>, mode: Mode, log: &mut Skipped) -> Result<T, NoOption> {
        first_or_later::<T, A, (B,)>(alloc, view, mode, log)
    }
}

impl<T: Meant, A: DeserializeAs<T>, B: DeserializeAs<T>, C: DeserializeAs<T>> Options<T>
    for (A, B, C) {
    ghost use Rattle.std.specs.Prelude.{[], ◌∷◌, ◌&&◌};
    ghost use Rattle.sw_policy.specs.Options.{reader};

    const FREE: bool = A::FREE && B::FREE && C::FREE;

    ghost FREE = { A.FREE && (B.FREE && C.FREE) };

    ghost options = { reader A.reads A.skips ∷ reader B.reads B.skips ∷ reader C.reads C.skips ∷ [] };

    fn first(alloc: Global, view: View<'_>, mode: Mode, log: &mut Skipped) -> Result<T, NoOption> {
        first_or_later::<T, A, (B, C)>(alloc, view, mode, log)
    }
}

impl<
    T: Meant,
    A: DeserializeAs<T>,
    B: DeserializeAs<T>,
    C: DeserializeAs<T>,
    D: DeserializeAs<T>,
> Options<T> for (A, B, C, D) {
    ghost use Rattle.std.specs.Prelude.{[], ◌∷◌, ◌&&◌};
    ghost use Rattle.sw_policy.specs.Options.{reader};

    const FREE: bool = A::FREE && B::FREE && C::FREE && D::FREE;

    ghost FREE = { A.FREE && (B.FREE && (C.FREE && D.FREE)) };

    ghost options = { reader A.reads A.skips ∷ reader B.reads B.skips ∷ reader C.reads C.skips ∷ reader D.reads D.skips ∷ [] };

    fn first(alloc: Global, view: View<'_>, mode: Mode, log: &mut Skipped) -> Result<T, NoOption> {
        first_or_later::<T, A, (B, C, D)>(alloc, view, mode, log)
    }
}

/// Reads the view's tree by the first option that reads it as one that was set aside, else refuses the
/// node itself as `NoVariant`.
pub(crate) fn choose<T: Meant, O: Options<T>>(
    alloc: Global,
    view: View<'_>,
    mode: Mode,
    log: &mut Skipped,
) -> Result<T, DeFail>
    ensures answer { IsRead T.meaning result (placed (pick_reads O.options mode) (own_spot mode) (seen view.entry)) }
    ensures logs { IsLogged result log.old (placed_notes (seen view.entry) (pick_skips O.options mode (tree_of view.entry))) log.new }
    ensures free { O.FREE ≡ true → ReadsFreely result }
{
    match O::first(alloc, view, mode.buffer(), log) {
        Ok(value) => Ok(value),
        Err(NoOption::Memory) => Err(DeFail::Memory),
        Err(NoOption::Refused(kinds)) => Err(refused_at(view, DeError::NoVariant(kinds))),
    }
}
