ghost use Rattle.sw_tree.specs.Mode.{plain};
ghost use Rattle.sw_check.specs.Blame.{blame};
ghost use Rattle.sw_core.specs.Faithful.{IsGiven};

use crate::adapter::Adapter;
use crate::token::Faithful;
use std::alloc::Global;
use sw_check::blame::CheckFail;
use sw_check::check;
use sw_tree::meant::Meant;
use sw_tree::mode::Mode;
use sw_tree::wire::Wire;

/// The token exactly where nothing is blamed in the expression of the nest `A` of `T`, in the plain mode of the
/// wire `W`. Else `Blame`: the first failing subexpression in preorder, and the rule that fails there.
/// `Memory` may come at any step.
///
/// ```
/// faithful::<Vec<DisplayFromStr>, Vec<u32>, JsonWire>(alloc)?
/// ```
pub fn faithful<A: Adapter<T>, T: Meant, W: Wire>(
    alloc: Global,
) -> Result<Faithful<A, T, W>, CheckFail>
    ensures { IsGiven result (blame A.expr (plain W.ID)) }
{
    let expr = A::describe(alloc)?;
    match check(alloc, &expr, Mode::plain(W::ID)) {
        Ok(grade) => Ok(Faithful::new(grade)),
        Err(fail) => Err(fail),
    }
}
