ghost use Rattle.std.specs.Prelude.{◌≡◌};
ghost use Rattle.sw_tree.specs.Mode.{plain};
ghost use Rattle.sw_check.specs.Blame.{IsSound};
ghost use Rattle.sw_check.specs.Grade.{grade};
ghost use Rattle.sw_core.specs.Again.{IsKept};

use crate::adapter::Adapter;
use std::marker::PhantomData;
use sw_check::grade::Grade;
use sw_tree::meant::Meant;
use sw_tree::wire::Wire;

/// Stands for this: the expression of the nest `A` of `T` is sound in the plain mode of the wire `W`.
///
/// `faithful` alone makes one.
#[derive(Drop)]
pub struct Faithful<A: Adapter<T>, T: Meant, W: Wire> {
    nest: PhantomData<(A, T, W)>,
    kept: Grade,
    ghost sound: { IsSound A.expr (plain W.ID) },
    ghost graded: { kept ≡ grade A.expr (plain W.ID) },
}

impl<A: Adapter<T>, T: Meant, W: Wire> Faithful<A, T, W> {
    /// The token of a sound nest with that grade.
    pub(crate) fn new(kept: Grade) -> Faithful<A, T, W>
        requires sound { IsSound A.expr (plain W.ID) }
        requires graded { kept ≡ grade A.expr (plain W.ID) }
    {
        Faithful {
            nest: PhantomData,
            kept,
        }
    }

    /// The grade of the expression in that mode: `Exact` where what is written reads back as itself,
    /// `Rounded` where it reads back as what it was rounded to.
    pub fn grade(&self) -> Grade
        ensures { result ≡ grade A.expr (plain W.ID) }
    {
        self.kept
    }

    /// Does nothing. Its contract is the promise that a store rests on: what `As::<A>::serialize` answers for this value
    /// in the plain mode of `W` has an image, is never refused for a key, and its image, which its printed bytes spell, is read
    /// by `As::<A>::deserialize` as the norm of the value, under what `A` assumes.
    pub fn keeps(&self, value: &T)
        ensures { IsKept A.writes A.reads W.ID W.spelled W.text A.norm A.assumes (T.meaning value.now) }
    {
        value.in_hand();
    }
}
