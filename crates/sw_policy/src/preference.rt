ghost use Rattle.std.specs.Map.Iter.{deref};
ghost use Rattle.std.specs.Prelude.{◌≡◌, List, length, option_map};
ghost use Rattle.sw_core.specs.Inner.Iterated.{Iterates};
ghost use Rattle.sw_policy.specs.Inner.Lone.{lone_of};

use crate::sealed::Sealed;
use sw_core::formats::{Format, PreferMany, PreferOne};

/// A format of `OneOrMany`: `PreferOne` or `PreferMany`, and no other type.
pub trait Preference: Format + Sealed {
    ghost use Rattle.std.specs.Prelude.{Bool};

    /// Whether a collection of one element is written as that element alone.
    const ALONE: bool;

    ghost ALONE: { Bool };
}

impl Preference for PreferOne {
    ghost use Rattle.std.specs.Prelude.{true};

    const ALONE: bool = true;

    ghost ALONE = { true };
}

impl Preference for PreferMany {
    ghost use Rattle.std.specs.Prelude.{false};

    const ALONE: bool = false;

    ghost ALONE = { false };
}

/// The item that a collection of so many is written as, where it is written as no list: the only one, under
/// `PreferOne`.
pub(crate) fn lone<'a, T: 'a, F: Preference, I: Iterator<Item = &'a T> + Drop>(
    count: usize,
    mut items: I,
) -> Option<&'a T>
    requires { I.can_next items }
    ensures { (xs : List T) → Iterates deref I.next_gives xs items → count ≡ length xs → option_map deref result ≡ lone_of F.ALONE xs }
{
    if F::ALONE && count == 1 {
        items.next()
    } else {
        None
    }
}
