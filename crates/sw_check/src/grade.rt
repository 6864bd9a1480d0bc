/// How near to a value it is read again after it was written: as itself, or as what it was
/// rounded to.
#[derive(Clone, Copy, PartialEq, Eq)]
pub enum Grade {
    Exact,
    Rounded,
}

impl Grade {
    ghost use Rattle.std.specs.Prelude.{◌≡◌};
    ghost use Rattle.sw_check.specs.Grade.{worst, is_exact};

    /// `Rounded` if one of the two is.
    pub(crate) fn worst(self, other: Grade) -> Grade
        ensures { result ≡ worst self other }
    {
        match self {
            Grade::Exact => other,
            Grade::Rounded => Grade::Rounded,
        }
    }

    /// Whether it is `Exact`.
    pub(crate) fn is_exact(self) -> bool
        ensures { result ≡ is_exact self }
    {
        match self {
            Grade::Exact => true,
            Grade::Rounded => false,
        }
    }
}
