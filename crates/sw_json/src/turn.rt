/// What comes next in the innermost list or map.
#[derive(Clone, Copy)]
pub enum Turn {
    /// Nothing is open.
    Root,
    /// The first item of a list.
    First,
    /// A further item.
    Item,
    /// The first key of a map.
    FirstKey,
    /// A further key.
    Key,
    /// The value of a key.
    Value,
}

impl Turn {
    ghost use Rattle.std.specs.Prelude.{◌≡◌};
    ghost use Rattle.sw_json.specs.Inner.Turns.{next_turn, is_key, is_inside, first_turn};

    /// What comes first in a list, or in a map.
    #[inline]
    pub(crate) fn first(is_map: bool) -> Turn
        ensures { result ≡ first_turn is_map }
    {
        if is_map { Turn::FirstKey } else { Turn::First }
    }

    /// What comes behind it.
    #[inline]
    pub(crate) fn next(self) -> Turn
        ensures { result ≡ next_turn self }
    {
        match self {
            Turn::Root => Turn::Root,
            Turn::First => Turn::Item,
            Turn::Item => Turn::Item,
            Turn::FirstKey => Turn::Value,
            Turn::Key => Turn::Value,
            Turn::Value => Turn::Key,
        }
    }

    #[inline]
    pub(crate) fn is_key(self) -> bool
        ensures { result ≡ is_key self }
    {
        match self {
            Turn::Root => false,
            Turn::First => false,
            Turn::Item => false,
            Turn::FirstKey => true,
            Turn::Key => true,
            Turn::Value => false,
        }
    }

    /// Whether a list or map is open.
    #[inline]
    pub(crate) fn is_inside(self) -> bool
        ensures { result ≡ is_inside self }
    {
        match self {
            Turn::Root => false,
            Turn::First => true,
            Turn::Item => true,
            Turn::FirstKey => true,
            Turn::Key => true,
            Turn::Value => true,
        }
    }
}
