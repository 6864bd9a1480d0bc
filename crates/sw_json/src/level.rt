use crate::turn::Turn;

/// How far the innermost list or map is: what comes next, and how many levels its deepest part has.
/// Where nothing is open no levels are counted.
#[derive(Clone, Copy)]
pub struct Level {
    pub turn: Turn,
    pub height: u8,
}

impl Level {
    ghost use Rattle.std.specs.Prelude.{◌≡◌};
    ghost use Rattle.sw_json.specs.Inner.Turns.{first_level, height_after, after};

    /// A list or map with nothing in it.
    #[inline]
    pub(crate) fn first(is_map: bool) -> Level
        ensures { result ≡ first_level is_map }
    {
        Level {
            turn: Turn::first(is_map),
            height: 0,
        }
    }

    #[inline]
    fn height_with(self, height: u8) -> u8
        ensures { result ≡ height_after self height }
    {
        if self.turn.is_inside() {
            self.height.max(height)
        } else {
            self.height
        }
    }

    /// The same with a further part of so many levels.
    #[inline]
    pub(crate) fn with(self, height: u8) -> Level
        ensures { result ≡ after self height }
    {
        Level {
            turn: self.turn.next(),
            height: self.height_with(height),
        }
    }
}
