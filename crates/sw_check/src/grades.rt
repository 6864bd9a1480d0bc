ghost use Rattle.std.specs.Prelude.{◌≡◌};
ghost use Rattle.sw_check.specs.Grade.{grade};
ghost use Rattle.sw_check.specs.Checked.{checked};
ghost use Rattle.sw_check.specs.Inner.Parts.{first_grade, second_grade};

use crate::expr::{Expr, Shape};
use crate::grade::Grade;
use crate::parts::Parts;
use sw_tree::Mode;

impl Expr {
    /// Its grade in the mode, by those of its parts.
    pub(crate) fn grade(&self, mode: Mode, parts: &Parts) -> Grade
        requires first { parts.now.grade ≡ first_grade (checked self.now mode) }
        requires second { parts.now.second ≡ second_grade (checked self.now mode) }
        ensures { result ≡ grade self.now mode }
    {
        match &self.shape {
            Shape::Leaf(facts) => facts.grade,
            Shape::Vec(_) => parts.grade,
            Shape::Map(_, _) => parts.grade.worst(parts.second),
            Shape::MapSet(_, _) => Grade::Exact,
            Shape::PickFirst(_) => parts.grade,
            Shape::OneOrMany(_) => parts.grade,
            Shape::OneOrManySet(_) => Grade::Exact,
            Shape::Option(_) => parts.grade,
            Shape::Set(_) => Grade::Exact,
            Shape::KeyMap(_, _) => parts.second,
            Shape::Pairs(_, _) => parts.second,
            Shape::Tuple(_) => parts.grade,
            Shape::Fields(_, _, own) => own.worst(parts.grade),
            Shape::Tagged(_, _) => parts.grade,
            Shape::Separated(_, _) => Grade::Exact,
            Shape::EmptyNone(_) => Grade::Exact,
            Shape::Skip(_) => parts.grade,
            Shape::MapSkip(_, _) => parts.second,
            Shape::Default(_) => parts.grade,
            Shape::DefaultNull(_) => parts.grade,
            Shape::ByWire(_, _) => parts.grade,
            Shape::Conv(facts, _) => facts.grade,
            Shape::JsonText(_) => parts.grade,
        }
    }
}
