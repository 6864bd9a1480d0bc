ghost use Rattle.std.specs.Prelude.{◌≡◌, ◌||◌, ◌&&◌};
ghost use Rattle.sw_tree.specs.Kinds.{has, is_kind};
ghost use Rattle.sw_tree.specs.declared.mode.Kind.{Kind};
ghost use Rattle.sw_check.specs.Kinds.{kinds_written, kinds_read};
ghost use Rattle.sw_check.specs.Checked.{checked};
ghost use Rattle.sw_check.specs.Inner.Parts.{others, first_written, first_read, others_read};

use crate::expr::{Expr, Shape};
use crate::parts::Parts;
use sw_tree::{Kind, Kinds, Mode};

impl Expr {
    /// The kinds of tree that it writes in the mode, by those of its parts.
    pub(crate) fn kinds_written(&self, mode: Mode, parts: &Parts) -> Kinds
        requires { (k : Kind) → has parts.now.written k ≡ first_written (checked self.now mode) k }
        ensures { (k : Kind) → has result k ≡ kinds_written self.now mode k }
    {
        match &self.shape {
            Shape::Leaf(facts) => facts.written,
            Shape::Vec(_) => Kinds::one(Kind::List),
            Shape::Map(_, _) => Kinds::one(Kind::Map),
            Shape::MapSet(_, _) => Kinds::one(Kind::Map),
            Shape::PickFirst(_) => parts.written,
            Shape::OneOrMany(_) => parts.written.with(Kind::List),
            Shape::OneOrManySet(_) => parts.written.with(Kind::List),
            Shape::Option(_) => parts.written.with(Kind::Null),
            Shape::Set(_) => Kinds::one(Kind::List),
            Shape::KeyMap(_, _) => Kinds::one(Kind::Map),
            Shape::Pairs(_, _) => Kinds::one(Kind::List),
            Shape::Tuple(_) => Kinds::one(Kind::List),
            Shape::Fields(_, _, _) => Kinds::one(Kind::Map),
            Shape::Tagged(_, unit) => map_or(*unit, Kind::Text),
            Shape::Separated(_, _) => Kinds::one(Kind::Text),
            Shape::EmptyNone(_) => Kinds::one(Kind::Text),
            Shape::Skip(_) => Kinds::one(Kind::List),
            Shape::MapSkip(_, _) => Kinds::one(Kind::Map),
            Shape::Default(_) => parts.written,
            Shape::DefaultNull(_) => parts.written,
            Shape::ByWire(_, _) => parts.written,
            Shape::Conv(facts, _) => facts.written,
            Shape::JsonText(_) => Kinds::one(Kind::Text),
        }
    }

    /// The kinds of tree that it reads in the mode, by those of its parts.
    pub(crate) fn kinds_read(&self, mode: Mode, parts: &Parts) -> Kinds
        requires read { (k : Kind) → has parts.now.read k ≡ first_read (checked self.now mode) k }
        requires others { (k : Kind) → has parts.now.others k ≡ others_read (checked self.now mode) (others self.now) k }
        ensures { (k : Kind) → has result k ≡ kinds_read self.now mode k }
    {
        match &self.shape {
            Shape::Leaf(facts) => facts.read(mode),
            Shape::Vec(_) => Kinds::one(Kind::List),
            Shape::Map(_, _) => Kinds::one(Kind::Map),
            Shape::MapSet(_, _) => Kinds::one(Kind::Map),
            Shape::PickFirst(_) => parts.read.union(parts.others),
            Shape::OneOrMany(_) => parts.read.with(Kind::List),
            Shape::OneOrManySet(_) => parts.read.with(Kind::List),
            Shape::Option(_) => parts.read.with(Kind::Null),
            Shape::Set(_) => Kinds::one(Kind::List),
            Shape::KeyMap(_, _) => Kinds::one(Kind::Map),
            Shape::Pairs(_, _) => Kinds::one(Kind::List),
            Shape::Tuple(_) => Kinds::one(Kind::List),
            Shape::Fields(_, listed, _) => map_or(*listed, Kind::List),
            Shape::Tagged(_, unit) => map_or(*unit, Kind::Text),
            Shape::Separated(_, _) => Kinds::one(Kind::Text),
            Shape::EmptyNone(_) => Kinds::one(Kind::Null).with(Kind::Text),
            Shape::Skip(_) => Kinds::one(Kind::List),
            Shape::MapSkip(_, _) => Kinds::one(Kind::Map),
            Shape::Default(_) => Kinds::all(),
            Shape::DefaultNull(_) => parts.read.with(Kind::Null),
            Shape::ByWire(_, _) => parts.read,
            Shape::Conv(facts, _) => facts.read(mode),
            Shape::JsonText(_) => Kinds::one(Kind::Text),
        }
    }
}

/// Maps, and that kind where it is so.
fn map_or(also: bool, kind: Kind) -> Kinds
    ensures { (k : Kind) → has result k ≡ (is_kind Kind.Map k || (also && is_kind kind k)) }
{
    if also {
        Kinds::one(Kind::Map).with(kind)
    } else {
        Kinds::one(Kind::Map)
    }
}
