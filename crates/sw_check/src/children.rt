ghost use Rattle.std.specs.Prelude.{◌≡◌};
ghost use Rattle.sw_check.specs.Checked.{checked};
ghost use Rattle.sw_check.specs.Inner.Children.{shown, behind, IsFew};
ghost use Rattle.sw_check.specs.Inner.Parts.{others};

use crate::expr::{Expr, Shape};
use crate::options::mode_of;
use sw_tree::{Mode, WireKind};

/// The children of an expression that are checked, each in its mode: none, one with its number, the
/// first of several options, the first and the second, or all in one mode. With the first option come the
/// others, which aren't checked but tell which kinds are read.
pub(crate) enum Children<'a> {
    None,
    One(u16, &'a Expr, Mode),
    First(&'a Expr, &'a [Expr], Mode),
    Two(&'a Expr, Mode, &'a Expr, Mode),
    Each(&'a [Expr], Mode),
}

/// The children of the expression that are checked in the mode.
pub(crate) fn children_of<'a>(expr: &'a Expr, mode: Mode) -> Children<'a>
    ensures checked { shown result ≡ checked expr.now mode }
    ensures others { behind result ≡ others expr.now }
    ensures few { IsFew result }
{
    match &expr.shape {
        Shape::Leaf(_) => Children::None,
        Shape::Vec(part) => Children::One(0, part, mode.value()),
        Shape::Map(key, value) => Children::Two(key, mode.key(), value, mode.value()),
        Shape::MapSet(key, value) => Children::Two(key, mode.key(), value, mode.value()),
        Shape::PickFirst(options) => {
            let options = options.as_slice();
            Children::First(&options[0], &options[1..], mode_of(options, mode))
        }
        Shape::OneOrMany(part) => Children::One(0, part, mode.value().buffer()),
        Shape::OneOrManySet(part) => Children::One(0, part, mode.value().buffer()),
        Shape::Option(part) => Children::One(0, part, mode),
        Shape::Set(part) => Children::One(0, part, mode.value()),
        Shape::KeyMap(key, value) => Children::Two(key, mode.key(), value, mode.value()),
        Shape::Pairs(key, value) => Children::Two(key, mode.value(), value, mode.value()),
        Shape::Tuple(parts) => Children::Each(parts.as_slice(), mode.value()),
        Shape::Fields(parts, _, _) => Children::Each(parts.as_slice(), mode.value()),
        Shape::Tagged(parts, _) => Children::Each(parts.as_slice(), mode.value()),
        Shape::Separated(_, _) => Children::None,
        Shape::EmptyNone(_) => Children::None,
        Shape::Skip(part) => Children::One(0, part, mode.value().buffer()),
        Shape::MapSkip(key, value) => {
            Children::Two(key, mode.key().buffer(), value, mode.value().buffer())
        }
        Shape::Default(part) => Children::One(0, part, mode.buffer()),
        Shape::DefaultNull(part) => Children::One(0, part, mode),
        Shape::ByWire(human, compact) => match mode.wire {
            WireKind::Json => Children::One(0, human, mode),
            WireKind::Compact => Children::One(1, compact, mode),
        },
        Shape::Conv(_, _) => Children::None,
        Shape::JsonText(part) => Children::One(0, part, Mode::plain(WireKind::Json)),
    }
}
