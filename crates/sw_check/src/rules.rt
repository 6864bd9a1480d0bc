ghost use Rattle.std.specs.Prelude.{◌≡◌};
ghost use Rattle.sw_tree.specs.Kinds.{has};
ghost use Rattle.sw_tree.specs.declared.mode.Kind.{Kind};
ghost use Rattle.sw_check.specs.Kinds.{kinds_written};
ghost use Rattle.sw_check.specs.Rules.{holds, fault};
ghost use Rattle.sw_check.specs.Checked.{checked};
ghost use Rattle.sw_check.specs.Inner.Parts.{first_written, first_read, first_grade, second_grade};

use crate::expr::{Expr, Shape};
use crate::parts::Parts;
use crate::rule::Rule;
use sw_tree::{Kind, Kinds, Mode, Place, WireKind};

/// The first rule that fails at the expression itself, which writes these kinds: S2 tried before S1 and the
/// others in order.
pub(crate) fn fault(expr: &Expr, mode: Mode, kinds: Kinds, parts: &Parts) -> Option<Rule>
    requires kinds { (k : Kind) → has kinds k ≡ kinds_written expr.now mode k }
    requires written { (k : Kind) → has parts.now.written k ≡ first_written (checked expr.now mode) k }
    requires read { (k : Kind) → has parts.now.read k ≡ first_read (checked expr.now mode) k }
    requires first { parts.now.grade ≡ first_grade (checked expr.now mode) }
    requires second { parts.now.second ≡ second_grade (checked expr.now mode) }
    ensures { result ≡ fault expr.now mode }
{
    if !writes_keys(expr, mode, kinds) {
        return Some(Rule::S2);
    }
    if !claims_mode(expr, mode) {
        return Some(Rule::S1);
    }
    if !part_reads_no_list(expr, mode, parts) {
        return Some(Rule::S3);
    }
    if !part_writes_no_null(expr, mode, parts) {
        return Some(Rule::S4);
    }
    if !tells_apart_exactly(expr, mode, parts) {
        return Some(Rule::S5);
    }
    if !can_be_split(expr, mode) {
        return Some(Rule::S6);
    }
    if !is_never_empty(expr, mode) {
        return Some(Rule::S7);
    }
    if !returns(expr, mode) {
        return Some(Rule::S8);
    }
    None
}

/// S1: a leaf or a conversion claims the mode.
fn claims_mode(expr: &Expr, mode: Mode) -> bool
    ensures { result ≡ holds Rule.S1 expr.now mode }
{
    match &expr.shape {
        Shape::Leaf(facts) => facts.claims.has(mode),
        Shape::Conv(facts, _) => facts.claims.has(mode),
        _ => true,
    }
}

/// S2: as a key of JSON it writes no kind but text, number and truth value.
fn writes_keys(expr: &Expr, mode: Mode, kinds: Kinds) -> bool
    requires { (k : Kind) → has kinds k ≡ kinds_written expr.now mode k }
    ensures { result ≡ holds Rule.S2 expr.now mode }
{
    match (mode.wire, mode.place) {
        (WireKind::Json, Place::Key) => {
            !(kinds.has(Kind::Null)
                || kinds.has(Kind::Bytes)
                || kinds.has(Kind::List)
                || kinds.has(Kind::Map))
        }
        _ => true,
    }
}

/// S3: the part of `OneOrMany`, buffered, reads no list.
fn part_reads_no_list(expr: &Expr, mode: Mode, parts: &Parts) -> bool
    requires { has parts.now.read Kind.List ≡ first_read (checked expr.now mode) Kind.List }
    ensures { result ≡ holds Rule.S3 expr.now mode }
{
    match &expr.shape {
        Shape::OneOrMany(_) => !parts.read.has(Kind::List),
        Shape::OneOrManySet(_) => !parts.read.has(Kind::List),
        _ => true,
    }
}

/// S4: the part of `Option` or `DefaultOnNull` writes no null.
fn part_writes_no_null(expr: &Expr, mode: Mode, parts: &Parts) -> bool
    requires { has parts.now.written Kind.Null ≡ first_written (checked expr.now mode) Kind.Null }
    ensures { result ≡ holds Rule.S4 expr.now mode }
{
    match &expr.shape {
        Shape::Option(_) => !parts.written.has(Kind::Null),
        Shape::DefaultNull(_) => !parts.written.has(Kind::Null),
        _ => true,
    }
}

/// S5: what tells items or entries apart is exact: a set's items, a map's keys, the keys and values
/// of a set of pairs.
fn tells_apart_exactly(expr: &Expr, mode: Mode, parts: &Parts) -> bool
    requires first { parts.now.grade ≡ first_grade (checked expr.now mode) }
    requires second { parts.now.second ≡ second_grade (checked expr.now mode) }
    ensures { result ≡ holds Rule.S5 expr.now mode }
{
    match &expr.shape {
        Shape::Set(_) => parts.grade.is_exact(),
        Shape::OneOrManySet(_) => parts.grade.is_exact(),
        Shape::KeyMap(_, _) => parts.grade.is_exact(),
        Shape::Pairs(_, _) => parts.grade.is_exact(),
        Shape::MapSkip(_, _) => parts.grade.is_exact(),
        Shape::MapSet(_, _) => parts.grade.is_exact() && parts.second.is_exact(),
        _ => true,
    }
}

/// S6: the texts that are joined are never empty, and share no byte with the separator.
fn can_be_split(expr: &Expr, mode: Mode) -> bool
    ensures { result ≡ holds Rule.S6 expr.now mode }
{
    match &expr.shape {
        Shape::Separated(class, separator) => class.never_empty && !class.shares_byte(*separator),
        _ => true,
    }
}

/// S7: a text that stands beside the empty one is never empty.
fn is_never_empty(expr: &Expr, mode: Mode) -> bool
    ensures { result ≡ holds Rule.S7 expr.now mode }
{
    match &expr.shape {
        Shape::EmptyNone(class) => class.never_empty,
        _ => true,
    }
}

/// S8: a conversion gives back what it was given.
fn returns(expr: &Expr, mode: Mode) -> bool
    ensures { result ≡ holds Rule.S8 expr.now mode }
{
    match &expr.shape {
        Shape::Conv(_, returns) => *returns,
        _ => true,
    }
}
