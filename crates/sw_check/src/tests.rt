ghost use Rattle.std.specs.Prelude.{◌≡◌, length, IfOk};

use crate::{Blame, CheckFail, Claims, Expr, ExprList, Facts, Grade, Rule, TextClass, check};
use std::alloc::{AllocError, Global};
use sw_tree::{Kind, Kinds, Mode, WireKind};

fn value() -> Mode {
    Mode::plain(WireKind::Json)
}

fn key() -> Mode {
    value().key()
}

fn compact() -> Mode {
    Mode::plain(WireKind::Compact)
}

/// What stands in every mode of JSON but as a buffered key, where it has one kind and may be a key's text.
fn number_like(kind: Kind, grade: Grade) -> Facts {
    Facts {
        claims: Claims {
            value: true,
            buffered_value: true,
            key: true,
            buffered_key: false,
            compact: true,
        },
        written: Kinds::one(kind),
        read_value: Kinds::one(kind),
        read_key: Kinds::one(kind).with(Kind::Text),
        read_buffered_key: Kinds::one(kind),
        grade,
    }
}

/// What reads these kinds wherever it stands, as a key too or not.
fn everywhere(written: Kind, read: Kinds, keys: bool) -> Facts {
    Facts {
        claims: Claims {
            value: true,
            buffered_value: true,
            key: keys,
            buffered_key: keys,
            compact: true,
        },
        written: Kinds::one(written),
        read_value: read,
        read_key: read,
        read_buffered_key: read,
        grade: Grade::Exact,
    }
}

/// The class of numbers without a sign.
fn digits() -> TextClass {
    TextClass::of("0123456789")
}

/// All texts, the empty one too.
fn any_text() -> TextClass {
    TextClass {
        never_empty: false,
        ascii: u128::MAX,
        other: true,
    }
}

/// An expression with no parts, by its name.
fn leaf(word: &str) -> Option<Expr> {
    Some(match word {
        "number" => Expr::leaf(number_like(Kind::Int, Grade::Exact)),
        "time" => Expr::leaf(number_like(Kind::Int, Grade::Rounded)),
        "text" => Expr::leaf(everywhere(Kind::Text, Kinds::one(Kind::Text), true)),
        "null" => Expr::leaf(everywhere(Kind::Null, Kinds::one(Kind::Null), false)),
        "bytes" => {
            let read = Kinds::one(Kind::Text).with(Kind::Bytes).with(Kind::List);
            Expr::leaf(everywhere(Kind::Bytes, read, false))
        }
        "conv" => Expr::conv(number_like(Kind::Int, Grade::Rounded), true),
        "narrowing" => Expr::conv(number_like(Kind::Int, Grade::Exact), false),
        "digits_by_commas" => Expr::separated(digits(), TextClass::of(",")),
        "digits_by_zeros" => Expr::separated(digits(), TextClass::of("--0")),
        "texts_by_commas" => Expr::separated(any_text(), TextClass::of(",")),
        "digits_or_empty" => Expr::empty_none(digits()),
        "text_or_empty" => Expr::empty_none(any_text()),
        _ => return None,
    })
}

/// The expression of that name with this part; `vec` where the name is none of these.
fn around(alloc: Global, word: &str, part: Expr) -> Result<Expr, AllocError> {
    match word {
        "one_or_many" => Expr::one_or_many(alloc, part),
        "one_or_many_set" => Expr::one_or_many_set(alloc, part),
        "option" => Expr::option(alloc, part),
        "set" => Expr::set(alloc, part),
        "skip" => Expr::skip(alloc, part),
        "default" => Expr::default(alloc, part),
        "default_null" => Expr::default_null(alloc, part),
        "json_text" => Expr::json_text(alloc, part),
        "pick_one" => {
            let mut options = ExprList::new(alloc);
            options.push(part)?;
            Ok(Expr::pick_first(options))
        }
        _ => Expr::vec(alloc, part),
    }
}

/// A row of two parts.
fn both(alloc: Global, first: Expr, second: Expr) -> Result<ExprList, AllocError>
    ensures { IfOk result (λ list. length list ≡ 2) }
{
    let mut parts = ExprList::new(alloc);
    parts.push(first)?;
    parts.push(second)?;
    Ok(parts)
}

/// Whether the expression of that name has two parts.
fn has_two(word: &str) -> bool {
    matches!(
        word,
        "map"
            | "map_set"
            | "key_map"
            | "pairs"
            | "map_skip"
            | "by_wire"
            | "pick_two"
            | "tuple"
            | "record"
            | "range"
            | "closed_range"
            | "result"
            | "bound"
    )
}

/// The expression of that name with these two parts; `map` where the name is none of these.
fn over(alloc: Global, word: &str, first: Expr, second: Expr) -> Result<Expr, AllocError> {
    match word {
        "map_set" => Expr::map_set(alloc, first, second),
        "key_map" => Expr::key_map(alloc, first, second),
        "pairs" => Expr::pairs(alloc, first, second),
        "map_skip" => Expr::map_skip(alloc, first, second),
        "by_wire" => Expr::by_wire(alloc, first, second),
        "pick_two" => Ok(Expr::pick_first(both(alloc, first, second)?)),
        "tuple" => Ok(Expr::tuple(both(alloc, first, second)?)),
        "record" => Ok(Expr::fields(both(alloc, first, second)?, false, Grade::Exact)),
        "range" => Ok(Expr::fields(both(alloc, first, second)?, true, Grade::Exact)),
        "closed_range" => Ok(Expr::fields(both(alloc, first, second)?, true, Grade::Rounded)),
        "result" => Ok(Expr::tagged(both(alloc, first, second)?, false)),
        "bound" => Ok(Expr::tagged(both(alloc, first, second)?, true)),
        _ => Expr::map(alloc, first, second),
    }
}

/// Takes the parts of the expression of that name off the stack, and puts the expression there.
fn apply(alloc: Global, stack: &mut Vec<Expr>, word: &str) -> Result<(), AllocError> {
    if let Some(expr) = leaf(word) {
        stack.push(expr)?;
        return Ok(());
    }
    let Some(last) = stack.pop() else {
        return Ok(());
    };
    if !has_two(word) {
        stack.push(around(alloc, word, last)?)?;
        return Ok(());
    }
    let Some(first) = stack.pop() else {
        return Ok(());
    };
    stack.push(over(alloc, word, first, last)?)?;
    Ok(())
}

/// The expression of these names, each after its parts.
fn build(alloc: Global, words: &str) -> Result<Option<Expr>, AllocError> {
    let mut stack = Vec::new(alloc);
    for word in words.split(' ') {
        apply(alloc, &mut stack, word)?;
    }
    Ok(stack.pop())
}

/// `DefaultOnNull` over `DefaultOnError` over two options, so many times, around the leaf of that name: each passes
/// on the kinds of its first part, and the first of three asks for them.
fn deep(alloc: Global, turns: usize, word: &str) -> Result<Option<Expr>, AllocError> {
    let Some(mut expr) = leaf(word) else {
        return Ok(None);
    };
    for _ in 0..turns {
        let Some(other) = leaf("null") else {
            return Ok(None);
        };
        expr = over(alloc, "pick_two", expr, other)?;
        expr = around(alloc, "default", expr)?;
        expr = around(alloc, "default_null", expr)?;
    }
    Ok(Some(expr))
}

/// Whether the deep expression is blamed by that rule below so many steps, or sound where there is none.
fn deep_answers(
    alloc: Global,
    turns: usize,
    word: &str,
    wanted: Option<Rule>,
    steps: usize,
) -> bool {
    let Ok(Some(expr)) = deep(alloc, turns, word) else {
        return false;
    };
    match check(alloc, &expr, value()) {
        Ok(_) => wanted.is_none(),
        Err(CheckFail::Blame(blame)) => {
            wanted == Some(blame.rule) && blame.path.steps().len() == steps
        }
        Err(CheckFail::Memory) => false,
    }
}

/// The blame as text.
fn blame_text(alloc: Global, blame: &Blame) -> Result<String, AllocError> {
    let mut text = String::new(alloc);
    text.push_str(match blame.rule {
        Rule::S1 => "S1 at ",
        Rule::S2 => "S2 at ",
        Rule::S3 => "S3 at ",
        Rule::S4 => "S4 at ",
        Rule::S5 => "S5 at ",
        Rule::S6 => "S6 at ",
        Rule::S7 => "S7 at ",
        Rule::S8 => "S8 at ",
    })?;
    if blame.path.steps().is_empty() {
        text.push_str("/")?;
    }
    for step in blame.path.steps() {
        text.push_str(match *step {
            0 => "/0",
            1 => "/1",
            _ => "/more",
        })?;
    }
    Ok(text)
}

/// What the check answers of the expression of these names; there is none where a part is missing.
fn checked(alloc: Global, words: &str, mode: Mode) -> Result<Option<Grade>, CheckFail> {
    match build(alloc, words)? {
        None => Ok(None),
        Some(expr) => {
            let expr = Box::new(alloc, expr)?;
            Ok(Some(check(alloc, &expr, mode)?))
        }
    }
}

/// What the check answers, as text.
fn outcome(alloc: Global, words: &str, mode: Mode) -> Result<String, AllocError> {
    match checked(alloc, words, mode) {
        Ok(None) => String::from_str(alloc, "no expression"),
        Ok(Some(Grade::Exact)) => String::from_str(alloc, "exact"),
        Ok(Some(Grade::Rounded)) => String::from_str(alloc, "rounded"),
        Err(CheckFail::Blame(blame)) => blame_text(alloc, &blame),
        Err(CheckFail::Memory) => String::from_str(alloc, "want of memory"),
    }
}

/// Whether the check answers that.
fn answers(alloc: Global, words: &str, mode: Mode, wanted: &str) -> bool {
    match outcome(alloc, words, mode) {
        Ok(text) => text.as_str() == wanted,
        Err(_) => false,
    }
}

#[test]
fn each_expression_is_sound_or_blamed(rt: HostRuntime) {
    for (words, wanted) in [
        ("number", "exact"),
        ("time", "rounded"),
        ("number vec", "exact"),
        ("null option vec", "S4 at /0"),
        ("number time map", "rounded"),
        ("number option text map", "S2 at /0"),
        ("number text map_set", "exact"),
        ("number time map_set", "S5 at /"),
        ("time pick_one", "rounded"),
        ("null option pick_one", "S4 at /0"),
        ("text null option pick_two", "exact"),
        ("null option text pick_two", "S4 at /0"),
        ("time one_or_many", "rounded"),
        ("number vec one_or_many", "S3 at /"),
        ("number one_or_many_set", "exact"),
        ("time one_or_many_set", "S5 at /"),
        ("time option", "rounded"),
        ("number option option", "S4 at /"),
        ("null set", "exact"),
        ("time vec set", "S5 at /"),
        ("number time key_map", "rounded"),
        ("time number key_map", "S5 at /"),
        ("null time pairs", "rounded"),
        ("time number pairs", "S5 at /"),
        ("number time tuple", "rounded"),
        ("null option vec time set tuple", "S4 at /0/0"),
        ("number number range", "exact"),
        ("number number closed_range", "rounded"),
        ("number time set record", "S5 at /1"),
        ("number null bound", "exact"),
        ("number null option result", "S4 at /1"),
        ("digits_by_commas", "exact"),
        ("texts_by_commas", "S6 at /"),
        ("digits_by_zeros", "S6 at /"),
        ("digits_or_empty", "exact"),
        ("text_or_empty", "S7 at /"),
        ("number skip", "exact"),
        ("time set skip", "S5 at /0"),
        ("text time map_skip", "rounded"),
        ("number number map_skip", "S1 at /0"),
        ("null default", "exact"),
        ("time set default", "S5 at /0"),
        ("time default_null", "rounded"),
        ("null default_null", "S4 at /"),
        ("number null option by_wire", "exact"),
        ("null option number by_wire", "S4 at /0"),
        ("conv", "rounded"),
        ("narrowing", "S8 at /"),
        ("narrowing vec", "S8 at /0"),
        ("bytes vec json_text", "exact"),
        ("text_or_empty json_text", "S7 at /0"),
    ] {
        assert!(rt; answers(rt.alloc(), words, value(), wanted), "{words}");
    }
}

#[test]
fn the_mode_decides(rt: HostRuntime) {
    for (words, mode, wanted) in [
        ("null", value(), "exact"),
        ("null", key(), "S2 at /"),
        ("null", key().buffer(), "S2 at /"),
        ("null", compact().key(), "exact"),
        ("number", key(), "exact"),
        ("number", key().buffer(), "S1 at /"),
        ("number", value().buffer(), "exact"),
        ("number", compact().key().buffer(), "exact"),
        ("text", key().buffer(), "exact"),
        ("conv", key().buffer(), "S1 at /"),
        ("narrowing", key().buffer(), "S1 at /"),
        ("number pick_one", key(), "exact"),
        ("number text pick_two number map", value(), "S1 at /0/0"),
        ("number text pick_two number map", compact(), "exact"),
        ("text number pick_two number map", value(), "exact"),
        ("number default", key(), "S1 at /0"),
        ("text default", key(), "exact"),
        ("number vec number map", value(), "S2 at /0"),
        ("number vec number map", compact(), "exact"),
        ("text one_or_many number map", value(), "S2 at /0"),
        ("number null bound number map", value(), "S2 at /0"),
        ("bytes json_text number map", value(), "exact"),
        ("number null option by_wire", compact(), "S4 at /1"),
        ("null option json_text", compact(), "S4 at /0"),
        ("number time by_wire", value(), "exact"),
        ("number time by_wire", compact(), "rounded"),
        ("bytes one_or_many", value(), "S3 at /"),
        ("number number vec pick_two one_or_many", value(), "S3 at /"),
        ("number number range one_or_many", value(), "S3 at /"),
        ("number number record one_or_many", value(), "exact"),
        ("number default one_or_many_set", value(), "S3 at /"),
        ("time default one_or_many_set", value(), "S3 at /"),
        ("time set vec null option tuple", value(), "S5 at /0/0"),
    ] {
        assert!(rt; answers(rt.alloc(), words, mode, wanted), "{words}");
    }
}

#[test]
fn thousands_of_levels_are_checked(rt: HostRuntime) {
    for (word, wanted, steps) in [
        ("number", None, 0),
        ("text_or_empty", Some(Rule::S7), 3000),
        ("null", Some(Rule::S4), 0),
    ] {
        assert!(rt;
            deep_answers(rt.alloc(), 1000, word, wanted, steps),
            "{word}"
        );
    }
}

#[test]
fn a_texts_class_has_its_bytes(rt: HostRuntime) {
    let class = TextClass::of("a,é,");
    assert!(rt; class.never_empty && class.other);
    assert!(rt; class.ascii == 1 << 97 | 1 << 44);
    let none = TextClass::of("");
    assert!(rt; !none.never_empty && none.ascii == 0 && !none.other);
}
