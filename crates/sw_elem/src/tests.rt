use crate::any::Any;
use crate::element::Element;
use crate::facts::{either, everywhere, keyed, only, stands, told, with};
use crate::free::{are_copies_free, are_leaves_free, are_parsed_free, is_parsed_text_free};
use crate::numbers::whole_at;
use crate::serialize::{Deserialize, Serialize};
use crate::text::{ParseFail, TextForm};
use std::alloc::{AllocError, Global};
use sw_check::class::TextClass;
use sw_check::facts::{Claims, Facts};
use sw_check::grade::Grade;
use sw_tree::builder::DocBuilder;
use sw_tree::doc::Doc;
use sw_tree::fail::{DeError, DeFail, Refusal};
use sw_tree::kinds::Kinds;
use sw_tree::mode::{Kind, Mode, WireKind};
use sw_tree::node::Node;
use sw_tree::skipped::Skipped;
use sw_tree::view::View;
use sw_tree::whole::Whole;

/// What a text means by its type's own bound.
fn parsed<T: TextForm>(alloc: Global, text: &str) -> Option<T> {
    match T::parse(alloc, text) {
        Ok(value) => Some(value),
        Err(ParseFail::Refused) => None,
        Err(ParseFail::Memory) => None,
    }
}

/// The value that the value's own text means.
fn parsed_again<T: TextForm>(alloc: Global, value: T) -> Option<T> {
    match value.show(alloc) {
        Ok(text) => parsed(alloc, text.as_str()),
        Err(_) => None,
    }
}

/// What a type reads by its own bound.
fn read<T: Deserialize>(
    alloc: Global,
    view: View<'_>,
    mode: Mode,
) -> Result<Result<T, Refusal>, AllocError> {
    let mut log = Skipped::new(alloc);
    match T::deserialize(alloc, view, mode, &mut log) {
        Ok(value) => Ok(Ok(value)),
        Err(DeFail::Refused(refusal)) => Ok(Err(refusal)),
        Err(DeFail::Memory) => Err(AllocError),
    }
}

/// The value that the value's own tree means.
fn read_again<T: Serialize + Deserialize>(alloc: Global, value: T) -> Option<T> {
    let mode = Mode::plain(WireKind::Compact);
    let Ok(node) = value.serialize(alloc, mode) else {
        return None;
    };
    let Ok(doc) = Doc::from_node(alloc, &node) else {
        return None;
    };
    match read(alloc, doc.view(), mode) {
        Ok(Ok(again)) => Some(again),
        _ => None,
    }
}

#[test]
fn a_number_is_a_plus_and_digits(rt: HostRuntime) {
    for (text, want) in [
        ("0", Some(0)),
        ("+07", Some(7)),
        ("4294967295", Some(4294967295)),
        ("4294967296", None),
        ("", None),
        ("+", None),
        ("-1", None),
        (" 1", None),
        ("1x", None),
    ] {
        let found: Option<u32> = parsed(rt.alloc(), text);
        assert!(rt; found == want, "at {text}");
    }
    assert!(rt; <u32 as TextForm>::FREE);
}

#[test]
fn a_signed_number_is_a_sign_and_digits(rt: HostRuntime) {
    for (text, want) in [
        ("-0", Some(0)),
        ("+07", Some(7)),
        ("-128", Some(-128)),
        ("127", Some(127)),
        ("-129", None),
        ("128", None),
        ("-", None),
        ("+-1", None),
    ] {
        let found: Option<i8> = parsed(rt.alloc(), text);
        assert!(rt; found == want, "at {text}");
    }
}

#[test]
fn a_character_is_a_text_of_one(rt: HostRuntime) {
    for (text, want) in [("a", Some('a')), ("é", Some('é')), ("", None), ("ab", None)] {
        let found: Option<char> = parsed(rt.alloc(), text);
        assert!(rt; found == want, "at {text}");
    }
    for (text, want) in [("true", Some(true)), ("false", Some(false)), ("True", None)] {
        let found: Option<bool> = parsed(rt.alloc(), text);
        assert!(rt; found == want, "at {text}");
    }
}

#[test]
fn what_is_shown_is_parsed_again(rt: HostRuntime) -> Result<(), AllocError> {
    let alloc = rt.alloc();
    assert!(rt; parsed_again(alloc, u8::MAX) == Some(u8::MAX));
    assert!(rt; parsed_again(alloc, u16::MAX) == Some(u16::MAX));
    assert!(rt; parsed_again(alloc, u32::MAX) == Some(u32::MAX));
    assert!(rt; parsed_again(alloc, u64::MAX) == Some(u64::MAX));
    assert!(rt; parsed_again(alloc, u128::MAX) == Some(u128::MAX));
    assert!(rt; parsed_again(alloc, usize::MAX) == Some(usize::MAX));
    assert!(rt; parsed_again(alloc, i8::MIN) == Some(i8::MIN));
    assert!(rt; parsed_again(alloc, i16::MIN) == Some(i16::MIN));
    assert!(rt; parsed_again(alloc, i32::MIN) == Some(i32::MIN));
    assert!(rt; parsed_again(alloc, i64::MIN) == Some(i64::MIN));
    assert!(rt; parsed_again(alloc, i128::MIN) == Some(i128::MIN));
    assert!(rt; parsed_again(alloc, isize::MIN) == Some(isize::MIN));
    assert!(rt; parsed_again(alloc, true) == Some(true));
    assert!(rt; parsed_again(alloc, 'é') == Some('é'));
    let text = String::from_str(alloc, "é")?;
    assert!(rt; matches!(parsed_again(alloc, text), Some(again) if again.as_str() == "é"));
    let shown = 4294967295u32.show(alloc)?;
    assert!(rt; shown.as_str() == "4294967295");
    Ok(())
}

#[test]
fn what_is_written_is_read_again(rt: HostRuntime) -> Result<(), AllocError> {
    let alloc = rt.alloc();
    assert!(rt; read_again(alloc, u8::MAX) == Some(u8::MAX));
    assert!(rt; read_again(alloc, u16::MAX) == Some(u16::MAX));
    assert!(rt; read_again(alloc, u32::MAX) == Some(u32::MAX));
    assert!(rt; read_again(alloc, u64::MAX) == Some(u64::MAX));
    assert!(rt; read_again(alloc, u128::MAX) == Some(u128::MAX));
    assert!(rt; read_again(alloc, usize::MAX) == Some(usize::MAX));
    assert!(rt; read_again(alloc, i8::MIN) == Some(i8::MIN));
    assert!(rt; read_again(alloc, i16::MIN) == Some(i16::MIN));
    assert!(rt; read_again(alloc, i32::MIN) == Some(i32::MIN));
    assert!(rt; read_again(alloc, i64::MIN) == Some(i64::MIN));
    assert!(rt; read_again(alloc, i128::MIN) == Some(i128::MIN));
    assert!(rt; read_again(alloc, isize::MIN) == Some(isize::MIN));
    assert!(rt; read_again(alloc, true) == Some(true));
    assert!(rt; read_again(alloc, 'é') == Some('é'));
    assert!(rt; read_again(alloc, ()) == Some(()));
    let text = String::from_str(alloc, "é")?;
    assert!(rt; matches!(read_again(alloc, text), Some(again) if again.as_str() == "é"));
    Ok(())
}

#[test]
fn a_number_out_of_range_is_refused(rt: HostRuntime) -> Result<(), AllocError> {
    for (number, want) in [
        (127, Ok(127)),
        (-128, Ok(-128)),
        (128, Err(DeError::InvalidValue)),
        (-129, Err(DeError::InvalidValue)),
    ] {
        let node = Node::int(Whole::from_i128(number));
        let doc = Doc::from_node(rt.alloc(), &node)?;
        match read::<i8>(rt.alloc(), doc.view(), Mode::plain(WireKind::Json))? {
            Ok(value) => assert!(rt; want == Ok(value)),
            Err(refusal) => assert!(rt; want == Err(refusal.error)),
        }
    }
    Ok(())
}

/// A document of that text.
fn a_text(alloc: Global, text: &str) -> Result<Doc<'static>, AllocError> {
    let mut builder = DocBuilder::new(alloc, b"".as_slice());
    builder.copied(text)?;
    Ok(builder.finish())
}

#[test]
fn a_key_spells_a_number_where_it_is_not_buffered(rt: HostRuntime) -> Result<(), AllocError> {
    let key = Mode::plain(WireKind::Json).key();
    let no_number = Err(DeError::InvalidType(Kind::Text));
    for (text, mode, want) in [
        ("5", key, Ok(5)),
        ("256", key, Err(DeError::InvalidValue)),
        ("-1", key, Err(DeError::InvalidValue)),
        ("+5", key, no_number),
        ("05", key, no_number),
        ("5", key.buffer(), no_number),
        ("5", key.value(), no_number),
        ("5", Mode::plain(WireKind::Compact).key(), no_number),
    ] {
        let doc = a_text(rt.alloc(), text)?;
        match read::<u8>(rt.alloc(), doc.view(), mode)? {
            Ok(value) => assert!(rt; want == Ok(value), "at {text}"),
            Err(refusal) => assert!(rt; want == Err(refusal.error), "at {text}"),
        }
    }
    Ok(())
}

#[test]
fn a_key_names_a_truth_value_where_it_is_not_buffered(rt: HostRuntime) -> Result<(), AllocError> {
    let key = Mode::plain(WireKind::Json).key();
    let no_truth = Err(DeError::InvalidType(Kind::Text));
    for (text, mode, want) in [
        ("true", key, Ok(true)),
        ("false", key, Ok(false)),
        ("1", key, no_truth),
        ("true", key.buffer(), no_truth),
        ("true", key.value(), no_truth),
    ] {
        let doc = a_text(rt.alloc(), text)?;
        match read::<bool>(rt.alloc(), doc.view(), mode)? {
            Ok(value) => assert!(rt; want == Ok(value), "at {text}"),
            Err(refusal) => assert!(rt; want == Err(refusal.error), "at {text}"),
        }
    }
    Ok(())
}

/// `{"5":[true]}`
fn a_map(alloc: Global) -> Result<Doc<'static>, AllocError> {
    let mut builder = DocBuilder::new(alloc, b"".as_slice());
    builder.open_map()?;
    builder.copied("5")?;
    builder.open_list()?;
    builder.bool(true)?;
    builder.close()?;
    builder.close()?;
    Ok(builder.finish())
}

#[test]
fn a_node_of_another_kind_is_refused_at_its_place(rt: HostRuntime) -> Result<(), AllocError> {
    let doc = a_map(rt.alloc())?;
    let mode = Mode::plain(WireKind::Json);
    let map = DeError::InvalidType(Kind::Map);
    assert!(rt;
        matches!(read::<u8>(rt.alloc(), doc.view(), mode)?, Err(refusal) if refusal.error == map)
    );
    assert!(rt;
        matches!(read::<()>(rt.alloc(), doc.view(), mode)?, Err(refusal) if refusal.error == map)
    );
    assert!(rt;
        matches!(read::<char>(rt.alloc(), doc.view(), mode)?, Err(refusal) if refusal.error == map)
    );
    let Some(entries) = doc.view().entries() else {
        return Err(AllocError);
    };
    for (key, value) in entries {
        let refusal = Refusal {
            error: DeError::InvalidType(Kind::Text),
            place: 1,
        };
        assert!(rt; read::<u8>(rt.alloc(), key, mode.key())? == Ok(5));
        assert!(rt; read::<u8>(rt.alloc(), key, mode.key().buffer())? == Err(refusal));
        assert!(rt;
            matches!(read::<bool>(rt.alloc(), value, mode)?, Err(refusal) if refusal.place == 2)
        );
    }
    Ok(())
}

/// `{"a":[x]}` with that leaf.
fn nested(alloc: Global, leaf: Node) -> Result<Option<Node>, AllocError> {
    let mut items = Vec::new(alloc);
    items.push(leaf)?;
    let Ok(list) = Node::list(items) else {
        return Ok(None);
    };
    let mut pairs = Vec::new(alloc);
    pairs.push((Node::text(String::from_str(alloc, "a")?), list))?;
    match Node::map(pairs) {
        Ok(map) => Ok(Some(map)),
        Err(_) => Ok(None),
    }
}

/// Why a tree isn't read as `Any`.
fn foreign_to_any(alloc: Global, node: &Node) -> Result<Option<Refusal>, AllocError> {
    let doc = Doc::from_node(alloc, node)?;
    match read::<Any>(alloc, doc.view(), Mode::plain(WireKind::Json))? {
        Ok(_) => Ok(None),
        Err(refusal) => Ok(Some(refusal)),
    }
}

#[test]
fn any_holds_what_json_says(rt: HostRuntime) -> Result<(), AllocError> {
    let Some(tree) = nested(rt.alloc(), Node::bool(true))? else {
        return Err(AllocError);
    };
    let Ok(any) = Any::new(tree) else {
        return Err(AllocError);
    };
    assert!(rt; any.node().kind() == Kind::Map);
    assert!(rt; read_again(rt.alloc(), any).is_some());
    Ok(())
}

#[test]
fn any_holds_no_byte_string(rt: HostRuntime) -> Result<(), AllocError> {
    let Some(tree) = nested(rt.alloc(), Node::bytes(Vec::new(rt.alloc())))? else {
        return Err(AllocError);
    };
    let refusal = Refusal {
        error: DeError::InvalidType(Kind::Bytes),
        place: 3,
    };
    assert!(rt; foreign_to_any(rt.alloc(), &tree)? == Some(refusal));
    assert!(rt; Any::new(tree).is_err());
    Ok(())
}

/// A type's facts by its own bound.
fn facts_of<T: Element>() -> Facts {
    T::facts()
}

/// What is known of numbers and truth values.
fn known_by_keys(kind: Kind) -> Facts {
    Facts {
        claims: Claims {
            value: true,
            buffered_value: true,
            key: true,
            buffered_key: false,
            compact: true,
        },
        written: Kinds::one(kind),
        read_value: Kinds::one(kind),
        read_key: Kinds::one(Kind::Text).with(kind),
        read_buffered_key: Kinds::one(kind),
        grade: Grade::Exact,
    }
}

/// What is known of types that read what they write, as a key of JSON too or not.
fn known_by_kinds(kinds: Kinds, keys: bool) -> Facts {
    Facts {
        claims: Claims {
            value: true,
            buffered_value: true,
            key: keys,
            buffered_key: keys,
            compact: true,
        },
        written: kinds,
        read_value: kinds,
        read_key: kinds,
        read_buffered_key: kinds,
        grade: Grade::Exact,
    }
}

#[test]
fn each_type_names_its_facts(rt: HostRuntime) {
    let number = known_by_keys(Kind::Int);
    let text = known_by_kinds(Kinds::one(Kind::Text), true);
    let but_bytes = Kinds::one(Kind::Null)
        .with(Kind::Bool)
        .with(Kind::Int)
        .with(Kind::Text)
        .with(Kind::List)
        .with(Kind::Map);
    for (found, want) in [
        (facts_of::<u8>(), number),
        (facts_of::<u16>(), number),
        (facts_of::<u32>(), number),
        (facts_of::<u64>(), number),
        (facts_of::<u128>(), number),
        (facts_of::<usize>(), number),
        (facts_of::<i8>(), number),
        (facts_of::<i16>(), number),
        (facts_of::<i32>(), number),
        (facts_of::<i64>(), number),
        (facts_of::<i128>(), number),
        (facts_of::<isize>(), number),
        (facts_of::<bool>(), known_by_keys(Kind::Bool)),
        (facts_of::<char>(), text),
        (facts_of::<String>(), text),
        (
            facts_of::<()>(),
            known_by_kinds(Kinds::one(Kind::Null), false),
        ),
        (facts_of::<Any>(), known_by_kinds(but_bytes, false)),
    ] {
        assert!(rt; found == want);
    }
}

/// A type's class by its own bound.
fn class_of<T: TextForm>() -> TextClass {
    T::class()
}

#[test]
fn each_text_form_names_its_class(rt: HostRuntime) {
    let digits = 0x03ff_0000_0000_0000;
    let signed = 0x03ff_2000_0000_0000;
    let letters = 0x003c_1062_0000_0000_0000_0000_0000_0000;
    for (found, never_empty, ascii, other) in [
        (class_of::<u8>(), true, digits, false),
        (class_of::<u16>(), true, digits, false),
        (class_of::<u32>(), true, digits, false),
        (class_of::<u64>(), true, digits, false),
        (class_of::<u128>(), true, digits, false),
        (class_of::<usize>(), true, digits, false),
        (class_of::<i8>(), true, signed, false),
        (class_of::<i16>(), true, signed, false),
        (class_of::<i32>(), true, signed, false),
        (class_of::<i64>(), true, signed, false),
        (class_of::<i128>(), true, signed, false),
        (class_of::<isize>(), true, signed, false),
        (class_of::<bool>(), true, letters, false),
        (class_of::<char>(), true, u128::MAX, true),
        (class_of::<String>(), false, u128::MAX, true),
    ] {
        let want = TextClass {
            never_empty,
            ascii,
            other,
        };
        assert!(rt; found == want);
    }
}

#[test]
fn what_is_copied_takes_memory(rt: HostRuntime) {
    assert!(rt; are_leaves_free());
    assert!(rt; !are_copies_free());
    assert!(rt; are_parsed_free());
    assert!(rt; !is_parsed_text_free());
}

/// The document of that number alone.
fn number_alone(alloc: Global, number: Whole) -> Result<Doc<'static>, AllocError> {
    let mut builder = DocBuilder::new(alloc, b"".as_slice());
    builder.int(number)?;
    Ok(builder.finish())
}

#[test]
fn every_whole_number_is_read(rt: HostRuntime) -> Result<(), AllocError> {
    let most = Whole::from_u128(u128::MAX);
    let doc = number_alone(rt.alloc(), most)?;
    assert!(rt;
        matches!(whole_at(doc.view(), Mode::plain(WireKind::Json)), Ok(number) if number == most)
    );
    Ok(())
}

#[test]
fn facts_are_made_of_kinds(rt: HostRuntime) {
    let number_or_text = Kinds::one(Kind::Int).with(Kind::Text);
    assert!(rt; only(Kind::Text) == Kinds::one(Kind::Text));
    assert!(rt; either(Kind::Int, Kind::Text) == number_or_text);
    assert!(rt; with(only(Kind::Int), Kind::Text) == number_or_text);
    assert!(rt; keyed(Kind::Int, Grade::Exact) == known_by_keys(Kind::Int));
    let text = known_by_kinds(Kinds::one(Kind::Text), true);
    assert!(rt; everywhere(only(Kind::Text), stands(true, true)) == text);
    let told_apart = told(
        only(Kind::Int),
        number_or_text,
        stands(true, true),
        Grade::Rounded,
    );
    assert!(rt; told_apart.written == Kinds::one(Kind::Int));
    assert!(rt; told_apart.read_key == number_or_text);
    assert!(rt; told_apart.grade == Grade::Rounded);
}
