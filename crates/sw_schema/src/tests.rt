use crate::part::Part;
use crate::same::same;
use crate::{
    FieldList, JsonSchema, Pattern, SchemaField, SchemaForm, SchemaList, SchemaTree, ToNodeFail,
    valid,
};
use std::alloc::{AllocError, Global};
use sw_elem::any::Any;
use sw_tree::{Builds, Node, NodeBuilder, SerFail, Whole, key_number};

/// Puts in what a word says.
fn put(out: &mut NodeBuilder, word: &str) -> Result<(), SerFail> {
    if let Some(text) = word.strip_prefix('\'') {
        return out.text(text);
    }
    if let Some(number) = key_number(word) {
        return out.int(number);
    }
    match word {
        "true" => out.bool(true),
        "false" => out.bool(false),
        "[" => out.open_list(0),
        "{" => out.open_map(0),
        "]" | "}" => out.close(),
        "bytes" => out.bytes(word.as_bytes()),
        _ => out.null(),
    }
}

/// The tree of these words; a text has a quotation mark before it.
fn tree(alloc: Global, words: &str) -> Option<Node> {
    let mut out = NodeBuilder::new(alloc);
    for word in words.split(' ') {
        if put(&mut out, word).is_err() {
            return None;
        }
    }
    out.finish()
}

fn natural(number: u128) -> Option<Whole> {
    Some(Whole::from_u128(number))
}

/// The schema of that name that has no parts.
fn leaf(word: &str) -> Option<SchemaTree> {
    Some(match word {
        "any" => SchemaTree::any(),
        "null" => SchemaTree::null(),
        "boolean" => SchemaTree::boolean(),
        "integer" => SchemaTree::integer(None, None),
        "1..3" => SchemaTree::integer(natural(1), natural(3)),
        "3.." => SchemaTree::integer(natural(3), None),
        "..3" => SchemaTree::integer(None, natural(3)),
        "u32" => SchemaTree::integer(natural(0), natural(4294967295)),
        "number" => SchemaTree::number(natural(1), false),
        "written_number" => SchemaTree::number(None, true),
        "text" => SchemaTree::text(None, false, false),
        "hex" => SchemaTree::text(Some(Pattern::Hex), false, false),
        "time" => SchemaTree::text(Some(Pattern::Time), false, false),
        "signed_time" => SchemaTree::text(Some(Pattern::SignedTime), false, true),
        "base64" => SchemaTree::text(None, true, true),
        _ => return None,
    })
}

/// The schema of that name around a part.
fn around(alloc: Global, word: &str, part: SchemaTree) -> Result<SchemaTree, AllocError> {
    match word {
        "array" => SchemaTree::array(alloc, part, None, None, false),
        "three" => SchemaTree::array(alloc, part, Some(3), Some(3), false),
        "set" => SchemaTree::array(alloc, part, None, None, true),
        "object" => SchemaTree::object(alloc, part),
        _ => SchemaTree::write_only(alloc, part),
    }
}

fn is_around(word: &str) -> bool {
    matches!(word, "array" | "three" | "set" | "object" | "write_only")
}

/// The parts in a row.
fn row(alloc: Global, parts: Vec<SchemaTree>) -> Result<SchemaList, AllocError> {
    let mut list = SchemaList::new(alloc);
    for part in parts {
        list.push(part)?;
    }
    Ok(list)
}

/// Fields of these schemas, the first named `a` and required.
fn fields(alloc: Global, other: &str, parts: Vec<SchemaTree>) -> Result<SchemaTree, AllocError> {
    let mut list = FieldList::new(alloc);
    let mut first = true;
    for part in parts {
        let name = String::from_str(alloc, if first { "a" } else { other })?;
        list.push(SchemaField::new(name, part, first))?;
        first = false;
    }
    Ok(SchemaTree::fields(list))
}

/// The schema of that name over these parts.
fn over(alloc: Global, word: &str, parts: Vec<SchemaTree>) -> Result<SchemaTree, AllocError> {
    match word {
        "tuple" => Ok(SchemaTree::tuple(row(alloc, parts)?)),
        "any_of" => Ok(SchemaTree::any_of(row(alloc, parts)?)),
        "one_of" => Ok(SchemaTree::one_of(row(alloc, parts)?)),
        "twice" => fields(alloc, "a", parts),
        _ => fields(alloc, "b", parts),
    }
}

/// Puts the schema of that name in place of its parts.
fn apply(alloc: Global, parts: Vec<SchemaTree>, word: &str) -> Result<Vec<SchemaTree>, AllocError> {
    let mut parts = parts;
    if let Some(name) = word.strip_prefix('\'') {
        parts.push(SchemaTree::constant(String::from_str(alloc, name)?))?;
        return Ok(parts);
    }
    if let Some(schema) = leaf(word) {
        parts.push(schema)?;
        return Ok(parts);
    }
    if is_around(word) {
        if let Some(part) = parts.pop() {
            parts.push(around(alloc, word, part)?)?;
        }
        return Ok(parts);
    }
    let whole = over(alloc, word, parts)?;
    let mut one = Vec::new(alloc);
    one.push(whole)?;
    Ok(one)
}

/// The schema of these names, each after its parts.
fn schema(alloc: Global, words: &str) -> Result<Option<SchemaTree>, AllocError> {
    let mut parts = Vec::new(alloc);
    for word in words.split(' ') {
        parts = apply(alloc, parts, word)?;
    }
    Ok(parts.pop())
}

/// Whether the tree, by itself and as a document, is valid or not, as wanted.
fn answers(
    alloc: Global,
    schema_words: &str,
    tree_words: &str,
    wanted: bool,
) -> Result<bool, AllocError> {
    let Some(schema) = schema(alloc, schema_words)? else {
        return Ok(false);
    };
    let Some(node) = tree(alloc, tree_words) else {
        return Ok(false);
    };
    let kept = node.copy(alloc)?;
    Ok(valid(&schema, &node) == wanted && valid(&schema, &kept) == wanted)
}

#[test]
fn each_form_takes_its_trees(rt: HostRuntime) {
    for (schema, tree, wanted) in [
        ("any", "null", true),
        ("any", "bytes", true),
        ("null", "null", true),
        ("null", "false", false),
        ("null", "bytes", false),
        ("boolean", "false", true),
        ("boolean", "null", false),
        ("boolean", "'true", false),
        ("integer", "-170141183460469231731687303715884105728", true),
        ("integer", "bytes", false),
        ("integer", "'1", false),
        ("1..3", "0", false),
        ("1..3", "1", true),
        ("1..3", "3", true),
        ("1..3", "4", false),
        ("3..", "2", false),
        ("3..", "340282366920938463463374607431768211455", true),
        ("..3", "-1", true),
        ("..3", "4", false),
        ("number", "0", false),
        ("number", "1", true),
        ("number", "'1", false),
        ("written_number", "0", true),
        ("written_number", "null", false),
        ("text", "'", true),
        ("text", "1", false),
        ("text", "bytes", false),
        ("base64", "'!", true),
        ("'a", "'a", true),
        ("'a", "'ab", false),
        ("'a", "'", false),
        ("'a", "null", false),
        ("1..3 array", "[ ]", true),
        ("1..3 array", "[ 1 3 ]", true),
        ("1..3 array", "[ 1 4 ]", false),
        ("1..3 array", "{ }", false),
        ("any array", "bytes", false),
        ("u32 three", "[ 1 2 ]", false),
        ("u32 three", "[ 1 2 3 ]", true),
        ("u32 three", "[ 1 2 4294967296 ]", false),
        ("u32 three", "[ 1 2 3 4 ]", false),
        ("any set", "[ 0 false null ' ]", true),
        ("any set", "[ 1 2 1 ]", false),
        ("any set", "[ { 'a 1 'b 2 } { 'b 2 'a 1 } ]", true),
        ("any set", "[ { 'a 1 'b 2 } { 'a 1 'b 2 } ]", false),
        ("any set", "[ [ 1 ] [ 1 2 ] [ ] ]", true),
        ("any set", "[ [ 1 ] [ 1 ] ]", false),
        ("any set", "[ bytes 'bytes ]", true),
        ("any set", "[ bytes bytes ]", false),
        ("any set", "{ }", false),
        ("1..3 text tuple", "[ 1 'a ]", true),
        ("1..3 text tuple", "[ 'a 1 ]", false),
        ("1..3 text tuple", "[ 1 ]", false),
        ("1..3 text tuple", "[ 1 'a 'a ]", false),
        ("any any tuple", "{ 1 2 }", false),
        ("1..3 object", "{ 'a 1 2 3 }", true),
        ("1..3 object", "{ 'a 1 'b 4 }", false),
        ("any object", "[ ]", false),
        ("1..3 text fields", "{ 'a 1 }", true),
        ("1..3 text fields", "{ 'c null 'b 'x 'a 1 }", true),
        ("1..3 text fields", "{ 'b 'x }", false),
        ("1..3 text fields", "{ 1 1 }", false),
        ("1..3 text fields", "{ 'a 1 'b 1 }", false),
        ("1..3 text fields", "{ 'a 1 'a 2 }", true),
        ("1..3 text fields", "{ 'a 1 'a 4 }", false),
        ("any text fields", "[ 'a ]", false),
        ("..3 3.. twice", "{ 'a 3 }", true),
        ("..3 3.. twice", "{ 'a 2 }", false),
        ("..3 3.. twice", "{ 'a 4 }", false),
        ("1..3 3.. any_of", "2", true),
        ("1..3 3.. any_of", "3", true),
        ("1..3 3.. any_of", "0", false),
        ("null any any_of", "bytes", true),
        ("1..3 3.. one_of", "2", true),
        ("1..3 3.. one_of", "3", false),
        ("1..3 3.. one_of", "4", true),
        ("1..3 3.. one_of", "0", false),
        ("any any any one_of", "null", false),
        ("1..3 write_only", "2", true),
        ("1..3 write_only", "4", false),
        ("any write_only", "bytes", true),
    ] {
        let answer = answers(rt.alloc(), schema, tree, wanted);
        assert!(rt; matches!(answer, Ok(true)), "{schema}: {tree}");
    }
}

#[test]
fn each_pattern_matches_its_texts(rt: HostRuntime) {
    for (schema, text, wanted) in [
        ("hex", "'", true),
        ("hex", "'09afAF", true),
        ("hex", "'0", false),
        ("hex", "'0g", false),
        ("hex", "'/0", false),
        ("time", "'01", true),
        ("time", "'1.5", true),
        ("time", "'1e3", true),
        ("time", "'1.5E+30", true),
        ("time", "'10.05e-3", true),
        ("time", "'", false),
        ("time", "'-1", false),
        ("time", "'+1", false),
        ("time", "'1.", false),
        ("time", "'.5", false),
        ("time", "'1e", false),
        ("time", "'1e+", false),
        ("time", "'1.e3", false),
        ("time", "'1e3.5", false),
        ("time", "'1.5.5", false),
        ("time", "'1x", false),
        ("signed_time", "'-1.5e3", true),
        ("signed_time", "'1", true),
        ("signed_time", "'-", false),
        ("signed_time", "'--1", false),
        ("signed_time", "'", false),
        ("signed_time", "1", false),
    ] {
        let answer = answers(rt.alloc(), schema, text, wanted);
        assert!(rt; matches!(answer, Ok(true)), "{schema}: {text}");
    }
}

fn form_name(schema: &SchemaTree) -> &'static str {
    match schema.form() {
        SchemaForm::Any => "Any",
        SchemaForm::Null => "Null",
        SchemaForm::Boolean => "Boolean",
        SchemaForm::Integer { .. } => "Integer",
        SchemaForm::Number { .. } => "Number",
        SchemaForm::Text { .. } => "Text",
        SchemaForm::Const(_) => "Const",
        SchemaForm::Array { .. } => "Array",
        SchemaForm::Tuple(_) => "Tuple",
        SchemaForm::Object { .. } => "Object",
        SchemaForm::Fields(_) => "Fields",
        SchemaForm::AnyOf(_) => "AnyOf",
        SchemaForm::OneOf(_) => "OneOf",
        SchemaForm::WriteOnly(_) => "WriteOnly",
    }
}

/// Whether the schema and a copy of it have that form and that tree.
fn is_shown(
    alloc: Global,
    schema_words: &str,
    form: &str,
    tree_words: &str,
) -> Result<bool, ToNodeFail> {
    let Some(schema) = schema(alloc, schema_words)? else {
        return Ok(false);
    };
    let Some(wanted) = tree(alloc, tree_words) else {
        return Ok(false);
    };
    let copy = schema.copy(alloc)?;
    let node = schema.to_node(alloc)?;
    let again = copy.to_node(alloc)?;
    Ok(
        form_name(&schema) == form
            && form_name(&copy) == form
            && same(Part::Node(&node), Part::Node(&wanted))
            && same(Part::Node(&again), Part::Node(&wanted)),
    )
}

#[test]
fn each_form_has_its_tree(rt: HostRuntime) {
    for (schema, form, tree) in [
        ("any", "Any", "true"),
        ("null", "Null", "{ 'type 'null }"),
        ("boolean", "Boolean", "{ 'type 'boolean }"),
        ("integer", "Integer", "{ 'type 'integer }"),
        (
            "1..3",
            "Integer",
            "{ 'type 'integer 'minimum 1 'maximum 3 }",
        ),
        ("3..", "Integer", "{ 'type 'integer 'minimum 3 }"),
        ("..3", "Integer", "{ 'type 'integer 'maximum 3 }"),
        ("number", "Number", "{ 'type 'number 'minimum 1 }"),
        (
            "written_number",
            "Number",
            "{ 'type 'number 'writeOnly true }",
        ),
        ("text", "Text", "{ 'type 'string }"),
        (
            "hex",
            "Text",
            "{ 'type 'string 'pattern '^(?:[0-9A-Fa-f]{2})*$ }",
        ),
        (
            "time",
            "Text",
            "{ 'type 'string 'pattern '^[0-9]+(\\.[0-9]+)?([eE][+-]?[0-9]+)?$ }",
        ),
        (
            "signed_time",
            "Text",
            "{ 'type 'string 'pattern '^-?[0-9]+(\\.[0-9]+)?([eE][+-]?[0-9]+)?$ 'writeOnly true }",
        ),
        (
            "base64",
            "Text",
            "{ 'type 'string 'contentEncoding 'base64 'writeOnly true }",
        ),
        ("'a", "Const", "{ 'type 'string 'const 'a }"),
        (
            "null array",
            "Array",
            "{ 'type 'array 'items { 'type 'null } }",
        ),
        (
            "any three",
            "Array",
            "{ 'type 'array 'items true 'minItems 3 'maxItems 3 }",
        ),
        (
            "any set",
            "Array",
            "{ 'type 'array 'items true 'uniqueItems true }",
        ),
        (
            "any null tuple",
            "Tuple",
            "{ 'type 'array 'prefixItems [ true { 'type 'null } ] 'minItems 2 'maxItems 2 }",
        ),
        (
            "any object",
            "Object",
            "{ 'type 'object 'additionalProperties true }",
        ),
        (
            "null any fields",
            "Fields",
            "{ 'type 'object 'properties { 'a { 'type 'null } 'b true } 'required [ 'a ] }",
        ),
        (
            "any null any_of",
            "AnyOf",
            "{ 'anyOf [ true { 'type 'null } ] }",
        ),
        (
            "any null one_of",
            "OneOf",
            "{ 'oneOf [ true { 'type 'null } ] }",
        ),
        (
            "null write_only",
            "WriteOnly",
            "{ 'writeOnly true 'allOf [ { 'type 'null } ] }",
        ),
    ] {
        let answer = is_shown(rt.alloc(), schema, form, tree);
        assert!(rt; matches!(answer, Ok(true)), "{schema}");
    }
}

/// Arrays of arrays, so many, of all trees.
fn nested(alloc: Global, arrays: usize) -> Result<SchemaTree, AllocError> {
    let mut schema = SchemaTree::any();
    for _ in 0..arrays {
        schema = around(alloc, "array", schema)?;
    }
    Ok(schema)
}

/// How deep the tree of so many arrays is, or why there is none.
fn nested_depth(alloc: Global, arrays: usize) -> Result<u8, ToNodeFail> {
    Ok(nested(alloc, arrays)?.to_node(alloc)?.depth())
}

#[test]
fn a_schemas_tree_has_at_most_128_levels(rt: HostRuntime) {
    assert!(rt; matches!(nested_depth(rt.alloc(), 128), Ok(128)));
    assert!(rt; matches!(nested_depth(rt.alloc(), 129), Err(ToNodeFail::TooDeep)));
}

/// Whether the tree is valid for the schema.
fn takes(alloc: Global, schema: &SchemaTree, words: &str) -> bool {
    match tree(alloc, words) {
        Some(node) => valid(schema, &node),
        None => false,
    }
}

/// Whether the type publishes a schema inline, with that name as its id too.
fn is_named<T: JsonSchema>(alloc: Global, name: &str) -> Result<bool, AllocError> {
    let found = T::schema_name(alloc)?;
    let id = T::schema_id(alloc)?;
    Ok(T::inline_schema() && found.as_str() == name && id.as_str() == name)
}

/// Whether the type publishes a schema under that name, for which the first two trees are valid, and the last is not.
fn publishes<T: JsonSchema>(
    alloc: Global,
    name: &str,
    least: &str,
    most: &str,
    refused: &str,
) -> Result<bool, AllocError> {
    let schema = T::json_schema(alloc)?;
    let is_valid = takes(alloc, &schema, least) && takes(alloc, &schema, most);
    Ok(is_named::<T>(alloc, name)? && is_valid && !takes(alloc, &schema, refused))
}

#[test]
fn each_element_publishes_its_schema(rt: HostRuntime) -> Result<(), AllocError> {
    let a = rt.alloc();
    let whole = "340282366920938463463374607431768211455";
    let low = "-170141183460469231731687303715884105728";
    let high = "170141183460469231731687303715884105727";
    let long = "18446744073709551615";
    let least = "-9223372036854775808";
    let most = "9223372036854775807";
    assert!(rt; publishes::<u8>(a, "uint8", "0", "255", "256")?);
    assert!(rt; publishes::<u16>(a, "uint16", "0", "65535", "65536")?);
    assert!(rt; publishes::<u32>(a, "uint32", "0", "4294967295", "4294967296")?);
    assert!(rt; publishes::<u64>(a, "uint64", "0", long, "18446744073709551616")?);
    assert!(rt; publishes::<u128>(a, "uint128", "0", whole, "-1")?);
    assert!(rt; publishes::<usize>(a, "uint", "0", long, "-1")?);
    assert!(rt; publishes::<i8>(a, "int8", "-128", "127", "128")?);
    assert!(rt; publishes::<i16>(a, "int16", "-32768", "32767", "-32769")?);
    assert!(rt; publishes::<i32>(a, "int32", "-2147483648", "2147483647", "2147483648")?);
    assert!(rt; publishes::<i64>(a, "int64", least, most, "-9223372036854775809")?);
    assert!(rt; publishes::<i128>(a, "int128", low, high, whole)?);
    assert!(rt; publishes::<isize>(a, "int", least, most, "9223372036854775808")?);
    assert!(rt; publishes::<bool>(a, "boolean", "true", "false", "null")?);
    assert!(rt; publishes::<()>(a, "null", "null", "null", "false")?);
    assert!(rt; publishes::<char>(a, "string", "'a", "'", "1")?);
    assert!(rt; publishes::<String>(a, "string", "'", "'abc", "[ ]")?);
    assert!(rt; is_named::<Any>(a, "AnyValue")? && takes(a, &Any::json_schema(a)?, "[ { } ]"));
    Ok(())
}
